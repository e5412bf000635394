//! Points of a floor, in two coordinates.
#![tactic(auto)]

/// A point: `x` from side to side, `y` from top to bottom.
#[derive(Clone, Copy, Debug, Default, Eq, PartialEq)]
pub struct Point {
    pub x: u16,
    pub y: u16,
}
