//! The floor of a plan.

/// The points (x, y) with x below the width and y below the height.
#[derive(Clone, Copy)]
pub struct Floor {
    pub width: u16,
    pub height: u16,
}
