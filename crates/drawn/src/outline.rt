//! A place that is drawn as a closed ring of corners.

ghost use Rattle.std.specs.Prelude.{◌≤◌};

use point::Point;

/// A type, and the corners of a closed ring, sixteen at most.
// Not one type with a set of cells: what a make of place is must stand in its own crate, where its `Shape` is said.
// An array and its count, no ArrayVec: an outline can be copied, and an ArrayVec cannot.
#[derive(Clone, Copy)]
pub struct Outline {
    pub(crate) ty: u8,
    pub(crate) count: usize,
    pub(crate) corners: [Point; 16],
    ghost within: { count ≤ 16 },
}
