//! A place that is a set of cells.

ghost use Rattle.std.specs.Prelude.{◌≤◌};

/// A type and the rows of cells from row 0 on, sixteen at most: bit k of a row is the cell in column k.
// Not one type with an outline: what a make of place is must stand in its own crate, where its `Shape` is said.
// An array and its count, no ArrayVec: a set of cells can be copied, and an ArrayVec cannot.
#[derive(Clone, Copy)]
pub struct CellSet {
    pub(crate) ty: u8,
    pub(crate) count: usize,
    pub(crate) rows: [u16; 16],
    ghost within: { count ≤ 16 },
}
