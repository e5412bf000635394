//! A shelf: records in the order in which they were put.

pub mod keeping;

ghost use Rattle.std.specs.Prelude.{◌≤◌, vec_len, vec_capacity};

/// Records, `MOST` at the most, with the memory for as many.
#[derive(Drop)]
pub struct Shelf<R, const MOST: usize> {
    records: Vec<R>,
    ghost room: { MOST ≤ vec_capacity records },
    ghost few: { vec_len records ≤ MOST },
}
