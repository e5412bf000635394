//! What was read of a list so far.

use super::sheet::Sheet;
use arrayvec::ArrayVec;

pub mod reading;

ghost use Rattle.std.specs.Prelude.{◌+◌, ◌≤◌, length};
ghost use Rattle.plan.specs.Hall.{most_places};
ghost use Rattle.listed.specs.Waiting.{due, least, waiting};

/// What may stand next in the list.
#[derive(Clone, Copy)]
pub enum Next {
    /// The floor word.
    Front,
    /// A place's head, or the end.
    Head,
    /// One of the words that a place still owes; those that were read stand in the draft's body.
    Body { head: u32, owed: usize },
}

/// The floor and the places read so far, and the place that is being read.
#[derive(Drop)]
pub struct Draft<S> {
    sheet: Sheet<S>,
    next: Next,
    // Beside `next` and not in it: an ArrayVec is not Copy, as `Next` is.
    body: ArrayVec<u32, 16>,
    ghost few: { length sheet.places.records.items + waiting next ≤ most_places },
    ghost short: { due next body.items ≤ 16 },
    ghost owing: { 1 ≤ least next },
}
