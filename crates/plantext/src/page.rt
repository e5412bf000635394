//! What a text gives: its sections in order, and their words.

ghost use Rattle.std.specs.Prelude.{◌≤◌, vec_capacity};

pub mod reading;

/// The names that a section line may have.
#[derive(Clone, Copy, Debug, Eq, PartialEq)]
pub enum Heading {
    Drawn,
    Cells,
    Zones,
    Policy,
}

/// A section: its words are those from `first` on, up to the next section's first.
// an index and no list of its own: all memory is taken when the page is made
#[derive(Clone, Copy)]
struct Section {
    heading: Heading,
    first: usize,
}

/// The sections of a text and the words of all of them.
#[derive(Drop)]
pub struct Page {
    sections: Vec<Section>,
    words: Vec<u32>,
    ghost most: { 4 ≤ vec_capacity sections },
}
