//! Why a list of words is refused.

ghost use Rattle.std.specs.Prelude.{◌≡◌, Some};
ghost use Rattle.wordlist.specs.Faults.{said, told as told_of};
ghost use Rattle.wordlist.specs.declared.faults.RecordFault.TheVariants.{Word as InRecord};

use std::error::Error;
use std::fmt;

/// A fault of the words themselves.
#[derive(Clone, Copy, Debug, PartialEq, Eq)]
pub enum WordFault {
    /// The list ends before its front word or inside a place.
    Short { length: usize },
    /// A word of a kind that this list does not have.
    Foreign { index: usize },
}

/// A fault of a record, or of a word under it.
#[derive(Clone, Copy, Debug, PartialEq, Eq)]
pub enum RecordFault {
    Word(WordFault),
    /// A word that may not stand there, or a key that does not rise.
    OutOfTurn { index: usize },
    /// A limit is passed.
    Full { index: usize },
    /// An unnamed bit is set, a number is out of range, or a reference is not to an earlier record.
    BadField { index: usize },
}

impl From<WordFault> for RecordFault {
    ghost from_gives = { λ e r. r ≡ InRecord e };

    fn from(e: WordFault) -> RecordFault {
        RecordFault::Word(e)
    }
}

/// What a fault says of itself: its number, its layer and up to three figures, the rest zero.
// Numbers, since these are what is printed; the fault itself is the enum.
#[derive(Clone, Copy, Debug, PartialEq, Eq)]
pub struct Told {
    pub number: u8,
    pub layer: u8,
    pub figures: [usize; 3],
}

impl RecordFault {
    /// The fault's number, layer and figures.
    pub fn told(&self) -> Told
        ensures { result ≡ told_of self.now }
    {
        let (number, layer, figures) = match *self {
            RecordFault::Word(WordFault::Short { length }) => (20, 1, [length, 0, 0]),
            RecordFault::Word(WordFault::Foreign { index }) => (21, 1, [index, 0, 0]),
            RecordFault::OutOfTurn { index } => (22, 2, [index, 0, 0]),
            RecordFault::Full { index } => (23, 2, [index, 0, 0]),
            RecordFault::BadField { index } => (24, 2, [index, 0, 0]),
        };
        Told {
            number,
            layer,
            figures,
        }
    }
}

/// The fault in words.
impl fmt::Display for RecordFault {
    ghost output = { λ f. Some (said f) };

    fn fmt<W: fmt::Write>(&self, f: &mut fmt::Formatter<W>) -> fmt::Result {
        f.write_str(match self {
            RecordFault::Word(WordFault::Short { .. }) =>
                "the list ends before its front word or inside a place",
            RecordFault::Word(WordFault::Foreign { .. }) => "this list has no words of that kind",
            RecordFault::OutOfTurn { .. } =>
                "the word may not stand there, or its key does not rise",
            RecordFault::Full { .. } => "there are as many such records as there may be already",
            RecordFault::BadField { .. } => "a field is bad",
        })
    }
}

impl Error for RecordFault {}
