//! The kinds of words.

ghost use Rattle.std.specs.Prelude.{◌≡◌};
ghost use Rattle.wordlist.specs.Fields.{kind_of};
ghost use Rattle.wordlist.specs.Kinds.{kind_named, number_of};

use super::fields::kind;

/// The kind of a word, by the number in its four highest bits.
#[derive(Clone, Copy, Debug, PartialEq, Eq, PartialOrd, Ord)]
pub enum Kind {
    Floor = 1,
    Ring = 2,
    Corner = 3,
    Cells = 4,
    Row = 5,
    Zone = 6,
    Badges = 7,
    Schema = 8,
    Parent = 9,
    Role = 10,
    SchemaPermission = 11,
    RolePermission = 12,
    Assignment = 13,
}

impl Kind {
    /// The kind of a word, if its number names one.
    // No TryFrom: a word without a kind is no fault yet.
    pub fn of(word: u32) -> Option<Kind>
        ensures { result ≡ kind_named (kind_of word) }
    {
        match kind(word) {
            1 => Some(Kind::Floor),
            2 => Some(Kind::Ring),
            3 => Some(Kind::Corner),
            4 => Some(Kind::Cells),
            5 => Some(Kind::Row),
            6 => Some(Kind::Zone),
            7 => Some(Kind::Badges),
            8 => Some(Kind::Schema),
            9 => Some(Kind::Parent),
            10 => Some(Kind::Role),
            11 => Some(Kind::SchemaPermission),
            12 => Some(Kind::RolePermission),
            13 => Some(Kind::Assignment),
            _ => None,
        }
    }

    /// The number that names the kind.
    // By its name, and no From: a number says nothing of what it numbers.
    pub fn number(self) -> u32
        ensures { result ≡ number_of self }
    {
        self as u32
    }
}
