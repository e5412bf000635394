//! Why a text is refused.

ghost use Rattle.std.specs.Prelude.{Some};
ghost use Rattle.plantext.specs.Reasons.{spoken};

use std::fmt;

#[derive(Clone, Copy, Debug, Eq, PartialEq)]
pub enum Reason {
    /// A word stands before any section line.
    NoSection,
    /// A section line stands where its section may not open.
    SectionOutOfPlace,
    /// A byte of a word is no hexadecimal digit.
    BadDigit,
    /// A word has more than eight bytes.
    LongWord,
    /// The text has no section line.
    MissingSection,
    /// The page has no room for a text of this length.
    NoRoom,
}

/// A reason, and the line that it is found on, counted from 1; line 0 is the text as a whole.
#[derive(Clone, Copy, Debug, Eq, PartialEq)]
pub struct TextFault {
    pub line: usize,
    pub reason: Reason,
}

impl fmt::Display for Reason {
    ghost output = { λ r. Some (spoken r) };

    fn fmt<W: fmt::Write>(&self, f: &mut fmt::Formatter<W>) -> fmt::Result {
        f.write_str(match self {
            Reason::NoSection => "a word stands before any section line",
            Reason::SectionOutOfPlace =>
                "section out of place: first drawn or cells, then zones up to twice, then policy",
            Reason::BadDigit => "a word has a character that is no hexadecimal digit",
            Reason::LongWord => "a word has more than eight characters; only spaces separate words",
            Reason::MissingSection => "no section line: drawn or cells is wanted",
            Reason::NoRoom => "no room for a text of this length",
        })
    }
}
