//! A list of words, handed out one record at a time.

ghost use Rattle.std.specs.Prelude.{◌≡◌, ℕ, ◌+◌, ◌^◌, ◌<◌, ◌≤◌, ◌∷◌, length, take, drop};
ghost use Rattle.wordlist.specs.Cutting.{body_of, cut_at, index_of, shown, words_of};

use super::fields::bits;
use super::kinds::Kind;

/// A record as a part of the list: its head, the words that belong to it, and where the head stands.
#[derive(Clone, Copy)]
pub enum Record<'a> {
    Plain {
        index: usize,
        head: &'a u32,
    },
    Drawn {
        index: usize,
        head: &'a u32,
        corners: &'a [u32],
    },
    Cells {
        index: usize,
        head: &'a u32,
        rows: &'a [u32],
    },
}

impl<'a> Record<'a> {
    /// Where the head stands, the head, and the words that belong to it.
    pub(crate) fn parts(self) -> (usize, &'a u32, &'a [u32])
        ensures index { result.0 ≡ index_of (shown self.entry) }
        ensures words { result.1.now ∷ result.2.now ≡ words_of (shown self.entry) }
    {
        match self {
            Record::Plain { index, head } => (index, head, &[]),
            Record::Drawn {
                index,
                head,
                corners: body,
            }
            | Record::Cells {
                index,
                head,
                rows: body,
            } => (index, head, body),
        }
    }
}

/// The words that are left, and where the first of them stands in the list.
#[derive(Drop)]
pub struct Reader<'a> {
    left: &'a [u32],
    index: usize,
    ghost within: { index + length left.now < 2 ^ 64 },
}

/// How many words belong to a head.
pub fn body_of(head: u32) -> usize
    ensures { result ≡ body_of head }
{
    match Kind::of(head) {
        Some(Kind::Ring) => bits(head, 4, 5) as usize,
        Some(Kind::Cells) => 16,
        _ => 0,
    }
}

/// The first n words, or as many as there are, and the others.
fn parted<'a>(words: &'a [u32], n: usize) -> (&'a [u32], &'a [u32])
    ensures front { result.0.now ≡ take n words.now }
    ensures back { result.1.now ≡ drop n words.now }
    ensures all { length result.0.now + length result.1.now ≡ length words.now }
{
    words.split_at(n.min(words.len()))
}

/// The record of a head and the words that belong to it.
fn record_of<'a>(index: usize, head: &'a u32, body: &'a [u32]) -> Record<'a>
    ensures { shown result ≡ cut_at index head.now body.now }
{
    match Kind::of(*head) {
        Some(Kind::Ring) => Record::Drawn {
            index,
            head,
            corners: body,
        },
        Some(Kind::Cells) => Record::Cells {
            index,
            head,
            rows: body,
        },
        _ => Record::Plain { index, head },
    }
}

impl<'a> Reader<'a> {
    /// A reader at the front of a list.
    pub fn new(words: &'a [u32]) -> Reader<'a>
        ensures left { result.left.now ≡ words.now }
        ensures index { result.index ≡ 0 }
    {
        Reader {
            left: words,
            index: 0,
        }
    }
}

/// Hands out the next record, of which the last one may lack words.
impl<'a> Iterator for Reader<'a> {
    ghost use Rattle.std.specs.Prelude.{length};
    ghost use Rattle.std.specs.Iterator.{at_most};
    ghost use Rattle.wordlist.specs.Handing.{Hands};

    type Item = Record<'a>;

    ghost next_gives = { Hands };

    ghost remaining = { λ s. at_most (length s.left.now) };

    fn next(&mut self) -> Option<Record<'a>> {
        let [head, rest @ ..] = self.left else {
            return None;
        };
        let index = self.index;
        let (body, left) = parted(rest, body_of(*head));
        *self = Reader {
            left,
            index: index + 1 + body.len(),
        };
        Some(record_of(index, head, body))
    }
}
