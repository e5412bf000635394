//! The parts of a text: its lines, what stands before and after a byte, and the words of a line.

ghost use Rattle.std.specs.Prelude.{◌≡◌};
ghost use Rattle.std.specs.Iterator.{YieldsFirstRef, item_count};
ghost use Rattle.plantext.specs.Parts.{before, after, lines_of, words_of};

/// What stands before the first `stop`, and what stands after it.
pub(super) fn cut(bytes: &[u8], stop: u8) -> (&[u8], &[u8])
    ensures front { result.0.now ≡ before stop bytes.now }
    ensures back { result.1.now ≡ after stop bytes.now }
{
    match bytes.iter().position(|b| *b == stop) {
        Some(i) => (&bytes[..i], &bytes[i + 1..]),
        None => (bytes, &[]),
    }
}

/// The lines of a text.
// The bench has lines of its own: those of a text have comments and numbers, and the two share no crate.
#[derive(Clone, Copy)]
pub(super) struct Lines<'a>(pub(super) &'a [u8]);

impl<'a> Iterator for Lines<'a> {
    type Item = &'a [u8];

    ghost next_gives = { YieldsFirstRef (λ s. lines_of s.0.now) };

    ghost remaining = { item_count (λ s. lines_of s.0.now) };

    fn next(&mut self) -> Option<&'a [u8]> {
        if self.0.is_empty() {
            return None;
        }
        let (line, rest) = cut(self.0, b'\n');
        self.0 = rest;
        Some(line)
    }
}

/// The words of a line.
#[derive(Clone, Copy)]
pub(super) struct LineWords<'a>(pub(super) &'a [u8]);

impl<'a> Iterator for LineWords<'a> {
    type Item = &'a [u8];

    ghost next_gives = { YieldsFirstRef (λ s. words_of s.0.now) };

    ghost remaining = { item_count (λ s. words_of s.0.now) };

    fn next(&mut self) -> Option<&'a [u8]> {
        let line = self.0;
        let start = line.iter().position(|b| *b != b' ')?;
        let (word, rest) = cut(&line[start..], b' ');
        self.0 = rest;
        Some(word)
    }
}
