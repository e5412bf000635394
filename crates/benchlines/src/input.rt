//! The lines of an input, one after another.

ghost use Rattle.std.specs.Prelude.{◌≡◌, ◌==◌, length, position, nat_lt};
ghost use Rattle.benchlines.specs.Input.{lines_of, line_feed, left, longest_input};

/// A line feed ends a line.
pub const LINE_FEED: u8 = 10;

/// An input has at most so many bytes.
pub const LONGEST_INPUT: usize = 32_768;

/// Whether an input has more bytes than are answered.
pub fn is_long(input: &[u8]) -> bool
    ensures { result ≡ nat_lt longest_input (length input.now) }
{
    input.len() > LONGEST_INPUT
}

/// The place of the first line feed.
fn first_feed(input: &[u8]) -> Option<usize>
    ensures { result ≡ position (λ b. b == line_feed) input.now }
{
    input.iter().position(|b| *b == LINE_FEED)
}

/// The lines that are left of an input, whose line feeds are not counted.
#[derive(Drop)]
pub struct Lines<'a> {
    rest: &'a [u8],
}

impl<'a> Lines<'a> {
    /// All lines of an input.
    pub fn new(input: &'a [u8]) -> Lines<'a>
        ensures { left result ≡ lines_of input.now }
    {
        Lines { rest: input }
    }
}

impl<'a> Iterator for Lines<'a> {
    ghost use Rattle.std.specs.Iterator.{YieldsFirstRef, item_count};
    ghost use Rattle.benchlines.specs.Input.{left};

    type Item = &'a [u8];

    ghost next_gives = { YieldsFirstRef left };

    ghost remaining = { item_count left };

    fn next(&mut self) -> Option<&'a [u8]> {
        if self.rest.is_empty() {
            return None;
        }
        let end = first_feed(self.rest).unwrap_or(self.rest.len());
        let line = &self.rest[..end];
        self.rest = &self.rest[self.rest.len().min(end + 1)..];
        Some(line)
    }
}
