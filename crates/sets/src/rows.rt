//! Rows of sets: each entry is a set of numbers.

ghost use Rattle.std.specs.Prelude.{◌≡◌};
ghost use Rattle.sets.specs.Rows.{cell};

use crate::Set64;

/// Whether number `j` is in entry `i`; past the last entry there is none.
pub fn is_in(rows: &[Set64], i: usize, j: usize) -> bool
    ensures { result ≡ cell rows.now i j }
{
    rows.get(i).is_some_and(|row| row.has(j))
}
