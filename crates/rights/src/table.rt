//! Tables of sets: one entry for each number below 64.

ghost use Rattle.std.specs.Prelude.{◌≡◌, ℕ, Bool, ◌&&◌, nat_lt};
ghost use Rattle.sets.specs.Member.{member};
ghost use Rattle.sets.specs.Rows.{cell};
ghost use Rattle.search.specs.Tests.{AnswersBy};
ghost use Rattle.rights.specs.Tests.{RelatesBy};

use search::gather;
use sets::Set64;
use std::array;

/// Number `j` is in entry `i` when both are below 64 and `i` is related to `j`.
pub fn table<F: Fn(usize, usize) -> bool>(related: F) -> [Set64; 64]
    requires { F.IsAlwaysCallable related }
    ensures { (f : ℕ → ℕ → Bool) → RelatesBy 64 (F.post related) f → (i j : ℕ) → cell result i j ≡ (nat_lt i 64 && (nat_lt j 64 && f i j)) }
{
    array::from_fn(
        |i|
            requires { F.IsAlwaysCallable related }
            ensures { (p : ℕ → Bool) → AnswersBy 64 (F.post related i) p → (j : ℕ) → member result.bits j ≡ (nat_lt j 64 && p j) }
        { gather(|j| related(i, j)) },
    )
}
