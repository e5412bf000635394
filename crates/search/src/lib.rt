//! One text for searches: the lowest number that passes a test, whether there is one, and which do.
#![tactic(auto)]

ghost use Rattle.std.specs.Prelude.{◌≡◌, ℕ, Bool, ◌&&◌, is_some, nat_lt};
ghost use Rattle.sets.specs.Bounds.{some as some_of, lowest as lowest_of};
ghost use Rattle.sets.specs.Member.{member};
ghost use Rattle.search.specs.Gathered.{gathered};
ghost use Rattle.search.specs.Tests.{AnswersBy};

use sets::Set64;

/// The lowest number below `n` that passes.
pub fn lowest<F: Fn(usize) -> bool>(n: usize, passes: F) -> Option<usize>
    requires { F.IsAlwaysCallable passes }
    ensures value { (p : ℕ → Bool) → AnswersBy n (F.post passes) p → result ≡ lowest_of n p }
    ensures found { (p : ℕ → Bool) → AnswersBy n (F.post passes) p → is_some result ≡ some_of n p }
{
    (0..n).find(|k| passes(*k))
}

/// Whether some number below `n` passes.
pub fn any<F: Fn(usize) -> bool>(n: usize, passes: F) -> bool
    requires { F.IsAlwaysCallable passes }
    ensures { (p : ℕ → Bool) → AnswersBy n (F.post passes) p → result ≡ some_of n p }
{
    lowest(n, passes).is_some()
}

/// The numbers below 64 that pass.
pub fn gather<F: Fn(usize) -> bool>(passes: F) -> Set64
    requires { F.IsAlwaysCallable passes }
    ensures members { (p : ℕ → Bool) → AnswersBy 64 (F.post passes) p → (k : ℕ) → member result.bits k ≡ (nat_lt k 64 && p k) }
    ensures value { (p : ℕ → Bool) → AnswersBy 64 (F.post passes) p → result ≡ gathered p }
{
    (0..64)
        .filter(|k| passes(*k))
        .fold(Set64::none(), |found, k| found.with(k))
}
