//! Sets of numbers below 64, kept as the bits of a word.
#![tactic(auto)]

ghost use Rattle.std.specs.Prelude.{◌≡◌, ℕ, false, not, ◌&&◌, ◌||◌, ◌==◌, nat_lt};
ghost use Rattle.sets.specs.Member.{member};

pub mod rows;

/// A set of numbers below 64: number k is in it when bit k is set.
#[derive(Clone, Copy, Debug, Eq, PartialEq)]
pub struct Set64 {
    bits: u64,
}

impl Set64 {
    /// The set of nothing.
    pub fn none() -> Set64
        ensures { (j : ℕ) → member result.bits j ≡ false }
    {
        Set64 { bits: 0 }
    }

    /// The set of all numbers below 64.
    pub fn all() -> Set64
        ensures { (j : ℕ) → member result.bits j ≡ nat_lt j 64 }
    {
        Set64 { bits: u64::MAX }
    }

    /// Whether `k` is in the set; a number from 64 on never is.
    pub fn has(self, k: usize) -> bool
        ensures { result ≡ member self.bits k }
    {
        k < 64 && (self.bits >> k) & 1 == 1
    }

    /// The set with `k` put in; a number from 64 on leaves it as it is.
    pub fn with(self, k: usize) -> Set64
        ensures { (j : ℕ) → member result.bits j ≡ (member self.bits j || (nat_lt k 64 && j == k)) }
    {
        if k < 64 {
            Set64 {
                bits: self.bits | (1 << k),
            }
        } else {
            self
        }
    }

    /// The set with `k` taken out; a number from 64 on leaves it as it is.
    pub fn without(self, k: usize) -> Set64
        ensures { (j : ℕ) → member result.bits j ≡ (member self.bits j && not (nat_lt k 64 && j == k)) }
    {
        if k < 64 {
            Set64 {
                bits: self.bits & !(1 << k),
            }
        } else {
            self
        }
    }

    /// What both sets have.
    pub fn and(self, other: Set64) -> Set64
        ensures { (j : ℕ) → member result.bits j ≡ (member self.bits j && member other.bits j) }
    {
        Set64 {
            bits: self.bits & other.bits,
        }
    }

    /// What either set has.
    pub fn or(self, other: Set64) -> Set64
        ensures { (j : ℕ) → member result.bits j ≡ (member self.bits j || member other.bits j) }
    {
        Set64 {
            bits: self.bits | other.bits,
        }
    }

    /// The set as a word.
    // By its name, and no From: a number says nothing of the set that it was.
    pub fn word(self) -> u64
        ensures { result ≡ self.bits }
    {
        self.bits
    }
}
