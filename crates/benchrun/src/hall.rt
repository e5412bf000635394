//! The hall of eight by eight and its policy, which are built in.

ghost use Rattle.std.specs.Prelude.{◌≡◌, MatchResult};
ghost use Rattle.cases.specs.Halls.{eight};
ghost use Rattle.benchrun.specs.Hall.{LacksMemory, Ready, hall_of_plan};

use crate::faults::BenchFault;
use drawn::outline::Outline;
use guard::guard::Guard;
use listed::listed::Listed;
use std::alloc::Global;

/// The words of the plan: the floor, its two halves, and a triangle in the first of them.
pub const PLAN_WORDS: [u32; 20] = [
    0x1000_1008,
    0x2000_0040,
    0x3000_0000,
    0x3000_0007,
    0x3000_0707,
    0x3000_0700,
    0x2000_0041,
    0x3000_0000,
    0x3000_0003,
    0x3000_0703,
    0x3000_0700,
    0x2000_0041,
    0x3000_0004,
    0x3000_0007,
    0x3000_0707,
    0x3000_0704,
    0x2000_0032,
    0x3000_0101,
    0x3000_0103,
    0x3000_0301,
];

/// The words of its policy.
pub const POLICY_WORDS: [u32; 11] = [
    0x7000_0002,
    0x8000_0210,
    0x8000_0021,
    0x9000_0020,
    0xA000_0000,
    0xA000_0041,
    0xA000_0042,
    0xB000_0105,
    0xC000_1205,
    0xD000_0001,
    0xD000_0040,
];

/// The plan of the hall.
fn plan(heap: Global) -> Result<Listed<Outline>, BenchFault>
    ensures { MatchResult result (λ p. hall_of_plan p ≡ eight) LacksMemory }
{
    let (plan, answer) = Listed::<Outline>::from_words(heap, &PLAN_WORDS)?;
    answer?;
    Ok(plan)
}

/// A guard of the hall, sealed with its policy. Only for want of memory is there none.
pub fn built_in(heap: Global) -> Result<Guard<Listed<Outline>>, BenchFault>
    ensures { MatchResult result Ready LacksMemory }
{
    let mut guard = Guard::new(plan(heap)?, heap)?;
    guard.seal(&POLICY_WORDS)?;
    Ok(guard)
}
