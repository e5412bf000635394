//! A whole run over the built-in hall.

ghost use Rattle.std.specs.Prelude.{string_bytes, MatchResult};
ghost use Rattle.benchrun.specs.Hall.{Bench, LacksMemory};

use crate::faults::BenchFault;
use crate::hall::built_in;
use crate::lines::run_text;
use std::alloc::Global;

/// What the bench prints for an input: that of a guard over the built-in hall, newly sealed.
pub fn session(input: &[u8], heap: Global) -> Result<String, BenchFault>
    ensures { MatchResult result (λ s. Bench input.now (string_bytes s)) LacksMemory }
{
    let mut guard = built_in(heap)?;
    Ok(run_text(&mut guard, input, heap)?)
}
