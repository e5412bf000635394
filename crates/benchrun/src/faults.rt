//! Why the built-in guard is not made.

ghost use Rattle.std.specs.Prelude.{◌≡◌};
ghost use Rattle.benchrun.specs.declared.faults.BenchFault.TheVariants.{Memory as NoMemory, Plan as InPlan, Seal as InSeal};

use checks::faults::SealFault;
use std::alloc::AllocError;
use wordlist::faults::RecordFault;

/// The first fault on the way to the guard.
#[derive(Drop)]
pub enum BenchFault {
    /// There is no memory for it.
    Memory(AllocError),
    /// The words of the plan are refused.
    Plan(RecordFault),
    /// The policy is not sealed over the plan.
    Seal(SealFault),
}

impl From<AllocError> for BenchFault {
    ghost from_gives = { λ e r. r ≡ NoMemory e };

    fn from(e: AllocError) -> BenchFault {
        BenchFault::Memory(e)
    }
}

impl From<RecordFault> for BenchFault {
    ghost from_gives = { λ e r. r ≡ InPlan e };

    fn from(e: RecordFault) -> BenchFault {
        BenchFault::Plan(e)
    }
}

impl From<SealFault> for BenchFault {
    ghost from_gives = { λ e r. r ≡ InSeal e };

    fn from(e: SealFault) -> BenchFault {
        BenchFault::Seal(e)
    }
}
