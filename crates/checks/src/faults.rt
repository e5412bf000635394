//! Why a policy is not sealed.

ghost use Rattle.std.specs.Prelude.{◌≡◌};
ghost use Rattle.checks.specs.Numbers.{of_sealing as of_sealing_spec, told as told_of};
ghost use Rattle.checks.specs.declared.faults.SealFault.TheVariants.{Record as InSeal};

use wordlist::faults::{RecordFault, Told};

/// The first fault that sealing meets.
#[derive(Clone, Copy, Debug, PartialEq, Eq)]
pub enum SealFault {
    /// The policy's words are refused.
    Record(RecordFault),
    /// The guard is already sealed.
    Sealed,
    /// The place covers no point.
    Empty {
        place: usize,
    },
    /// The role's extent is no place in use, or not of its schema's extent type.
    Misplaced {
        role: usize,
    },
    /// The logic place lies in no place of the extent type.
    Outside {
        schema: usize,
        place: usize,
    },
    /// The logic place shares a point with a place of the extent type and does not lie in it.
    Overlap {
        schema: usize,
        logic: usize,
        extent: usize,
    },
    /// The extent type or the logic type of the child does not lie in that of the parent.
    Unlike {
        child: usize,
        parent: usize,
    },
    /// The parent's patience is below the child's.
    Impatient {
        child: usize,
        parent: usize,
    },
}

impl From<RecordFault> for SealFault {
    ghost from_gives = { λ e r. r ≡ InSeal e };

    fn from(e: RecordFault) -> SealFault {
        SealFault::Record(e)
    }
}

/// What a fault of sealing itself says, which seven cases share.
fn of_sealing(number: u8, figures: [usize; 3]) -> Told
    ensures { result ≡ of_sealing_spec number figures }
{
    Told {
        number,
        layer: 3,
        figures,
    }
}

impl SealFault {
    /// The fault's number, layer and figures.
    pub fn told(&self) -> Told
        ensures { result ≡ told_of self.now }
    {
        match *self {
            SealFault::Record(fault) => fault.told(),
            SealFault::Sealed => of_sealing(19, [0, 0, 0]),
            SealFault::Empty { place } => of_sealing(40, [place, 0, 0]),
            SealFault::Misplaced { role } => of_sealing(41, [role, 0, 0]),
            SealFault::Outside { schema, place } => of_sealing(42, [schema, place, 0]),
            SealFault::Overlap {
                schema,
                logic,
                extent,
            } => of_sealing(43, [schema, logic, extent]),
            SealFault::Unlike { child, parent } => of_sealing(44, [child, parent, 0]),
            SealFault::Impatient { child, parent } => of_sealing(45, [child, parent, 0]),
        }
    }
}
