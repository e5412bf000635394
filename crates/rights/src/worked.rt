//! Worked answers, proved of the definitions that the contracts use.

ghost use Rattle.rights.specs.Worked.{Worked};

/// What follows from the small policy is as the table says.
pub fn worked_stands()
    ensures { Worked }
{}
