//! Worked lists, proved of the definitions that the contracts use.

ghost use Rattle.policy.specs.Worked.{Worked};

/// The answers to the worked lists are as the table says.
pub fn worked_stands()
    ensures { Worked }
{}
