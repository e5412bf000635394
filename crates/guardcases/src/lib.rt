//! Worked answers over the hall of eight by eight, each proved of the definitions that the contracts use.
#![tactic(auto)]

ghost use Rattle.guardcases.specs.Rows.{Rows};
ghost use Rattle.guardcases.specs.Sessions.{Sessions};

/// The answers to worked calls, from the sealing on.
pub fn answers_stand()
    ensures { Rows }
{}

/// What the bench prints for worked inputs.
pub fn sessions_stand()
    ensures { Sessions }
{}
