//! Worked sealings, each proved of the definitions that the contracts use.
#![tactic(auto)]

ghost use Rattle.sealcases.specs.Rows.{Rows};

/// The worked policy is sealed over its hall; with place 3 moved it is outside, and with place 4 added it overlaps.
pub fn rows_stand()
    ensures { Rows }
{}
