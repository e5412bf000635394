//! Worked cases, each proved of the definitions that the contracts use.
#![tactic(auto)]

ghost use Rattle.cases.specs.Table.{Table};

/// The rows of the table hold.
pub fn table_stands()
    ensures { Table }
{}
