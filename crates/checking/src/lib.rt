//! Checks the text of a floor plan: prints what it finds, and says whether all of it is accepted.

#![tactic(auto)]

pub mod sections;
