//! What plancheck prints: the places of a plan, and the faults of a text in words.
#![tactic(auto)]

pub mod faults;
pub mod show;
