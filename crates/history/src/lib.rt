//! The history of a guard, read off its calls: the laws of every list of calls.
#![tactic(auto)]

pub mod laws;
