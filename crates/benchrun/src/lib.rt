//! The bench: puts the calls of an input's lines to a guard, and tells what is printed for them.
#![tactic(auto)]

pub mod faults;
pub mod hall;
pub mod lines;
pub mod session;
