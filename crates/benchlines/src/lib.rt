//! The lines that the bench reads and prints: lines of an input, the call that a line makes, the text of an answer.

#![tactic(auto)]

pub mod answer;
pub mod arguments;
pub mod call;
pub mod input;
pub mod worked;
