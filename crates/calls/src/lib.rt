//! The vocabulary of the guard: what is told and asked of a badge, what is answered, why a call is refused, and what
//! is kept of one badge.
#![tactic(auto)]

pub mod badge;
pub mod call;
pub mod refusal;
