//! The records of a policy: what their words say, when the words are good, and the keys.

#![tactic(auto)]

pub mod keys;
pub mod kinds;
pub mod words;
