//! Zones over any plan, read from a list of words.
#![tactic(auto)]

pub mod draft;
pub mod zone;
pub mod zones;
