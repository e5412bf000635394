//! The checks of sealing: whether a policy fits a plan, and the first fault if it does not.

#![tactic(auto)]

pub mod faults;
pub mod laws;
pub mod search;
