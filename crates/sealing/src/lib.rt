//! What holds once a policy is sealed over a plan.
#![tactic(auto)]

pub mod laws;
