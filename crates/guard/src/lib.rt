//! The guard: follows badges over a plan and the policy sealed over it, and says who has which right.
#![tactic(auto)]

pub mod guard;
