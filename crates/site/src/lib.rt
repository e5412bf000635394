//! A plan and the policy sealed over it: sealing, and what calls and questions ask of both.
#![tactic(auto)]

pub mod site;
