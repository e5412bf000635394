//! What follows from a policy: which schemas are reached from which, the ancestors of each role, and the rights and
//! roles that come by them.
#![tactic(auto)]

pub mod ancestry;
pub mod carried;
pub mod closure;
pub mod entitled;
pub mod inside;
pub mod laws;
pub mod lineage;
pub mod table;
pub mod worked;
