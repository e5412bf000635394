//! Records that are kept in the order of their keys.
#![tactic(auto)]

pub mod keys;
pub mod models;
pub mod pair;
pub mod rising;
pub mod shelf;
pub mod slices;
pub mod triple;
