//! A policy that is read from words.

use super::charter::Charter;

pub mod answers;
pub mod reading;

/// What the policy says, and the draft that the next list is read into.
#[derive(Drop)]
pub struct Policy {
    kept: Charter,
    draft: Charter,
}
