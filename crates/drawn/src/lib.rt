//! The drawn plan: its places are closed rings of corners.
#![tactic(auto)]

use listed::listed::Listed;

pub mod outline;
pub mod shape;

/// A plan whose places are drawn as rings of corners.
pub type Drawn = Listed<outline::Outline>;
