//! Plans that are read from a list of a floor word and places, whatever a place is made of.
#![tactic(auto)]

pub mod draft;
pub mod floor;
pub mod listed;
pub mod parts;
pub mod shape;
pub mod sheet;
