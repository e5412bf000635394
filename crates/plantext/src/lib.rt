//! A floor plan's text, read into the words of its sections.

#![tactic(auto)]

mod digits;
pub mod faults;
pub mod page;
mod parts;
