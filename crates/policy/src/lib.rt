//! A policy, read from its words: badges, schemas and their parents, roles, permissions and assignments.

#![tactic(auto)]

pub mod charter;
pub mod policy;
pub mod worked;
