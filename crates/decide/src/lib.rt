//! What a call or a question of one badge comes to, over a site and by what is kept of the badge.
#![tactic(auto)]

pub mod ask;
pub mod judge;
pub mod located;
pub mod refuse;
pub mod subject;
