//! What one pass over the floor of a plan tells of its places: which lies in which, which share a point, which have one.
#![tactic(auto)]

use sets::Set64;

pub mod answers;
pub mod laws;
pub mod make;

/// What is kept of one number: its type, if it is in use, and what is known of it and each place.
#[derive(Clone, Copy)]
struct Seen {
    ty: Option<u8>,
    /// Number j is in it when the place lies in place j.
    lies: Set64,
    /// Number j is in it when the place and place j share a point.
    shares: Set64,
}

/// What is kept of a plan: how many places there are, and of place i entry i.
#[derive(Clone, Copy)]
pub struct Survey {
    // The count stands beside the array: an ArrayVec would join them, but is not Copy, as a survey is.
    count: usize,
    places: [Seen; 64],
}
