//! A plan with zones over it.

use super::draft::Draft;
use super::zone::Zone;
use keyed::shelf::Shelf;
use plan::Plan;

pub mod answers;
pub mod reading;

/// A plan, the zones over it, and the draft that the next list is read into.
#[derive(Drop)]
pub struct Zones<P: Plan> {
    below: P,
    zones: Shelf<Zone, 64>,
    draft: Draft,
}
