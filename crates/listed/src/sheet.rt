//! A floor and its places.

use super::floor::Floor;
use keyed::shelf::Shelf;

pub mod blank;

ghost use Rattle.std.specs.Prelude.{◌≤◌};
ghost use Rattle.plan.specs.Hall.{most_side};

/// A floor and its places, with room for as many places as a plan may have.
#[derive(Drop)]
pub struct Sheet<S> {
    pub(crate) floor: Floor,
    pub(crate) places: Shelf<S, 64>,
    // Of the sheet and not of its floor: a shape is asked of any floor.
    ghost wide: { 1 ≤ floor.width },
    ghost narrow: { floor.width ≤ most_side },
    ghost tall: { 1 ≤ floor.height },
    ghost low: { floor.height ≤ most_side },
}
