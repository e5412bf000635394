//! What was read of a zone list so far.

use super::zone::Zone;
use keyed::shelf::Shelf;

pub mod reading;

ghost use Rattle.std.specs.Prelude.{◌+◌, ◌≤◌, length};
ghost use Rattle.plan.specs.Hall.{most_places};

/// How many places are below, and the zones read so far over them.
#[derive(Drop)]
pub struct Draft {
    below: usize,
    zones: Shelf<Zone, 64>,
    ghost few: { below + length zones.records.items ≤ most_places },
}
