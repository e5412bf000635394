//! What a plan with zones over it answers.

ghost use Rattle.std.specs.Prelude.{◌≡◌, length};
ghost use Rattle.zones.specs.Piles.{in_use as used, zone_hall};
ghost use Rattle.std.proofs.Common.{arith, rules};
ghost use Rattle.zones.specs.PilesLemmas.{hall_length};

use super::super::zone::Zone;
use super::Zones;
use plan::Plan;
use point::Point;
use sets::Set64;

impl<P: Plan> Zones<P> {
    /// The zones in use; with the places below they are 64 at the most.
    fn in_use(&self) -> &[Zone]
        ensures { result.now ≡ used (length (P.hall self.now.below).places) self.now.zones.records.items }
    {
        let zones = self.zones.records();
        &zones[..zones.len().min(64 - self.below.count())]
    }
}

impl<P: Plan> Plan for Zones<P> {
    ghost hall = { λ z. zone_hall (P.Plan.hall z.below) z.zones.records.items };

    ghost floor = { first_of (Prim.search rules, Prim.grind (arith, Self.row.coded.inj)) };

    ghost few = { λ p. omega (arith, hall_length (P.Plan.hall p.below) p.zones.records.items (P.Plan.few p.below)) };

    fn width(&self) -> u16 {
        self.below.width()
    }

    fn height(&self) -> u16 {
        self.below.height()
    }

    fn count(&self) -> usize {
        // asked once: the plan below may be a pile itself
        (self.below.count() + self.zones.records().len()).min(64)
    }

    fn type_of(&self, place: usize) -> Option<u8> {
        match place.checked_sub(self.below.count()) {
            None => self.below.type_of(place),
            Some(k) => self.in_use().get(k).map(|zone| zone.ty),
        }
    }

    fn covers(&self, place: usize, at: Point) -> bool {
        self.places_at(at).has(place)
    }

    /// Goes once through the zones by rising number, so that each rule finds its places decided.
    fn places_at(&self, at: Point) -> Set64 {
        let mut covering = self.below.places_at(at);
        if at.x >= self.below.width() || at.y >= self.below.height() {
            return covering;
        }
        let first = self.below.count();
        for (k, zone) in self.in_use().iter().enumerate() {
            if zone.rule.holds(covering) {
                covering = covering.with(first + k);
            }
        }
        covering
    }
}
