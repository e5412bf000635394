//! How zones are put over a plan.

ghost use Rattle.std.specs.Prelude.{◌≡◌, [], map, length, Ok, Err};
ghost use Rattle.zones.specs.Piles.{in_use};
ghost use Rattle.wordlist.specs.Outcomes.{answered, replaced};
ghost use Rattle.zones.specs.Reading.{progress_of, start, zones_from};
ghost use Rattle.zones.specs.Words.{zone_word};

use super::super::draft::Draft;
use super::Zones;
use keyed::shelf::Shelf;
use plan::Plan;
use std::alloc::Global;
use wordlist::faults::RecordFault;
use wordlist::keeping::keep;

impl<P: Plan> Zones<P> {
    /// The plan alone, with no zone over it. All the memory that the zones will use is taken here;
    /// where there is none, the plan comes back.
    pub fn over(heap: Global, below: P) -> Result<Zones<P>, P>
        ensures { elim result [ Ok z ↦ (z.below ≡ below) × (z.zones.records.items ≡ []) × (progress_of z.draft ≡ start (length (P.hall below).places)) | Err back ↦ back ≡ below ] }
    {
        let Ok(zones) = Shelf::new(heap) else {
            return Err(below);
        };
        let Ok(draft) = Draft::new(heap, below.count()) else {
            return Err(below);
        };
        Ok(Zones {
            below,
            zones,
            draft,
        })
    }

    /// The zones become those that the words say; refused words leave them as they were.
    pub fn read(&mut self, words: &[u32]) -> Result<(), RecordFault>
        ensures answer { result ≡ answered (zones_from (length (P.hall self.old.below).places) words.now) }
        ensures after { self.new.zones.records.items ≡ replaced self.old.zones.records.items (zones_from (length (P.hall self.old.below).places) words.now) }
        ensures below { self.new.below ≡ self.old.below }
        ensures draft { progress_of self.new.draft ≡ start (length (P.hall self.old.below).places) }
        ensures exactly { result ≡ Ok tt → map zone_word self.new.zones.records.items ≡ words.now }
        ensures all { result ≡ Ok tt → in_use (length (P.hall self.old.below).places) self.new.zones.records.items ≡ self.new.zones.records.items }
    {
        let places = self.below.count();
        keep(&mut self.draft, places, &mut self.zones, words)
    }

    /// The plan below, as it was.
    pub fn into_below(self) -> P
        ensures { result ≡ self.below }
    {
        self.below
    }
}
