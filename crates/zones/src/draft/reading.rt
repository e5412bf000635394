//! How a zone list is read into a draft.

ghost use Rattle.std.specs.Prelude.{◌≡◌, ◌+◌, ◌≤◌, List, length, min, IfOk};
ghost use Rattle.plan.specs.Hall.{most_places};
ghost use Rattle.wordlist.specs.Given.{given_from};
ghost use Rattle.zones.specs.declared.zone.Zone.{Zone as Kept};
ghost use Rattle.zones.specs.Reading.{Progress, progress_of, start, zone_rules, zones_from};

use super::super::zone::Zone;
use super::Draft;
use keyed::shelf::Shelf;
use std::alloc::{AllocError, Global};
use std::mem::swap;
use wordlist::keeping::Drafted;
use wordlist::kinds::Kind;
use wordlist::list::WordList;

impl Draft {
    /// Nothing read yet, over so many places.
    pub(crate) fn new(heap: Global, below: usize) -> Result<Draft, AllocError>
        requires { below ≤ most_places }
        ensures { IfOk result (λ d. progress_of d ≡ start below) }
    {
        let zones = Shelf::new(heap)?;
        Ok(Draft { below, zones })
    }

    /// The number that the next zone will have.
    fn number(&self) -> usize
        ensures { result ≡ self.now.below + length self.now.zones.records.items }
    {
        self.below + self.zones.len()
    }
}

impl WordList for Draft {
    ghost State = { Progress };

    ghost rules = { zone_rules };

    ghost state = { progress_of };

    fn belongs(&self, kind: u32) -> bool {
        kind == Kind::Zone.number()
    }

    fn in_turn(&self, _word: u32) -> bool {
        true
    }

    fn has_room(&self, _word: u32) -> bool {
        self.number() < 64
    }

    fn is_sound(&self, word: u32) -> bool {
        Zone::sound(word, self.number())
    }

    fn take(&mut self, word: u32) {
        if self.has_room(word) && self.is_sound(word) {
            self.zones.put(Zone::from(word));
        }
    }

    fn owes(&self) -> bool {
        false
    }
}

impl Drafted for Draft {
    type Ground = usize;

    type Kept = Shelf<Zone, 64>;

    ghost Content = { List Kept };

    ghost content = { λ d. d.zones.records.items };

    ghost said = { λ s. s.records.items };

    ghost begun = { λ below d. progress_of d ≡ start (min below most_places) };

    ghost outcome = { λ below ws. zones_from (min below most_places) ws };

    ghost reads = { λ below d e a ws. given_from progress_of (λ s. s.zones) zone_rules (start (min below most_places)) d e a ws };

    fn begin(&mut self, below: usize) {
        self.zones.clear();
        self.below = below.min(64);
    }

    fn exchange(&mut self, zones: &mut Shelf<Zone, 64>) {
        zones.clear();
        swap(&mut self.zones, zones);
    }
}
