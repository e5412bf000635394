//! How a list is read into a draft.

ghost use Rattle.std.specs.Prelude.{◌≡◌, ℕ, ◌+◌, ◌<◌, ◌≤◌, IfOk, length};
ghost use Rattle.plan.specs.Hall.{most_places};
ghost use Rattle.wordlist.specs.Given.{given_from};
ghost use Rattle.wordlist.specs.Reading.{passing};
ghost use Rattle.listed.specs.Layouts.{Layout, layout_of};
ghost use Rattle.listed.specs.Reading.{Progress, floor_of, grown, layout_from, list_rules, progress_of, sound_floor as sound_floor_spec, start};

use super::super::floor::Floor;
use super::super::shape::Shape;
use super::super::sheet::Sheet;
use super::{Draft, Next};
use arrayvec::ArrayVec;
use std::alloc::{AllocError, Global};
use std::mem::{replace, swap};
use wordlist::fields::{bits, kind};
use wordlist::keeping::Drafted;
use wordlist::kinds::Kind;
use wordlist::list::WordList;
use wordlist::reader::body_of;

/// Whether a floor word's fields are good.
fn sound_floor(word: u32) -> bool
    ensures { result ≡ sound_floor_spec word }
{
    (1..=256).contains(&bits(word, 0, 9))
        && (1..=256).contains(&bits(word, 9, 9))
        && bits(word, 18, 10) == 0
}

impl<S: Shape + Drop> Draft<S> {
    /// Nothing read yet.
    pub(crate) fn new(heap: Global) -> Result<Draft<S>, AllocError>
        ensures { IfOk result (λ d. progress_of S.Shape.model d ≡ start) }
    {
        let sheet = Sheet::new(heap)?;
        Ok(Draft {
            sheet,
            next: Next::Front,
            body: ArrayVec::new(),
        })
    }

    /// Whether a word breaks no rule of turn, room and fields.
    // Not one function for all lists: it would be handed the impl that `take` is part of, which is proved after it.
    fn passes(&self, word: u32) -> bool
        ensures { result ≡ passing (list_rules S.Shape.make) (progress_of S.Shape.model self.now) word }
    {
        self.in_turn(word) && self.has_room(word) && self.is_sound(word)
    }

    /// A place with so many words owed: without any it is whole, and put with the others.
    fn grow(&mut self, head: u32, owed: usize)
        requires room { length self.old.sheet.places.records.items < most_places }
        requires short { length self.old.body.items + owed ≤ 16 }
        ensures { progress_of S.Shape.model self.new ≡ grown S.Shape.make (layout_of S.Shape.model self.old.sheet) head self.old.body.items owed }
    {
        if owed == 0 {
            let place = S::build(self.sheet.floor, head, &self.body);
            self.sheet.places.put(place);
            self.next = Next::Head;
        } else {
            self.next = Next::Body { head, owed };
        }
    }
}

impl<S: Shape + Drop> WordList for Draft<S> {
    ghost State = { Progress S.Shape.Model };

    ghost rules = { list_rules S.Shape.make };

    ghost state = { progress_of S.Shape.model };

    fn belongs(&self, kind: u32) -> bool {
        kind == Kind::Floor.number() || kind == S::head_kind() || kind == S::body_kind()
    }

    fn in_turn(&self, word: u32) -> bool {
        let due = match self.next {
            Next::Front => Kind::Floor.number(),
            Next::Head => S::head_kind(),
            Next::Body { .. } => S::body_kind(),
        };
        kind(word) == due
    }

    fn has_room(&self, _word: u32) -> bool {
        match self.next {
            Next::Head => self.sheet.places.has_room(),
            _ => true,
        }
    }

    fn is_sound(&self, word: u32) -> bool {
        match self.next {
            Next::Front => sound_floor(word),
            Next::Head => S::sound_head(word),
            Next::Body { .. } => S::sound_body(self.sheet.floor, word),
        }
    }

    fn take(&mut self, word: u32) {
        if !self.passes(word) {
            return;
        }
        match replace(&mut self.next, Next::Head) {
            Next::Front => {
                self.sheet.floor = Floor {
                    width: bits(word, 0, 9) as u16,
                    height: bits(word, 9, 9) as u16,
                };
            }
            Next::Head => {
                self.body.clear();
                self.grow(word, body_of(word));
            }
            Next::Body { head, owed } => {
                self.body.push(word);
                self.grow(head, owed - 1);
            }
        }
    }

    fn owes(&self) -> bool {
        !matches!(self.next, Next::Head)
    }
}

impl<S: Shape + Drop> Drafted for Draft<S> {
    type Ground = ();

    type Kept = Sheet<S>;

    ghost Content = { Layout S.Shape.Model };

    ghost content = { λ d. layout_of S.Shape.model d.sheet };

    ghost said = { layout_of S.Shape.model };

    ghost begun = { λ _ d. progress_of S.Shape.model d ≡ start };

    ghost outcome = { λ _ ws. layout_from S.Shape.make ws };

    ghost reads = { λ _ d e a ws. given_from (progress_of S.Shape.model) (λ s. s.layout) (list_rules S.Shape.make) start d e a ws };

    fn begin(&mut self, _ground: ()) {
        self.next = Next::Front;
        self.sheet.clear();
    }

    fn exchange(&mut self, sheet: &mut Sheet<S>) {
        self.next = Next::Front;
        swap(&mut self.sheet, sheet);
    }
}
