//! The pass over the floor that makes a survey.

ghost use Rattle.std.specs.Prelude.{◌≡◌, length};
ghost use Rattle.survey.specs.Entries.{Changed, Noted, Unseen};
ghost use Rattle.survey.specs.Kept.{Tied, survey_of};

use super::{Seen, Survey};
use plan::Plan;
use point::Point;
use sets::Set64;
use std::array;

impl Seen {
    /// What is known of a number of the type before any point is seen: it lies in every place, and shares a point with none.
    fn before(ty: Option<u8>) -> Seen
        ensures { Unseen ty result }
    {
        Seen {
            ty,
            lies: Set64::all(),
            shares: Set64::none(),
        }
    }

    /// Notes of place `i` a point that the places of `at` cover.
    fn note(&mut self, i: usize, at: Set64)
        ensures { Noted at.bits i self.old self.new }
    {
        if at.has(i) {
            self.lies = at.and(self.lies);
            self.shares = at.or(self.shares);
        }
    }
}

/// Notes of each place a point that the places of `at` cover.
fn note(places: &mut [Seen], at: Set64)
    ensures { Changed at.bits (length places.old) places.old places.new }
{
    for (i, seen) in places.iter_mut().enumerate() {
        seen.note(i, at);
    }
}

impl Survey {
    /// Surveys a plan: each point of the floor is asked for once, and tells of all pairs of places at once.
    pub fn of<P: Plan>(plan: &P) -> Survey
        ensures value { result ≡ survey_of (P.hall plan.now) }
        ensures tied { Tied (P.hall plan.now) result }
    {
        let count = plan.count();
        let mut places = array::from_fn(|place| Seen::before(plan.type_of(place)));
        for y in 0..plan.height() {
            for x in 0..plan.width() {
                note(&mut places[..count], plan.places_at(Point { x, y }));
            }
        }
        Survey { count, places }
    }
}
