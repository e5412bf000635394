//! What every make of plan answers: the five questions, and what follows from them.
#![tactic(auto)]

ghost use Rattle.std.specs.Prelude.{◌≡◌, ℕ, ◌≤◌, length};
ghost use Rattle.sets.specs.Member.{member};
ghost use Rattle.plan.specs.Hall.{Hall, covers_at, most_places, most_side, type_at};

use point::Point;
use sets::Set64;

/// A floor and its places, asked by five questions: width, height, count, type, covers.
/// Asking alters nothing, and no question is refused: a number that is not in use has no type and covers nothing,
/// and no place covers a point off the floor.
pub trait Plan {
    /// The floor and the places that the answers tell of.
    ghost hall: { Self → Hall };

    /// How many points the floor has from side to side.
    fn width(&self) -> u16
        ensures { result ≡ (hall self.now).width };

    /// How many points the floor has from top to bottom.
    fn height(&self) -> u16
        ensures { result ≡ (hall self.now).height };

    /// How many places there are; their numbers are those below it.
    fn count(&self) -> usize
        ensures { result ≡ length (hall self.now).places };

    /// The type of a place, if the number is in use.
    fn type_of(&self, place: usize) -> Option<u8>
        ensures { result ≡ type_at (hall self.now) place };

    /// Whether a place covers a point.
    fn covers(&self, place: usize, at: Point) -> bool
        ensures { result ≡ covers_at (hall self.now) place at.x at.y };

    /// The numbers of the places that cover a point. It follows from the five, so a maker shows nothing for it.
    fn places_at(&self, at: Point) -> Set64
        ensures { (k : ℕ) → member result.bits k ≡ covers_at (hall self.now) k at.x at.y }
    {
        let mut found = Set64::none();
        // numbers in use are asked, and no list is gone over; `gather` would ask all 64
        for k in 0..self.count() {
            if self.covers(k, at) {
                found = found.with(k);
            }
        }
        found
    }

    /// The floor has at least one point and at most 256 each way.
    ghost floor: { (p : Self) → (1 ≤ (hall p).width) × ((hall p).width ≤ most_side) × (1 ≤ (hall p).height) × ((hall p).height ≤ most_side) };

    /// There are at most 64 places.
    ghost few: { (p : Self) → length (hall p).places ≤ most_places };
}
