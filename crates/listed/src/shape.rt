//! What a place of a listed plan is made of.

ghost use Rattle.std.specs.Prelude.{◌≡◌, ℕ, ◌≤◌, true};
ghost use Rattle.plan.specs.Hall.{Place};
ghost use Rattle.wordlist.specs.Cutting.{body_of};
ghost use Rattle.listed.specs.Makes.{Make, Exact};

use super::floor::Floor;
use arrayvec::ArrayVec;
use point::Point;

/// A place that is read from a head and the words after it.
pub trait Shape {
    /// What a place says, apart from how it is kept.
    ghost Model: { Type 0 };

    /// What this make of place says of its words.
    ghost make: { Make Model };

    /// What a kept place says.
    ghost model: { Self → Model };

    /// The kind of a place's head.
    // A number and no Kind: a make of place may have words of a kind that has no name here.
    fn head_kind() -> u32
        ensures { result ≡ make.head };

    /// The kind of the words after it.
    fn body_kind() -> u32
        ensures { result ≡ make.body };

    /// Whether a head's fields are good.
    fn sound_head(word: u32) -> bool
        ensures { result ≡ make.sound_head word };

    /// Whether the fields of a word after the head are good.
    fn sound_body(floor: Floor, word: u32) -> bool
        ensures { result ≡ make.sound_body floor word };

    /// The place of a head and the words after it.
    fn build(floor: Floor, head: u32, body: &ArrayVec<u32, 16>) -> Self
        ensures { model result ≡ make.place_of floor head body.now.items };

    /// The type of the place.
    fn type_of(&self) -> u8
        ensures { result ≡ (make.meaning (model self.now)).ty };

    /// Whether the place covers a point of the floor.
    fn covers(&self, at: Point) -> bool
        ensures { result ≡ (make.meaning (model self.now)).covers at.x at.y };

    /// At most sixteen words follow a good head.
    ghost short: { (w : ℕ) → make.sound_head w ≡ true → body_of w ≤ 16 };

    /// A place gives back the words that it was read from.
    ghost exact: { Exact make };
}
