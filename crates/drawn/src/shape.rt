//! How a drawn place is read from its words, and what it covers.

ghost use Rattle.std.specs.Prelude.{◌≡◌};
ghost use Rattle.drawn.specs.Drawings.{Drawing, corner_of, drawing_of, drawn_make};
ghost use Rattle.drawn.specs.Corners;
ghost use Rattle.std.proofs.Common.{rules, arith};

use super::outline::Outline;
use arrayvec::ArrayVec;
use listed::floor::Floor;
use listed::parts::padded_parts;
use listed::shape::Shape;
use point::Point;
use ring::covered;
use wordlist::fields::bits;
use wordlist::kinds::Kind;

/// The corner that a word says.
// No `From`: neither a word nor a point is a type of this crate.
fn corner(word: u32) -> Point
    ensures { result ≡ corner_of word }
{
    Point {
        x: bits(word, 0, 8) as u16,
        y: bits(word, 8, 8) as u16,
    }
}

impl Shape for Outline {
    ghost Model = { Drawing };

    ghost make = { drawn_make };

    ghost model = { drawing_of };

    ghost short = { first_of (Prim.search rules, Prim.grind (arith, Self.row.coded.inj)) };

    ghost exact = { Corners.exact };

    fn head_kind() -> u32 {
        Kind::Ring.number()
    }

    fn body_kind() -> u32 {
        Kind::Corner.number()
    }

    fn sound_head(word: u32) -> bool {
        (3..=16).contains(&bits(word, 4, 5)) && bits(word, 9, 19) == 0
    }

    fn sound_body(floor: Floor, word: u32) -> bool {
        bits(word, 0, 8) < u32::from(floor.width)
            && bits(word, 8, 8) < u32::from(floor.height)
            && bits(word, 16, 12) == 0
    }

    fn build(_floor: Floor, head: u32, body: &ArrayVec<u32, 16>) -> Outline {
        Outline {
            ty: bits(head, 0, 4) as u8,
            count: body.len(),
            corners: padded_parts(body, corner),
        }
    }

    fn type_of(&self) -> u8 {
        self.ty
    }

    fn covers(&self, at: Point) -> bool {
        covered(&self.corners[..self.count], at)
    }
}
