//! What a plan that was read from words answers.

ghost use Rattle.listed.specs.Layouts.{hall_of, layout_of};
ghost use Rattle.std.proofs.Common.{arith, rules};
ghost use Rattle.std.proofs.lemmas.List.{length-map};

use super::super::shape::Shape;
use super::Listed;
use plan::Plan;
use point::Point;

impl<S: Shape + Drop> Plan for Listed<S> {
    ghost hall = { λ p. hall_of S.Shape.make.meaning (layout_of S.Shape.model p.sheet) };

    ghost floor = { Prim.search rules };

    ghost few = { λ p. simp length-map (omega arith) };

    fn width(&self) -> u16 {
        self.sheet.floor.width
    }

    fn height(&self) -> u16 {
        self.sheet.floor.height
    }

    fn count(&self) -> usize {
        self.sheet.places.len()
    }

    fn type_of(&self, place: usize) -> Option<u8> {
        self.sheet
            .places
            .records()
            .get(place)
            .map(|found| found.type_of())
    }

    fn covers(&self, place: usize, at: Point) -> bool {
        if at.x >= self.sheet.floor.width || at.y >= self.sheet.floor.height {
            return false;
        }
        self.sheet
            .places
            .records()
            .get(place)
            .is_some_and(|found| found.covers(at))
    }
}
