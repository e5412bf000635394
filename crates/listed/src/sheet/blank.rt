//! The sheet that nothing is drawn on.

ghost use Rattle.std.specs.Prelude.{IfOk};
ghost use Rattle.listed.specs.Layouts.{Bare};

use super::super::floor::Floor;
use super::Sheet;
use keyed::shelf::Shelf;
use std::alloc::{AllocError, Global};

/// A floor of one point.
const POINT: Floor = Floor {
    width: 1,
    height: 1,
};

impl<S: Drop> Sheet<S> {
    /// A floor of one point with no place.
    pub(crate) fn new(heap: Global) -> Result<Sheet<S>, AllocError>
        ensures { IfOk result Bare }
    {
        let places = Shelf::new(heap)?;
        Ok(Sheet {
            floor: POINT,
            places,
        })
    }

    /// Becomes a floor of one point with no place.
    pub(crate) fn clear(&mut self)
        ensures { Bare self.new }
    {
        self.floor = POINT;
        self.places.clear();
    }
}
