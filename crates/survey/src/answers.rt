//! What a survey answers, of any numbers: one that is not in use has no type and no point, so it lies in every place and shares a point with none.

ghost use Rattle.std.specs.Prelude.{◌≡◌, length};
ghost use Rattle.plan.specs.Hall.{Hall, type_at};
ghost use Rattle.plan.specs.Lying.{has_point, lies_in, shares as meets, lies_in_some, type_lies};
ghost use Rattle.survey.specs.Kept.{Tied, is_type, kept_type, kept_of, kept_point, kept_lies, kept_shares, kept_holds, kept_lies_in_some, kept_fits, kept_type_lies};

use super::Survey;

impl Survey {
    /// How many places there are.
    pub fn count(&self) -> usize
        ensures kept { result ≡ self.now.count }
        ensures meant { (h : Hall) → Tied h self.now → result ≡ length h.places }
    {
        self.count
    }

    /// The type of a place, if the number is in use.
    pub fn type_of(&self, place: usize) -> Option<u8>
        ensures kept { result ≡ kept_type self.now place }
        ensures meant { (h : Hall) → Tied h self.now → result ≡ type_at h place }
    {
        self.places.get(place).and_then(|seen| seen.ty)
    }

    /// Whether two places share a point.
    pub fn share(&self, a: usize, b: usize) -> bool
        ensures kept { result ≡ kept_shares self.now a b }
        ensures meant { (h : Hall) → Tied h self.now → result ≡ meets h a b }
    {
        self.places.get(a).is_some_and(|seen| seen.shares.has(b))
    }

    /// Whether a place covers any point.
    pub fn has_point(&self, place: usize) -> bool
        ensures kept { result ≡ kept_point self.now place }
        ensures meant { (h : Hall) → Tied h self.now → result ≡ has_point h place }
    {
        self.share(place, place)
    }

    /// Whether every point of the one place belongs to the other.
    pub fn lies_in(&self, a: usize, b: usize) -> bool
        ensures kept { result ≡ kept_lies self.now a b }
        ensures meant { (h : Hall) → Tied h self.now → result ≡ lies_in h a b }
    {
        !self.has_point(a) || self.places.get(a).is_some_and(|seen| seen.lies.has(b))
    }

    /// Whether the number is in use and the place of that type.
    pub fn is_of(&self, place: usize, ty: u8) -> bool
        ensures kept { result ≡ kept_of self.now ty place }
        ensures meant { (h : Hall) → Tied h self.now → result ≡ is_type ty (type_at h place) }
    {
        self.type_of(place) == Some(ty)
    }

    /// Whether `other` is of that type and `place` lies in it.
    fn holds(&self, ty: u8, place: usize, other: usize) -> bool
        ensures { result ≡ kept_holds self.now ty place other }
    {
        self.is_of(other, ty) && self.lies_in(place, other)
    }

    /// Whether a place lies in some place of a type.
    pub fn lies_in_some(&self, place: usize, ty: u8) -> bool
        ensures kept { result ≡ kept_lies_in_some self.now ty place }
        ensures meant { (h : Hall) → Tied h self.now → result ≡ lies_in_some h ty place }
    {
        (0..self.count).any(|other| self.holds(ty, place, other))
    }

    /// Whether `place`, if it is of type `s`, lies in some place of type `t`.
    fn fits(&self, s: u8, t: u8, place: usize) -> bool
        ensures { result ≡ kept_fits self.now s t place }
    {
        !self.is_of(place, s) || self.lies_in_some(place, t)
    }

    /// Whether every place of type `s` lies in some place of type `t`.
    pub fn type_lies(&self, s: u8, t: u8) -> bool
        ensures kept { result ≡ kept_type_lies self.now s t }
        ensures meant { (h : Hall) → Tied h self.now → result ≡ type_lies h s t }
    {
        (0..self.count).all(|place| self.fits(s, t, place))
    }
}
