//! Which points of the floor are in a zone.

ghost use Rattle.std.specs.Prelude.{◌≡◌};
ghost use Rattle.sets.specs.Member.{member};
ghost use Rattle.zones.specs.Piles.{in_zone};

use super::Rule;
use sets::Set64;

impl Rule {
    /// Whether a point of the floor is in the zone, where `covering` are the places of lower numbers that cover it.
    pub fn holds(self, covering: Set64) -> bool
        ensures { result ≡ in_zone self (member covering.bits) }
    {
        match self {
            Rule::Union(a, b) => covering.has(a) || covering.has(b),
            Rule::Intersection(a, b) => covering.has(a) && covering.has(b),
            Rule::Difference(a, b) => covering.has(a) && !covering.has(b),
            Rule::Outside(a) => !covering.has(a),
        }
    }
}
