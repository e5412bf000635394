//! The order of keys is total, and the orders of the two kinds of key.

ghost use Rattle.std.specs.Prelude.{◌≡◌};
ghost use Rattle.keyed.specs.Models.{pair_less, triple_less};
ghost use Rattle.keyed.specs.Orders.{below, Irreflexive, Transitive, Total};
ghost use Rattle.keyed.specs.declared.pair.Pair.{Pair};
ghost use Rattle.keyed.specs.declared.triple.Triple.{Triple};

use super::keys::KeyOrd;
use super::pair::Pair;
use super::triple::Triple;

/// Of every kind of key: no key is below itself, what is below a lower key is below the higher one, and of two keys one
/// is below the other or they are the same.
pub fn key_order_stands<K: KeyOrd>()
    ensures irreflexive { Irreflexive (below K.cmp) }
    ensures transitive { Transitive (below K.cmp) }
    ensures total { Total (below K.cmp) }
{}

/// The derived orders compare field by field, the highest first, and that is a total order.
pub fn orders_stand()
    ensures pairs { (a b : Pair) → below ⟦<Pair as Ord>⟧.cmp a b ≡ pair_less a b }
    ensures pairs_irreflexive { Irreflexive pair_less }
    ensures pairs_transitive { Transitive pair_less }
    ensures pairs_total { Total pair_less }
    ensures triples { (a b : Triple) → below ⟦<Triple as Ord>⟧.cmp a b ≡ triple_less a b }
    ensures triples_irreflexive { Irreflexive triple_less }
    ensures triples_transitive { Transitive triple_less }
    ensures triples_total { Total triple_less }
{}
