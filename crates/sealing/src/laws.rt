//! Laws of sealed policies, each named in the contract of a function that has nothing else to do.

ghost use Rattle.sealing.specs.Laws.{EnabledUp, SealedFits, SealedLineage};

/// A sealed policy fits its hall, its ancestors are a preorder, and what is enabled in a role is enabled in its ancestors.
pub fn sealing_stands()
    ensures fits { SealedFits }
    ensures lineage { SealedLineage }
    ensures enabled { EnabledUp }
{}
