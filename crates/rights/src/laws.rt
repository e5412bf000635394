//! Laws, each named in the contract of a function that has nothing else to do.

ghost use Rattle.rights.specs.Laws.{AncestorItself, AncestorMeans, AncestorOn, AncestorSame, EntitledMeans, EntitledSame, EntitledUp, ReachesItself, ReachesMeans, ReachesOn, RightDown, RightMeans, RightSame};

/// What `reaches` computes is the relation, each schema reaches itself, and what it reaches reaches on.
pub fn reaching_stands()
    ensures means { ReachesMeans }
    ensures itself { ReachesItself }
    ensures on { ReachesOn }
{}

/// What an ancestor is; a role is its own, an ancestor of an ancestor is one, and right tables give the ancestors.
pub fn ancestry_stands()
    ensures means { AncestorMeans }
    ensures itself { AncestorItself }
    ensures on { AncestorOn }
    ensures same { AncestorSame }
{}

/// What it is to have a right, that the rights of an ancestor come down, and that a right table gives the rights.
pub fn rights_stand()
    ensures means { RightMeans }
    ensures down { RightDown }
    ensures same { RightSame }
{}

/// What it is to be entitled, that it goes up to the ancestors, and that a right table gives what one is entitled to.
pub fn entitlement_stands()
    ensures means { EntitledMeans }
    ensures up { EntitledUp }
    ensures same { EntitledSame }
{}
