//! What holds of every hall: what lying in a place and sharing a point say of points.

ghost use Rattle.survey.specs.Laws.{LiesMeans, LiesReflexive, LiesTransitive, SharesMeans, SharesSymmetric, PointMeans, SomeMeans, TypesMean};

/// To lie in a place is to have every point in it, so it is reflexive and transitive; to share is to have a point in both.
/// A type lies in another when each place of the one lies in some place of the other.
pub fn lying_stands()
    ensures lies { LiesMeans }
    ensures reflexive { LiesReflexive }
    ensures transitive { LiesTransitive }
    ensures shares { SharesMeans }
    ensures symmetric { SharesSymmetric }
    ensures point { PointMeans }
    ensures places { SomeMeans }
    ensures types { TypesMean }
{}
