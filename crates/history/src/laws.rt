//! Laws of every list of calls, each named in the contract of a function that has nothing else to do.

ghost use Rattle.history.specs.Laws.{ActiveMeans, ClosedEmpty, EnabledAbove, GrantsExactly, Struck, StruckRuns};

/// A role is active exactly when its activation was accepted there and no accepted drop of it or close came after; and
/// none is active in a session that is not open.
pub fn activity_stands()
    ensures means { ActiveMeans }
    ensures empty { ClosedEmpty }
{}

/// Asking grants exactly when a role active there and enabled has the right, and names the lowest-numbered one.
pub fn granting_stands()
    ensures { GrantsExactly }
{}

/// A badge enabled in a role is enabled in every ancestor of it.
pub fn ancestors_stand()
    ensures { EnabledAbove }
{}

/// Striking out the calls that name other badges changes no answer of a badge.
pub fn striking_stands()
    ensures one { Struck }
    ensures runs { StruckRuns }
{}
