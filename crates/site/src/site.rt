//! A plan with the policy that is sealed over it.

use policy::policy::Policy;
use sets::Set64;

pub mod questions;
pub mod sealed;

ghost use Rattle.std.specs.Prelude.{◌≡◌};
ghost use Rattle.policy.specs.Policies.{says};
ghost use Rattle.site.specs.Blank.{record_count};

/// A plan, the policy, and what sealing found of both. Before sealing the policy has no badges and no records.
#[derive(Drop)]
pub struct Site<P> {
    plan: P,
    policy: Policy,
    // Two tables by role, not one of pairs: the questions of rights and of entitlement take the ancestors alone.
    /// Number p is in entry r when place p lies in the extent of role r.
    inside: [Set64; 64],
    /// Number a is in entry r when role a is an ancestor of role r.
    above: [Set64; 64],
    ghost blank: { ((says policy).badges ≡ 0 → record_count (says policy) ≡ 0) },
}
