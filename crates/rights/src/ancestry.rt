//! The ancestors of each role, from the closure of parents and the lying of places in one another.

ghost use Rattle.std.specs.Prelude.{◌≡◌, ℕ, Bool};
ghost use Rattle.policy.specs.Policies.{says};
ghost use Rattle.rights.specs.Ancestors.{ancestor_by};
ghost use Rattle.sets.specs.Rows.{cell};
ghost use Rattle.rights.specs.Tests.{RelatesBy};

use crate::table::table;
use policy::policy::Policy;
use sets::Set64;
use sets::rows::is_in;

/// Whether role `a` is an ancestor of role `r`.
fn is_above<L: Fn(u8, u8) -> bool>(
    policy: &Policy,
    reach: &[Set64; 32],
    lies: &L,
    r: usize,
    a: usize,
) -> bool
    requires { L.IsAlwaysCallable lies.now }
    ensures { (f : ℕ → ℕ → Bool) → RelatesBy 256 (L.post lies.now) f → result ≡ ancestor_by (cell reach.now) f (says policy.now) r a }
{
    if r < policy.role_count() && a < policy.role_count() {
        let low = policy.role(r);
        let high = policy.role(a);
        is_in(reach, low.schema as usize, high.schema as usize) && lies(low.extent, high.extent)
    } else {
        false
    }
}

/// Number `a` is in entry `r` when role `a` is an ancestor of role `r`, where `reach` tells which schema reaches which
/// and `lies` whether the first place lies in the second.
pub(crate) fn ancestors_by<L: Fn(u8, u8) -> bool>(
    policy: &Policy,
    reach: &[Set64; 32],
    lies: L,
) -> [Set64; 64]
    requires { L.IsAlwaysCallable lies }
    ensures { (f : ℕ → ℕ → Bool) → RelatesBy 256 (L.post lies) f → (r a : ℕ) → cell result r a ≡ ancestor_by (cell reach.now) f (says policy.now) r a }
{
    table(|r, a| is_above(policy, reach, &lies, r, a))
}

/// Number `a` is in entry `r` when role `a` is an ancestor of role `r`, where `reach` tells which schema reaches which
/// and `lies` which place lies in which.
pub fn ancestors(policy: &Policy, reach: &[Set64; 32], lies: &[Set64; 64]) -> [Set64; 64]
    ensures { (r a : ℕ) → cell result r a ≡ ancestor_by (cell reach.now) (cell lies.now) (says policy.now) r a }
{
    ancestors_by(policy, reach, |low, high| {
        is_in(lies, low as usize, high as usize)
    })
}
