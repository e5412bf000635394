//! Which schemas are reached from which by steps from child to parent.

ghost use Rattle.std.specs.Prelude.{◌≡◌, ℕ, ◌<◌, ◌==◌};
ghost use Rattle.policy.specs.Policies.{says};
ghost use Rattle.rights.specs.Reach.{reaches};
ghost use Rattle.sets.specs.Member.{member};
ghost use Rattle.sets.specs.Rows.{cell};

use policy::policy::Policy;
use sets::Set64;
use std::array;

/// Schema `s` alone.
fn alone(s: usize) -> Set64
    ensures { s < 64 → (a : ℕ) → member result.bits a ≡ (a == s) }
{
    Set64::none().with(s)
}

/// Each schema alone.
fn selves() -> [Set64; 32]
    ensures { (s a : ℕ) → s < 32 → cell result s a ≡ (a == s) }
{
    array::from_fn(alone)
}

/// Number `a` is in entry `s` when schema `a` is schema `s` or is reached from it. One pass over the records is enough:
/// they come in the order of their children, and a parent is below its child.
pub fn closure(policy: &Policy) -> [Set64; 32]
    ensures { (s a : ℕ) → s < 32 → cell result s a ≡ reaches (says policy.now) s a }
{
    let mut rows = selves();
    for step in policy.parents() {
        rows[step.child as usize] = rows[step.child as usize].or(rows[step.parent as usize]);
    }
    rows
}
