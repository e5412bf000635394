//! The ancestors of each role over a plan that was surveyed.

ghost use Rattle.std.specs.Prelude.{◌≡◌, ℕ};
ghost use Rattle.plan.specs.Hall.{Hall};
ghost use Rattle.plan.specs.Lying.{lies_in};
ghost use Rattle.survey.specs.Kept.{Tied, kept_lies};
ghost use Rattle.policy.specs.Policies.{says};
ghost use Rattle.rights.specs.Ancestors.{ancestor};
ghost use Rattle.sets.specs.Rows.{cell};

use crate::ancestry::ancestors_by;
use crate::closure::closure;
use policy::policy::Policy;
use sets::Set64;
use survey::Survey;

/// Number `a` is in entry `r` when role `a` is an ancestor of role `r` over the plan that was surveyed.
pub fn ancestors_over(policy: &Policy, survey: &Survey) -> [Set64; 64]
    ensures kept { (r a : ℕ) → cell result r a ≡ ancestor (kept_lies survey.now) (says policy.now) r a }
    ensures meant { (h : Hall) → Tied h survey.now → (r a : ℕ) → cell result r a ≡ ancestor (lies_in h) (says policy.now) r a }
{
    let reach = closure(policy);
    ancestors_by(policy, &reach, |low, high| {
        survey.lies_in(low as usize, high as usize)
    })
}
