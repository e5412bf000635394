//! The places that lie in the extent of each role.

ghost use Rattle.std.specs.Prelude.{◌≡◌, ℕ, ◌≤◌, length};
ghost use Rattle.plan.specs.Hall.{Hall, most_places};
ghost use Rattle.plan.specs.Lying.{lies_in};
ghost use Rattle.survey.specs.Kept.{Tied};
ghost use Rattle.policy.specs.Policies.{says};
ghost use Rattle.rights.specs.Extents.{extent_holds};
ghost use Rattle.sets.specs.Rows.{cell};

use crate::table::table;
use policy::policy::Policy;
use sets::Set64;
use survey::Survey;

/// Number `p` is in entry `r` when place `p` lies in the extent of role `r` over the plan that was surveyed.
pub fn extents(policy: &Policy, survey: &Survey) -> [Set64; 64]
    ensures { (h : Hall) → length h.places ≤ most_places → Tied h survey.now → (r p : ℕ) → cell result r p ≡ extent_holds (length h.places) (lies_in h) (says policy.now) r p }
{
    table(|r, p| {
        (r < policy.role_count() && p < survey.count())
            && survey.lies_in(p, policy.role(r).extent as usize)
    })
}
