//! The lines that plancheck prints for a script to read.

#![tactic(auto)]

ghost use Rattle.std.specs.Prelude.{◌≡◌, IfOk, string_bytes};
ghost use Rattle.policy.specs.Policies.{says};
ghost use Rattle.planlines.specs.Lines.{plan_line as plan_line_spec, zones_line as zones_line_spec, place_line as place_line_spec, policy_line as policy_line_spec, fault_line as fault_line_spec, map_line as map_line_spec};

use plan::Plan;
use planview::points;
use policy::policy::Policy;
use std::alloc::{AllocError, Global};
use wordlist::faults::Told;

// Functions, and no types that print themselves: each would borrow a plan or a policy for the one line that it is.

/// A plan was read: its floor and the number of its places.
pub fn plan_line<P: Plan>(heap: Global, plan: &P) -> Result<String, AllocError>
    ensures { IfOk result (λ s. string_bytes s ≡ plan_line_spec (P.hall plan.now)) }
{
    let width = plan.width();
    let height = plan.height();
    let count = plan.count();
    format!(in heap; "plan ok {width} {height} {count}")
}

/// Zones were put over a plan: the number of places in all.
pub fn zones_line<P: Plan>(heap: Global, plan: &P) -> Result<String, AllocError>
    ensures { IfOk result (λ s. string_bytes s ≡ zones_line_spec (P.hall plan.now)) }
{
    let count = plan.count();
    format!(in heap; "zones ok {count}")
}

/// A policy was read: how many badges, schemas, parent records and roles it has.
pub fn policy_line(heap: Global, policy: &Policy) -> Result<String, AllocError>
    ensures { IfOk result (λ s. string_bytes s ≡ policy_line_spec (says policy.now)) }
{
    let badges = policy.badges();
    let schemas = policy.schema_count();
    let parents = policy.parent_count();
    let roles = policy.role_count();
    format!(in heap; "policy ok badges {badges} schemas {schemas} parents {parents} roles {roles}")
}

/// The type of a place and how many points it covers; a number not in use counts as type 0.
pub fn place_line<P: Plan>(heap: Global, plan: &P, place: usize) -> Result<String, AllocError>
    ensures { IfOk result (λ s. string_bytes s ≡ place_line_spec (P.hall plan.now) place) }
{
    let ty = plan.type_of(place).unwrap_or(0);
    let count = points(plan, place);
    format!(in heap; "place {place} type {ty} points {count}")
}

/// Above the picture of a place.
pub fn map_line(heap: Global, place: usize) -> Result<String, AllocError>
    ensures { IfOk result (λ s. string_bytes s ≡ map_line_spec place) }
{
    format!(in heap; "map {place}")
}

/// A section was refused.
pub fn fault_line(heap: Global, section: &str, told: Told) -> Result<String, AllocError>
    ensures { IfOk result (λ s. string_bytes s ≡ fault_line_spec section.now told) }
{
    let number = told.number;
    let layer = told.layer;
    let [first, second, third] = told.figures;
    format!(in heap; "{section} fault {number} layer {layer} figures {first} {second} {third}")
}
