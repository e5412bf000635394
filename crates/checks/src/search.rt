//! The search for the first fault: each check goes over everything before the next begins.

ghost use Rattle.std.specs.Prelude.{◌≡◌, ℕ, not, length, Option as Maybe};
ghost use Rattle.std.specs.Result.{result_err};
ghost use Rattle.sets.specs.Bounds.{first_of, when};
ghost use Rattle.plan.specs.Hall.{Hall};
ghost use Rattle.survey.specs.Kept.{Tied};
ghost use Rattle.policy.specs.Policies.{says};
ghost use Rattle.policy.specs.Contents.{schema_at};
ghost use Rattle.checks.specs.declared.faults.SealFault.{SealFault as Found};
ghost use Rattle.checks.specs.Sight.{sight_of, kept};
ghost use Rattle.checks.specs.Faults.{types_lie as types_lie_spec, empty, misplaced, outsides, overlap, all_overlaps, unlike, impatient, first_fault as first_fault_spec};
ghost use Rattle.checks.specs.Cases.{FindsBy, of_case};

use crate::faults::SealFault;
use policy::policy::Policy;
use records::kinds::{Parent, Schema};
use survey::Survey;

/// The fault, where the test holds.
fn refuse_if(refused: bool, fault: SealFault) -> Result<(), SealFault>
    ensures { result_err result ≡ when refused fault }
{
    if refused { Err(fault) } else { Ok(()) }
}

/// What the check finds at the lowest number below `n` at which it finds anything.
fn first<F: Fn(usize) -> Result<(), SealFault>>(n: usize, check: F) -> Result<(), SealFault>
    requires { F.IsAlwaysCallable check }
    ensures { (finds : ℕ → Maybe Found) → FindsBy n (F.post check) finds → result_err result ≡ first_of n finds }
{
    // no `try_for_each`: no lemma says what it answers over a range
    for k in 0..n {
        check(k)?;
    }
    Ok(())
}

/// Whether the extent type of the one schema lies in that of the other, and the logic type likewise.
fn types_lie(survey: &Survey, child: Schema, parent: Schema) -> bool
    ensures { result ≡ types_lie_spec (kept survey.now) child parent }
{
    survey.type_lies(child.extent, parent.extent) && survey.type_lies(child.logic, parent.logic)
}

/// A policy over what was seen of a plan.
// The public functions of rights and checks take the two apart, as sealing has them.
#[derive(Clone, Copy)]
struct Case<'a> {
    survey: &'a Survey,
    policy: &'a Policy,
}

impl<'a> Case<'a> {
    /// The fault of a place that covers no point.
    fn empty(self, place: usize) -> Result<(), SealFault>
        ensures { result_err result ≡ of_case empty self.entry place }
    {
        refuse_if(!self.survey.has_point(place), SealFault::Empty { place })
    }

    /// The fault of a role whose extent is no place of its schema's extent type.
    fn misplaced(self, role: usize) -> Result<(), SealFault>
        ensures { result_err result ≡ of_case misplaced self.entry role }
    {
        let own = self.policy.role(role);
        let schema = self.policy.schema(own.schema as usize);
        let placed = self.survey.is_of(own.extent as usize, schema.extent);
        refuse_if(!placed, SealFault::Misplaced { role })
    }

    /// The fault of the first logic place of the schema that lies in no place of its extent type.
    fn outside(self, schema: usize) -> Result<(), SealFault>
        ensures { result_err result ≡ of_case outsides self.entry schema }
    {
        let own = self.policy.schema(schema);
        first(self.survey.count(), |place| {
            let typed = self.survey.is_of(place, own.logic);
            let outside = typed && !self.survey.lies_in_some(place, own.extent);
            refuse_if(outside, SealFault::Outside { schema, place })
        })
    }

    /// The fault of a logic place of the schema that shares a point with a place of its extent type and does not lie in it.
    fn overlap(self, schema: usize, logic: usize, extent: usize) -> Result<(), SealFault>
        ensures { result_err result ≡ of_case overlap self.entry schema logic extent }
    {
        let own = self.policy.schema(schema);
        let typed = self.survey.is_of(logic, own.logic) && self.survey.is_of(extent, own.extent);
        let crossed = self.survey.share(logic, extent) && !self.survey.lies_in(logic, extent);
        refuse_if(
            typed && crossed,
            SealFault::Overlap {
                schema,
                logic,
                extent,
            },
        )
    }

    /// The first overlap: lowest schema, then lowest logic place, then lowest place of the extent type.
    fn first_overlap(self) -> Result<(), SealFault>
        ensures { result_err result ≡ first_of (length (says self.entry.policy.now).schemas) (of_case all_overlaps self.entry) }
    {
        // the order of the three searches is that of the loops, which the first overlap leaves by their label
        let mut found = Ok(());
        'search: for s in 0..self.policy.schema_count() {
            for l in 0..self.survey.count() {
                for e in 0..self.survey.count() {
                    found = self.overlap(s, l, e);
                    if found.is_err() {
                        break 'search;
                    }
                }
            }
        }
        found
    }

    /// The schemas of a step, the lower one first.
    fn schemas(self, step: Parent) -> (Schema, Schema)
        ensures { result ≡ (schema_at (says self.entry.policy.now) step.child, schema_at (says self.entry.policy.now) step.parent) }
    {
        (
            self.policy.schema(step.child as usize),
            self.policy.schema(step.parent as usize),
        )
    }

    /// The fault of a child whose types do not lie in those of its parent.
    fn unlike(self, k: usize) -> Result<(), SealFault>
        ensures { result_err result ≡ of_case unlike self.entry k }
    {
        let step = self.policy.parent(k);
        let (child, parent) = self.schemas(step);
        refuse_if(
            !types_lie(self.survey, child, parent),
            SealFault::Unlike {
                child: step.child as usize,
                parent: step.parent as usize,
            },
        )
    }

    /// The fault of a parent that is less patient than its child.
    fn impatient(self, k: usize) -> Result<(), SealFault>
        ensures { result_err result ≡ of_case impatient self.entry k }
    {
        let step = self.policy.parent(k);
        let (child, parent) = self.schemas(step);
        refuse_if(
            parent.patience < child.patience,
            SealFault::Impatient {
                child: step.child as usize,
                parent: step.parent as usize,
            },
        )
    }

    /// The checks in their order.
    fn first_fault(self) -> Result<(), SealFault>
        ensures { result_err result ≡ of_case first_fault_spec self.entry }
    {
        first(self.survey.count(), |place| self.empty(place))?;
        first(self.policy.role_count(), |role| self.misplaced(role))?;
        first(self.policy.schema_count(), |schema| self.outside(schema))?;
        self.first_overlap()?;
        first(self.policy.parent_count(), |k| self.unlike(k))?;
        first(self.policy.parent_count(), |k| self.impatient(k))
    }
}

/// The first fault of the policy over the plan that was surveyed.
pub fn first_fault<'a>(survey: &'a Survey, policy: &'a Policy) -> Result<(), SealFault>
    ensures kept { result_err result ≡ first_fault_spec (kept survey.now) (says policy.now) }
    ensures meant { (h : Hall) → Tied h survey.now → result_err result ≡ first_fault_spec (sight_of h) (says policy.now) }
{
    Case { survey, policy }.first_fault()
}
