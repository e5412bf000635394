//! Any call as a value, and whole runs of calls from the sealing on.

ghost use Rattle.std.specs.Prelude.{◌≡◌, true, is_err, IfOk};
ghost use Rattle.guard.specs.Runs.{Lawful, Replays, Told, answers_of};
ghost use Rattle.guard.specs.Stands.{ContinuesBy, PerformsBy, UnsealedRefuses};
ghost use Rattle.guard.specs.declared.guard.RunFault.TheVariants.{Seal as InRun, Memory as NoMemory};

use super::{Guard, RunFault};
use calls::call::{Answer, Call, Event, Reply};
use checks::faults::SealFault;
use plan::Plan;
use std::alloc::{AllocError, Global};

impl From<SealFault> for RunFault {
    ghost from_gives = { λ e r. r ≡ InRun e };

    fn from(e: SealFault) -> RunFault {
        RunFault::Seal(e)
    }
}

impl From<AllocError> for RunFault {
    ghost from_gives = { λ e r. r ≡ NoMemory };

    fn from(_: AllocError) -> RunFault {
        RunFault::Memory
    }
}

impl<P: Plan> Guard<P> {
    /// Makes a call, whatever it is.
    pub fn perform(&mut self, call: Call) -> Answer
        ensures performs { PerformsBy P.Plan.hall self.old self.new call result }
        ensures law { ContinuesBy P.Plan.hall self.old self.new call result }
        ensures unsealed { UnsealedRefuses (P.Plan.hall self.old.site.plan) self.old result }
    {
        let badge = call.badge;
        match call.event {
            Event::Report { at } => self.report(badge, at).map(|()| Reply::Done),
            Event::Miss => self.miss(badge).map(|()| Reply::Done),
            Event::Open { session } => self.open(badge, session).map(|()| Reply::Done),
            Event::Close { session } => self.close(badge, session).map(|()| Reply::Done),
            Event::Activate { session, role } => self
                .activate(badge, session, role)
                .map(|()| Reply::Done),
            Event::Drop { session, role } => self.drop(badge, session, role).map(|()| Reply::Done),
            Event::Where { role } => self.place(badge, role).map(Reply::Place),
            Event::Enabled { role } => self.enabled(badge, role).map(Reply::Verdict),
            Event::Roles { session } => self.roles(badge, session).map(Reply::RoleSet),
            Event::Ask {
                session,
                operation,
                object,
            } => self
                .ask(badge, session, operation, object)
                .map(Reply::Granted),
        }
    }

    /// The answers to calls, in the order in which they come. The memory for them is taken first: where it does not
    /// suffice, no call is made.
    pub fn replay(&mut self, calls: &[Call], heap: Global) -> Result<Vec<Answer>, AllocError>
        ensures answers { IfOk result (λ v. Replays (P.Plan.hall self.old.site.plan) self.old self.new calls.now v.items) }
        ensures same { is_err result ≡ true → self.new ≡ self.old }
    {
        let mut answers = Vec::with_capacity(heap, calls.len())?;
        for call in calls {
            let answer = self.perform(*call);
            answers.push_reserved(answer);
        }
        Ok(answers)
    }
}

/// A guard newly sealed, and the answers to the calls made on it.
fn answered<P: Plan + Drop>(
    plan: P,
    words: &[u32],
    calls: &[Call],
    heap: Global,
) -> Result<Vec<Answer>, RunFault>
    ensures { Told (λ v. v.items) result (answers_of (P.Plan.hall plan) words.now calls.now) }
{
    let mut guard = Guard::new(plan, heap)?;
    guard.seal(words)?;
    Ok(guard.replay(calls, heap)?)
}

/// Seals the policy that the words say over a plan, makes the calls, and gives their answers. For every make of plan and
/// every list of calls: a role is active exactly when its activation was accepted there and no accepted drop of it or
/// close came after; asking grants exactly when a role active there and enabled has the right, and names the
/// lowest-numbered one; a badge enabled in a role is enabled in every ancestor of it; and striking out the calls that
/// name other badges changes no answer of a badge.
pub fn run<P: Plan + Drop>(
    plan: P,
    words: &[u32],
    calls: &[Call],
    heap: Global,
) -> Result<Vec<Answer>, RunFault>
    ensures answers { Told (λ v. v.items) result (answers_of (P.Plan.hall plan) words.now calls.now) }
    ensures law { Lawful (P.Plan.hall plan) words.now }
{
    answered(plan, words, calls, heap)
}
