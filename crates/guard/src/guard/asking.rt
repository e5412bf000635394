//! The questions that a guard answers.

ghost use Rattle.calls.specs.declared.call.Event.TheVariants.{Where, Enabled, Roles, Ask};
ghost use Rattle.decide.specs.Answers.{placed, judged, gathered, granted};
ghost use Rattle.history.specs.Laws.{call};
ghost use Rattle.guard.specs.Stands.{ContinuesBy, Grants, PerformsBy};

use super::Guard;
use calls::badge::Badge;
use calls::refusal::Refusal;
use plan::Plan;
use sets::Set64;

impl<P: Plan> Guard<P> {
    /// The place where a badge is for a role: none if it was never heard, was missed too often or stands at no place of
    /// the role's logic type.
    pub fn place(&self, badge: u16, role: u16) -> Result<Option<usize>, Refusal>
        ensures performs { PerformsBy P.Plan.hall self.now self.now (call badge (Where role)) (placed result) }
        ensures law { ContinuesBy P.Plan.hall self.now self.now (call badge (Where role)) (placed result) }
    {
        let fresh = Badge::fresh();
        let kept = self.kept(badge, &fresh);
        self.subject(badge, kept).place(role)
    }

    /// Whether a role is enabled for a badge: it is at a place that lies in the role's extent.
    pub fn enabled(&self, badge: u16, role: u16) -> Result<bool, Refusal>
        ensures performs { PerformsBy P.Plan.hall self.now self.now (call badge (Enabled role)) (judged result) }
        ensures law { ContinuesBy P.Plan.hall self.now self.now (call badge (Enabled role)) (judged result) }
    {
        let fresh = Badge::fresh();
        let kept = self.kept(badge, &fresh);
        self.subject(badge, kept).enabled(role)
    }

    /// The roles that are active in a session of the badge and enabled.
    pub fn roles(&self, badge: u16, session: u16) -> Result<Set64, Refusal>
        ensures performs { PerformsBy P.Plan.hall self.now self.now (call badge (Roles session)) (gathered result) }
        ensures law { ContinuesBy P.Plan.hall self.now self.now (call badge (Roles session)) (gathered result) }
    {
        let fresh = Badge::fresh();
        let kept = self.kept(badge, &fresh);
        self.subject(badge, kept).roles(session)
    }

    /// The lowest-numbered role by which a badge is granted an operation on an object in a session: the role is active
    /// there and enabled, and has the right itself or by an ancestor.
    pub fn ask(
        &self,
        badge: u16,
        session: u16,
        operation: u16,
        object: u16,
    ) -> Result<usize, Refusal>
        ensures performs { PerformsBy P.Plan.hall self.now self.now (call badge (Ask session operation object)) (granted result) }
        ensures law { ContinuesBy P.Plan.hall self.now self.now (call badge (Ask session operation object)) (granted result) }
        ensures exactly { Grants (P.Plan.hall self.now.site.plan) self.now badge session operation object (granted result) }
    {
        let fresh = Badge::fresh();
        let kept = self.kept(badge, &fresh);
        self.subject(badge, kept).ask(session, operation, object)
    }
}
