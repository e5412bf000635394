//! By which role a right is granted, and which roles are active and enabled.

ghost use Rattle.std.specs.Prelude.{◌≡◌};
ghost use Rattle.calls.specs.declared.call.Event.TheVariants.{Roles, Ask};
ghost use Rattle.decide.specs.Answers.{gathered as gathered_by, granted};
ghost use Rattle.decide.specs.Subjects.{reply_by};

use crate::subject::Subject;
use calls::refusal::Refusal;
use plan::Plan;
use search::{any, gather, lowest};
use sets::Set64;

impl<'a, P: Plan> Subject<'a, P> {
    /// The lowest-numbered role, active and enabled, that has the right, or why there is none.
    pub fn ask(&self, session: u16, operation: u16, object: u16) -> Result<usize, Refusal>
        ensures { granted result ≡ reply_by P.Plan.hall self.now (Ask session operation object) }
    {
        self.open_session(session)?;
        if operation > 15 || object > 255 {
            return Err(Refusal::UnknownRight);
        }
        let roles = self.site.role_count();
        let serves = |role: usize| {
            self.badge.is_active(session, role) && self.site.has_right(role, operation, object)
        };
        if !any(roles, |role| serves(role)) {
            return Err(Refusal::NoRole);
        }
        if !any(roles, |role| serves(role) && self.is_patient(role)) {
            return Err(Refusal::OutOfPatience);
        }
        lowest(roles, |role| serves(role) && self.is_enabled(role)).ok_or(Refusal::NotEnabled)
    }

    /// The roles that are active in a session and enabled, or why there is no such session.
    pub fn roles(&self, session: u16) -> Result<Set64, Refusal>
        ensures { gathered_by result ≡ reply_by P.Plan.hall self.now (Roles session) }
    {
        self.open_session(session)?;
        Ok(gather(|role| self.badge.is_active(session, role) && self.is_enabled(role)))
    }
}
