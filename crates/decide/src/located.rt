//! Where a badge is for a role, and whether the role is enabled and has patience enough.

ghost use Rattle.std.specs.Prelude.{◌≡◌};
ghost use Rattle.calls.specs.Kept.{standing_of};
ghost use Rattle.calls.specs.declared.call.Event.TheVariants.{Where, Enabled};
ghost use Rattle.history.specs.Questions.{where_is, is_enabled as enabled_by, is_patient as patient_by};
ghost use Rattle.decide.specs.Answers.{placed, judged};
ghost use Rattle.decide.specs.Subjects.{over, reply_by};

use crate::subject::Subject;
use calls::badge::Heard;
use calls::refusal::Refusal;
use plan::Plan;

impl<'a, P: Plan> Subject<'a, P> {
    /// The place where the badge is for a role.
    pub fn place_of(&self, role: usize) -> Option<usize>
        ensures { result ≡ where_is (over P.Plan.hall self.now) (standing_of self.now.badge.now) role }
    {
        let Heard { at, misses } = self.badge.track()?;
        self.site.place_for(role, at, misses)
    }

    /// Whether a role is enabled for the badge: where it is lies in the role's extent.
    pub fn is_enabled(&self, role: usize) -> bool
        ensures { result ≡ enabled_by (over P.Plan.hall self.now) (standing_of self.now.badge.now) role }
    {
        // where the badge is comes first, and without it nothing is asked
        let Some(place) = self.place_of(role) else {
            return false;
        };
        self.site.holds(role, place)
    }

    /// Whether the badge was heard and a role bears its misses.
    pub fn is_patient(&self, role: usize) -> bool
        ensures { result ≡ patient_by (over P.Plan.hall self.now) (standing_of self.now.badge.now) role }
    {
        self.badge
            .track()
            .is_some_and(|heard| self.site.bears(role, heard.misses))
    }

    /// The answer to the question where the badge is for a role.
    pub fn place(&self, role: u16) -> Result<Option<usize>, Refusal>
        ensures { placed result ≡ reply_by P.Plan.hall self.now (Where role) }
    {
        self.of_role(role)?;
        Ok(self.place_of(role as usize))
    }

    /// The answer to the question whether a role is enabled for the badge.
    pub fn enabled(&self, role: u16) -> Result<bool, Refusal>
        ensures { judged result ≡ reply_by P.Plan.hall self.now (Enabled role) }
    {
        self.of_role(role)?;
        Ok(self.is_enabled(role as usize))
    }
}
