//! Why a call or a question is refused, if it is: the reasons in the order in which they are tried.

ghost use Rattle.std.specs.Prelude.{◌≡◌, [], ◌∷◌};
ghost use Rattle.std.specs.Result.{result_err};
ghost use Rattle.calls.specs.Kept.{standing_of};
ghost use Rattle.calls.specs.declared.call.Event.TheVariants.{Report, Miss, Open, Activate, Drop as Dropped, Where, Enabled};
ghost use Rattle.history.specs.Refusals.{first_reason, no_badge, no_session, not_open, no_role};
ghost use Rattle.decide.specs.Subjects.{over, refused_by};

use crate::subject::Subject;
use calls::badge::SESSIONS;
use calls::refusal::Refusal;
use plan::Plan;
use point::Point;

// Each list of reasons names the ground and how the badge stands, as the reasons do.
impl<'a, P: Plan> Subject<'a, P> {
    /// Refused where there is no such badge.
    fn known_badge(&self) -> Result<(), Refusal>
        ensures { result_err result ≡ first_reason (no_badge (over P.Plan.hall self.now) (standing_of self.now.badge.now) self.now.number ∷ []) }
    {
        if self.number >= u16::from(self.site.badges()) {
            return Err(Refusal::UnknownBadge);
        }
        Ok(())
    }

    /// Refused where there is no such badge, or no such session.
    fn known_session(&self, session: u16) -> Result<(), Refusal>
        ensures { result_err result ≡ first_reason (no_badge (over P.Plan.hall self.now) (standing_of self.now.badge.now) self.now.number ∷ no_session (over P.Plan.hall self.now) (standing_of self.now.badge.now) session ∷ []) }
    {
        self.known_badge()?;
        if session >= SESSIONS {
            return Err(Refusal::UnknownSession);
        }
        Ok(())
    }

    /// Refused where there is no such role.
    fn known_role(&self, role: u16) -> Result<(), Refusal>
        ensures { result_err result ≡ first_reason (no_role (over P.Plan.hall self.now) (standing_of self.now.badge.now) role ∷ []) }
    {
        if role as usize >= self.site.role_count() {
            return Err(Refusal::UnknownRole);
        }
        Ok(())
    }

    /// Refused where a session cannot be asked of: no such badge, no such session, or it is not open.
    pub fn open_session(&self, session: u16) -> Result<(), Refusal>
        ensures { result_err result ≡ first_reason (no_badge (over P.Plan.hall self.now) (standing_of self.now.badge.now) self.now.number ∷ no_session (over P.Plan.hall self.now) (standing_of self.now.badge.now) session ∷ not_open (over P.Plan.hall self.now) (standing_of self.now.badge.now) session ∷ []) }
    {
        self.known_session(session)?;
        if !self.badge.is_open(session) {
            return Err(Refusal::NotOpen);
        }
        Ok(())
    }

    /// Whether a report is refused.
    pub fn report(&self, at: Point) -> Result<(), Refusal>
        ensures { result_err result ≡ refused_by P.Plan.hall self.now (Report at) }
    {
        self.known_badge()?;
        if !self.site.is_on_floor(at) {
            return Err(Refusal::OffFloor);
        }
        Ok(())
    }

    /// Whether a miss is refused.
    pub fn miss(&self) -> Result<(), Refusal>
        ensures { result_err result ≡ refused_by P.Plan.hall self.now Miss }
    {
        self.known_badge()
    }

    /// Whether an opening is refused.
    pub fn open(&self, session: u16) -> Result<(), Refusal>
        ensures { result_err result ≡ refused_by P.Plan.hall self.now (Open session) }
    {
        self.known_session(session)?;
        if self.badge.is_open(session) {
            return Err(Refusal::AlreadyOpen);
        }
        Ok(())
    }

    /// Whether an activation is refused.
    pub fn activate(&self, session: u16, role: u16) -> Result<(), Refusal>
        ensures { result_err result ≡ refused_by P.Plan.hall self.now (Activate session role) }
    {
        self.open_session(session)?;
        self.known_role(role)?;
        if !self.site.is_entitled(self.number, role) {
            return Err(Refusal::NotEntitled);
        }
        if self.badge.is_active(session, role as usize) {
            return Err(Refusal::AlreadyActive);
        }
        Ok(())
    }

    /// Whether a drop is refused.
    pub fn drop(&self, session: u16, role: u16) -> Result<(), Refusal>
        ensures { result_err result ≡ refused_by P.Plan.hall self.now (Dropped session role) }
    {
        self.open_session(session)?;
        self.known_role(role)?;
        if !self.badge.is_active(session, role as usize) {
            return Err(Refusal::NotActive);
        }
        Ok(())
    }

    /// Whether a question about a role is refused.
    pub fn of_role(&self, role: u16) -> Result<(), Refusal>
        ensures place { result_err result ≡ refused_by P.Plan.hall self.now (Where role) }
        ensures enabled { result_err result ≡ refused_by P.Plan.hall self.now (Enabled role) }
    {
        self.known_badge()?;
        self.known_role(role)
    }
}
