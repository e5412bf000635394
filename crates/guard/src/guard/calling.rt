//! The calls that tell a guard something.

ghost use Rattle.std.specs.Prelude.{◌≡◌, ℕ};
ghost use Rattle.std.specs.Result.{result_err};
ghost use Rattle.calls.specs.Kept.{standing_of};
ghost use Rattle.calls.specs.Standing.{nothing_yet};
ghost use Rattle.calls.specs.declared.call.Event.{Event};
ghost use Rattle.calls.specs.declared.call.Event.TheVariants.{Report, Miss, Open, Close, Activate, Drop as Dropped};
ghost use Rattle.decide.specs.Answers.{done};
ghost use Rattle.decide.specs.Subjects.{refused_by, reply_by};
ghost use Rattle.history.specs.Laws.{call};
ghost use Rattle.history.specs.Refusals.{refusal as refusal_of};
ghost use Rattle.history.specs.Replies.{reply};
ghost use Rattle.guard.specs.Kept.{kept_of, ground_in};
ghost use Rattle.guard.specs.Stands.{ContinuesBy, PerformsBy, kept_after};

use super::Guard;
use calls::badge::Badge;
use calls::call::Event;
use calls::refusal::Refusal;
use decide::subject::Subject;
use plan::Plan;
use point::Point;

impl<P: Plan> Guard<P> {
    /// What is kept of a badge, lent and not copied; one that is not there was never heard, as the badge beside it.
    pub(crate) fn kept<'a>(&'a self, badge: u16, fresh: &'a Badge) -> &'a Badge
        ensures { standing_of fresh.now ≡ nothing_yet → standing_of result.now ≡ kept_of self.now badge }
    {
        self.badges.get(badge as usize).unwrap_or(fresh)
    }

    /// A badge by its number and by what is kept of it, over the site.
    pub(crate) fn subject<'a>(&'a self, badge: u16, kept: &'a Badge) -> Subject<'a, P>
        ensures refuses { (e : Event) → refused_by P.Plan.hall result e ≡ refusal_of (ground_in (P.Plan.hall self.now.site.plan) self.now) (standing_of kept.now) (call badge e) }
        ensures replies { (e : Event) → reply_by P.Plan.hall result e ≡ reply (ground_in (P.Plan.hall self.now.site.plan) self.now) (standing_of kept.now) (call badge e) }
    {
        Subject {
            site: &self.site,
            number: badge,
            badge: kept,
        }
    }

    /// Takes an event of a badge, if it is not refused.
    fn take(&mut self, badge: u16, event: Event) -> Result<(), Refusal>
        ensures refused { result_err result ≡ refusal_of (ground_in (P.Plan.hall self.old.site.plan) self.old) (kept_of self.old badge) (call badge event) }
        ensures site { self.new.site ≡ self.old.site }
        ensures kept { (b : ℕ) → kept_of self.new b ≡ kept_after (P.Plan.hall self.old.site.plan) self.old (call badge event) b }
    {
        let fresh = Badge::fresh();
        let kept = self.kept(badge, &fresh);
        self.subject(badge, kept).refusal(event)?;
        self.badges[badge as usize].apply(event);
        Ok(())
    }

    /// The badge was heard at a point: this is its position, with no misses.
    pub fn report(&mut self, badge: u16, at: Point) -> Result<(), Refusal>
        ensures performs { PerformsBy P.Plan.hall self.old self.new (call badge (Report at)) (done result) }
        ensures law { ContinuesBy P.Plan.hall self.old self.new (call badge (Report at)) (done result) }
    {
        self.take(badge, Event::Report { at })
    }

    /// A sweep did not hear the badge: one miss more, up to the most; a badge never heard stays so.
    pub fn miss(&mut self, badge: u16) -> Result<(), Refusal>
        ensures performs { PerformsBy P.Plan.hall self.old self.new (call badge (Miss)) (done result) }
        ensures law { ContinuesBy P.Plan.hall self.old self.new (call badge (Miss)) (done result) }
    {
        self.take(badge, Event::Miss)
    }

    /// Opens a session of the badge, with no role active.
    pub fn open(&mut self, badge: u16, session: u16) -> Result<(), Refusal>
        ensures performs { PerformsBy P.Plan.hall self.old self.new (call badge (Open session)) (done result) }
        ensures law { ContinuesBy P.Plan.hall self.old self.new (call badge (Open session)) (done result) }
    {
        self.take(badge, Event::Open { session })
    }

    /// Closes a session of the badge, and ends all that is active in it.
    pub fn close(&mut self, badge: u16, session: u16) -> Result<(), Refusal>
        ensures performs { PerformsBy P.Plan.hall self.old self.new (call badge (Close session)) (done result) }
        ensures law { ContinuesBy P.Plan.hall self.old self.new (call badge (Close session)) (done result) }
    {
        self.take(badge, Event::Close { session })
    }

    /// Makes a role active in a session of the badge.
    pub fn activate(&mut self, badge: u16, session: u16, role: u16) -> Result<(), Refusal>
        ensures performs { PerformsBy P.Plan.hall self.old self.new (call badge (Activate session role)) (done result) }
        ensures law { ContinuesBy P.Plan.hall self.old self.new (call badge (Activate session role)) (done result) }
    {
        self.take(badge, Event::Activate { session, role })
    }

    /// Makes a role inactive in a session of the badge.
    pub fn drop(&mut self, badge: u16, session: u16, role: u16) -> Result<(), Refusal>
        ensures performs { PerformsBy P.Plan.hall self.old self.new (call badge (Dropped session role)) (done result) }
        ensures law { ContinuesBy P.Plan.hall self.old self.new (call badge (Dropped session role)) (done result) }
    {
        self.take(badge, Event::Drop { session, role })
    }
}
