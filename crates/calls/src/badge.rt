//! What is kept of one badge.

ghost use Rattle.std.specs.Prelude.{◌≡◌, ℕ, true, false, not, ◌&&◌, ◌||◌, ◌==◌, nat_lt};
ghost use Rattle.std.specs.Fn.{FnOnceReturnsAtMut};
ghost use Rattle.calls.specs.Kept.{standing_of, track_only, track_position, track_misses, holds, ChangedAt};
ghost use Rattle.calls.specs.Standing.{moved, moved_within, nothing_yet, most_roles};

use crate::call::Event;
use point::Point;
use sets::Set64;

/// Each badge has so many sessions.
pub const SESSIONS: u16 = 4;

/// The most misses that are counted.
const MOST_MISSES: u8 = 4;

/// Where a badge was heard last, and how often it was missed since.
#[derive(Clone, Copy, Debug, PartialEq, Eq)]
pub struct Heard {
    pub at: Point,
    pub misses: u8,
}

/// The track after an event: a report begins it anew, a miss of a badge that was heard counts, up to the most.
fn track_after(track: Option<Heard>, event: Event) -> Option<Heard>
    ensures position { track_position result ≡ (moved event (track_only track)).position }
    ensures misses { track_misses result ≡ (moved event (track_only track)).misses }
{
    match (track, event) {
        (_, Event::Report { at }) => Some(Heard { at, misses: 0 }),
        (None, Event::Miss) => None,
        (Some(Heard { at, misses }), Event::Miss) => Some(Heard {
            at,
            misses: misses.saturating_add(1).min(MOST_MISSES),
        }),
        (track, _) => track,
    }
}

/// Whether a session is open, and the roles that are active in it. No Option of the roles: of a session that is not open
/// too `apply` promises that an activation stays.
#[derive(Clone, Copy)]
struct Session {
    opened: bool,
    active: Set64,
}

impl Session {
    /// A session that is not open, with no role active.
    fn shut() -> Session
        ensures opened { result.opened ≡ false }
        ensures active { (q : ℕ) → holds result q ≡ false }
    {
        Session {
            opened: false,
            active: Set64::none(),
        }
    }

    /// Opens the session; its roles stay.
    fn open(&mut self)
        ensures opened { self.new.opened ≡ true }
        ensures active { self.new.active ≡ self.old.active }
    {
        self.opened = true;
    }

    /// Closes the session, with no role left active.
    fn close(&mut self)
        ensures opened { self.new.opened ≡ false }
        ensures active { (q : ℕ) → holds self.new q ≡ false }
    {
        *self = Session::shut();
    }

    /// Makes a role active; one that cannot be changes nothing.
    fn activate(&mut self, role: u16)
        ensures opened { self.new.opened ≡ self.old.opened }
        ensures active { (q : ℕ) → holds self.new q ≡ (holds self.old q || (nat_lt role most_roles && q == role)) }
    {
        self.active = self.active.with(role as usize);
    }

    /// Makes a role inactive.
    fn release(&mut self, role: u16)
        ensures opened { self.new.opened ≡ self.old.opened }
        ensures active { (q : ℕ) → holds self.new q ≡ (holds self.old q && not (nat_lt role most_roles && q == role)) }
    {
        self.active = self.active.without(role as usize);
    }
}

/// One badge: its track, and its four sessions.
#[derive(Clone, Copy)]
pub struct Badge {
    track: Option<Heard>,
    sessions: [Session; 4],
}

impl Badge {
    /// A badge that was never heard, with no session open.
    pub fn fresh() -> Badge
        ensures { standing_of result ≡ nothing_yet }
    {
        let shut = Session::shut();
        Badge {
            track: None,
            sessions: [shut; 4],
        }
    }

    /// Takes an accepted event. One that names a session or a role that there cannot be changes nothing.
    pub fn apply(&mut self, event: Event)
        ensures { standing_of self.new ≡ moved_within event (standing_of self.old) }
    {
        match event {
            Event::Report { .. } | Event::Miss => {
                self.track = track_after(self.track, event);
            }
            Event::Open { session } => self.change(session, |kept| kept.open()),
            Event::Close { session } => self.change(session, |kept| kept.close()),
            Event::Activate { session, role } => self.change(session, |kept| kept.activate(role)),
            Event::Drop { session, role } => self.change(session, |kept| kept.release(role)),
            _ => {}
        }
    }

    /// Changes a session; one that there cannot be is left out. No `get_mut`: of a slice's no clause says what a write leaves.
    fn change<F: FnOnce(&mut Session)>(&mut self, session: u16, change: F)
        requires { F.IsAlwaysCallable change }
        ensures track { self.new.track ≡ self.old.track }
        ensures sessions { ChangedAt session (λ old new. FnOnceReturnsAtMut F.FnOnce change old tt new) self.old.sessions self.new.sessions }
    {
        if session < SESSIONS {
            change(&mut self.sessions[session as usize]);
        }
    }

    /// Whether a session is open; one that there cannot be is not.
    pub fn is_open(&self, session: u16) -> bool
        ensures { result ≡ (standing_of self.now).opened session }
    {
        self.sessions
            .get(session as usize)
            .is_some_and(|kept| kept.opened)
    }

    /// Whether a role is active in a session.
    pub fn is_active(&self, session: u16, role: usize) -> bool
        ensures { result ≡ (standing_of self.now).active session role }
    {
        self.sessions
            .get(session as usize)
            .is_some_and(|kept| kept.active.has(role))
    }

    /// Where the badge was heard last, and how often it was missed since; none where it never was.
    pub fn track(&self) -> Option<Heard>
        ensures { result ≡ self.now.track }
    {
        self.track
    }
}
