//! What is told and asked of a badge, and what is answered. Numbers are wide, so that a caller has nothing to look at first.

use crate::refusal::Refusal;
use point::Point;
use sets::Set64;

/// What a call tells or asks of its badge.
#[derive(Clone, Copy, Debug, PartialEq, Eq)]
pub enum Event {
    /// The badge was heard at a point.
    Report {
        at: Point,
    },
    /// A sweep did not hear the badge.
    Miss,
    Open {
        session: u16,
    },
    Close {
        session: u16,
    },
    Activate {
        session: u16,
        role: u16,
    },
    Drop {
        session: u16,
        role: u16,
    },
    /// At which place is the badge for a role?
    Where {
        role: u16,
    },
    /// Is the role enabled for the badge?
    Enabled {
        role: u16,
    },
    /// Which roles are active in the session and enabled?
    Roles {
        session: u16,
    },
    /// By which role is the operation on the object granted?
    // Two numbers, here and in what is asked of roles and permissions: a line and a permission's key have each apart.
    Ask {
        session: u16,
        operation: u16,
        object: u16,
    },
}

/// A badge, and what is told or asked of it.
#[derive(Clone, Copy, Debug, PartialEq, Eq)]
pub struct Call {
    pub badge: u16,
    pub event: Event,
}

/// What is answered to a call that is not refused.
#[derive(Clone, Copy, Debug, PartialEq, Eq)]
pub enum Reply {
    /// The call is accepted.
    Done,
    /// The place where the badge is, if there is one.
    Place(Option<usize>),
    /// Whether the role is enabled.
    Verdict(bool),
    /// The roles that are active and enabled.
    RoleSet(Set64),
    /// The role that grants the right.
    Granted(usize),
}

/// What is answered to a call.
pub type Answer = Result<Reply, Refusal>;
