//! Why a call or a question is refused.

ghost use Rattle.std.specs.Prelude.{◌≡◌};
ghost use Rattle.calls.specs.Numbers.{number as number_of};

/// The reasons by their numbers; each call tries its own in an order of its own.
#[derive(Clone, Copy, Debug, PartialEq, Eq)]
pub enum Refusal {
    /// The badge number is not below the number of badges.
    UnknownBadge = 1,
    /// The session number is above 3.
    UnknownSession = 2,
    /// The session is not open.
    NotOpen = 3,
    /// The session is open already.
    AlreadyOpen = 4,
    /// The role number is not in use.
    UnknownRole = 5,
    /// The badge is not entitled to the role.
    NotEntitled = 6,
    /// The role is active in the session already.
    AlreadyActive = 7,
    /// The role is not active in the session.
    NotActive = 8,
    /// The position is off the floor.
    OffFloor = 9,
    /// The operation is above 15, or the object above 255.
    UnknownRight = 10,
    /// No active role has the right.
    NoRole = 11,
    /// The badge was never heard, or its misses exceed the patience of every active role that has the right.
    OutOfPatience = 12,
    /// Some such role has patience enough, and none is enabled.
    NotEnabled = 13,
}

impl Refusal {
    /// The refusal's number.
    // By its name, and no From: a number says nothing of what it numbers.
    pub fn number(self) -> u8
        ensures { result ≡ number_of (self) }
    {
        self as u8
    }
}
