//! The roles that the bearer of a badge is entitled to.

ghost use Rattle.std.specs.Prelude.{◌≡◌};
ghost use Rattle.policy.specs.Policies.{says};
ghost use Rattle.rights.specs.Entitlement.{assigned, entitled};
ghost use Rattle.sets.specs.Rows.{cell};

use policy::policy::Policy;
use search::any;
use sets::Set64;
use sets::rows::is_in;

/// Whether a badge is assigned a role; a number that is out of range is not.
pub fn is_assigned(policy: &Policy, badge: u16, role: usize) -> bool
    ensures { result ≡ assigned (says policy.now) badge role }
{
    u8::try_from(badge).is_ok_and(|badge| {
        (badge < policy.badges() && role < policy.role_count())
            && policy.is_assigned(badge, role as u8)
    })
}

/// Whether a badge is entitled to a role: it is assigned it or a role of which it is an ancestor, where `above` tells
/// the ancestors of each role.
pub fn is_entitled(policy: &Policy, above: &[Set64; 64], badge: u16, role: usize) -> bool
    ensures { result ≡ entitled (cell above.now) (says policy.now) badge role }
{
    is_assigned(policy, badge, role)
        || any(policy.role_count(), |r| {
            is_assigned(policy, badge, r) && is_in(above, r, role)
        })
}
