//! The rights of roles: an operation on an object.

ghost use Rattle.std.specs.Prelude.{◌≡◌};
ghost use Rattle.policy.specs.Policies.{says};
ghost use Rattle.rights.specs.Rights.{carries as carried, has_right as has_right_spec};
ghost use Rattle.sets.specs.Rows.{cell};

use policy::policy::Policy;
use search::any;
use sets::Set64;
use sets::rows::is_in;

/// Whether a role carries a right by a permission of its own or of its schema; a number that is out of range does not.
pub fn carries(policy: &Policy, role: usize, operation: u16, object: u16) -> bool
    ensures { result ≡ carried (says policy.now) role operation object }
{
    let (Ok(operation), Ok(object)) = (u8::try_from(operation), u8::try_from(object)) else {
        return false;
    };
    role < policy.role_count()
        && (policy.role_permits(role as u8, operation, object)
            || policy.schema_permits(policy.role(role).schema, operation, object))
}

/// Whether a role has a right: some ancestor of it carries it, where `above` tells the ancestors of each role.
pub fn has_right(
    policy: &Policy,
    above: &[Set64; 64],
    role: usize,
    operation: u16,
    object: u16,
) -> bool
    ensures { result ≡ has_right_spec (cell above.now) (says policy.now) role operation object }
{
    // No struct of policy and table, and none of operation and object: made for one call, and taken apart at once.
    any(policy.role_count(), |a| {
        is_in(above, role, a) && carries(policy, a, operation, object)
    })
}
