//! What a policy answers: its records by number, where a number that is not in use reads as zeros, and whether a
//! permission or an assignment is there.

ghost use Rattle.std.specs.Prelude.{◌≡◌, length};
ghost use Rattle.policy.specs.Contents.{is_assigned, parent_at, role_at, role_permits, schema_at, schema_permits};
ghost use Rattle.policy.specs.Policies.{says};

use super::Policy;
use keyed::pair::Pair;
use keyed::triple::Triple;
use records::kinds::{Assignment, Parent, Role, RolePermission, Schema, SchemaPermission};

impl Policy {
    /// How many badges there are; none before the first reading.
    pub fn badges(&self) -> u8
        ensures { result ≡ (says self.now).badges }
    {
        self.kept.badges
    }

    /// How many schemas there are.
    pub fn schema_count(&self) -> usize
        ensures { result ≡ length (says self.now).schemas }
    {
        self.kept.schemas.len()
    }

    /// How many parent records there are.
    pub fn parent_count(&self) -> usize
        ensures { result ≡ length (says self.now).parents }
    {
        self.kept.parents.shelf().len()
    }

    /// How many roles there are.
    pub fn role_count(&self) -> usize
        ensures { result ≡ length (says self.now).roles }
    {
        self.kept.roles.shelf().len()
    }

    // No options: what a policy means has zeros for a number that is not in use.
    /// Schema `k`.
    pub fn schema(&self, k: usize) -> Schema
        ensures { result ≡ schema_at (says self.now) k }
    {
        self.kept.schemas.get(k).unwrap_or_default()
    }

    /// Parent record `k`, in the order of (child, parent).
    pub fn parent(&self, k: usize) -> Parent
        ensures { result ≡ parent_at (says self.now) k }
    {
        self.kept.parents.shelf().get(k).unwrap_or_default()
    }

    /// Role `k`.
    pub fn role(&self, k: usize) -> Role
        ensures { result ≡ role_at (says self.now) k }
    {
        self.kept.roles.shelf().get(k).unwrap_or_default()
    }

    /// The parent records, in the order of (child, parent).
    pub fn parents(&self) -> &[Parent]
        ensures { result.now ≡ (says self.now).parents }
    {
        self.kept.parents.shelf().records()
    }

    /// The schema permissions, in the order of (schema, operation, object).
    pub fn schema_permissions(&self) -> &[SchemaPermission]
        ensures { result.now ≡ (says self.now).schema_permissions }
    {
        self.kept.schema_permissions.shelf().records()
    }

    /// The role permissions, in the order of (role, operation, object).
    pub fn role_permissions(&self) -> &[RolePermission]
        ensures { result.now ≡ (says self.now).role_permissions }
    {
        self.kept.role_permissions.shelf().records()
    }

    /// The assignments, in the order of (badge, role).
    pub fn assignments(&self) -> &[Assignment]
        ensures { result.now ≡ (says self.now).assignments }
    {
        self.kept.assignments.shelf().records()
    }

    /// Whether the roles of a schema are permitted an operation on an object.
    pub fn schema_permits(&self, schema: u8, operation: u8, object: u8) -> bool
        ensures { result ≡ schema_permits (says self.now) schema operation object }
    {
        self.kept.schema_permissions.has(&Triple {
            high: schema,
            mid: operation,
            low: object,
        })
    }

    /// Whether a role is permitted an operation on an object by a permission of its own.
    pub fn role_permits(&self, role: u8, operation: u8, object: u8) -> bool
        ensures { result ≡ role_permits (says self.now) role operation object }
    {
        self.kept.role_permissions.has(&Triple {
            high: role,
            mid: operation,
            low: object,
        })
    }

    /// Whether the bearer of a badge may take a role.
    pub fn is_assigned(&self, badge: u8, role: u8) -> bool
        ensures { result ≡ is_assigned (says self.now) badge role }
    {
        self.kept.assignments.has(&Pair {
            high: badge,
            low: role,
        })
    }
}
