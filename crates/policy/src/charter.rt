//! What a policy says.

use keyed::rising::Rising;
use keyed::shelf::Shelf;
use records::kinds::{Assignment, Parent, Role, RolePermission, Schema, SchemaPermission};

pub mod reading;

ghost use Rattle.std.specs.Prelude.{◌≤◌, length};
ghost use Rattle.policy.specs.Facts.{BadgesIn, ChildrenIn, HoldersIn, OwnersIn, RolesIn, SchemasIn, Upward};

/// The number of badges and the records of each kind. The keys of a kind rise, and what a record refers to is there.
#[derive(Drop)]
pub struct Charter {
    // No Option: none is 0, as the policy's meaning has it.
    pub(crate) badges: u8,
    pub(crate) schemas: Shelf<Schema, 32>,
    pub(crate) parents: Rising<Parent, 64>,
    pub(crate) roles: Rising<Role, 64>,
    pub(crate) schema_permissions: Rising<SchemaPermission, 256>,
    pub(crate) role_permissions: Rising<RolePermission, 256>,
    pub(crate) assignments: Rising<Assignment, 512>,
    ghost badges_few: { badges ≤ 128 },
    ghost upward: { Upward parents.shelf.records.items },
    ghost children: { ChildrenIn (length schemas.records.items) parents.shelf.records.items },
    ghost role_schemas: { SchemasIn (length schemas.records.items) roles.shelf.records.items },
    ghost owners: { OwnersIn (length schemas.records.items) schema_permissions.shelf.records.items },
    ghost holders: { HoldersIn (length roles.shelf.records.items) role_permissions.shelf.records.items },
    ghost assigned_roles: { RolesIn (length roles.shelf.records.items) assignments.shelf.records.items },
    ghost assigned_badges: { BadgesIn badges assignments.shelf.records.items },
}
