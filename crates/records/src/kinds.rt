//! The kinds of records.

/// How many badges there are.
#[derive(Clone, Copy, PartialEq, Eq)]
pub struct Badges {
    pub count: u8,
}

/// What roles have in common: the type of their extent, the type of the places that locate, and the misses that they
/// bear.
#[derive(Clone, Copy, Default, PartialEq, Eq)]
pub struct Schema {
    pub extent: u8,
    pub logic: u8,
    pub patience: u8,
}

/// One step from a schema up to another.
#[derive(Clone, Copy, Default, PartialEq, Eq)]
pub struct Parent {
    pub parent: u8,
    pub child: u8,
}

/// A schema at a place, which is the role's extent.
#[derive(Clone, Copy, Default, PartialEq, Eq)]
pub struct Role {
    pub extent: u8,
    pub schema: u8,
}

/// An operation on an object, permitted to the roles of a schema.
// Not one type with the role's: the owner is of another kind, and the field's name says which.
#[derive(Clone, Copy, PartialEq, Eq)]
pub struct SchemaPermission {
    pub object: u8,
    pub operation: u8,
    pub schema: u8,
}

/// An operation on an object, permitted to a role.
#[derive(Clone, Copy, PartialEq, Eq)]
pub struct RolePermission {
    pub object: u8,
    pub operation: u8,
    pub role: u8,
}

/// A role that the bearer of a badge may take.
#[derive(Clone, Copy, PartialEq, Eq)]
pub struct Assignment {
    pub role: u8,
    pub badge: u8,
}
