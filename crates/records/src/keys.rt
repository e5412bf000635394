//! The keys of the records: the named fields, the one in the highest bits first.

ghost use Rattle.records.specs.Keys.{assignment_key, parent_key, role_key, role_permission_key, schema_permission_key};

use super::kinds::{Assignment, Parent, Role, RolePermission, SchemaPermission};
use keyed::keys::Keyed;
use keyed::pair::Pair;
use keyed::triple::Triple;

impl Keyed for Parent {
    type Key = Pair;

    ghost keyed = { parent_key };

    fn key(&self) -> Pair {
        Pair {
            high: self.child,
            low: self.parent,
        }
    }
}

impl Keyed for Role {
    type Key = Pair;

    ghost keyed = { role_key };

    fn key(&self) -> Pair {
        Pair {
            high: self.schema,
            low: self.extent,
        }
    }
}

impl Keyed for SchemaPermission {
    type Key = Triple;

    ghost keyed = { schema_permission_key };

    fn key(&self) -> Triple {
        Triple {
            high: self.schema,
            mid: self.operation,
            low: self.object,
        }
    }
}

impl Keyed for RolePermission {
    type Key = Triple;

    ghost keyed = { role_permission_key };

    fn key(&self) -> Triple {
        Triple {
            high: self.role,
            mid: self.operation,
            low: self.object,
        }
    }
}

impl Keyed for Assignment {
    type Key = Pair;

    ghost keyed = { assignment_key };

    fn key(&self) -> Pair {
        Pair {
            high: self.badge,
            low: self.role,
        }
    }
}
