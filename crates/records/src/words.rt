//! What the word of a record says, and when its fields are good.

ghost use Rattle.std.specs.Prelude.{◌≡◌, ℕ, Bool};
ghost use Rattle.records.specs.Words.{assignment_of, badges_of, parent_of, role_of, role_permission_of, schema_of, schema_permission_of};
ghost use Rattle.records.specs.Sound.{sound_assignment, sound_badges, sound_parent, sound_role, sound_role_permission, sound_schema, sound_schema_permission};
ghost use Rattle.records.specs.declared.words.Counts.{Counts};

use super::kinds::{Assignment, Badges, Parent, Role, RolePermission, Schema, SchemaPermission};
use wordlist::fields::bits;

/// How much was read of what records refer to.
#[derive(Clone, Copy)]
pub struct Counts {
    pub badges: u8,
    pub schemas: usize,
    pub roles: usize,
}

/// A record that a word says.
pub trait Record: From<u32> {
    /// Whether the fields of a word are good, after so much was read.
    ghost sound: { Counts → ℕ → Bool };

    /// Whether the word's fields are good, after so much was read.
    fn is_sound(word: u32, counts: &Counts) -> bool
        ensures { result ≡ sound counts.now word };
}

impl From<u32> for Badges {
    ghost from_gives = { λ word said. said ≡ record { count = badges_of word } };

    fn from(word: u32) -> Badges {
        Badges {
            count: bits(word, 0, 8) as u8,
        }
    }
}

impl Record for Badges {
    ghost sound = { λ counts word. sound_badges word };

    fn is_sound(word: u32, _counts: &Counts) -> bool {
        let said = Badges::from(word);
        1 <= said.count && said.count <= 128 && bits(word, 8, 20) == 0
    }
}

impl From<u32> for Schema {
    ghost from_gives = { λ word said. said ≡ schema_of word };

    fn from(word: u32) -> Schema {
        Schema {
            extent: bits(word, 0, 4) as u8,
            logic: bits(word, 4, 4) as u8,
            patience: bits(word, 8, 2) as u8,
        }
    }
}

impl Record for Schema {
    ghost sound = { λ counts word. sound_schema word };

    fn is_sound(word: u32, _counts: &Counts) -> bool {
        bits(word, 10, 18) == 0
    }
}

impl From<u32> for Parent {
    ghost from_gives = { λ word said. said ≡ parent_of word };

    fn from(word: u32) -> Parent {
        Parent {
            parent: bits(word, 0, 5) as u8,
            child: bits(word, 5, 5) as u8,
        }
    }
}

impl Record for Parent {
    ghost sound = { λ counts word. sound_parent counts.schemas word };

    fn is_sound(word: u32, counts: &Counts) -> bool {
        let said = Parent::from(word);
        said.parent < said.child
            && (said.child as usize) < counts.schemas
            && bits(word, 10, 18) == 0
    }
}

impl From<u32> for Role {
    ghost from_gives = { λ word said. said ≡ role_of word };

    fn from(word: u32) -> Role {
        Role {
            extent: bits(word, 0, 6) as u8,
            schema: bits(word, 6, 5) as u8,
        }
    }
}

impl Record for Role {
    ghost sound = { λ counts word. sound_role counts.schemas word };

    fn is_sound(word: u32, counts: &Counts) -> bool {
        (Role::from(word).schema as usize) < counts.schemas && bits(word, 11, 17) == 0
    }
}

impl From<u32> for SchemaPermission {
    ghost from_gives = { λ word said. said ≡ schema_permission_of word };

    fn from(word: u32) -> SchemaPermission {
        SchemaPermission {
            object: bits(word, 0, 8) as u8,
            operation: bits(word, 8, 4) as u8,
            schema: bits(word, 12, 5) as u8,
        }
    }
}

impl Record for SchemaPermission {
    ghost sound = { λ counts word. sound_schema_permission counts.schemas word };

    fn is_sound(word: u32, counts: &Counts) -> bool {
        (SchemaPermission::from(word).schema as usize) < counts.schemas && bits(word, 17, 11) == 0
    }
}

impl From<u32> for RolePermission {
    ghost from_gives = { λ word said. said ≡ role_permission_of word };

    fn from(word: u32) -> RolePermission {
        RolePermission {
            object: bits(word, 0, 8) as u8,
            operation: bits(word, 8, 4) as u8,
            role: bits(word, 12, 6) as u8,
        }
    }
}

impl Record for RolePermission {
    ghost sound = { λ counts word. sound_role_permission counts.roles word };

    fn is_sound(word: u32, counts: &Counts) -> bool {
        (RolePermission::from(word).role as usize) < counts.roles && bits(word, 18, 10) == 0
    }
}

impl From<u32> for Assignment {
    ghost from_gives = { λ word said. said ≡ assignment_of word };

    fn from(word: u32) -> Assignment {
        Assignment {
            role: bits(word, 0, 6) as u8,
            badge: bits(word, 6, 7) as u8,
        }
    }
}

impl Record for Assignment {
    ghost sound = { λ counts word. sound_assignment counts.roles counts.badges word };

    fn is_sound(word: u32, counts: &Counts) -> bool {
        let said = Assignment::from(word);
        (said.role as usize) < counts.roles && said.badge < counts.badges && bits(word, 13, 15) == 0
    }
}
