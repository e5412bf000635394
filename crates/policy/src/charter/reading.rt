//! How a list is read into a charter. What goes by kind is a match, since each kind has a shelf of its own type.

ghost use Rattle.std.specs.Prelude.{◌≡◌, IfOk};
ghost use Rattle.wordlist.specs.Fields.{kind_of};
ghost use Rattle.wordlist.specs.Given.{given_from};
ghost use Rattle.wordlist.specs.Kinds.{number_of};
ghost use Rattle.wordlist.specs.Reading.{passing};
ghost use Rattle.policy.specs.Contents.{Content, content_of, counts_of, none};
ghost use Rattle.policy.specs.Reading.{content_from};
ghost use Rattle.policy.specs.Rules.{least_kind, policy_rules, rises_as};

use super::Charter;
use keyed::rising::Rising;
use keyed::shelf::Shelf;
use records::kinds::{Assignment, Badges, Parent, Role, RolePermission, Schema, SchemaPermission};
use records::words::{Counts, Record};
use std::alloc::{AllocError, Global};
use std::mem::swap;
use wordlist::keeping::Drafted;
use wordlist::kinds::Kind;
use wordlist::list::WordList;

impl Charter {
    /// No badges and no records, and the memory for the most of each kind.
    pub(crate) fn new(heap: Global) -> Result<Charter, AllocError>
        ensures { IfOk result (λ c. content_of c ≡ none) }
    {
        Ok(Charter {
            badges: 0,
            schemas: Shelf::new(heap)?,
            parents: Rising::new(heap)?,
            roles: Rising::new(heap)?,
            schema_permissions: Rising::new(heap)?,
            role_permissions: Rising::new(heap)?,
            assignments: Rising::new(heap)?,
        })
    }

    /// Takes the badges and all records away.
    pub(crate) fn clear(&mut self)
        ensures { content_of self.new ≡ none }
    {
        self.assignments.clear();
        self.role_permissions.clear();
        self.schema_permissions.clear();
        self.roles.clear();
        self.parents.clear();
        self.schemas.clear();
        self.badges = 0;
    }

    /// How much was read of what records refer to.
    fn counts(&self) -> Counts
        ensures { result ≡ counts_of (content_of self.now) }
    {
        Counts {
            badges: self.badges,
            schemas: self.schemas.len(),
            roles: self.roles.shelf().len(),
        }
    }

    /// The least kind that may stand next, after the badges: kinds never fall.
    fn least_kind(&self) -> Kind
        ensures { number_of result ≡ least_kind (content_of self.now) }
    {
        if 0 < self.assignments.shelf().len() {
            Kind::Assignment
        } else if 0 < self.role_permissions.shelf().len() {
            Kind::RolePermission
        } else if 0 < self.schema_permissions.shelf().len() {
            Kind::SchemaPermission
        } else if 0 < self.roles.shelf().len() {
            Kind::Role
        } else if 0 < self.parents.shelf().len() {
            Kind::Parent
        } else {
            Kind::Schema
        }
    }

    /// Whether the word is a record whose key is above the last one of its kind.
    fn rises(&self, word: u32) -> bool
        ensures { result ≡ rises_as (kind_of word) (content_of self.now) word }
    {
        match Kind::of(word) {
            Some(Kind::Schema) => true,
            Some(Kind::Parent) => self.parents.rises(&Parent::from(word)),
            Some(Kind::Role) => self.roles.rises(&Role::from(word)),
            Some(Kind::SchemaPermission) => self
                .schema_permissions
                .rises(&SchemaPermission::from(word)),
            Some(Kind::RolePermission) => self.role_permissions.rises(&RolePermission::from(word)),
            Some(Kind::Assignment) => self.assignments.rises(&Assignment::from(word)),
            _ => false,
        }
    }

    /// Whether a word breaks no rule of turn, room and fields.
    // Not one function for all lists: it would be handed the impl that `take` is part of, which is proved after it.
    fn passes(&self, word: u32) -> bool
        ensures { result ≡ passing policy_rules (content_of self.now) word }
    {
        self.in_turn(word) && self.has_room(word) && self.is_sound(word)
    }
}

impl WordList for Charter {
    ghost State = { Content };

    ghost rules = { policy_rules };

    ghost state = { content_of };

    fn belongs(&self, kind: u32) -> bool {
        Kind::Badges.number() <= kind && kind <= Kind::Assignment.number()
    }

    fn in_turn(&self, word: u32) -> bool {
        let Some(kind) = Kind::of(word) else {
            return false;
        };
        if self.badges == 0 {
            return kind == Kind::Badges;
        }
        let in_order = self.least_kind() <= kind;
        in_order && self.rises(word)
    }

    fn has_room(&self, word: u32) -> bool {
        match Kind::of(word) {
            Some(Kind::Schema) => self.schemas.has_room(),
            Some(Kind::Parent) => self.parents.shelf().has_room(),
            Some(Kind::Role) => self.roles.shelf().has_room(),
            Some(Kind::SchemaPermission) => self.schema_permissions.shelf().has_room(),
            Some(Kind::RolePermission) => self.role_permissions.shelf().has_room(),
            Some(Kind::Assignment) => self.assignments.shelf().has_room(),
            _ => true,
        }
    }

    fn is_sound(&self, word: u32) -> bool {
        let counts = self.counts();
        let Some(kind) = Kind::of(word) else {
            return Badges::is_sound(word, &counts);
        };
        match kind {
            Kind::Schema => Schema::is_sound(word, &counts),
            Kind::Parent => Parent::is_sound(word, &counts),
            Kind::Role => Role::is_sound(word, &counts),
            Kind::SchemaPermission => SchemaPermission::is_sound(word, &counts),
            Kind::RolePermission => RolePermission::is_sound(word, &counts),
            Kind::Assignment => Assignment::is_sound(word, &counts),
            _ => Badges::is_sound(word, &counts),
        }
    }

    fn take(&mut self, word: u32) {
        if !self.passes(word) {
            return;
        }
        let Some(kind) = Kind::of(word) else {
            return;
        };
        match kind {
            Kind::Schema => self.schemas.put(Schema::from(word)),
            Kind::Parent => self.parents.put(Parent::from(word)),
            Kind::Role => self.roles.put(Role::from(word)),
            Kind::SchemaPermission => self.schema_permissions.put(SchemaPermission::from(word)),
            Kind::RolePermission => self.role_permissions.put(RolePermission::from(word)),
            Kind::Assignment => self.assignments.put(Assignment::from(word)),
            _ => self.badges = Badges::from(word).count,
        }
    }

    fn owes(&self) -> bool {
        self.badges == 0
    }
}

impl Drafted for Charter {
    type Ground = ();

    type Kept = Charter;

    ghost Content = { Content };

    ghost content = { content_of };

    ghost said = { content_of };

    ghost begun = { λ _ c. content_of c ≡ none };

    ghost outcome = { λ _ ws. content_from ws };

    ghost reads = { λ _ d e a ws. given_from content_of (λ c. c) policy_rules none d e a ws };

    fn begin(&mut self, _ground: ()) {
        self.clear();
    }

    fn exchange(&mut self, kept: &mut Charter) {
        swap(self, kept);
    }
}
