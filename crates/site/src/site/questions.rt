//! What calls and questions ask of a site. Numbers may be any: one that is not in use passes no test.

ghost use Rattle.std.specs.Prelude.{◌≡◌, ◌&&◌, length, nat_lt};
ghost use Rattle.checks.specs.Faults.{schema_of_role};
ghost use Rattle.policy.specs.Policies.{says};
ghost use Rattle.rights.specs.Rights.{has_right as has_right_spec};
ghost use Rattle.rights.specs.Entitlement.{entitled};
ghost use Rattle.sealing.specs.Located.{bears as bears_of, where_at};
ghost use Rattle.site.specs.Kept.{ground_by};

use super::Site;
use plan::Plan;
use point::Point;
use policy::policy::Policy;
use records::kinds::Schema;
use rights::carried::has_right;
use rights::entitled::is_entitled;
use search::lowest;
use sets::rows::is_in;

/// The schema of a role.
fn schema_of(policy: &Policy, role: usize) -> Schema
    ensures { result ≡ schema_of_role (says policy.now) role }
{
    policy.schema(policy.role(role).schema as usize)
}

impl<P: Plan> Site<P> {
    /// How many badges there are; none before sealing.
    pub fn badges(&self) -> u8
        ensures { result ≡ (ground_by P.Plan.hall self.now).content.badges }
    {
        self.policy.badges()
    }

    /// How many roles there are; none before sealing.
    pub fn role_count(&self) -> usize
        ensures { result ≡ length (ground_by P.Plan.hall self.now).content.roles }
    {
        self.policy.role_count()
    }

    /// Whether a point is on the floor.
    pub fn is_on_floor(&self, at: Point) -> bool
        ensures { result ≡ (ground_by P.Plan.hall self.now).on_floor at.x at.y }
    {
        at.x < self.plan.width() && at.y < self.plan.height()
    }

    /// The lowest-numbered place of a type that covers a point.
    pub fn place_at(&self, ty: u8, at: Point) -> Option<usize>
        ensures { result ≡ (ground_by P.Plan.hall self.now).placed_at ty at.x at.y }
    {
        lowest(self.plan.count(), |place| {
            self.plan.type_of(place) == Some(ty) && self.plan.covers(place, at)
        })
    }

    /// Whether the patience of a role's schema suffices for so many misses.
    pub fn bears(&self, role: usize, misses: u8) -> bool
        ensures { result ≡ bears_of (ground_by P.Plan.hall self.now) role misses }
    {
        misses <= schema_of(&self.policy, role).patience
    }

    /// Where a badge heard at a point, and missed so many times since, is for a role.
    pub fn place_for(&self, role: usize, at: Point, misses: u8) -> Option<usize>
        ensures { result ≡ where_at (ground_by P.Plan.hall self.now) role at.x at.y misses }
    {
        // A branch, since `then` would give an Option of an Option.
        if self.bears(role, misses) {
            self.place_at(schema_of(&self.policy, role).logic, at)
        } else {
            None
        }
    }

    /// Whether a place lies in the extent of a role.
    pub fn holds(&self, role: usize, place: usize) -> bool
        ensures { result ≡ (ground_by P.Plan.hall self.now).holds role place }
    {
        is_in(&self.inside, role, place)
    }

    /// Whether a role has a right, by itself or by an ancestor. No right has an operation above 15.
    pub fn has_right(&self, role: usize, operation: u16, object: u16) -> bool
        ensures { result ≡ (nat_lt operation 16 && has_right_spec (ground_by P.Plan.hall self.now).above (says self.now.policy) role operation object) }
    {
        operation < 16 && has_right(&self.policy, &self.above, role, operation, object)
    }

    /// Whether a badge is entitled to a role.
    pub fn is_entitled(&self, badge: u16, role: u16) -> bool
        ensures { result ≡ entitled (ground_by P.Plan.hall self.now).above (says self.now.policy) badge role }
    {
        is_entitled(&self.policy, &self.above, badge, role as usize)
    }
}
