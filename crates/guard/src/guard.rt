//! A guard over any plan.

use calls::badge::Badge;
use checks::faults::SealFault;
use plan::Plan;
use site::site::Site;

pub mod asking;
pub mod calling;
pub mod running;
pub mod sealed;

/// A plan with the policy sealed over it, and what is kept of each badge.
// What its plan means is no fact of it in the clauses that speak of a guard before and after a call: those name the plan.
#[derive(Drop)]
pub struct Guard<P: Plan> {
    site: Site<P>,
    badges: [Badge; 128],
}

/// Why a whole run gives no answers.
// Not one type with the bench's fault, which also has that of its plan, and keeps what the allocator said.
#[derive(Clone, Copy)]
pub enum RunFault {
    /// The policy is not sealed.
    Seal(SealFault),
    /// The memory does not suffice.
    Memory,
}
