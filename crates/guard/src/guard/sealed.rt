//! How a guard is made, and its policy sealed.

ghost use Rattle.std.specs.Prelude.{◌≡◌, ℕ, IfOk, Ok as Accepted};
ghost use Rattle.policy.specs.Contents.{none};
ghost use Rattle.calls.specs.Standing.{nothing_yet};
ghost use Rattle.sealing.specs.Ground.{ground_of};
ghost use Rattle.guard.specs.Kept.{kept_of, ground_in};
ghost use Rattle.guard.specs.Stands.{Begins, Seals};

use super::Guard;
use calls::badge::Badge;
use checks::faults::SealFault;
use plan::Plan;
use site::site::Site;
use std::alloc::{AllocError, Global};

impl<P: Plan + Drop> Guard<P> {
    /// A guard of the plan, with nothing sealed and no badges. All the memory that it will use is taken here.
    pub fn new(plan: P, heap: Global) -> Result<Guard<P>, AllocError>
        ensures { IfOk result (λ g. (g.site.plan ≡ plan) × (ground_in (P.Plan.hall plan) g ≡ ground_of (P.Plan.hall plan) none) × ((b : ℕ) → kept_of g b ≡ nothing_yet)) }
    {
        let site = Site::new(plan, heap)?;
        Ok(Guard {
            site,
            badges: [Badge::fresh(); 128],
        })
    }
}

impl<P: Plan> Guard<P> {
    /// Forgets all badges: none is heard, and none has a session open.
    fn forget(&mut self)
        ensures site { self.new.site ≡ self.old.site }
        ensures kept { (b : ℕ) → kept_of self.new b ≡ nothing_yet }
    {
        self.badges = [Badge::fresh(); 128];
    }

    /// Seals the policy that the words say; refused, it leaves everything as it was. No badge is heard then, no session
    /// is open and no role is active.
    pub fn seal(&mut self, words: &[u32]) -> Result<(), SealFault>
        ensures seals { Seals (P.Plan.hall self.old.site.plan) self.old self.new words.now result }
        ensures begins { result ≡ Accepted tt → Begins (P.Plan.hall self.old.site.plan) self.new words.now }
    {
        self.site.seal(words)?;
        self.forget();
        Ok(())
    }
}
