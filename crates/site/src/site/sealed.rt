//! How a policy is sealed over the plan.

ghost use Rattle.std.specs.Prelude.{◌≡◌, IfOk};
ghost use Rattle.policy.specs.Contents.{none};
ghost use Rattle.policy.specs.Policies.{says};
ghost use Rattle.sealing.specs.Ground.{ground_of, ground_after};
ghost use Rattle.sealing.specs.Outcome.{is_sealed, sealing_after, sealed_or};
ghost use Rattle.site.specs.Kept.{ground};

use super::Site;
use checks::faults::SealFault;
use checks::search::first_fault;
use plan::Plan;
use policy::policy::Policy;
use rights::inside::extents;
use rights::lineage::ancestors_over;
use sets::Set64;
use std::alloc::{AllocError, Global};
use survey::Survey;

impl<P: Plan + Drop> Site<P> {
    /// The plan, with nothing sealed over it. All the memory that sealing will use is taken here.
    pub fn new(plan: P, heap: Global) -> Result<Site<P>, AllocError>
        ensures { IfOk result (λ s. (s.plan ≡ plan) × (ground (P.Plan.hall plan) s ≡ ground_of (P.Plan.hall plan) none)) }
    {
        let policy = Policy::new(heap)?;
        Ok(Site {
            plan,
            policy,
            inside: [Set64::none(); 64],
            above: [Set64::none(); 64],
        })
    }
}

impl<P: Plan> Site<P> {
    /// Whether a policy is sealed.
    pub fn is_sealed(&self) -> bool
        ensures { result ≡ is_sealed (says self.now.policy) }
    {
        self.policy.badges() > 0
    }

    /// Seals the policy that the words say; refused, it leaves everything as it was.
    pub fn seal(&mut self, words: &[u32]) -> Result<(), SealFault>
        ensures answer { result ≡ sealed_or (sealing_after (says self.old.policy) (P.Plan.hall self.old.plan) words.now) }
        ensures plan { self.new.plan ≡ self.old.plan }
        ensures after { ground (P.Plan.hall self.old.plan) self.new ≡ ground_after (ground (P.Plan.hall self.old.plan) self.old) (P.Plan.hall self.old.plan) (sealing_after (says self.old.policy) (P.Plan.hall self.old.plan) words.now) }
    {
        if self.is_sealed() {
            return Err(SealFault::Sealed);
        }
        self.policy.read(words)?;
        let survey = Survey::of(&self.plan);
        if let Err(fault) = first_fault(&survey, &self.policy) {
            self.policy.clear();
            return Err(fault);
        }
        self.inside = extents(&self.policy, &survey);
        self.above = ancestors_over(&self.policy, &survey);
        Ok(())
    }
}
