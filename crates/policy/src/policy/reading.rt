//! How a policy is made from words.

ghost use Rattle.std.specs.Prelude.{◌≡◌, IfOk, Ok};
ghost use Rattle.policy.specs.Contents.{content_of, none};
ghost use Rattle.policy.specs.Policies.{says};
ghost use Rattle.wordlist.specs.Outcomes.{answered, replaced};
ghost use Rattle.policy.specs.Reading.{content_from};
ghost use Rattle.policy.specs.Spelling.{spelled};

use super::super::charter::Charter;
use super::Policy;
use std::alloc::{AllocError, Global};
use wordlist::faults::RecordFault;
use wordlist::keeping::keep;

impl Policy {
    /// No badges and no records. All the memory that the policy will use is taken here.
    pub fn new(heap: Global) -> Result<Policy, AllocError>
        ensures { IfOk result (λ p. (says p ≡ none) × (content_of p.draft ≡ none)) }
    {
        let kept = Charter::new(heap)?;
        let draft = Charter::new(heap)?;
        Ok(Policy { kept, draft })
    }

    /// Becomes what the words say; refused words leave it as it was.
    pub fn read(&mut self, words: &[u32]) -> Result<(), RecordFault>
        ensures answer { result ≡ answered (content_from words.now) }
        ensures after { says self.new ≡ replaced (says self.old) (content_from words.now) }
        ensures draft { content_of self.new.draft ≡ none }
        ensures exactly { result ≡ Ok tt → spelled (says self.new) ≡ words.now }
    {
        keep(&mut self.draft, (), &mut self.kept, words)
    }

    /// Becomes what it was when it was made: no badges and no records.
    pub fn clear(&mut self)
        ensures after { says self.new ≡ none }
        ensures draft { self.new.draft ≡ self.old.draft }
    {
        self.kept.clear();
    }
}
