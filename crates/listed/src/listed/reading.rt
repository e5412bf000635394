//! How a plan is made from words.

ghost use Rattle.std.specs.Prelude.{◌≡◌, IfOk, Ok};
ghost use Rattle.listed.specs.Layouts.{blank, layout_of};
ghost use Rattle.wordlist.specs.Outcomes.{answered, replaced};
ghost use Rattle.listed.specs.Reading.{layout_from, progress_of, start};
ghost use Rattle.listed.specs.Spelling.{spelled};

use super::super::draft::Draft;
use super::super::shape::Shape;
use super::super::sheet::Sheet;
use super::Listed;
use std::alloc::{AllocError, Global};
use wordlist::faults::RecordFault;
use wordlist::keeping::keep;

impl<S: Shape + Drop> Listed<S> {
    /// A floor of one point with no place. All the memory that the plan will use is taken here.
    pub fn new(heap: Global) -> Result<Listed<S>, AllocError>
        ensures { IfOk result (λ p. (layout_of S.Shape.model p.sheet ≡ blank) × (progress_of S.Shape.model p.draft ≡ start)) }
    {
        let sheet = Sheet::new(heap)?;
        let draft = Draft::new(heap)?;
        Ok(Listed { sheet, draft })
    }

    /// Becomes what the words say; refused words leave it as it was.
    pub fn read(&mut self, words: &[u32]) -> Result<(), RecordFault>
        ensures answer { result ≡ answered (layout_from S.Shape.make words.now) }
        ensures after { layout_of S.Shape.model self.new.sheet ≡ replaced (layout_of S.Shape.model self.old.sheet) (layout_from S.Shape.make words.now) }
        ensures draft { progress_of S.Shape.model self.new.draft ≡ start }
        ensures exactly { result ≡ Ok tt → spelled S.Shape.make (layout_of S.Shape.model self.new.sheet) ≡ words.now }
    {
        keep(&mut self.draft, (), &mut self.sheet, words)
    }

    // Both, and no Result of the plan: refused words have a plan too.
    /// A new plan of what the words say, and the answer to them. The plan of refused words is a floor of one point with no place.
    pub fn from_words(
        heap: Global,
        words: &[u32],
    ) -> Result<(Listed<S>, Result<(), RecordFault>), AllocError>
        ensures { IfOk result (λ p. (layout_of S.Shape.model p.0.sheet ≡ replaced blank (layout_from S.Shape.make words.now)) × (p.1 ≡ answered (layout_from S.Shape.make words.now))) }
    {
        let mut plan = Listed::new(heap)?;
        let answer = plan.read(words);
        Ok((plan, answer))
    }
}
