//! Lists that are read into a draft, and kept once they are accepted.

ghost use Rattle.std.specs.Prelude.{◌≡◌, ℕ, List, Result};
ghost use Rattle.wordlist.specs.declared.faults.RecordFault.{RecordFault as Fault};
ghost use Rattle.wordlist.specs.Outcomes.{answered, given, replaced};
ghost use Rattle.wordlist.specs.Reading.{Answer, read_of};

use super::faults::RecordFault;
use super::list::{WordList, read};

/// A draft that a list is read into; the content of an accepted list is then kept elsewhere.
pub trait Drafted: WordList {
    /// What a list is read over.
    type Ground: Copy;

    /// Where the content is kept.
    type Kept;

    /// What a list says.
    ghost Content: { Type 0 };

    /// What the draft has read.
    ghost content: { Self → Content };

    /// What is kept.
    ghost said: { Self.Kept → Content };

    /// Nothing is read yet, over this ground.
    ghost begun: { Self.Ground → Self → Type 0 };

    /// What a list says over this ground, or its first fault.
    ghost outcome: { Self.Ground → List ℕ → Result Content Fault };

    /// Starts anew.
    fn begin(&mut self, ground: Self::Ground)
        ensures { begun ground self.new };

    /// Gives what was read for what it replaces.
    fn exchange(&mut self, kept: &mut Self::Kept)
        ensures { said kept.new ≡ content self.old };

    /// A draft that was begun reads what a list says.
    ghost reads: { (g : Self.Ground) (d e : Self) (a : Answer) (ws : List ℕ) → begun g d → (Self.WordList.state e, a) ≡ read_of Self.WordList.rules (Self.WordList.state d) ws → given content (e, a) ≡ outcome g ws };
}

/// Reads a list and keeps what it says; a refused one leaves what was kept.
pub fn keep<D: Drafted>(
    draft: &mut D,
    ground: D::Ground,
    kept: &mut D::Kept,
    words: &[u32],
) -> Result<(), RecordFault>
    ensures answer { result ≡ answered (D.outcome ground words.now) }
    ensures after { D.said kept.new ≡ replaced (D.said kept.old) (D.outcome ground words.now) }
    ensures draft { D.begun ground draft.new }
{
    draft.begin(ground);
    let answer = read(draft, words);
    if answer.is_ok() {
        draft.exchange(kept);
    }
    draft.begin(ground);
    answer
}
