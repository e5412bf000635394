//! What all kinds of lists have in common.

ghost use Rattle.std.specs.Prelude.{◌≡◌, ℕ, ◌+◌, ◌^◌, ◌<◌, ◌≤◌, Bool, true, false, [], ◌∷◌, length, if◌then◌else◌, Ok, Err};
ghost use Rattle.wordlist.specs.Cutting.{shown, index_of, words_of};
ghost use Rattle.wordlist.specs.Fields.{kind_of};
ghost use Rattle.wordlist.specs.Reading.{Rules, run, read_of, takes};
ghost use Rattle.wordlist.specs.declared.faults.WordFault.TheVariants.{Short, Foreign};

use super::faults::{RecordFault, WordFault};
use super::fields::kind;
use super::reader::{Reader, Record};

/// A kind of list, with what was read of one so far.
pub trait WordList {
    /// What was read, as the rules have it.
    ghost State: { Type 0 };

    /// What this kind of list says of a word.
    ghost rules: { Rules State };

    /// What was read so far.
    ghost state: { Self → State };

    /// Whether the list has words of this kind.
    // By its number, since a word may have one that names no kind.
    fn belongs(&self, kind: u32) -> bool
        ensures { result ≡ Self.rules.member kind };

    /// Whether the word may stand here.
    fn in_turn(&self, word: u32) -> bool
        ensures { result ≡ Self.rules.turn (Self.state self.now) word };

    /// Whether the word passes no limit.
    fn has_room(&self, word: u32) -> bool
        ensures { result ≡ Self.rules.room (Self.state self.now) word };

    /// Whether the word's fields are good.
    fn is_sound(&self, word: u32) -> bool
        ensures { result ≡ Self.rules.sound (Self.state self.now) word };

    /// Takes a word that breaks no rule; any other changes nothing.
    fn take(&mut self, word: u32)
        ensures { Self.state self.new ≡ takes Self.rules (Self.state self.old) word };

    /// Whether the list may not end here.
    fn owes(&self) -> bool
        ensures { result ≡ Self.rules.owes (Self.state self.now) };
}

/// Finds words of a kind that the list does not have.
fn known<L: WordList>(list: &L, index: usize, word: u32) -> Result<(), WordFault>
    ensures { result ≡ (if L.rules.member (kind_of word) then Ok tt else Err (Foreign index)) }
{
    if !list.belongs(kind(word)) {
        return Err(WordFault::Foreign { index });
    }
    Ok(())
}

/// Finds a list of `length` words that ends too early.
fn complete<L: WordList>(list: &L, length: usize) -> Result<(), WordFault>
    ensures { result ≡ (if L.rules.owes (L.state list.now) then Err (Short length) else Ok tt) }
{
    if list.owes() {
        return Err(WordFault::Short { length });
    }
    Ok(())
}

/// Takes one word, or says why not.
fn take_word<L: WordList>(list: &mut L, index: usize, word: u32) -> Result<(), RecordFault>
    ensures { (L.state list.new, result) ≡ run L.rules (L.state list.old) index (word ∷ []) }
{
    known(list, index, word)?;
    if !list.in_turn(word) {
        return Err(RecordFault::OutOfTurn { index });
    }
    if !list.has_room(word) {
        return Err(RecordFault::Full { index });
    }
    if !list.is_sound(word) {
        return Err(RecordFault::BadField { index });
    }
    list.take(word);
    Ok(())
}

/// Takes words in their order, the first of which stands at `first`.
fn take_words<L: WordList>(list: &mut L, first: usize, words: &[u32]) -> Result<(), RecordFault>
    requires { first + length words.now < 2 ^ 64 }
    ensures { (L.state list.new, result) ≡ run L.rules (L.state list.old) first words.now }
{
    for (i, word) in words.iter().enumerate() {
        take_word(list, first + i, *word)?;
    }
    Ok(())
}

/// Takes a record's words in their order.
fn take_record<L: WordList>(list: &mut L, record: Record<'_>) -> Result<(), RecordFault>
    requires { index_of (shown «record») + length (words_of (shown «record»)) < 2 ^ 64 }
    ensures { (L.state list.new, result) ≡ run L.rules (L.state list.old) (index_of (shown «record».entry)) (words_of (shown «record».entry)) }
{
    let (index, head, body) = record.parts();
    take_word(list, index, *head)?;
    take_words(list, index + 1, body)
}

/// Reads a list to its end, or to the first word that breaks a rule.
pub fn read<L: WordList>(list: &mut L, words: &[u32]) -> Result<(), RecordFault>
    ensures { (L.state list.new, result) ≡ read_of L.rules (L.state list.old) words.now }
{
    for record in Reader::new(words) {
        take_record(list, record)?;
    }
    complete(list, words.len())?;
    Ok(())
}
