//! How a text is read.

ghost use Rattle.std.specs.Prelude.{◌≡◌, ℕ, ◌+◌, ◌<◌, ◌≤◌, List, length, IfOk, Ok, vec_len, vec_capacity};
ghost use Rattle.std.specs.List.{slice_get};
ghost use Rattle.plantext.specs.Parts.{lines_of, words_of};
ghost use Rattle.plantext.specs.Reading.{blank, content_of, room_of, named, heading_of, heading_at, start_at, words_at, ruled, may_open, opened, word_taken, words_taken, line_taken, lines_taken, read_of, answered, giving};
ghost use Rattle.plantext.specs.Worked.{Worked};
ghost use Rattle.plantext.specs.Writing.{written, Words, drawing};

use super::super::digits::hex;
use super::super::faults::{Reason, TextFault};
use super::super::parts::{LineWords, Lines, cut};
use super::{Heading, Page, Section};
use std::alloc::{AllocError, Global};

impl Heading {
    /// The section that a word names.
    fn named(word: &[u8]) -> Option<Heading>
        ensures { result ≡ named word.now }
    {
        match word {
            b"drawn" => Some(Heading::Drawn),
            b"cells" => Some(Heading::Cells),
            b"zones" => Some(Heading::Zones),
            b"policy" => Some(Heading::Policy),
            _ => None,
        }
    }

    /// The section that a line opens, if it is a section line.
    fn of_line(line: &[u8]) -> Option<Heading>
        ensures { result ≡ heading_of (words_of line.now) }
    {
        let mut words = LineWords(line);
        match (words.next(), words.next()) {
            (Some(word), None) => Heading::named(word),
            _ => None,
        }
    }
}

impl Page {
    /// An empty page with room for texts of up to `room` bytes.
    pub fn with_room(heap: Global, room: usize) -> Result<Page, AllocError>
        ensures { IfOk result (λ p. (content_of p ≡ blank) × (room ≤ room_of p)) }
    {
        let sections = Vec::with_capacity(heap, 4)?;
        let words = Vec::with_capacity(heap, room)?;
        Ok(Page { sections, words })
    }

    fn section(&self, k: usize) -> Option<Section>
        ensures { result ≡ slice_get (content_of self.now).sections k }
    {
        self.sections.get(k).copied()
    }

    /// The heading of section `k`, if there is one.
    pub fn heading(&self, k: usize) -> Option<Heading>
        ensures { result ≡ heading_at k (content_of self.now) }
    {
        self.section(k).map(|section| section.heading)
    }

    /// Where section `k` starts among the words, or their end where it is not there.
    fn start(&self, k: usize) -> usize
        ensures { result ≡ start_at k (content_of self.now) }
    {
        self.section(k)
            .map_or(self.words.len(), |section| section.first)
    }

    /// The words of section `k`, none where there is no such section.
    pub fn words_of(&self, k: usize) -> &[u32]
        ensures { result.now ≡ words_at k (content_of self.now) }
    {
        if k >= self.sections.len() {
            return &[];
        }
        let end = self.start(k + 1).min(self.words.len());
        let start = self.start(k).min(end);
        &self.words[start..end]
    }

    // That the room stays is said by each that changes a page: what was before a call is no fact of the type.
    fn clear(&mut self)
        ensures content { content_of self.new ≡ blank }
        ensures len { vec_len self.new.words ≡ 0 }
        ensures room { room_of self.new ≡ room_of self.old }
    {
        self.sections.clear();
        self.words.clear();
    }

    /// Whether the last section is a policy.
    fn ruled(&self) -> bool
        ensures { result ≡ ruled (content_of self.now) }
    {
        self.sections
            .last()
            .is_some_and(|section| section.heading == Heading::Policy)
    }

    /// Whether a section with this heading may open after those that are there.
    fn may_open(&self, heading: Heading) -> bool
        ensures { result ≡ may_open heading (content_of self.now) }
    {
        let count = self.sections.len();
        match heading {
            Heading::Drawn | Heading::Cells => count == 0,
            Heading::Zones => (1..=2).contains(&count) && !self.ruled(),
            Heading::Policy => (1..=3).contains(&count) && !self.ruled(),
        }
    }

    fn open(&mut self, heading: Heading) -> Result<(), Reason>
        ensures content { giving result (content_of self.new) ≡ opened heading (content_of self.old) }
        ensures len { vec_len self.new.words ≡ vec_len self.old.words }
        ensures room { room_of self.new ≡ room_of self.old }
    {
        if !self.may_open(heading) {
            return Err(Reason::SectionOutOfPlace);
        }
        let first = self.words.len();
        self.sections.push_reserved(Section { heading, first });
        Ok(())
    }

    fn take_word(&mut self, word: &[u8]) -> Result<(), Reason>
        requires { vec_len self.old.words < room_of self.old }
        ensures content { giving result (content_of self.new) ≡ word_taken word.now (content_of self.old) }
        ensures len { vec_len self.new.words ≤ vec_len self.old.words + 1 }
        ensures room { room_of self.new ≡ room_of self.old }
    {
        if self.sections.is_empty() {
            return Err(Reason::NoSection);
        }
        let word = hex(word)?;
        self.words.push_reserved(word);
        Ok(())
    }

    fn take_words(&mut self, line: &[u8]) -> Result<(), Reason>
        requires { vec_len self.old.words + length line.now ≤ room_of self.old }
        ensures content { giving result (content_of self.new) ≡ words_taken (words_of line.now) (content_of self.old) }
        ensures len { vec_len self.new.words ≤ vec_len self.old.words + length line.now }
        ensures room { room_of self.new ≡ room_of self.old }
    {
        for word in LineWords(line) {
            self.take_word(word)?;
        }
        Ok(())
    }

    fn take_line(&mut self, line: &[u8]) -> Result<(), Reason>
        requires { vec_len self.old.words + length line.now ≤ room_of self.old }
        ensures content { giving result (content_of self.new) ≡ line_taken (words_of line.now) (content_of self.old) }
        ensures len { vec_len self.new.words ≤ vec_len self.old.words + length line.now }
        ensures room { room_of self.new ≡ room_of self.old }
    {
        match Heading::of_line(line) {
            Some(heading) => self.open(heading),
            None => self.take_words(line),
        }
    }

    fn take_lines(&mut self, text: &[u8]) -> Result<(), TextFault>
        requires { vec_len self.old.words + length text.now ≤ room_of self.old }
        ensures content { giving result (content_of self.new) ≡ lines_taken 1 (lines_of text.now) (content_of self.old) }
        ensures room { room_of self.new ≡ room_of self.old }
    {
        // the number is counted here, since it is needed after the last line too
        let mut number = 1;
        for line in Lines(text) {
            let (said, _) = cut(line, b'#');
            self.take_line(said).map_err(|reason| TextFault {
                line: number,
                reason,
            })?;
            number += 1;
        }
        if self.sections.is_empty() {
            return Err(TextFault {
                line: number,
                reason: Reason::MissingSection,
            });
        }
        Ok(())
    }

    /// Becomes what the text says, or empty where the text is refused.
    pub fn read(&mut self, text: &[u8]) -> Result<(), TextFault>
        ensures content { (content_of self.new, result) ≡ answered (read_of (room_of self.old) text.now) }
        ensures back { (ws : List ℕ) → Words ws → text.now ≡ written ws → length text.now ≤ room_of self.old → (content_of self.new ≡ drawing ws) × (result ≡ Ok tt) }
        ensures room { room_of self.new ≡ room_of self.old }
    {
        self.clear();
        if text.len() > self.words.capacity() {
            return Err(TextFault {
                line: 0,
                reason: Reason::NoRoom,
            });
        }
        let answer = self.take_lines(text);
        if answer.is_err() {
            self.clear();
        }
        answer
    }
}

/// The worked texts are read as they should be: no code runs, the contract is the theorem.
fn worked()
    ensures { Worked }
{}
