//! Readers of the parts of instructions.

ghost use Rattle.std.specs.Prelude.{◌≡◌, drop, map};
ghost use Rattle.vfa_ir.specs.Words.{call_words as words_of_call, lead_words as words_of_lead, parameter_words};
ghost use Rattle.vfa_read.specs.Productions.{is_any_word, is_mark, is_word, is_word_among, words_among, metadata_pair, attachment, attachments};
ghost use Rattle.vfa_read.specs.Readers.{Gives, next_passes, one};
ghost use Rattle.vfa_read.specs.Seen.{all_of};
ghost use Rattle.vfa_read.specs.Tables.{word_among};

use crate::leaves::same;
use crate::source::{Seen, Source};
use crate::stops::Stop;
use std::alloc::Global;
use vfa_ir::syntax::Attachment;
use vfa_ir::{CALL_WORDS, Items, LEAD_WORDS, Name, PARAMETER_WORDS, is_among};

impl<'a> Source<'a> {
    /// Whether a mark stands at a place.
    pub fn has_mark(&self, at: usize, mark: u8) -> bool
        ensures { result ≡ next_passes (is_mark mark) (drop at (all_of self.now)) }
    {
        if let Some(Seen::Mark(found)) = self.seen(at) {
            return found == mark;
        }
        false
    }

    /// Whether a word stands at a place.
    pub fn has_word(&self, at: usize, word: &[u8]) -> bool
        ensures { result ≡ next_passes (is_word word.now) (drop at (all_of self.now)) }
    {
        if let Some(Seen::Word(found)) = self.seen(at) {
            return same(found, word);
        }
        false
    }

    /// Whether a word stands at a place.
    pub fn has_any_word(&self, at: usize) -> bool
        ensures { result ≡ next_passes is_any_word (drop at (all_of self.now)) }
    {
        if let Some(Seen::Word(_)) = self.seen(at) {
            return true;
        }
        false
    }

    /// Whether one of these words stands at a place.
    fn has_word_among(&self, at: usize, words: &[&[u8]]) -> bool
        ensures { result ≡ next_passes (is_word_among (map (λ w. w.now) words.now)) (drop at (all_of self.now)) }
    {
        if let Some(Seen::Word(found)) = self.seen(at) {
            return is_among(found, words);
        }
        false
    }

    /// One of these words.
    fn word_among(&self, alloc: Global, at: usize, words: &[&[u8]]) -> Result<(Name, usize), Stop>
        ensures { Gives (all_of self.now) result (one (word_among (map (λ w. w.now) words.now)) (drop at (all_of self.now))) }
    {
        if let Some(Seen::Word(found)) = self.seen(at) {
            if is_among(found, words) {
                return Ok((Name::of(alloc, found)?, at + 1));
            }
        }
        Err(Stop::At(at))
    }

    /// Any number of these words.
    fn words_among(
        &self,
        alloc: Global,
        from: usize,
        words: &[&[u8]],
    ) -> Result<(Items<Name>, usize), Stop>
        ensures { Gives (all_of self.now) result (words_among (map (λ w. w.now) words.now) (drop from (all_of self.now))) }
    {
        let mut list = Vec::new(alloc);
        let mut at = from;
        'list: while self.has_word_among(at, words) {
            let (word, next) = self.word_among(alloc, at, words)?;
            list.push(word)?;
            at = next;
        }
        Ok((Items(list), at))
    }

    /// The words between `define` and the type of the result.
    pub fn lead_words(&self, alloc: Global, at: usize) -> Result<(Items<Name>, usize), Stop>
        ensures { Gives (all_of self.now) result (words_among words_of_lead (drop at (all_of self.now))) }
    {
        self.words_among(alloc, at, &LEAD_WORDS)
    }

    /// The attributes of a parameter or of an argument.
    pub fn attributes(&self, alloc: Global, at: usize) -> Result<(Items<Name>, usize), Stop>
        ensures { Gives (all_of self.now) result (words_among parameter_words (drop at (all_of self.now))) }
    {
        self.words_among(alloc, at, &PARAMETER_WORDS)
    }

    /// The words between `call` and the type of the result.
    pub fn call_words(&self, alloc: Global, at: usize) -> Result<(Items<Name>, usize), Stop>
        ensures { Gives (all_of self.now) result (words_among words_of_call (drop at (all_of self.now))) }
    {
        self.words_among(alloc, at, &CALL_WORDS)
    }

    /// `!kind !node`
    #[tactic(auto, unfolding(crate::specs::Productions::metadata_pair))]
    pub fn metadata_pair(&self, alloc: Global, at: usize) -> Result<(Attachment, usize), Stop>
        ensures { Gives (all_of self.now) result (metadata_pair (drop at (all_of self.now))) }
    {
        let (kind, at) = self.metadata_kind(alloc, at)?;
        let (node, at) = self.metadata_node(alloc, at)?;
        Ok((Attachment { kind, node }, at))
    }

    /// `, !kind !node`
    #[tactic(auto, unfolding(crate::specs::Productions::attachment))]
    fn attachment(&self, alloc: Global, at: usize) -> Result<(Attachment, usize), Stop>
        ensures { Gives (all_of self.now) result (attachment (drop at (all_of self.now))) }
    {
        let at = self.mark(at, b',')?;
        self.metadata_pair(alloc, at)
    }

    /// The metadata after an instruction.
    pub fn attachments(
        &self,
        alloc: Global,
        from: usize,
    ) -> Result<(Items<Attachment>, usize), Stop>
        ensures { Gives (all_of self.now) result (attachments (drop from (all_of self.now))) }
    {
        let mut list = Vec::new(alloc);
        let mut at = from;
        'list: while self.has_mark(at, b',') {
            let (attachment, next) = self.attachment(alloc, at)?;
            list.push(attachment)?;
            at = next;
        }
        Ok((Items(list), at))
    }
}
