//! Readers of one token.

ghost use Rattle.std.specs.Prelude.{◌≡◌, ◌≤◌, drop, bytes_eq, IfOk};
ghost use Rattle.vfa_ir.specs.Words.{pred_word, preds};
ghost use Rattle.vfa_read.specs.Readers.{Gives, Passes, one};
ghost use Rattle.vfa_read.specs.Seen.{all_of};
ghost use Rattle.vfa_read.specs.Tables.{the_mark, the_word, keyword_in, local_name, global_name, label_name, group_digits, metadata_kind, metadata_node, type_of, the_type, part_index, literal_of, value_of, literal_word as word_literal};

use crate::names::written_name;
use crate::numbers::{fits_number, type_width};
use crate::source::{Seen, Source};
use crate::stops::Stop;
use std::alloc::Global;
use vfa_ir::syntax::{Literal, Written};
use vfa_ir::{Name, Pred, is_digits, is_number, keyword_of};

/// Whether two texts are the same.
pub fn same(text: &[u8], other: &[u8]) -> bool
    ensures { result ≡ bytes_eq text.now other.now }
{
    text == other
}

/// `true` or `false` at width 1.
fn literal_word(text: &[u8], width: u32) -> Option<Literal>
    ensures { result ≡ word_literal width text.now }
{
    if width != 1 {
        return None;
    }
    if same(text, b"true") {
        return Some(Literal::Boolean(true));
    }
    if same(text, b"false") {
        return Some(Literal::Boolean(false));
    }
    None
}

impl<'a> Source<'a> {
    /// The place after a mark.
    pub fn mark(&self, at: usize, mark: u8) -> Result<usize, Stop>
        ensures { Passes (all_of self.now) result (one (the_mark mark) (drop at (all_of self.now))) }
    {
        if let Some(Seen::Mark(found)) = self.seen(at) {
            if found == mark {
                return Ok(at + 1);
            }
        }
        Err(Stop::At(at))
    }

    /// The place after a word.
    pub fn word(&self, at: usize, word: &[u8]) -> Result<usize, Stop>
        ensures { Passes (all_of self.now) result (one (the_word word.now) (drop at (all_of self.now))) }
    {
        if let Some(Seen::Word(found)) = self.seen(at) {
            if same(found, word) {
                return Ok(at + 1);
            }
        }
        Err(Stop::At(at))
    }

    /// A predicate of `icmp`.
    pub fn pred(&self, at: usize) -> Result<(Pred, usize), Stop>
        ensures { Gives (all_of self.now) result (one (keyword_in pred_word preds) (drop at (all_of self.now))) }
    {
        if let Some(Seen::Word(found)) = self.seen(at) {
            if let Some(pred) = keyword_of(&Pred::ALL, found) {
                return Ok((pred, at + 1));
            }
        }
        Err(Stop::At(at))
    }

    /// The name of a local: `%name`.
    pub fn local(&self, alloc: Global, at: usize) -> Result<(Name, usize), Stop>
        ensures { Gives (all_of self.now) result (one local_name (drop at (all_of self.now))) }
    {
        if let Some(Seen::Local(text)) = self.seen(at) {
            if let Some(name) = written_name(alloc, text)? {
                return Ok((name, at + 1));
            }
        }
        Err(Stop::At(at))
    }

    /// The name of a global: `@name`.
    pub fn global(&self, alloc: Global, at: usize) -> Result<(Name, usize), Stop>
        ensures { Gives (all_of self.now) result (one global_name (drop at (all_of self.now))) }
    {
        if let Some(Seen::Global(text)) = self.seen(at) {
            if let Some(name) = written_name(alloc, text)? {
                return Ok((name, at + 1));
            }
        }
        Err(Stop::At(at))
    }

    /// The name of a label: `name:`.
    pub fn label(&self, alloc: Global, at: usize) -> Result<(Name, usize), Stop>
        ensures { Gives (all_of self.now) result (one label_name (drop at (all_of self.now))) }
    {
        if let Some(Seen::Label(text)) = self.seen(at) {
            if let Some(name) = written_name(alloc, text)? {
                return Ok((name, at + 1));
            }
        }
        Err(Stop::At(at))
    }

    /// The digits of an attribute group.
    pub fn group(&self, alloc: Global, at: usize) -> Result<(Name, usize), Stop>
        ensures { Gives (all_of self.now) result (one group_digits (drop at (all_of self.now))) }
    {
        if let Some(Seen::Group(text)) = self.seen(at) {
            return Ok((Name::of(alloc, text)?, at + 1));
        }
        Err(Stop::At(at))
    }

    /// The kind of metadata: a word.
    pub fn metadata_kind(&self, alloc: Global, at: usize) -> Result<(Name, usize), Stop>
        ensures { Gives (all_of self.now) result (one metadata_kind (drop at (all_of self.now))) }
    {
        if let Some(Seen::Metadata(text)) = self.seen(at) {
            if !is_number(text) {
                return Ok((Name::of(alloc, text)?, at + 1));
            }
        }
        Err(Stop::At(at))
    }

    /// The node of metadata: digits.
    pub fn metadata_node(&self, alloc: Global, at: usize) -> Result<(Name, usize), Stop>
        ensures { Gives (all_of self.now) result (one metadata_node (drop at (all_of self.now))) }
    {
        if let Some(Seen::Metadata(text)) = self.seen(at) {
            if is_digits(text) {
                return Ok((Name::of(alloc, text)?, at + 1));
            }
        }
        Err(Stop::At(at))
    }

    /// The width of a type `iN`.
    pub fn width(&self, at: usize) -> Result<(u32, usize), Stop>
        ensures gives { Gives (all_of self.now) result (one type_of (drop at (all_of self.now))) }
        ensures in_range { IfOk result (λ p. (1 ≤ p.0) × (p.0 ≤ 128)) }
    {
        if let Some(Seen::Word(text)) = self.seen(at) {
            if let Some(width) = type_width(text) {
                return Ok((width, at + 1));
            }
        }
        Err(Stop::At(at))
    }

    /// The place after the type of this width.
    pub fn type_of_width(&self, at: usize, width: u32) -> Result<usize, Stop>
        ensures { Passes (all_of self.now) result (one (the_type width) (drop at (all_of self.now))) }
    {
        if let Some(Seen::Word(text)) = self.seen(at) {
            if let Some(found) = type_width(text) {
                if found == width {
                    return Ok(at + 1);
                }
            }
        }
        Err(Stop::At(at))
    }

    /// The part of a pair: the very token `0` or `1`.
    pub fn part(&self, at: usize) -> Result<(u32, usize), Stop>
        ensures { Gives (all_of self.now) result (one part_index (drop at (all_of self.now))) }
    {
        if let Some(Seen::Number(text)) = self.seen(at) {
            if same(text, b"0") {
                return Ok((0, at + 1));
            }
            if same(text, b"1") {
                return Ok((1, at + 1));
            }
        }
        Err(Stop::At(at))
    }

    /// A literal of a width.
    pub fn literal(&self, alloc: Global, at: usize, width: u32) -> Result<(Literal, usize), Stop>
        requires least { 1 ≤ width }
        requires most { width ≤ 128 }
        ensures { Gives (all_of self.now) result (one (literal_of width) (drop at (all_of self.now))) }
    {
        match self.seen(at) {
            Some(Seen::Word(text)) => {
                if let Some(literal) = literal_word(text, width) {
                    return Ok((literal, at + 1));
                }
                Err(Stop::At(at))
            }
            Some(Seen::Number(text)) => {
                if fits_number(text, width) {
                    return Ok((Literal::Number(Name::of(alloc, text)?), at + 1));
                }
                Err(Stop::At(at))
            }
            _ => Err(Stop::At(at)),
        }
    }

    /// A value of a width.
    pub fn value(&self, alloc: Global, at: usize, width: u32) -> Result<(Written, usize), Stop>
        requires least { 1 ≤ width }
        requires most { width ≤ 128 }
        ensures { Gives (all_of self.now) result (one (value_of width) (drop at (all_of self.now))) }
    {
        match self.seen(at) {
            Some(Seen::Local(text)) => {
                if let Some(name) = written_name(alloc, text)? {
                    return Ok((Written::Local(name), at + 1));
                }
                Err(Stop::At(at))
            }
            Some(Seen::Word(text)) => {
                if same(text, b"poison") {
                    return Ok((Written::Poison, at + 1));
                }
                if let Some(literal) = literal_word(text, width) {
                    return Ok((Written::Literal(literal), at + 1));
                }
                Err(Stop::At(at))
            }
            Some(Seen::Number(text)) => {
                if fits_number(text, width) {
                    let text = Name::of(alloc, text)?;
                    return Ok((Written::Literal(Literal::Number(text)), at + 1));
                }
                Err(Stop::At(at))
            }
            _ => Err(Stop::At(at)),
        }
    }
}
