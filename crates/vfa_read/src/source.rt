//! The text of a function with its tokens, seen one token at a time.

ghost use Rattle.std.specs.Prelude.{◌≡◌, ◌+◌, ◌-◌, ℕ, [], ◌∷◌, get_or, length, take, drop, slice_index, slice_range, MatchOption};
ghost use Rattle.vfa_ir.specs.TokenLexemes.{lexeme_of};
ghost use Rattle.vfa_read.specs.Seen.{seen_lexeme, all_of, line_numbers};

use vfa_ir::{Token, TokenKind};

/// The bytes of a function's text, and its tokens.
#[derive(Clone, Copy)]
pub struct Source<'a> {
    /// The bytes.
    pub bytes: &'a [u8],
    /// The tokens.
    pub tokens: &'a [Token],
}

/// What the grammar sees of a token. Names stand as written, without their sign.
#[derive(Clone, Copy)]
pub enum Seen<'a> {
    /// `%name`
    Local(&'a [u8]),
    /// `@name`
    Global(&'a [u8]),
    /// `name:`
    Label(&'a [u8]),
    /// `!run`, without the sign.
    Metadata(&'a [u8]),
    /// `#digits`, without the sign.
    Group(&'a [u8]),
    /// Digits, perhaps after a `-`.
    Number(&'a [u8]),
    /// A word.
    Word(&'a [u8]),
    /// A string that is no name.
    String,
    /// A mark.
    Mark(u8),
    /// Any other byte.
    Other,
}

/// The first byte and those after it.
pub fn first(text: &[u8]) -> Option<(u8, &[u8])>
    ensures { MatchOption result (text.now ≡ []) (λ p. text.now ≡ p.0 ∷ p.1.now) }
{
    match text.split_first() {
        Some((byte, rest)) => Some((*byte, rest)),
        None => None,
    }
}

/// The bytes from one offset to another.
pub fn between(bytes: &[u8], start: usize, end: usize) -> &[u8]
    ensures { result.now ≡ slice_range bytes.now start end }
{
    let first = start.min(bytes.len());
    let rest = &bytes[first..];
    let count = end.saturating_sub(start).min(rest.len());
    &rest[..count]
}

pub fn after_first(text: &[u8]) -> &[u8]
    ensures { result.now ≡ drop 1 text.now }
{
    if text.is_empty() {
        return text;
    }
    &text[1..]
}

pub fn without_last(text: &[u8]) -> &[u8]
    ensures { result.now ≡ take (length text.now - 1) text.now }
{
    &text[..text.len().saturating_sub(1)]
}

fn first_byte(text: &[u8]) -> u8
    ensures { result ≡ slice_index text.now 0 }
{
    match text.first() {
        Some(byte) => *byte,
        None => 0,
    }
}

fn seen_as(kind: TokenKind, text: &[u8]) -> Seen<'_>
    ensures { seen_lexeme result ≡ lexeme_of kind text.now }
{
    match kind {
        TokenKind::Local => Seen::Local(after_first(text)),
        TokenKind::Global => Seen::Global(after_first(text)),
        TokenKind::Label => Seen::Label(without_last(text)),
        TokenKind::Meta => Seen::Metadata(after_first(text)),
        TokenKind::Group => Seen::Group(after_first(text)),
        TokenKind::Number => Seen::Number(text),
        TokenKind::Word => Seen::Word(text),
        TokenKind::String => Seen::String,
        TokenKind::Mark => Seen::Mark(first_byte(text)),
        TokenKind::Other => Seen::Other,
    }
}

impl<'a> Source<'a> {
    /// The line of the token of a place, or 0 where none stands there.
    pub fn line_number(&self, at: usize) -> u32
        ensures { result ≡ get_or (line_numbers self.now) at 0 }
    {
        match self.tokens.get(at) {
            Some(token) => token.line,
            None => 0,
        }
    }

    /// What stands at a place; none after the last token.
    pub fn seen(&self, at: usize) -> Option<Seen<'a>>
        ensures { MatchOption result (drop at (all_of self.now) ≡ [])
            (λ s. drop at (all_of self.now) ≡ seen_lexeme s ∷ drop (at + 1) (all_of self.now)) }
    {
        match self.tokens.get(at) {
            Some(token) => Some(seen_as(token.kind, between(self.bytes, token.start, token.end))),
            None => None,
        }
    }
}
