//! The tokens of a module's text.

/// The kinds of tokens.
#[derive(Clone, Copy, Debug, PartialEq, Eq)]
pub enum TokenKind {
    /// `%` and a run or a string.
    Local,
    /// `@` and a run or a string.
    Global,
    /// A run or a string, and `:`.
    Label,
    /// `!` and a run.
    Meta,
    /// `#` and digits.
    Group,
    /// Digits, or `-` and digits.
    Number,
    /// Any other run.
    Word,
    /// Any other string.
    String,
    /// One of `( ) [ ] { } , = * < > : ! |`.
    Mark,
    /// Any other byte, or a string that is not closed.
    Other,
}

/// A token: its kind, and where it stands in the text.
#[derive(Clone, Copy, Debug, PartialEq, Eq)]
pub struct Token {
    /// Its kind.
    pub kind: TokenKind,
    /// The offset of its first byte.
    pub start: usize,
    /// The offset after its last byte.
    pub end: usize,
    /// The line of its first byte, counted from 1.
    pub line: u32,
}
