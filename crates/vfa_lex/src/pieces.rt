//! What a text begins with: a gap or a token.

ghost use Rattle.std.specs.Prelude.{◌≡◌, ◌<◌, ◌≤◌, ◌+◌, length};
ghost use Rattle.vfa_ir.specs.Tokens as spec;
ghost use Rattle.vfa_lex.specs.Pieces.{as_piece};

use crate::bytes::{
    digits, is_mark, is_number, line_length, name_length, quoted_length, run_length,
};
use vfa_ir::{TokenKind, is_blank, is_run_byte};

/// White space or a comment, or a token of a kind: its first byte and so many more.
#[derive(Clone, Copy, Debug, PartialEq, Eq)]
pub(crate) enum Piece {
    Gap(usize),
    Token(TokenKind, usize),
}

/// The piece that begins with this byte, which stands before the others.
#[tactic(auto, unfolding(vfa_ir::specs::Tokens::piece_of))]
pub(crate) fn first_piece(first: u8, rest: &[u8]) -> Piece
    ensures { as_piece result ≡ spec.piece_of first rest.now }
{
    if is_blank(first) {
        return Piece::Gap(0);
    }
    match first {
        b';' => Piece::Gap(line_length(rest)),
        b'%' => after_sigil(TokenKind::Local, rest),
        b'@' => after_sigil(TokenKind::Global, rest),
        b'!' => meta(rest),
        b'#' => group(rest),
        b'"' => quoted(rest),
        _ if is_run_byte(first) => run(first, rest),
        _ if is_mark(first) => Piece::Token(TokenKind::Mark, 0),
        _ => Piece::Token(TokenKind::Other, 0),
    }
}

/// A name of this kind after its sigil.
#[tactic(auto, unfolding(vfa_ir::specs::Tokens::after_sigil))]
fn after_sigil(kind: TokenKind, rest: &[u8]) -> Piece
    ensures { as_piece result ≡ spec.after_sigil kind rest.now }
{
    match name_length(rest) {
        0 => Piece::Token(TokenKind::Other, 0),
        more => Piece::Token(kind, more),
    }
}

#[tactic(auto, unfolding(vfa_ir::specs::Tokens::meta))]
fn meta(rest: &[u8]) -> Piece
    ensures { as_piece result ≡ spec.meta rest.now }
{
    match run_length(rest) {
        0 => Piece::Token(TokenKind::Mark, 0),
        more => Piece::Token(TokenKind::Meta, more),
    }
}

#[tactic(auto, unfolding(vfa_ir::specs::Tokens::group))]
fn group(rest: &[u8]) -> Piece
    ensures { as_piece result ≡ spec.group rest.now }
{
    match digits(rest) {
        0 => Piece::Token(TokenKind::Other, 0),
        more => Piece::Token(TokenKind::Group, more),
    }
}

#[tactic(auto, unfolding(vfa_ir::specs::Tokens::quoted))]
fn quoted(rest: &[u8]) -> Piece
    ensures { as_piece result ≡ spec.quoted rest.now }
{
    match quoted_length(rest) {
        Some(more) => or_label(TokenKind::String, more, rest),
        None => Piece::Token(TokenKind::Other, rest.len()),
    }
}

#[tactic(auto, unfolding(vfa_ir::specs::Tokens::run_of))]
fn run(first: u8, rest: &[u8]) -> Piece
    ensures { as_piece result ≡ spec.run_of first rest.now }
{
    let more = run_length(rest);
    let kind = if is_number(first, &rest[..more]) {
        TokenKind::Number
    } else {
        TokenKind::Word
    };
    or_label(kind, more, rest)
}

/// A label where a colon follows directly, and else this kind.
#[tactic(auto, unfolding(vfa_ir::specs::Tokens::or_label))]
fn or_label(kind: TokenKind, more: usize, rest: &[u8]) -> Piece
    ensures { as_piece result ≡ spec.or_label kind more rest.now }
{
    match rest.get(more) {
        Some(b':') => Piece::Token(TokenKind::Label, more + 1),
        _ => Piece::Token(kind, more),
    }
}
