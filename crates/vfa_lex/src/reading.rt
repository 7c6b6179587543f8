//! Reading tokens from a place on.

ghost use Rattle.std.specs.Prelude.{◌≡◌, ◌<◌, ◌≤◌, ◌+◌, ◌-◌, ◌^◌, length, ◌∷◌, IfOk, IfSome};
ghost use Rattle.std.specs.List.{AllByRecursion};
ghost use Rattle.vfa_ir.specs.Limits.{most_bytes};
ghost use Rattle.vfa_ir.specs.Tokens as spec;
ghost use Rattle.vfa_lex.specs.Gaps.{Fill};

use crate::bytes::{line_feed, line_feeds};
use crate::pieces::{Piece, first_piece};
use std::alloc::{AllocError, Global};
use vfa_ir::Token;

/// The first token when reading begins at the offset `from`, which stands on this line; None exactly where reading from
/// there finds no token. The bytes before it do not count: in the middle of a word the rest of it is a token.
///
/// In `%a = add` with `from` 2 it is the mark `=`, from 3 to 4.
pub fn token_at(bytes: &[u8], from: usize, line: u32) -> Option<Token>
    requires within { from ≤ length bytes.now }
    requires lines { line + length bytes.now < 2 ^ 32 + from }
    ensures token { result ≡ spec.first (spec.tokens_from bytes.now from line) }
    ensures placed { IfSome result (λ t. spec.IsPlaced bytes.now from line t) }
    ensures rest { IfSome result (λ t.
        spec.tokens_from bytes.now from line
        ≡ t ∷ spec.tokens_from bytes.now t.end (spec.line_after bytes.now t)) }
{
    let mut at = from;
    let mut line = line;
    while at < bytes.len() {
        let first = bytes[at];
        match first_piece(first, &bytes[at + 1..]) {
            Piece::Token(kind, more) => {
                return Some(Token {
                    kind,
                    start: at,
                    end: at + 1 + more,
                    line,
                });
            }
            Piece::Gap(more) => {
                line += line_feed(first);
                at += 1 + more;
            }
        }
    }
    None
}

/// The line on which reading goes on after a token: its own, and one more for each line feed in it, as a string may
/// have them.
pub fn line_after(bytes: &[u8], token: &Token) -> u32
    requires order { token.now.start ≤ token.now.end }
    requires within { token.now.end ≤ length bytes.now }
    requires lines { token.now.line + (token.now.end - token.now.start) < 2 ^ 32 }
    ensures { result ≡ spec.line_after bytes.now token.now }
{
    token.line + line_feeds(&bytes[token.start..token.end])
}

/// All tokens of a text in order, with lines counted from 1.
///
/// `a: ; c` has the label `a:` and nothing else.
pub fn tokens(alloc: Global, bytes: &[u8]) -> Result<Vec<Token>, AllocError>
    requires { length bytes.now ≤ most_bytes }
    ensures all { IfOk result (λ all. all.items ≡ spec.tokens_of bytes.now) }
    ensures placed { IfOk result (λ all. AllByRecursion (spec.IsPlaced bytes.now 0 1) all.items) }
    ensures order { IfOk result (λ all. spec.AreInOrder 0 all.items) }
    // what is no token is white space or a comment
    ensures fill { IfOk result (λ all. Fill bytes.now 0 all.items) }
{
    let mut all = Vec::new(alloc);
    let mut at = 0;
    let mut line = 1;
    while let Some(token) = token_at(bytes, at, line) {
        all.push(token)?;
        at = token.end;
        line = line_after(bytes, &token);
    }
    Ok(all)
}
