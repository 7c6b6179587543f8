//! The brace that closes a define.
//!
//! Tokens say which brace it is, but none is made for it: a bracket that stands in no string and in no comment is a token
//! of its own, so each byte there is looked at by itself.

ghost use Rattle.std.specs.Prelude.{◌≡◌, ◌<◌, ◌≤◌, ◌+◌, ◌^◌, ℕ, length, None, IfSome, MatchOption, slice_index, ◌||◌};
ghost use Rattle.std.specs.Str.{byte};
ghost use Rattle.vfa_module.specs.Defines.{IsBrace};
ghost use Rattle.vfa_module.specs.Scan as scan;
ghost use Rattle.vfa_module.specs.Split as spec;

use crate::lines::{line_feeds, line_length};
use vfa_ir::{Token, TokenKind, is_run_byte};

/// The brace that closes the define whose word stands at the offset `start`, on this line.
pub(crate) fn closing_brace(bytes: &[u8], start: usize, line: u32) -> Option<Token>
    requires within { start ≤ length bytes.now }
    requires lines { line + length bytes.now < 2 ^ 32 + start }
    ensures brace { result ≡ spec.closing_brace bytes.now start line }
    ensures found { IfSome result (λ t. IsBrace bytes.now start line t) }
    ensures bound { IfSome result (λ t. t.line + start ≤ line + t.start) }
{
    match place_of_brace(bytes, start) {
        Some(place) => Some(Token {
            kind: TokenKind::Mark,
            start: place,
            end: place + 1,
            line: line + line_feeds(&bytes[start..place]),
        }),
        None => None,
    }
}

/// The offset of the brace that closes the define whose word stands at the offset `start`.
fn place_of_brace(bytes: &[u8], start: usize) -> Option<usize>
    requires within { start ≤ length bytes.now }
    ensures brace { (line : ℕ) → spec.closing_brace bytes.now start line ≡ scan.brace_at bytes.now start line result }
    ensures place { IfSome result (λ place. (start ≤ place) × (place < length bytes.now)) }
    ensures byte_is { IfSome result (λ place. slice_index bytes.now place ≡ byte "}") }
{
    match body(bytes, start) {
        Some(from) => closing_of_body(bytes, from),
        None => None,
    }
}

/// The offset after the brace that opens the body.
fn body(bytes: &[u8], start: usize) -> Option<usize>
    requires within { start ≤ length bytes.now }
    ensures body { (line : ℕ) → MatchOption result
        (spec.closing_brace bytes.now start line ≡ None)
        (λ at. spec.closing_brace bytes.now start line
        ≡ spec.closing_of_body bytes.now 0 (scan.tokens_on bytes.now start line at)) }
    ensures place { IfSome result (λ at. (start ≤ at) × (at ≤ length bytes.now)) }
{
    let mut at = start;
    let mut named = false;
    let mut parens = 0;
    while at < bytes.len() {
        let first = bytes[at];
        let rest = &bytes[at + 1..];
        if opens_body(named, parens, first) {
            return Some(at + 1);
        }
        named = is_named(named, first, rest);
        parens = parens_after(parens, first);
        let more = passed(first, rest);
        at += 1 + more;
    }
    None
}

/// How many bytes are passed over after this one, which stands before the others: those of the string or of the comment
/// that it begins.
#[tactic(auto, unfolding(crate::specs::Scan::passed))]
fn passed(first: u8, rest: &[u8]) -> usize
    ensures count { result ≡ scan.passed first rest.now }
    ensures within { result ≤ length rest.now }
{
    match first {
        b'"' => string_length(rest),
        b';' => line_length(rest),
        _ => 0,
    }
}

/// How many bytes a string takes after its opening quote; all of them where no quote closes it.
fn string_length(bytes: &[u8]) -> usize
    ensures count { result ≡ scan.string_length bytes.now }
    ensures within { result ≤ length bytes.now }
{
    let inner = before_quote(bytes);
    if inner < bytes.len() {
        inner + 1
    } else {
        bytes.len()
    }
}

fn before_quote(bytes: &[u8]) -> usize
    ensures { result ≡ scan.before_quote bytes.now }
{
    bytes.iter().take_while(|b| **b != b'"').count()
}

/// Whether the define is named after this byte, which stands before the others.
fn is_named(before: bool, first: u8, rest: &[u8]) -> bool
    ensures { result ≡ (before || scan.begins_global first rest.now) }
{
    before || begins_global(first, rest)
}

/// Whether a global name begins with this byte, which stands before the others.
fn begins_global(first: u8, rest: &[u8]) -> bool
    ensures { result ≡ scan.begins_global first rest.now }
{
    first == b'@' && begins_name(rest)
}

/// Whether the bytes begin with a run or an opening quote.
fn begins_name(bytes: &[u8]) -> bool
    ensures { result ≡ scan.begins_name bytes.now }
{
    match bytes {
        [b, ..] => *b == b'"' || is_run_byte(*b),
        [] => false,
    }
}

#[tactic(auto, unfolding(crate::specs::Split::opens_body))]
fn opens_body(named: bool, parens: usize, b: u8) -> bool
    ensures { result ≡ spec.opens_body named parens b }
{
    named && parens == 0 && b == b'{'
}

#[tactic(auto, unfolding(crate::specs::Split::closes_body))]
fn closes_body(braces: usize, b: u8) -> bool
    ensures { result ≡ spec.closes_body braces b }
{
    braces == 0 && b == b'}'
}

/// How many parentheses are open after the byte; a closing one without an open one counts for nothing.
fn parens_after(parens: usize, b: u8) -> usize
    requires { parens + 1 < 2 ^ 64 }
    ensures count { result ≡ spec.parens_after parens b }
    ensures bound { result ≤ parens + 1 }
{
    match b {
        b'(' => parens + 1,
        b')' => parens.saturating_sub(1),
        _ => parens,
    }
}

/// How many inner braces are open after the byte.
fn braces_after(braces: usize, b: u8) -> usize
    requires { braces + 1 < 2 ^ 64 }
    ensures count { result ≡ spec.braces_after braces b }
    ensures bound { result ≤ braces + 1 }
{
    match b {
        b'{' => braces + 1,
        b'}' => braces.saturating_sub(1),
        _ => braces,
    }
}

/// The offset of the brace that closes the body, from an offset in the body on: the first one that closes no inner brace.
fn closing_of_body(bytes: &[u8], from: usize) -> Option<usize>
    requires within { from ≤ length bytes.now }
    ensures brace { (start line : ℕ) → start ≤ from →
        spec.closing_of_body bytes.now 0 (scan.tokens_on bytes.now start line from) ≡ scan.brace_at bytes.now start line result }
    ensures place { IfSome result (λ place. (from ≤ place) × (place < length bytes.now)) }
    ensures byte_is { IfSome result (λ place. slice_index bytes.now place ≡ byte "}") }
{
    let mut at = from;
    let mut braces = 0;
    while at < bytes.len() {
        let first = bytes[at];
        if closes_body(braces, first) {
            return Some(at);
        }
        braces = braces_after(braces, first);
        let more = passed(first, &bytes[at + 1..]);
        at += 1 + more;
    }
    None
}
