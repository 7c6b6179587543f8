//! Lines, and the word that begins a define.

ghost use Rattle.std.specs.Prelude.{◌≡◌, ◌<◌, ◌≤◌, ◌+◌, ◌^◌, ◌==◌, length, position, IfSome};
ghost use Rattle.vfa_ir.specs.Tokens as tokens;
ghost use Rattle.vfa_module.specs.Split as spec;

use vfa_ir::is_blank;

/// How many spaces and tabs stand at the beginning.
fn indent(bytes: &[u8]) -> usize
    ensures count { result ≡ spec.indent bytes.now }
    ensures within { result ≤ length bytes.now }
{
    bytes
        .iter()
        .take_while(|b| **b == b' ' || **b == b'\t')
        .count()
}

/// Whether the bytes begin with the word `define` and white space.
#[tactic(auto, unfolding(crate::specs::Split::begins_define))]
fn begins_define(bytes: &[u8]) -> bool
    ensures { result ≡ spec.begins_define bytes.now }
{
    bytes.starts_with(b"define") && is_blank_at(bytes, 6)
}

fn is_blank_at(bytes: &[u8], at: usize) -> bool
    ensures { result ≡ spec.has_blank at bytes.now }
{
    match bytes.get(at) {
        Some(b) => is_blank(*b),
        None => false,
    }
}

/// The offset of the word `define` where the line that begins at this offset begins one.
pub(crate) fn define_of_line(bytes: &[u8], at: usize) -> Option<usize>
    requires { at ≤ length bytes.now }
    ensures define { result ≡ spec.define_of_line bytes.now at }
    ensures within { IfSome result (λ start. (at ≤ start) × (start ≤ length bytes.now)) }
{
    let start = at + indent(&bytes[at..]);
    if begins_define(&bytes[start..]) {
        Some(start)
    } else {
        None
    }
}

/// Where the line after the one of this offset begins.
pub(crate) fn next_line(bytes: &[u8], at: usize) -> usize
    requires { at ≤ length bytes.now }
    ensures next { result ≡ spec.next_line bytes.now at }
    ensures within { result ≤ length bytes.now }
    ensures order { at ≤ result }
    ensures later { at < length bytes.now → at < result }
{
    at + line_bytes(&bytes[at..])
}

fn line_bytes(bytes: &[u8]) -> usize
    ensures bytes { result ≡ spec.line_bytes bytes.now }
    ensures within { result ≤ length bytes.now }
    ensures some { 0 < length bytes.now → 0 < result }
{
    match line_feed(bytes) {
        Some(n) => n + 1,
        None => bytes.len(),
    }
}

fn line_feed(bytes: &[u8]) -> Option<usize>
    ensures place { result ≡ position spec.is_line_feed bytes.now }
    ensures within { IfSome result (λ n. n < length bytes.now) }
{
    bytes.iter().position(|b| *b == b'\n')
}

/// How many bytes stand before the end of the line.
pub(crate) fn line_length(bytes: &[u8]) -> usize
    ensures count { result ≡ tokens.line_len bytes.now }
    ensures within { result ≤ length bytes.now }
{
    bytes.iter().take_while(|b| **b != b'\n').count()
}

/// How many lines end in the bytes.
pub(crate) fn line_feeds(bytes: &[u8]) -> u32
    requires { length bytes.now < 2 ^ 32 }
    ensures count { result ≡ tokens.line_feeds bytes.now }
    ensures bound { result ≤ length bytes.now }
{
    let mut count: u32 = 0;
    for b in bytes {
        if *b == b'\n' {
            count += 1;
        }
    }
    count
}

/// Whether white space or a comment is all up to the end of the line.
pub(crate) fn is_clear(bytes: &[u8]) -> bool
    ensures { result ≡ spec.is_clear bytes.now }
{
    for b in bytes {
        if *b == b'\n' || *b == b';' {
            return true;
        }
        if !is_blank(*b) {
            return false;
        }
    }
    true
}
