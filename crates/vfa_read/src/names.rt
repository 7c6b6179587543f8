//! Names as written: plain, or in quotes.

ghost use Rattle.std.specs.Prelude.{IsTrue, ◌<◌, ◌≡◌, ◌≤◌, [], ◌∷◌, ◌++◌, length, IfOk};
ghost use Rattle.std.specs.Char.{is_ascii_hexdigit};
ghost use Rattle.vfa_ir.specs.Names.{bare_text, bytes_of_name as name_bytes, decoded, hex_value, token_name as name_of_token};
ghost use Rattle.vfa_ir.specs.TokenLexemes.{written_name as name_written, quoted_name as name_quoted};

use crate::source::{after_first, between, first, without_last};
use std::alloc::{AllocError, Global};
use vfa_ir::{Name, Token, TokenKind, is_digits};

/// The value of a hexadecimal digit.
#[tactic(auto, unfolding(vfa_ir::specs::Names::hex_value))]
fn hexadecimal(digit: u8) -> u8
    requires { IsTrue (is_ascii_hexdigit digit) }
    ensures value { result ≡ hex_value digit }
    ensures below { result < 16 }
{
    if digit <= b'9' {
        return digit - b'0';
    }
    if digit <= b'F' {
        return digit - b'A' + 10;
    }
    digit - b'a' + 10
}

/// The byte that a string begins with, and the rest of the string: two hexadecimal digits after a backslash stand for
/// one byte, two backslashes for one.
fn piece<'a>(byte: u8, after: &'a [u8]) -> (u8, &'a [u8])
    ensures piece { decoded (byte ∷ after.now) ≡ result.0 ∷ decoded result.1.now }
    ensures shorter { length result.1.now ≤ length after.now }
{
    let Some((second, rest)) = first(after) else {
        return (byte, after);
    };
    if byte != b'\\' {
        return (byte, after);
    }
    if second == b'\\' {
        return (b'\\', rest);
    }
    let Some((third, last)) = first(rest) else {
        return (byte, after);
    };
    if !second.is_ascii_hexdigit() {
        return (byte, after);
    }
    if !third.is_ascii_hexdigit() {
        return (byte, after);
    }
    (16 * hexadecimal(second) + hexadecimal(third), last)
}

/// The bytes that stand so between quotes.
fn unescaped(alloc: Global, text: &[u8]) -> Result<Vec<u8>, AllocError>
    ensures { IfOk result (λ v. v.items ≡ decoded text.now) }
{
    let mut bytes = Vec::new(alloc);
    let mut rest = text;
    'pieces: while let Some((byte, after)) = first(rest) {
        let (value, next) = piece(byte, after);
        bytes.push(value)?;
        rest = next;
    }
    Ok(bytes)
}

fn quoted_name(alloc: Global, text: &[u8]) -> Result<Option<Name>, AllocError>
    ensures { IfOk result (λ o. o ≡ name_quoted (decoded text.now)) }
{
    let bytes = unescaped(alloc, text)?;
    if bytes.is_empty() {
        return Ok(None);
    }
    if is_digits(bytes.as_slice()) {
        return Ok(None);
    }
    Ok(Some(Name(bytes)))
}

/// The name that is written so, without its sign; none where it is in quotes and empty or digits alone.
pub fn written_name(alloc: Global, text: &[u8]) -> Result<Option<Name>, AllocError>
    ensures { IfOk result (λ o. o ≡ name_written text.now) }
{
    let Some((sign, after)) = first(text) else {
        return Ok(None);
    };
    if sign == b'"' {
        return quoted_name(alloc, without_last(after));
    }
    Ok(Some(Name::of(alloc, text)?))
}

/// The bytes that a run or a string stands for.
fn bytes_of_name(alloc: Global, written: &[u8]) -> Result<Name, AllocError>
    ensures { IfOk result (λ name. name ≡ name_bytes written.now) }
{
    let Some((sign, after)) = first(written) else {
        return Name::of(alloc, written);
    };
    if sign == b'"' {
        return Ok(Name(unescaped(alloc, without_last(after))?));
    }
    Name::of(alloc, written)
}

/// The run or the string of a token, without its sign or its colon.
fn bare_text_of<'a>(bytes: &'a [u8], token: &Token) -> &'a [u8]
    ensures { result.now ≡ bare_text bytes.now token.now }
{
    let text = between(bytes, token.start, token.end);
    match token.kind {
        TokenKind::Local => after_first(text),
        TokenKind::Global => after_first(text),
        TokenKind::Meta => after_first(text),
        TokenKind::Label => without_last(text),
        _ => text,
    }
}

/// The bytes of the name that a token of these bytes stands for, also where it is empty or digits alone in quotes, which
/// name nothing in a function (Language Reference, "Identifiers").
///
/// The token `@"a\20b"` gives `a b`.
pub fn token_name(alloc: Global, bytes: &[u8], token: &Token) -> Result<Name, AllocError>
    ensures { IfOk result (λ name. name ≡ name_of_token bytes.now token.now) }
{
    bytes_of_name(alloc, bare_text_of(bytes, token))
}
