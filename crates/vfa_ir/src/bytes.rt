//! Classes of bytes, and numbers in decimals.

ghost use Rattle.std.specs.Prelude.{◌≡◌, ◌++◌, decimal, IfOk};
ghost use Rattle.std.specs.Char.{is_ascii_digit};
ghost use Rattle.std.specs.List.{list_all};
ghost use Rattle.vfa_ir.specs.Tokens as tokens;
ghost use Rattle.vfa_ir.specs.Words as words;

use std::alloc::{AllocError, Global};

/// Whether a byte is white space: a space, a tab, a carriage return or a line feed.
#[tactic(auto, unfolding(crate::specs::Tokens::is_blank))]
pub fn is_blank(byte: u8) -> bool
    ensures { result ≡ tokens.is_blank byte }
{
    byte == b' ' || byte == b'\t' || byte == b'\r' || byte == b'\n'
}

/// Whether a byte is one of a run, as of a name without quotes: a letter, a digit, `-`, `$`, `.` or `_`.
#[tactic(auto, unfolding(crate::specs::Tokens::is_run_byte))]
pub fn is_run_byte(byte: u8) -> bool
    ensures { result ≡ tokens.is_run_byte byte }
{
    byte.is_ascii_alphabetic()
        || byte.is_ascii_digit()
        || byte == b'-'
        || byte == b'$'
        || byte == b'.'
        || byte == b'_'
}

/// Whether all of the bytes are decimal digits, as where there are none.
pub fn all_digits(text: &[u8]) -> bool
    ensures { result ≡ list_all is_ascii_digit text.now }
{
    text.iter().all(|byte| byte.is_ascii_digit())
}

/// Whether a text is digits alone, and at least one.
pub fn is_digits(text: &[u8]) -> bool
    ensures { result ≡ words.is_digits text.now }
{
    match text {
        [] => false,
        _ => all_digits(text),
    }
}

/// Whether a text is digits, perhaps after a `-`.
pub fn is_number(text: &[u8]) -> bool
    ensures { result ≡ words.is_number text.now }
{
    match text {
        [b'-', digits @ ..] => is_digits(digits),
        _ => is_digits(text),
    }
}

/// Puts a number in decimals last in a text: of 12 the bytes `12`.
pub fn push_decimal(alloc: Global, text: &mut Vec<u8>, number: u128) -> Result<(), AllocError>
    ensures { IfOk result (λ _. text.new.items ≡ text.old.items ++ decimal number) }
{
    let digits = format!(in alloc; "{number}")?;
    text.extend_from_slice(digits.as_bytes())
}
