//! Names as they are written: plain, or in quotes.

ghost use Rattle.std.specs.Prelude.{◌≡◌, ◌<◌, ◌++◌, IfOk};
ghost use Rattle.std.specs.List.{flat_map, list_all};
ghost use Rattle.vfa_ir.specs.Tokens as tokens;
ghost use Rattle.vfa_print.specs.Layout.{begins_with_digit as begins, byte_text, hex_digit as digit_of, is_escaped as escaped, is_plain as plain, name_text};

use std::alloc::AllocError;
use vfa_ir::{all_digits, is_run_byte};

fn begins_with_digit(name: &[u8]) -> bool
    ensures { result ≡ begins name.now }
{
    match name.first() {
        Some(b) => b.is_ascii_digit(),
        None => false,
    }
}

fn are_run_bytes(name: &[u8]) -> bool
    ensures { result ≡ list_all tokens.is_run_byte name.now }
{
    name.iter().all(|b| is_run_byte(*b))
}

/// Whether a name stands as it is.
fn is_plain(name: &[u8]) -> bool
    ensures { result ≡ plain name.now }
{
    are_run_bytes(name) && (!begins_with_digit(name) || all_digits(name))
}

#[tactic(auto, unfolding(crate::specs::Layout::is_escaped))]
fn is_escaped(b: u8) -> bool
    ensures { result ≡ escaped b }
{
    b == b'"' || b == b'\\' || b < 32 || 126 < b
}

fn hex_digit(n: u8) -> u8
    requires { n < 16 }
    ensures { result ≡ digit_of n }
{
    if n < 10 { b'0' + n } else { b'A' - 10 + n }
}

/// Puts a byte of a name in quotes last in a text.
fn push_byte(text: &mut Vec<u8>, b: u8) -> Result<(), AllocError>
    ensures { IfOk result (λ _. text.new.items ≡ text.old.items ++ byte_text b) }
{
    if !is_escaped(b) {
        text.push(b)?;
        return Ok(());
    }
    text.push(b'\\')?;
    text.push(hex_digit(b / 16))?;
    text.push(hex_digit(b % 16))?;
    Ok(())
}

fn push_bytes(text: &mut Vec<u8>, bytes: &[u8]) -> Result<(), AllocError>
    ensures { IfOk result (λ _. text.new.items ≡ text.old.items ++ flat_map byte_text bytes.now) }
{
    'bytes: for b in bytes {
        push_byte(text, *b)?;
    }
    Ok(())
}

/// Puts a name last in a text.
pub fn push_name(text: &mut Vec<u8>, name: &[u8]) -> Result<(), AllocError>
    ensures { IfOk result (λ _. text.new.items ≡ text.old.items ++ name_text name.now) }
{
    if is_plain(name) {
        return text.extend_from_slice(name);
    }
    text.push(b'"')?;
    push_bytes(text, name)?;
    text.push(b'"')?;
    Ok(())
}
