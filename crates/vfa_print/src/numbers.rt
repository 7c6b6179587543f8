//! Numbers as they are written: in signed decimals.

ghost use Rattle.std.specs.Prelude.{◌≡◌, ◌≤◌, ◌-◌, ◌^◌, ◌++◌, nat_lt, IfOk};
ghost use Rattle.vfa_print.specs.Trees.{signed_text};

use std::alloc::{AllocError, Global};
use vfa_ir::push_decimal;

/// Whether the bits of a number of the width say that it is not negative.
fn is_natural(width: u32, bits: u128) -> bool
    ensures { result ≡ nat_lt bits (2 ^ (width - 1)) }
{
    match 1_u128.checked_shl(width.saturating_sub(1)) {
        Some(half) => bits < half,
        None => true,
    }
}

/// How far below zero a negative number is.
fn magnitude(width: u32, bits: u128) -> u128
    requires { 2 ^ (width - 1) ≤ bits }
    ensures { result ≡ 2 ^ width - bits }
{
    match 1_u128.checked_shl(width) {
        Some(whole) => whole.saturating_sub(bits),
        None => bits.wrapping_neg(),
    }
}

/// Puts a number of the width, given by its bits, last in a text.
pub fn push_signed(
    alloc: Global,
    text: &mut Vec<u8>,
    width: u32,
    bits: u128,
) -> Result<(), AllocError>
    ensures { IfOk result (λ _. text.new.items ≡ text.old.items ++ signed_text width bits) }
{
    if is_natural(width, bits) {
        return push_decimal(alloc, text, bits);
    }
    text.push(b'-')?;
    push_decimal(alloc, text, magnitude(width, bits))
}
