//! Shifts.

ghost use Rattle.std.specs.Prelude.{◌≡◌, ◌<◌, ◌≤◌, ◌^◌, ◌&&◌, ◌||◌, MatchOption};
ghost use Rattle.vfa_word.specs.Numbers.{IsWidth};
ghost use Rattle.vfa_word.specs.Operations.{shifted_left, shifted_right_signed};
ghost use Rattle.vfa_mean.specs.Meaning.{of_two};
ghost use Rattle.vfa_mean.specs.Rows.{shift_leaves_unsigned, shift_leaves_signed, shift_left, shift_right, shift_right_signed, loses_ones};
ghost use Rattle.vfa_mean.specs.Values.{AreOfWidth};

use crate::numbers::{
    Numbers, POISON, both_numbers, cut, is_within, most, number_unless, signed, wrapped,
};
use crate::{Done, Val};
use vfa_ir::Flags;

/// The amount of a shift, where it is below the width.
fn amount(width: u32, y: u128) -> Option<u32>
    requires { IsWidth width }
    ensures { MatchOption result (width ≤ y) (λ t. (t ≡ y) × (t < width)) }
{
    let t = u32::try_from(y).ok()?;
    if width <= t {
        return None;
    }
    Some(t)
}

/// Whether the product by 2^t leaves the unsigned range.
fn leaves_unsigned(width: u32, x: u128, t: u32) -> bool
    requires width { IsWidth width }
    requires amount { t < width }
    ensures { result ≡ shift_leaves_unsigned width x t }
{
    most(width) >> t < x
}

/// Whether the product of the reading by 2^t leaves the signed range: the reading leaves the range that is narrower by t.
fn leaves_signed(width: u32, x: u128, t: u32) -> bool
    requires width { IsWidth width }
    requires number { x < 2 ^ width }
    requires amount { t < width }
    ensures { result ≡ shift_leaves_signed width x t }
{
    !is_within(signed(width, x), (most(width) >> 1) >> t)
}

/// Whether a shift to the left leaves a range that the flags promise.
fn breaks_flags(width: u32, flags: Flags, x: u128, t: u32) -> bool
    requires width { IsWidth width }
    requires number { x < 2 ^ width }
    requires amount { t < width }
    ensures { result ≡ (flags.nuw && shift_leaves_unsigned width x t || flags.nsw && shift_leaves_signed width x t) }
{
    if flags.nuw && leaves_unsigned(width, x, t) {
        return true;
    }
    flags.nsw && leaves_signed(width, x, t)
}

/// The product by 2^t modulo 2^width.
fn shifted_left(width: u32, x: u128, t: u32) -> u128
    requires width { IsWidth width }
    requires amount { t < width }
    ensures { result ≡ shifted_left width x t }
{
    cut(width, x << t)
}

/// `shl`.
pub fn shift_left(width: u32, flags: Flags, a: Val, b: Val) -> Done
    requires width { IsWidth width }
    requires operands { AreOfWidth width a b }
    ensures { result ≡ of_two (shift_left flags width) a b }
{
    let Some(Numbers { x, y }) = both_numbers(width, a, b) else {
        return POISON;
    };
    let Some(t) = amount(width, y) else {
        return POISON;
    };
    number_unless(breaks_flags(width, flags, x, t), shifted_left(width, x, t))
}

/// Whether a shift to the right drops a one.
fn loses_ones(x: u128, t: u32) -> bool
    requires { t < 128 }
    ensures { result ≡ loses_ones x t }
{
    x % (1 << t) != 0
}

/// `lshr`.
pub fn shift_right(width: u32, flags: Flags, a: Val, b: Val) -> Done
    requires width { IsWidth width }
    requires operands { AreOfWidth width a b }
    ensures { result ≡ of_two (shift_right flags width) a b }
{
    let Some(Numbers { x, y }) = both_numbers(width, a, b) else {
        return POISON;
    };
    let Some(t) = amount(width, y) else {
        return POISON;
    };
    let broken = flags.exact && loses_ones(x, t);
    number_unless(broken, x >> t)
}

/// The quotient of the reading by 2^t, rounded down, modulo 2^width.
fn shifted_right_signed(width: u32, x: u128, t: u32) -> u128
    requires width { IsWidth width }
    requires number { x < 2 ^ width }
    requires amount { t < width }
    ensures { result ≡ shifted_right_signed width x t }
{
    wrapped(width, signed(width, x) >> t)
}

/// `ashr`.
pub fn shift_right_signed(width: u32, flags: Flags, a: Val, b: Val) -> Done
    requires width { IsWidth width }
    requires operands { AreOfWidth width a b }
    ensures { result ≡ of_two (shift_right_signed flags width) a b }
{
    let Some(Numbers { x, y }) = both_numbers(width, a, b) else {
        return POISON;
    };
    let Some(t) = amount(width, y) else {
        return POISON;
    };
    let broken = flags.exact && loses_ones(x, t);
    number_unless(broken, shifted_right_signed(width, x, t))
}
