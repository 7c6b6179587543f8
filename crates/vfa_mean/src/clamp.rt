//! The intrinsics of two numbers: minimum, maximum, and sums and differences clamped to the range.

ghost use Rattle.std.specs.Prelude.{◌≡◌, ◌<◌, ◌^◌};
ghost use Rattle.vfa_word.specs.Numbers.{IsWidth, wrap};
ghost use Rattle.vfa_word.specs.Operations.{clamped_signed, saturated_signed, saturated_unsigned, signed_maximum, signed_minimum};
ghost use Rattle.vfa_mean.specs.Meaning.{of_two};
ghost use Rattle.vfa_mean.specs.Rows.{chosen_or_clamped, two_numbers};
ghost use Rattle.vfa_mean.specs.Values.{AreOfWidth};
ghost use Rattle.vfa_word.specs.declared.arith.Arith.{Arith};

use crate::numbers::{Numbers, POISON, both_numbers, most, signed, wrapped};
use crate::{Done, Val};
use vfa_ir::Fun2;

/// The lesser number by the signed readings.
fn signed_minimum(width: u32, x: u128, y: u128) -> u128
    requires width { IsWidth width }
    requires left { x < 2 ^ width }
    requires right { y < 2 ^ width }
    ensures { result ≡ signed_minimum width x y }
{
    if signed(width, y) < signed(width, x) {
        return y;
    }
    x
}

/// The greater number by the signed readings.
fn signed_maximum(width: u32, x: u128, y: u128) -> u128
    requires width { IsWidth width }
    requires left { x < 2 ^ width }
    requires right { y < 2 ^ width }
    ensures { result ≡ signed_maximum width x y }
{
    if signed(width, x) < signed(width, y) {
        return y;
    }
    x
}

/// The whole sum, clamped to the numbers of the width.
fn saturated_sum(width: u32, x: u128, y: u128) -> u128
    requires { IsWidth width }
    ensures { result ≡ saturated_unsigned width Arith.Add x y }
{
    x.saturating_add(y).min(most(width))
}

/// The whole difference, clamped to the numbers of the width.
fn saturated_difference(width: u32, x: u128, y: u128) -> u128
    requires { x < 2 ^ width }
    ensures { result ≡ saturated_unsigned width Arith.Sub x y }
{
    x.saturating_sub(y)
}

/// The number of a whole number that is clamped to the signed range of the width.
fn clamped(width: u32, whole: i128) -> u128
    requires { IsWidth width }
    ensures { result ≡ wrap width (clamped_signed width whole) }
{
    let greatest = (most(width) >> 1) as i128;
    wrapped(width, whole.min(greatest).max(!greatest))
}

/// The whole sum of the readings, clamped to the signed range.
fn saturated_signed_sum(width: u32, x: u128, y: u128) -> u128
    requires width { IsWidth width }
    requires left { x < 2 ^ width }
    requires right { y < 2 ^ width }
    ensures { result ≡ saturated_signed width Arith.Add x y }
{
    clamped(width, signed(width, x).saturating_add(signed(width, y)))
}

/// The whole difference of the readings, clamped to the signed range.
fn saturated_signed_difference(width: u32, x: u128, y: u128) -> u128
    requires width { IsWidth width }
    requires left { x < 2 ^ width }
    requires right { y < 2 ^ width }
    ensures { result ≡ saturated_signed width Arith.Sub x y }
{
    clamped(width, signed(width, x).saturating_sub(signed(width, y)))
}

/// The number that an intrinsic of two numbers gives.
fn chosen_or_clamped(width: u32, fun: Fun2, x: u128, y: u128) -> u128
    requires width { IsWidth width }
    requires left { x < 2 ^ width }
    requires right { y < 2 ^ width }
    ensures { result ≡ chosen_or_clamped fun width x y }
{
    match fun {
        Fun2::Umin => x.min(y),
        Fun2::Umax => x.max(y),
        Fun2::Smin => signed_minimum(width, x, y),
        Fun2::Smax => signed_maximum(width, x, y),
        Fun2::UaddSat => saturated_sum(width, x, y),
        Fun2::UsubSat => saturated_difference(width, x, y),
        Fun2::SaddSat => saturated_signed_sum(width, x, y),
        Fun2::SsubSat => saturated_signed_difference(width, x, y),
    }
}

/// The intrinsics of two numbers.
pub fn two_numbers(width: u32, fun: Fun2, a: Val, b: Val) -> Done
    requires width { IsWidth width }
    requires operands { AreOfWidth width a b }
    ensures { result ≡ of_two (two_numbers fun width) a b }
{
    let Some(Numbers { x, y }) = both_numbers(width, a, b) else {
        return POISON;
    };
    Done::Is(Val::Number(chosen_or_clamped(width, fun, x, y)))
}
