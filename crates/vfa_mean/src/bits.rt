//! Operations bit by bit, and intrinsics of one number.

ghost use Rattle.std.specs.Prelude.{◌≡◌, ◌<◌, ◌^◌};
ghost use Rattle.vfa_word.specs.Numbers.{IsWidth};
ghost use Rattle.vfa_word.specs.Operations.{absolute_of, one_bits, leading_zero_bits, trailing_zero_bits};
ghost use Rattle.vfa_mean.specs.Meaning.{of_one, of_two};
ghost use Rattle.vfa_mean.specs.Rows.{bitwise_and, bitwise_or, bitwise_xor, one_number};
ghost use Rattle.vfa_mean.specs.Values.{AreOfWidth, IsInt};

use crate::numbers::{Numbers, POISON, both_numbers, is_least, number, number_unless, signed};
use crate::{Done, Val};
use vfa_ir::{Flags, Fun1};

/// `and`.
pub fn bitwise_and(width: u32, a: Val, b: Val) -> Done
    requires width { IsWidth width }
    requires operands { AreOfWidth width a b }
    ensures { result ≡ of_two bitwise_and a b }
{
    let Some(Numbers { x, y }) = both_numbers(width, a, b) else {
        return POISON;
    };
    Done::Is(Val::Number(x & y))
}

/// `or`.
pub fn bitwise_or(width: u32, flags: Flags, a: Val, b: Val) -> Done
    requires width { IsWidth width }
    requires operands { AreOfWidth width a b }
    ensures { result ≡ of_two (bitwise_or flags) a b }
{
    let Some(Numbers { x, y }) = both_numbers(width, a, b) else {
        return POISON;
    };
    let broken = flags.disjoint && x & y != 0;
    number_unless(broken, x | y)
}

/// `xor`.
pub fn bitwise_xor(width: u32, a: Val, b: Val) -> Done
    requires width { IsWidth width }
    requires operands { AreOfWidth width a b }
    ensures { result ≡ of_two bitwise_xor a b }
{
    let Some(Numbers { x, y }) = both_numbers(width, a, b) else {
        return POISON;
    };
    Done::Is(Val::Number(x ^ y))
}

/// The number of ones.
fn ones(width: u32, x: u128) -> u32
    requires { x < 2 ^ width }
    ensures { result ≡ one_bits width x }
{
    x.count_ones()
}

/// The number of zeros above the highest one.
fn leading_zeros(width: u32, x: u128) -> u32
    requires width { IsWidth width }
    requires number { x < 2 ^ width }
    ensures { result ≡ leading_zero_bits width x }
{
    x.leading_zeros() - (128 - width)
}

/// The number of zeros below the lowest one.
fn trailing_zeros(width: u32, x: u128) -> u32
    requires { IsWidth width }
    ensures { result ≡ trailing_zero_bits width x }
{
    x.trailing_zeros().min(width)
}

/// The distance of the signed reading from 0.
fn absolute(width: u32, x: u128) -> u128
    requires width { IsWidth width }
    requires number { x < 2 ^ width }
    ensures { result ≡ absolute_of width x }
{
    signed(width, x).unsigned_abs()
}

/// The intrinsics of one number; where `strict` is set, their edge case is poison.
pub fn one_number(width: u32, fun: Fun1, strict: bool, a: Val) -> Done
    requires width { IsWidth width }
    requires operand { IsInt width a }
    ensures { result ≡ of_one (one_number fun strict width) a }
{
    let Some(x) = number(width, a) else {
        return POISON;
    };
    match fun {
        Fun1::Abs => number_unless(strict && is_least(width, x), absolute(width, x)),
        Fun1::Ctlz => number_unless(strict && x == 0, leading_zeros(width, x) as u128),
        Fun1::Cttz => number_unless(strict && x == 0, trailing_zeros(width, x) as u128),
        Fun1::Ctpop => Done::Is(Val::Number(ones(width, x) as u128)),
    }
}
