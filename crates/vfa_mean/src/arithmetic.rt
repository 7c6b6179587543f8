//! Sums, differences and products: wrapped, with flags, and with overflow.

ghost use Rattle.std.specs.Prelude.{◌≡◌, ◌≢◌, ◌<◌, ◌^◌, ◌||◌, ◌&&◌, pos, ◌+ℤ◌, ◌-ℤ◌, ◌*ℤ◌, not};
ghost use Rattle.vfa_word.specs.Numbers.{IsWidth, fits_signed, fits_unsigned, signed_of, whole_result, wrap};
ghost use Rattle.vfa_word.specs.Operations.{difference_of, product_of, sum_of};
ghost use Rattle.vfa_mean.specs.Meaning.{of_two};
ghost use Rattle.vfa_mean.specs.Rows.{arithmetic, with_overflow, leaves_unsigned, leaves_signed, overflows, overflow_arith};
ghost use Rattle.vfa_mean.specs.Values.{AreOfWidth};

use crate::numbers::{
    Numbers, POISON, both_numbers, cut, is_in_signed_range, most, number_unless, signed,
};
use crate::{Done, Val};
use vfa_ir::{Flags, Over};
use vfa_word::Arith;

/// Whether a sum leaves the unsigned range.
fn sum_leaves_unsigned(width: u32, x: u128, y: u128) -> bool
    requires { IsWidth width }
    ensures { result ≡ not (fits_unsigned width (pos x +ℤ pos y)) }
{
    match x.checked_add(y) {
        Some(sum) => most(width) < sum,
        None => true,
    }
}

/// Whether a difference leaves the unsigned range.
fn difference_leaves_unsigned(width: u32, x: u128, y: u128) -> bool
    requires { x < 2 ^ width }
    ensures { result ≡ not (fits_unsigned width (pos x -ℤ pos y)) }
{
    x < y
}

/// Whether a product leaves the unsigned range.
fn product_leaves_unsigned(width: u32, x: u128, y: u128) -> bool
    requires { IsWidth width }
    ensures { result ≡ not (fits_unsigned width (pos x *ℤ pos y)) }
{
    match x.checked_mul(y) {
        Some(product) => most(width) < product,
        None => true,
    }
}

/// Whether the whole result of two numbers leaves the unsigned range.
fn leaves_unsigned(width: u32, op: Arith, x: u128, y: u128) -> bool
    requires width { IsWidth width }
    requires left { x < 2 ^ width }
    requires no_shift { op ≢ Arith.Shl }
    ensures { result ≡ leaves_unsigned width op x y }
{
    match op {
        Arith::Add => sum_leaves_unsigned(width, x, y),
        Arith::Sub => difference_leaves_unsigned(width, x, y),
        Arith::Mul => product_leaves_unsigned(width, x, y),
        Arith::Shl => unreachable!(),
    }
}

/// Whether a sum of whole numbers leaves the signed range.
fn sum_leaves_signed(width: u32, x: i128, y: i128) -> bool
    requires { IsWidth width }
    ensures { result ≡ not (fits_signed width (x +ℤ y)) }
{
    match x.checked_add(y) {
        Some(sum) => !is_in_signed_range(width, sum),
        None => true,
    }
}

/// Whether a difference of whole numbers leaves the signed range.
fn difference_leaves_signed(width: u32, x: i128, y: i128) -> bool
    requires { IsWidth width }
    ensures { result ≡ not (fits_signed width (x -ℤ y)) }
{
    match x.checked_sub(y) {
        Some(difference) => !is_in_signed_range(width, difference),
        None => true,
    }
}

/// Whether a product of whole numbers leaves the signed range.
fn product_leaves_signed(width: u32, x: i128, y: i128) -> bool
    requires { IsWidth width }
    ensures { result ≡ not (fits_signed width (x *ℤ y)) }
{
    match x.checked_mul(y) {
        Some(product) => !is_in_signed_range(width, product),
        None => true,
    }
}

/// Whether the whole result of the readings of two numbers leaves the signed range.
fn leaves_signed(width: u32, op: Arith, x: u128, y: u128) -> bool
    requires width { IsWidth width }
    requires left { x < 2 ^ width }
    requires right { y < 2 ^ width }
    requires no_shift { op ≢ Arith.Shl }
    ensures { result ≡ leaves_signed width op x y }
{
    let x = signed(width, x);
    let y = signed(width, y);
    match op {
        Arith::Add => sum_leaves_signed(width, x, y),
        Arith::Sub => difference_leaves_signed(width, x, y),
        Arith::Mul => product_leaves_signed(width, x, y),
        Arith::Shl => unreachable!(),
    }
}

/// Whether the whole result of two numbers leaves a range that the flags promise.
fn breaks_flags(width: u32, op: Arith, flags: Flags, x: u128, y: u128) -> bool
    requires width { IsWidth width }
    requires left { x < 2 ^ width }
    requires right { y < 2 ^ width }
    requires no_shift { op ≢ Arith.Shl }
    ensures { result ≡ (flags.nuw && leaves_unsigned width op x y || flags.nsw && leaves_signed width op x y) }
{
    if flags.nuw && leaves_unsigned(width, op, x, y) {
        return true;
    }
    flags.nsw && leaves_signed(width, op, x, y)
}

/// The sum modulo 2^width.
fn sum(width: u32, x: u128, y: u128) -> u128
    requires { IsWidth width }
    ensures { result ≡ sum_of width x y }
{
    cut(width, x.wrapping_add(y))
}

/// The difference modulo 2^width.
fn difference(width: u32, x: u128, y: u128) -> u128
    requires width { IsWidth width }
    requires right { y < 2 ^ width }
    ensures { result ≡ difference_of width x y }
{
    cut(width, x.wrapping_sub(y))
}

/// The product modulo 2^width.
fn product(width: u32, x: u128, y: u128) -> u128
    requires { IsWidth width }
    ensures { result ≡ product_of width x y }
{
    cut(width, x.wrapping_mul(y))
}

/// The whole result modulo 2^width.
fn wrapped(width: u32, op: Arith, x: u128, y: u128) -> u128
    requires width { IsWidth width }
    requires right { y < 2 ^ width }
    requires no_shift { op ≢ Arith.Shl }
    ensures { result ≡ wrap width (whole_result op (pos x) (pos y)) }
{
    match op {
        Arith::Add => sum(width, x, y),
        Arith::Sub => difference(width, x, y),
        Arith::Mul => product(width, x, y),
        Arith::Shl => unreachable!(),
    }
}

/// `add`, `sub` and `mul`.
pub fn arithmetic(width: u32, op: Arith, flags: Flags, a: Val, b: Val) -> Done
    requires width { IsWidth width }
    requires operands { AreOfWidth width a b }
    requires no_shift { op ≢ Arith.Shl }
    ensures { result ≡ of_two (arithmetic op flags width) a b }
{
    let Some(Numbers { x, y }) = both_numbers(width, a, b) else {
        return POISON;
    };
    number_unless(
        breaks_flags(width, op, flags, x, y),
        wrapped(width, op, x, y),
    )
}

/// The operation on whole numbers that an intrinsic with overflow does.
fn overflow_arith(over: Over) -> Arith
    ensures operation { result ≡ overflow_arith over }
    ensures no_shift { result ≢ Arith.Shl }
{
    match over {
        Over::Uadd => Arith::Add,
        Over::Sadd => Arith::Add,
        Over::Usub => Arith::Sub,
        Over::Ssub => Arith::Sub,
        Over::Umul => Arith::Mul,
        Over::Smul => Arith::Mul,
    }
}

/// Whether the whole result leaves the range of the intrinsic.
fn overflows(width: u32, over: Over, x: u128, y: u128) -> bool
    requires width { IsWidth width }
    requires left { x < 2 ^ width }
    requires right { y < 2 ^ width }
    ensures { result ≡ overflows over width x y }
{
    let op = overflow_arith(over);
    match over {
        Over::Uadd | Over::Usub | Over::Umul => leaves_unsigned(width, op, x, y),
        Over::Sadd | Over::Ssub | Over::Smul => leaves_signed(width, op, x, y),
    }
}

/// The intrinsics with overflow.
pub fn with_overflow(width: u32, over: Over, a: Val, b: Val) -> Done
    requires width { IsWidth width }
    requires operands { AreOfWidth width a b }
    ensures { result ≡ of_two (with_overflow over width) a b }
{
    let Some(Numbers { x, y }) = both_numbers(width, a, b) else {
        return POISON;
    };
    let result = wrapped(width, overflow_arith(over), x, y);
    Done::Is(Val::Pair(result, overflows(width, over, x, y)))
}
