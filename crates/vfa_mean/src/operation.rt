//! What an operation gives of values.

ghost use Rattle.std.specs.Prelude.{◌≡◌};
ghost use Rattle.vfa_word.specs.Numbers.{IsWidth};
ghost use Rattle.vfa_mean.specs.Meaning.{done, binary};
ghost use Rattle.vfa_mean.specs.Operands.{IsOperation, AreValuesFor};
ghost use Rattle.vfa_mean.specs.Values.{AreOfWidth};

use crate::arithmetic::{arithmetic, with_overflow};
use crate::bits::{bitwise_and, bitwise_or, bitwise_xor, one_number};
use crate::choice::{assumed, chosen, frozen, part_of};
use crate::clamp::two_numbers;
use crate::compare::compare;
use crate::convert::convert;
use crate::division::{divide, divide_signed, remainder, remainder_signed};
use crate::shift::{shift_left, shift_right, shift_right_signed};
use crate::{Done, Val};
use vfa_ir::{Bin, Flags, Op};
use vfa_word::Arith;

/// A binary operation.
fn binary(bin: Bin, flags: Flags, width: u32, a: Val, b: Val) -> Done
    requires width { IsWidth width }
    requires operands { AreOfWidth width a b }
    ensures { result ≡ binary bin flags width a b }
{
    match bin {
        Bin::Add => arithmetic(width, Arith::Add, flags, a, b),
        Bin::Sub => arithmetic(width, Arith::Sub, flags, a, b),
        Bin::Mul => arithmetic(width, Arith::Mul, flags, a, b),
        Bin::Shl => shift_left(width, flags, a, b),
        Bin::Udiv => divide(width, flags, a, b),
        Bin::Sdiv => divide_signed(width, flags, a, b),
        Bin::Lshr => shift_right(width, flags, a, b),
        Bin::Ashr => shift_right_signed(width, flags, a, b),
        Bin::Urem => remainder(width, a, b),
        Bin::Srem => remainder_signed(width, a, b),
        Bin::And => bitwise_and(width, a, b),
        Bin::Or => bitwise_or(width, flags, a, b),
        Bin::Xor => bitwise_xor(width, a, b),
    }
}

/// What an operation gives of the values `a`, `b` and `c` of its operands of these names, as the LLVM Language Reference
/// states it; `c` is the pair of an `extractvalue`. Values of operands that it does not have do not count. No call is
/// such an operation: `add nsw i8` of 100 and 100 gives poison, `udiv` by 0 is undefined behaviour, and `freeze` of
/// poison gives any number of its width. No memory is taken.
#[tactic(auto, unfolding(crate::specs::Meaning::done))]
pub fn eval(op: &Op, a: Val, b: Val, c: Val) -> Done
    requires operation { IsOperation op.now }
    requires operands { AreValuesFor op.now a b c }
    ensures { result ≡ done op.now a b c }
{
    match *op {
        Op::Bin {
            bin,
            flags,
            width,
            ..
        } => binary(bin, flags, width, a, b),
        Op::Icmp {
            pred,
            samesign,
            width,
            ..
        } => compare(width, pred, samesign, a, b),
        Op::Select { .. } => chosen(c, a, b),
        Op::Cast {
            cast,
            flags,
            from,
            to,
            ..
        } => convert(cast, flags, from, to, a),
        Op::Freeze { width, .. } => frozen(width, a),
        Op::Two { fun, width, .. } => two_numbers(width, fun, a, b),
        Op::One {
            fun,
            strict,
            width,
            ..
        } => one_number(width, fun, strict, a),
        Op::Over { over, width, .. } => with_overflow(width, over, a, b),
        Op::Part { index, .. } => part_of(index, c),
        Op::Assume { .. } => assumed(c),
        Op::Call { .. } => unreachable!(),
    }
}
