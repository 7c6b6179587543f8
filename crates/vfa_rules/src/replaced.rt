//! Operands that take the place of a result.

ghost use Rattle.std.specs.Prelude.{◌≡◌};
ghost use Rattle.vfa_rules.specs.Ready.{AreReady};
ghost use Rattle.vfa_rules.specs.Rules.{binary_gives, binary_gives_first, chosen_arm, extreme_gives, first_or_second, frozen_operand, kept_operand};

use crate::bits::ones_are_covered;
use crate::ends::{all_at_most, all_at_most_signed, all_less};
use vfa_fact::Cell;
use vfa_ir::{Bin, Fun2, Op, Operand};

/// The arm of a `select` whose condition is one number.
pub(crate) fn chosen_arm(op: &Op, condition: &Cell) -> Option<Operand>
    ensures { result ≡ chosen_arm condition.now op.now }
{
    match *op {
        Op::Select { a, b, .. } => match condition.single() {
            Some(number) => Some(if number == 0 { b } else { a }),
            None => None,
        },
        _ => None,
    }
}

/// Whether a binary operation gives the kept operand, whichever of its numbers both are.
fn binary_gives(bin: Bin, kept: &Cell, other: &Cell) -> bool
    requires { kept.now.width ≡ other.now.width }
    ensures { result ≡ binary_gives bin kept.now other.now }
{
    match bin {
        Bin::And => ones_are_covered(kept, other),
        Bin::Or => ones_are_covered(other, kept),
        _ => false,
    }
}

/// Whether it gives its first operand.
fn binary_gives_first(bin: Bin, x: &Cell, y: &Cell) -> bool
    requires { x.now.width ≡ y.now.width }
    ensures { result ≡ binary_gives_first bin x.now y.now }
{
    match bin {
        Bin::Urem => all_less(x, y),
        _ => binary_gives(bin, x, y),
    }
}

/// Whether an intrinsic of two numbers gives the kept operand, whichever of its numbers both are.
fn extreme_gives(fun: Fun2, kept: &Cell, other: &Cell) -> bool
    ensures { result ≡ extreme_gives fun kept.now other.now }
{
    match fun {
        Fun2::Umin => all_at_most(kept, other),
        Fun2::Umax => all_at_most(other, kept),
        Fun2::Smin => all_at_most_signed(kept, other),
        Fun2::Smax => all_at_most_signed(other, kept),
        _ => false,
    }
}

/// The operand of a binary operation that it gives.
fn kept_of_binary(bin: Bin, x: &Cell, y: &Cell, a: Operand, b: Operand) -> Option<Operand>
    requires { x.now.width ≡ y.now.width }
    ensures { result ≡ first_or_second (binary_gives_first bin x.now y.now) (binary_gives bin y.now x.now) a b }
{
    if binary_gives_first(bin, x, y) {
        return Some(a);
    }
    if binary_gives(bin, y, x) {
        return Some(b);
    }
    None
}

/// The operand of an intrinsic of two numbers that it gives.
fn kept_of_two(fun: Fun2, x: &Cell, y: &Cell, a: Operand, b: Operand) -> Option<Operand>
    ensures { result ≡ first_or_second (extreme_gives fun x.now y.now) (extreme_gives fun y.now x.now) a b }
{
    if extreme_gives(fun, x, y) {
        return Some(a);
    }
    if extreme_gives(fun, y, x) {
        return Some(b);
    }
    None
}

/// The operand that an operation of two operands gives, whichever of its numbers both are.
pub(crate) fn kept_operand(op: &Op, x: &Cell, y: &Cell) -> Option<Operand>
    requires { AreReady op.now x.now y.now }
    ensures { result ≡ kept_operand x.now y.now op.now }
{
    match *op {
        Op::Bin { bin, a, b, .. } => kept_of_binary(bin, x, y, a, b),
        Op::Two { fun, a, b, .. } => kept_of_two(fun, x, y, a, b),
        _ => None,
    }
}

/// The operand of a `freeze` that is never poison.
pub(crate) fn frozen_operand(op: &Op, x: &Cell) -> Option<Operand>
    ensures { result ≡ frozen_operand x.now op.now }
{
    match *op {
        Op::Freeze { a, .. } if x.never_poison => Some(a),
        _ => None,
    }
}
