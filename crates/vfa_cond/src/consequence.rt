//! What a fact of a name says of the operands of its equation.

ghost use Rattle.std.specs.Prelude.{◌≡◌, ◌<◌, IfSome};
ghost use Rattle.vfa_cond.specs.Consequences.{beside_literal, equal_bit, of_sum, of_and, of_or, of_xor, of_binary, of_conversion, of_comparison, of_select, consequence_of};

use crate::predicates::negated;
use crate::want::Want;
use vfa_ir::{Bin, Cast, Op, Operand, Pred};
use vfa_values::Values;

/// What a fact of a name says of the operands of its equation.
#[derive(Clone, Copy, Debug)]
pub(crate) enum Consequence<V> {
    /// Nothing that is followed.
    Nothing,
    /// No operands give such a number.
    Contradiction,
    /// The operand, of this width, is a wanted number.
    One {
        operand: Operand,
        width: u32,
        want: Want<V>,
    },
    /// Both operands, of type `i1`, are wanted numbers.
    Both {
        first: Operand,
        second: Operand,
        want: Want<V>,
    },
    /// The predicate holds of the operands, which are of this width.
    Holds {
        first: Operand,
        pred: Pred,
        second: Operand,
        width: u32,
    },
}

/// An operand that stands beside a literal.
#[derive(Clone, Copy, Debug)]
pub(crate) struct BesideLiteral {
    pub other: Operand,
    pub literal: u128,
}

/// The literal among two operands, and the operand beside it; of two literals it is the second.
fn beside_literal(a: Operand, b: Operand) -> Option<BesideLiteral>
    ensures { result ≡ beside_literal a b }
{
    if let Operand::Literal(literal) = b {
        return Some(BesideLiteral { other: a, literal });
    }
    if let Operand::Literal(literal) = a {
        return Some(BesideLiteral { other: b, literal });
    }
    None
}

/// Wants this bit.
fn equal_bit<V: Values>(bit: u128) -> Want<V>
    requires { bit < 2 }
    ensures { result ≡ equal_bit V.answers bit }
{
    Want::Compare(Pred::Eq, V::literal(1, bit))
}

fn of_sum<V: Values>(width: u32, a: Operand, b: Operand, fact: &V) -> Consequence<V>
    ensures { result ≡ of_sum width a b fact.now }
{
    let Some(beside) = beside_literal(a, b) else {
        return Consequence::Nothing;
    };
    Consequence::One {
        operand: beside.other,
        width,
        want: Want::Moved {
            sum: *fact,
            c: beside.literal,
        },
    }
}

/// Of an `and` that is the number `v`.
fn of_and<V: Values>(width: u32, a: Operand, b: Operand, v: u128) -> Consequence<V>
    ensures { result ≡ of_and V.answers width a b v }
{
    if let Some(beside) = beside_literal(a, b) {
        if v & beside.literal != v {
            return Consequence::Contradiction;
        }
        return Consequence::One {
            operand: beside.other,
            width,
            want: Want::Bits {
                mask: beside.literal,
                value: v,
            },
        };
    }
    if width == 1 && v == 1 {
        return Consequence::Both {
            first: a,
            second: b,
            want: equal_bit(1),
        };
    }
    Consequence::Nothing
}

/// Of an `or` that is the number `v`.
fn of_or<V: Values>(width: u32, a: Operand, b: Operand, v: u128) -> Consequence<V>
    ensures { result ≡ of_or V.answers width a b v }
{
    if width == 1 && v == 0 {
        return Consequence::Both {
            first: a,
            second: b,
            want: equal_bit(0),
        };
    }
    Consequence::Nothing
}

/// Of a `xor` that is the number `v`.
fn of_xor<V: Values>(width: u32, a: Operand, b: Operand, v: u128) -> Consequence<V>
    ensures { result ≡ of_xor V.answers width a b v }
{
    let Some(beside) = beside_literal(a, b) else {
        return Consequence::Nothing;
    };
    if width == 1 && beside.literal == 1 {
        return Consequence::One {
            operand: beside.other,
            width,
            want: equal_bit(if v == 0 { 1 } else { 0 }),
        };
    }
    Consequence::Nothing
}

fn of_binary<V: Values>(bin: Bin, width: u32, a: Operand, b: Operand, fact: &V) -> Consequence<V>
    ensures { result ≡ of_binary V.answers bin width a b fact.now }
{
    if bin == Bin::Add {
        return of_sum(width, a, b, fact);
    }
    let Some(v) = fact.single() else {
        return Consequence::Nothing;
    };
    match bin {
        Bin::And => of_and(width, a, b, v),
        Bin::Or => of_or(width, a, b, v),
        Bin::Xor => of_xor(width, a, b, v),
        _ => Consequence::Nothing,
    }
}

/// Of a conversion that is the number `v`.
fn of_conversion<V: Values>(cast: Cast, from: u32, to: u32, a: Operand, v: u128) -> Consequence<V>
    ensures { result ≡ of_conversion cast from to a v }
{
    match cast {
        Cast::Trunc => {}
        _ => return Consequence::Nothing,
    }
    if to == 1 {
        return Consequence::One {
            operand: a,
            width: from,
            want: Want::Bits { mask: 1, value: v },
        };
    }
    Consequence::Nothing
}

/// Of a comparison that is the number `v`.
fn of_comparison<V: Values>(
    pred: Pred,
    width: u32,
    a: Operand,
    b: Operand,
    v: u128,
) -> Consequence<V>
    ensures { result ≡ of_comparison pred width a b v }
{
    Consequence::Holds {
        first: a,
        pred: if v == 0 { negated(pred) } else { pred },
        second: b,
        width,
    }
}

/// Of a `select` that is the number `v`.
fn of_select<V: Values>(width: u32, c: Operand, a: Operand, b: Operand, v: u128) -> Consequence<V>
    ensures { result ≡ of_select V.answers width c a b v }
{
    if width != 1 {
        return Consequence::Nothing;
    }
    if v == 1 && b == Operand::Literal(0) {
        return Consequence::Both {
            first: c,
            second: a,
            want: equal_bit(1),
        };
    }
    if v == 0 && a == Operand::Literal(1) {
        return Consequence::Both {
            first: c,
            second: b,
            want: equal_bit(0),
        };
    }
    Consequence::Nothing
}

/// What a fact of the result of an operation says of its operands.
pub(crate) fn consequence_of<V: Values>(op: &Op, fact: &V) -> Consequence<V>
    ensures { result ≡ consequence_of V.answers op.now fact.now }
{
    if let Op::Bin {
        bin,
        width,
        a,
        b,
        ..
    } = *op
    {
        return of_binary(bin, width, a, b, fact);
    }
    let Some(v) = fact.single() else {
        return Consequence::Nothing;
    };
    match *op {
        Op::Cast {
            cast,
            from,
            to,
            a,
            ..
        } => of_conversion(cast, from, to, a, v),
        Op::Icmp {
            pred,
            width,
            a,
            b,
            ..
        } => of_comparison(pred, width, a, b, v),
        Op::Select { width, c, a, b } => of_select(width, c, a, b, v),
        _ => Consequence::Nothing,
    }
}
