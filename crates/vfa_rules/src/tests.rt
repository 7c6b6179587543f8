//! Each rule at its edge, applied and just not.

ghost use Rattle.std.specs.Prelude.{◌≡◌};
ghost use Rattle.vfa_ir.specs.Typed.{Converts};
ghost use Rattle.vfa_rules.specs.Ready.{IsOnBits};
ghost use Rattle.vfa_word.specs.Numbers.{IsWidth};

mod edges;

use crate::{Change, OverflowCall, rule_with};
use std::process::Abort;
use vfa_fact::{Cell, Parts};
use vfa_ir::{Bin, Cast, CastFlags, Flags, Fun2, Op, Operand, Over, Pred, ValueId};

const A: Operand = Operand::Value(ValueId(0));

const B: Operand = Operand::Value(ValueId(1));

const C: Operand = Operand::Value(ValueId(2));

/// A binary operation with these words.
fn binary(width: u32, bin: Bin, nuw: bool, nsw: bool) -> Op {
    Op::Bin {
        bin,
        flags: Flags {
            nuw,
            nsw,
            exact: false,
            disjoint: false,
        },
        width,
        a: A,
        b: B,
    }
}

/// The change is the wanted one.
fn expect(rt: &impl Abort, change: Change, wanted: Change) {
    assert_eq!(rt; change, wanted);
}

/// What becomes of a binary operation without words, whose result is used.
fn of_binary(bin: Bin, a: &Cell, b: &Cell) -> Change
    requires { a.now.width ≡ b.now.width }
{
    let op = Op::Bin {
        bin,
        flags: Flags {
            nuw: false,
            nsw: false,
            exact: false,
            disjoint: false,
        },
        width: a.width,
        a: A,
        b: B,
    };
    // the prover knows that a fact is a cell once a field of it is read
    let _second = b.width;
    let (a, b) = (Parts::One(*a), Parts::One(*b));
    rule_with(&op, None, true, &a, &b, &b)
}

/// What becomes of an intrinsic of two numbers.
fn of_two(fun: Fun2, a: &Cell, b: &Cell) -> Change
    requires { a.now.width ≡ b.now.width }
{
    let op = Op::Two {
        fun,
        width: a.width,
        a: A,
        b: B,
    };
    let _second = b.width;
    let (a, b) = (Parts::One(*a), Parts::One(*b));
    rule_with(&op, None, true, &a, &b, &b)
}

/// What becomes of a comparison without `samesign`.
fn of_icmp(pred: Pred, a: &Cell, b: &Cell) -> Change
    requires { a.now.width ≡ b.now.width }
{
    let op = Op::Icmp {
        pred,
        samesign: false,
        width: a.width,
        a: A,
        b: B,
    };
    let _second = b.width;
    let (a, b) = (Parts::One(*a), Parts::One(*b));
    rule_with(&op, None, true, &a, &b, &b)
}

/// What becomes of a conversion without words.
fn of_cast(cast: Cast, to: u32, a: &Cell) -> Change
    requires width { IsWidth to }
    requires converts { Converts cast a.now.width to }
{
    let op = Op::Cast {
        cast,
        flags: CastFlags {
            nuw: false,
            nsw: false,
            nneg: false,
        },
        from: a.width,
        to,
        a: A,
    };
    let a = Parts::One(*a);
    rule_with(&op, None, true, &a, &a, &a)
}

/// What becomes of a `select`, a `freeze` and an `llvm.assume` on bits of which this is known.
fn of_bit(op: &Op, bit: &Cell) -> Change
    requires width { bit.now.width ≡ 1 }
    requires operation { IsOnBits op.now }
{
    let _width = bit.width;
    let bit = Parts::One(*bit);
    rule_with(op, None, true, &bit, &bit, &bit)
}

/// What becomes of the number of a pair whose bit has this cell, by the sum that gives the pair.
fn of_part(bit: &Cell) -> Change
    requires { bit.now.width ≡ 1 }
{
    let call = OverflowCall {
        over: Over::Uadd,
        a: A,
        b: B,
    };
    let op = Op::Part {
        width: 8,
        pair: ValueId(2),
        index: 0,
    };
    let _width = bit.width;
    let any = Cell::any(8, true);
    let a = Parts::One(any);
    rule_with(&op, Some(call), true, &a, &a, &Parts::Two(any, *bit))
}

#[test]
fn sums_that_do_not_wrap_gain_words(rt: HostRuntime) {
    let all = Cell::any(128, true);
    let both = of_binary(Bin::Add, &all, &Cell::literal(128, 0));
    expect(&rt, both, Change::Keep(binary(128, Bin::Add, true, true)));
    let neither = of_binary(Bin::Add, &all, &Cell::literal(128, 1));
    expect(
        &rt,
        neither,
        Change::Keep(binary(128, Bin::Add, false, false)),
    );
    let sum = of_two(Fun2::UaddSat, &Cell::literal(9, 510), &Cell::literal(9, 1));
    expect(&rt, sum, Change::Keep(binary(9, Bin::Add, true, true)));
}

#[test]
fn divisions_become_unsigned_and_narrow(rt: HostRuntime) {
    let natural = of_binary(Bin::Sdiv, &Cell::literal(8, 127), &Cell::literal(8, 127));
    expect(
        &rt,
        natural,
        Change::Keep(binary(8, Bin::Udiv, false, false)),
    );
    let least = of_binary(Bin::Sdiv, &Cell::literal(8, 127), &Cell::literal(8, 128));
    expect(&rt, least, Change::Keep(binary(8, Bin::Sdiv, false, false)));
    let byte = of_binary(Bin::Udiv, &Cell::literal(17, 255), &Cell::literal(17, 255));
    expect(
        &rt,
        byte,
        Change::Narrow(binary(17, Bin::Udiv, false, false), 8),
    );
    let more = of_binary(Bin::Udiv, &Cell::literal(17, 256), &Cell::literal(17, 255));
    expect(
        &rt,
        more,
        Change::Narrow(binary(17, Bin::Udiv, false, false), 16),
    );
}

#[test]
fn an_operand_takes_the_place_of_what_it_gives(rt: HostRuntime) {
    let all = Cell::any(65, true);
    let masked = of_binary(Bin::And, &all, &Cell::literal(65, (1 << 65) - 1));
    expect(&rt, masked, Change::Uses(A));
    let cleared = of_binary(Bin::And, &all, &Cell::literal(65, (1 << 65) - 2));
    expect(
        &rt,
        cleared,
        Change::Keep(binary(65, Bin::And, false, false)),
    );
    let rest = of_binary(Bin::Urem, &Cell::literal(16, 4), &Cell::literal(16, 5));
    expect(&rt, rest, Change::Uses(A));
    let none = of_binary(Bin::Urem, &Cell::literal(16, 5), &Cell::literal(16, 5));
    expect(
        &rt,
        none,
        Change::Narrow(binary(16, Bin::Urem, false, false), 8),
    );
}

#[test]
fn comparisons_and_conversions_of_one_sign_are_unsigned(rt: HostRuntime) {
    let (half, least) = (Cell::literal(64, (1 << 63) - 1), Cell::literal(64, 1 << 63));
    let order = |pred: Pred, samesign: bool| {
        Change::Keep(Op::Icmp {
            pred,
            samesign,
            width: 64,
            a: A,
            b: B,
        })
    };
    expect(
        &rt,
        of_icmp(Pred::Slt, &half, &half),
        order(Pred::Ult, true),
    );
    expect(
        &rt,
        of_icmp(Pred::Slt, &half, &least),
        order(Pred::Slt, false),
    );
    let byte = of_cast(Cast::Trunc, 8, &Cell::literal(16, 255));
    expect(
        &rt,
        byte,
        Change::Keep(Op::Cast {
            cast: Cast::Trunc,
            flags: CastFlags {
                nuw: true,
                nsw: false,
                nneg: false,
            },
            from: 16,
            to: 8,
            a: A,
        }),
    );
}

#[test]
fn what_is_known_of_a_bit_decides(rt: HostRuntime) {
    let open = Cell::any(1, true);
    let select = Op::Select {
        width: 1,
        c: C,
        a: A,
        b: B,
    };
    expect(&rt, of_bit(&select, &Cell::literal(1, 0)), Change::Uses(B));
    expect(&rt, of_bit(&select, &open), Change::Keep(select));
    let freeze = Op::Freeze { width: 1, a: A };
    expect(&rt, of_bit(&freeze, &open), Change::Uses(A));
    expect(&rt, of_bit(&freeze, &open.unmarked()), Change::Keep(freeze));
    let assume = Op::Assume { c: C };
    expect(
        &rt,
        of_bit(&assume, &Cell::literal(1, 1).unmarked()),
        Change::Gone,
    );
    expect(&rt, of_bit(&assume, &open), Change::Keep(assume));
    let sum = of_part(&Cell::literal(1, 0));
    expect(&rt, sum, Change::Keep(binary(8, Bin::Add, true, false)));
}
