use crate::AnyFact;
use std::process::Abort;
use std::test::Fail;
use vfa_fact::{Cell, Parts};
use vfa_ir::{Cast, CastFlags, Op, Operand, Over, Pred, Ty};
use vfa_values::Values;

/// The cell of a number; of a pair that of its number.
fn cell(fact: &AnyFact) -> Cell {
    match &fact.parts {
        Parts::One(cell) => *cell,
        Parts::Two(cell, _) => *cell,
    }
}

/// The fact has these known bits and this arc.
fn expect(
    rt: &impl Abort,
    fact: &AnyFact,
    zeros: u128,
    ones: u128,
    first: u128,
    last: u128,
) -> Result<(), Fail> {
    let numbers = cell(fact).numbers.ok_or("no numbers")?;
    assert_eq!(rt; numbers.zeros, zeros);
    assert_eq!(rt; numbers.ones, ones);
    assert_eq!(rt; numbers.first, first);
    assert_eq!(rt; numbers.last, last);
    Ok(())
}

#[test]
fn frozen_poison_is_any_number(rt: HostRuntime) -> Result<(), Fail> {
    let poison = AnyFact::poison(Ty::Int(8));
    let freeze = Op::Freeze {
        width: 8,
        a: Operand::Poison,
    };
    let frozen = AnyFact::transfer(&freeze, &poison, &poison, &poison);
    expect(&rt, &frozen, 0, 0, 0, 255)?;
    assert!(rt; cell(&frozen).never_poison);
    Ok(())
}

#[test]
fn an_extension_that_breaks_its_word_has_no_number(rt: HostRuntime) {
    let last = AnyFact::literal(8, 255);
    let extend = Op::Cast {
        cast: Cast::Zext,
        flags: CastFlags {
            nuw: false,
            nsw: false,
            nneg: true,
        },
        from: 8,
        to: 16,
        a: Operand::Literal(255),
    };
    let extended = AnyFact::transfer(&extend, &last, &last, &last);
    assert!(rt; cell(&extended).numbers.is_none());
}

#[test]
fn a_sum_that_overflows_says_so(rt: HostRuntime) -> Result<(), Fail> {
    let a = AnyFact::literal(8, 200);
    let b = AnyFact::literal(8, 100);
    let sum = Op::Over {
        over: Over::Uadd,
        width: 8,
        a: Operand::Literal(200),
        b: Operand::Literal(100),
    };
    let pair = AnyFact::transfer(&sum, &a, &b, &b);
    expect(&rt, &pair, 211, 44, 44, 44)?;
    match &pair.parts {
        Parts::One(_) => assert!(rt; false),
        Parts::Two(_, bit) => assert_eq!(rt; bit.single(), Some(1)),
    }
    Ok(())
}

#[test]
fn widening_goes_on_to_a_landmark(rt: HostRuntime) -> Result<(), Fail> {
    let marks = [0, 20, 127, 128, 255];
    let old = AnyFact::literal(8, 4);
    let new = AnyFact::literal(8, 6);
    expect(&rt, &old.widen(&new, 3, &marks), 0xf9, 4, 4, 6)?;
    expect(&rt, &old.widen(&new, 4, &marks), 0xe1, 0, 4, 20)?;
    expect(&rt, &old.widen(&new, 9, &marks), 1, 0, 0, 254)?;
    Ok(())
}

#[test]
fn a_comparison_leaves_the_numbers_that_satisfy_it(rt: HostRuntime) -> Result<(), Fail> {
    let any = AnyFact::any(Ty::Int(8), false);
    let below = any
        .compare(Pred::Ult, &AnyFact::literal(8, 16))
        .ok_or("none")?;
    expect(&rt, &below, 0xf0, 0, 0, 15)?;
    assert!(rt; cell(&below).never_poison);
    let odd = below.with_bits(1, 1).ok_or("none")?;
    expect(&rt, &odd, 0xf0, 1, 1, 15)?;
    Ok(())
}
