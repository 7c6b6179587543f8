ghost use Rattle.std.specs.Prelude.{◌≡◌, IfOk, IsTrue};

use super::transfer_binary;
use std::process::Abort;
use std::test::Fail;
use vfa_dom::Domain;
use vfa_fact::{Cell, Fact, Test};
use vfa_ir::{Bin, Flags};
use vfa_known::Known;
use vfa_word::Word;
use vfa_wrap::Wrapped;

const PLAIN: Flags = Flags {
    nuw: false,
    nsw: false,
    exact: false,
    disjoint: false,
};

/// The numbers of width 8 from `low` up to `high`, never poison.
fn range(low: u128, high: u128) -> Result<Cell, Fail>
    ensures { IfOk result (λ c. c.width ≡ 8) }
{
    let arc = Wrapped::new(Word::<8>::cut(low), Word::cut(high));
    let fact = Fact::sharp(Known::any(), arc, &Test::any()).ok_or("no numbers")?;
    Ok(Cell::of(&fact, true))
}

/// The cell has these known bits and this arc.
fn expect(
    rt: &impl Abort,
    cell: &Cell,
    zeros: u128,
    ones: u128,
    first: u128,
    last: u128,
) -> Result<(), Fail> {
    let numbers = cell.numbers.ok_or("no numbers")?;
    assert_eq!(rt; numbers.zeros, zeros);
    assert_eq!(rt; numbers.ones, ones);
    assert_eq!(rt; numbers.first, first);
    assert_eq!(rt; numbers.last, last);
    Ok(())
}

#[test]
fn a_shift_drops_known_bits(rt: HostRuntime) -> Result<(), Fail> {
    let shifted = transfer_binary(Bin::Lshr, PLAIN, &range(16, 255)?, &Cell::literal(8, 4));
    expect(&rt, &shifted, 0xf0, 0, 1, 15)?;
    assert!(rt; shifted.never_poison);
    Ok(())
}

#[test]
fn a_division_is_by_divisors_other_than_zero(rt: HostRuntime) -> Result<(), Fail> {
    let quotient = transfer_binary(Bin::Udiv, PLAIN, &range(10, 100)?, &range(0, 5)?);
    expect(&rt, &quotient, 0x80, 0, 2, 100)?;
    let none = transfer_binary(Bin::Udiv, PLAIN, &range(10, 100)?, &Cell::literal(8, 0));
    assert!(rt; none.numbers.is_none());
    Ok(())
}

#[test]
fn a_remainder_is_below_the_divisor(rt: HostRuntime) -> Result<(), Fail> {
    let rest = transfer_binary(Bin::Urem, PLAIN, &Cell::any(8, true), &Cell::literal(8, 8));
    expect(&rt, &rest, 0xf8, 0, 0, 7)?;
    assert!(rt; rest.never_poison);
    Ok(())
}

#[test]
fn a_sum_that_may_not_wrap_is_cut(rt: HostRuntime) -> Result<(), Fail> {
    let nuw = Flags { nuw: true, ..PLAIN };
    let sum = transfer_binary(Bin::Add, nuw, &range(200, 210)?, &range(40, 60)?);
    expect(&rt, &sum, 0, 0xf0, 240, 255)?;
    assert!(rt; !sum.never_poison);
    let none = transfer_binary(Bin::Add, nuw, &range(200, 210)?, &range(100, 105)?);
    assert!(rt; none.numbers.is_none());
    Ok(())
}

#[test]
fn an_exact_division_may_be_poison(rt: HostRuntime) -> Result<(), Fail> {
    let exact = Flags {
        exact: true,
        ..PLAIN
    };
    let open = transfer_binary(Bin::Udiv, exact, &range(10, 100)?, &range(1, 5)?);
    assert!(rt; !open.never_poison);
    let five = transfer_binary(
        Bin::Udiv,
        exact,
        &Cell::literal(8, 10),
        &Cell::literal(8, 2),
    );
    assert_eq!(rt; five.single(), Some(5));
    assert!(rt; five.never_poison);
    let poison = transfer_binary(
        Bin::Udiv,
        exact,
        &Cell::literal(8, 10),
        &Cell::literal(8, 3),
    );
    assert!(rt; poison.numbers.is_none());
    Ok(())
}

#[test]
fn a_bit_in_both_leaves_no_disjoint_number(rt: HostRuntime) -> Result<(), Fail> {
    let disjoint = Flags {
        disjoint: true,
        ..PLAIN
    };
    let none = transfer_binary(Bin::Or, disjoint, &range(4, 7)?, &range(12, 15)?);
    assert!(rt; none.numbers.is_none());
    let both = transfer_binary(Bin::Or, disjoint, &range(0, 3)?, &range(12, 12)?);
    expect(&rt, &both, 0xf0, 12, 12, 15)?;
    assert!(rt; both.never_poison);
    Ok(())
}
