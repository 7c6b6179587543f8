ghost use Rattle.std.specs.Prelude.{◌≡◌, IfOk};
ghost use Rattle.vfa_word.specs.Numbers.{IsWidth};

use crate::casts::transfer_cast;
use crate::comparisons::transfer_icmp;
use crate::counts::transfer_one;
use crate::extremes::transfer_two;
use crate::overflows::transfer_over;
use crate::selects::{assume, freeze, part, select};
use std::process::Abort;
use std::test::Fail;
use vfa_dom::Domain;
use vfa_fact::{Cell, Fact, Numbers, Parts, Test};
use vfa_ir::{Cast, CastFlags, Fun1, Fun2, Over, Pred};
use vfa_known::Known;
use vfa_word::Word;
use vfa_wrap::Wrapped;

const PLAIN: CastFlags = CastFlags {
    nuw: false,
    nsw: false,
    nneg: false,
};

/// The numbers from `first` up to `last`, never poison.
fn range<const W: u32>(first: u128, last: u128) -> Result<Cell, Fail>
    requires { IsWidth W }
    ensures { IfOk result (λ c. c.width ≡ W) }
{
    let arc = Wrapped::new(Word::<W>::cut(first), Word::cut(last));
    let fact = Fact::sharp(Known::any(), arc, &Test::any()).ok_or("no numbers")?;
    Ok(Cell::of(&fact, true))
}

/// The cell has these known bits, this arc and this mark.
fn expect(rt: &impl Abort, cell: &Cell, numbers: Numbers, never_poison: bool) -> Result<(), Fail> {
    let own = cell.numbers.ok_or("no numbers")?;
    assert_eq!(rt; own.zeros, numbers.zeros);
    assert_eq!(rt; own.ones, numbers.ones);
    assert_eq!(rt; own.first, numbers.first);
    assert_eq!(rt; own.last, numbers.last);
    assert_eq!(rt; cell.never_poison, never_poison);
    Ok(())
}

/// Known bits and an arc.
fn numbers(zeros: u128, ones: u128, first: u128, last: u128) -> Numbers {
    Numbers {
        zeros,
        ones,
        first,
        last,
    }
}

#[test]
fn only_pairs_of_one_sign_count(rt: HostRuntime) -> Result<(), Fail> {
    let (a, b) = (range::<8>(252, 4)?, range::<8>(5, 9)?);
    let alike = transfer_icmp(Pred::Ult, true, &a, &b);
    expect(&rt, &alike, numbers(0, 1, 1, 1), false)?;
    let all = transfer_icmp(Pred::Ult, false, &a, &b);
    expect(&rt, &all, numbers(0, 0, 0, 1), true)?;
    let none = transfer_icmp(Pred::Ult, true, &range::<8>(1, 4)?, &range::<8>(200, 210)?);
    assert!(rt; none.numbers.is_none());
    Ok(())
}

#[test]
fn an_arm_keeps_its_mark_and_a_join_both(rt: HostRuntime) -> Result<(), Fail> {
    let (four, twelve) = (Cell::literal(8, 4), Cell::literal(8, 12).unmarked());
    let both = select(&Cell::any(1, true), &four, &twelve);
    expect(&rt, &both, numbers(0xf3, 4, 4, 12), false)?;
    let one = select(&Cell::literal(1, 1), &four, &twelve);
    expect(&rt, &one, numbers(0xfb, 4, 4, 4), true)?;
    Ok(())
}

#[test]
fn what_may_be_poison_freezes_to_any_number(rt: HostRuntime) -> Result<(), Fail> {
    let frozen = freeze(&Cell::literal(8, 5).unmarked());
    expect(&rt, &frozen, numbers(0, 0, 0, 255), true)?;
    let kept = freeze(&Cell::literal(8, 5));
    expect(&rt, &kept, numbers(0xfa, 5, 5, 5), true)?;
    Ok(())
}

#[test]
fn an_assumed_condition_is_true(rt: HostRuntime) -> Result<(), Fail> {
    expect(&rt, &assume(&Cell::any(1, true)), numbers(0, 1, 1, 1), true)?;
    assert!(rt; assume(&Cell::literal(1, 0)).numbers.is_none());
    Ok(())
}

#[test]
fn flags_bound_conversions(rt: HostRuntime) -> Result<(), Fail> {
    let a = range::<8>(10, 20)?;
    let low = transfer_cast(Cast::Trunc, PLAIN, 4, &a);
    expect(&rt, &low, numbers(0, 0, 10, 4), true)?;
    let nuw = CastFlags {
        nuw: true,
        nsw: false,
        nneg: false,
    };
    let bounded = transfer_cast(Cast::Trunc, nuw, 4, &a);
    expect(&rt, &bounded, numbers(0, 8, 10, 15), false)?;
    let nneg = CastFlags {
        nuw: false,
        nsw: false,
        nneg: true,
    };
    let natural = transfer_cast(Cast::Zext, nneg, 8, &range::<4>(5, 12)?);
    expect(&rt, &natural, numbers(0xf8, 4, 5, 7), false)?;
    let wide = transfer_cast(Cast::Sext, PLAIN, 8, &range::<4>(14, 3)?);
    expect(&rt, &wide, numbers(0, 0, 254, 3), true)?;
    Ok(())
}

#[test]
fn the_edge_case_counts_unless_it_is_poison(rt: HostRuntime) -> Result<(), Fail> {
    let a = range::<8>(0, 20)?;
    let all = transfer_one(Fun1::Ctlz, false, &a);
    expect(&rt, &all, numbers(0xf0, 0, 3, 8), true)?;
    let some = transfer_one(Fun1::Ctlz, true, &a);
    expect(&rt, &some, numbers(0xf8, 0, 3, 7), false)?;
    let far = transfer_one(Fun1::Abs, true, &range::<8>(128, 250)?);
    expect(&rt, &far, numbers(0x80, 0, 6, 127), false)?;
    Ok(())
}

#[test]
fn extremes_and_clamped_sums_go_by_ends(rt: HostRuntime) -> Result<(), Fail> {
    let less = transfer_two(Fun2::Umin, &range::<8>(0, 20)?, &range::<8>(10, 30)?);
    expect(&rt, &less, numbers(0xe0, 0, 0, 20), true)?;
    let more = transfer_two(Fun2::Smax, &range::<8>(250, 5)?, &range::<8>(2, 3)?);
    expect(&rt, &more, numbers(0xf8, 0, 2, 5), true)?;
    let sum = transfer_two(Fun2::UaddSat, &range::<8>(200, 210)?, &range::<8>(40, 60)?);
    expect(&rt, &sum, numbers(0, 240, 240, 255), true)?;
    Ok(())
}

#[test]
fn a_span_beyond_the_range_overflows(rt: HostRuntime) -> Result<(), Fail> {
    let sums = transfer_over(Over::Uadd, &range::<8>(200, 210)?, &range::<8>(100, 105)?);
    match sums {
        Parts::Two(number, bit) => {
            expect(&rt, &part(0, &number, &bit), numbers(192, 32, 44, 59), true)?;
            expect(&rt, &part(1, &number, &bit), numbers(0, 1, 1, 1), true)?;
        }
        Parts::One(_) => assert!(rt; false),
    }
    Ok(())
}
