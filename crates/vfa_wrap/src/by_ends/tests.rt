ghost use Rattle.vfa_word.specs.Numbers.{IsWidth};
ghost use Rattle.vfa_wrap.specs.Between.{AreEnds};
ghost use Rattle.vfa_wrap.specs.Ends.{shown_ends};
ghost use Rattle.vfa_wrap.specs.Rows.{AreSecondEnds};

use super::*;
use crate::reading::Reading;
use crate::tests::{Extent, lies, range, read};
use std::process::Abort;
use std::test::Fail;
use vfa_word::{Word, most};

/// The ends of the arc from `first` up to `last`.
fn ends<const W: u32>(first: u128, last: u128) -> Ends<W>
    requires { IsWidth W }
    ensures { AreEnds W (shown_ends result) }
{
    Wrapped::new(Word::cut(first), Word::cut(last)).ends()
}

/// The first and last number of an arc.
fn shown<const W: u32>(arc: Option<Wrapped<W>>) -> Option<(u128, u128)> {
    let arc = arc?;
    Some((arc.first().bits(), arc.last().bits()))
}

#[test]
fn products(rt: HostRuntime) {
    let low = Wrapped::by_ends(EndsOp::Mul, &ends::<8>(2, 3), &ends(4, 5));
    assert_eq!(rt; shown(low), Some((8, 15)));
    let negative = Wrapped::by_ends(EndsOp::Mul, &ends::<8>(253, 254), &ends(4, 5));
    assert_eq!(rt; shown(negative), Some((241, 248)));
    let any = Wrapped::by_ends(EndsOp::Mul, &ends::<8>(100, 200), &ends(2, 3));
    assert_eq!(rt; shown(any), Some((0, 255)));
    let wide = Wrapped::by_ends(
        EndsOp::Mul,
        &ends::<128>(1 << 64, 1 << 64),
        &ends(1 << 64, 1 << 64),
    );
    assert_eq!(rt; shown(wide), Some((0, u128::MAX)));
}

#[test]
fn bits(rt: HostRuntime) {
    let both = Wrapped::by_ends(EndsOp::And, &ends::<8>(12, 20), &ends(5, 9));
    assert_eq!(rt; shown(both), Some((0, 9)));
    let either = Wrapped::by_ends(EndsOp::Or, &ends::<8>(12, 20), &ends(5, 9));
    assert_eq!(rt; shown(either), Some((12, 255)));
    let one = Wrapped::by_ends(EndsOp::And, &ends::<1>(1, 1), &ends(0, 0));
    assert_eq!(rt; shown(one), Some((0, 0)));
}

#[test]
fn shifts(rt: HostRuntime) {
    let amounts = ends::<8>(1, 4);
    assert!(rt; amounts.hi < 8);
    let left = Wrapped::by_ends(EndsOp::Shl, &ends(1, 3), &amounts);
    assert_eq!(rt; shown(left), Some((2, 48)));
    let lost = Wrapped::by_ends(EndsOp::Shl, &ends(1, 16), &amounts);
    assert_eq!(rt; shown(lost), Some((0, 255)));
    let right = Wrapped::by_ends(EndsOp::Lshr, &ends(100, 200), &amounts);
    assert_eq!(rt; shown(right), Some((6, 100)));
    let signed = Wrapped::by_ends(EndsOp::Ashr, &ends(156, 50), &amounts);
    assert_eq!(rt; shown(signed), Some((206, 25)));
    let negative = Wrapped::by_ends(EndsOp::Ashr, &ends(156, 246), &amounts);
    assert_eq!(rt; shown(negative), Some((206, 255)));
}

#[test]
fn quotients(rt: HostRuntime) {
    let divisors = ends::<8>(2, 5);
    assert!(rt; divisors.lo > 0);
    let unsigned = Wrapped::by_ends(EndsOp::Udiv, &ends(10, 20), &divisors);
    assert_eq!(rt; shown(unsigned), Some((2, 10)));
    let positive = Wrapped::by_ends(EndsOp::Sdiv, &ends(10, 20), &divisors);
    assert_eq!(rt; shown(positive), Some((2, 10)));
    let signed = Wrapped::by_ends(EndsOp::Sdiv, &ends(249, 20), &divisors);
    assert_eq!(rt; shown(signed), Some((236, 20)));
    let one = ends::<128>(1, 1);
    assert!(rt; one.lo > 0);
    let least = Wrapped::by_ends(EndsOp::Sdiv, &ends(1 << 127, 1 << 127), &one);
    assert_eq!(rt; shown(least), Some((0, u128::MAX)));
}

#[test]
fn remainders(rt: HostRuntime) {
    let divisors = ends::<64>(2, 5);
    assert!(rt; divisors.lo > 0);
    let unsigned = Wrapped::by_ends(EndsOp::Urem, &ends(10, 20), &divisors);
    assert_eq!(rt; shown(unsigned), Some((0, 4)));
    let signed = Wrapped::by_ends(EndsOp::Srem, &ends(10, 3), &divisors);
    assert_eq!(rt; shown(signed), Some(((1 << 64) - 4, 4)));
    let greater = ends::<64>(5, 9);
    assert!(rt; greater.lo > 0);
    let same = Wrapped::by_ends(EndsOp::Urem, &ends(3, 4), &greater);
    assert_eq!(rt; shown(same), Some((3, 4)));
}

#[test]
fn no_divisor(rt: HostRuntime) {
    let zero = ends::<8>(0, 0);
    assert!(rt; zero.hi == 0);
    assert_eq!(rt;
        shown(Wrapped::by_ends(EndsOp::Udiv, &ends(1, 2), &zero)),
        None
    );
    assert_eq!(rt;
        shown(Wrapped::by_ends(EndsOp::Sdiv, &ends(1, 2), &zero)),
        None
    );
    assert_eq!(rt;
        shown(Wrapped::by_ends(EndsOp::Urem, &ends(1, 2), &zero)),
        None
    );
    assert_eq!(rt;
        shown(Wrapped::by_ends(EndsOp::Srem, &ends(1, 2), &zero)),
        None
    );
}

/// The reading in which the results of the operation stand in the order of its arc.
fn order_of(op: EndsOp) -> Reading {
    match op {
        EndsOp::Smin | EndsOp::Smax | EndsOp::SaddSat | EndsOp::SsubSat => Reading::Signed,
        _ => Reading::Unsigned,
    }
}

/// The result of a minimum, maximum or saturating operation, as the reading of a number.
fn result<const W: u32>(op: EndsOp, x: u128, y: u128) -> i128
    requires { IsWidth W }
{
    let reading = order_of(op);
    let (left, right) = (read::<W>(reading, x), read::<W>(reading, y));
    let whole = match op {
        EndsOp::Umin | EndsOp::Smin => left.min(right),
        EndsOp::Umax | EndsOp::Smax => left.max(right),
        EndsOp::UaddSat | EndsOp::SaddSat => left.wrapping_add(right),
        _ => left.wrapping_sub(right),
    };
    let range = range::<W>(reading);
    whole.max(range.least).min(range.most)
}

/// The least and greatest result of a number and the numbers between the ends, and of those seen before.
fn seen_with<const W: u32>(
    op: EndsOp,
    x: u128,
    b: &Ends<W>,
    before: Option<Extent>,
) -> Option<Extent>
    requires { IsWidth W }
{
    let mut seen = before;
    'rights: for y in 0..=most::<W>() {
        if !lies(b, y) {
            continue;
        }
        let z = result::<W>(op, x, y);
        let extent = seen.unwrap_or(Extent { least: z, most: z });
        seen = Some(Extent {
            least: extent.least.min(z),
            most: extent.most.max(z),
        });
    }
    seen
}

/// Compares the arc with the least and the greatest result of all pairs of numbers between the ends.
fn compare<const W: u32>(rt: &impl Abort, op: EndsOp, a: &Ends<W>, b: &Ends<W>)
    requires width { IsWidth W }
    requires left { AreEnds W (shown_ends a.now) }
    requires right { AreSecondEnds op W (shown_ends b.now) }
{
    let mut seen = None;
    'lefts: for x in 0..=most::<W>() {
        if lies(a, x) {
            seen = seen_with(op, x, b, seen);
        }
    }
    let extent = seen.expect(rt, "the ends are numbers");
    let arc = Wrapped::<W>::new(Word::wrapped(extent.least), Word::wrapped(extent.most));
    assert_eq!(rt; shown(Wrapped::by_ends(op, a, b)), shown(Some(arc)));
}

fn compare_with_each<const W: u32>(rt: &impl Abort, a: &Ends<W>)
    requires width { IsWidth W }
    requires left { AreEnds W (shown_ends a.now) }
{
    'firsts: for first in 0..=most::<W>() {
        'lasts: for last in 0..=most::<W>() {
            let b = ends::<W>(first, last);
            compare(rt, EndsOp::Umin, a, &b);
            compare(rt, EndsOp::Umax, a, &b);
            compare(rt, EndsOp::Smin, a, &b);
            compare(rt, EndsOp::Smax, a, &b);
            compare(rt, EndsOp::UaddSat, a, &b);
            compare(rt, EndsOp::UsubSat, a, &b);
            compare(rt, EndsOp::SaddSat, a, &b);
            compare(rt, EndsOp::SsubSat, a, &b);
        }
    }
}

fn compare_all<const W: u32>(rt: &impl Abort)
    requires { IsWidth W }
{
    'firsts: for first in 0..=most::<W>() {
        'lasts: for last in 0..=most::<W>() {
            compare_with_each(rt, &ends::<W>(first, last));
        }
    }
}

#[test]
fn orders_and_saturations_of_all_arcs_of_small_widths(rt: HostRuntime) {
    compare_all::<1>(&rt);
    compare_all::<2>(&rt);
    compare_all::<3>(&rt);
}
