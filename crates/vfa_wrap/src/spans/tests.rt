ghost use Rattle.vfa_word.specs.Numbers.{IsWidth};
ghost use Rattle.vfa_wrap.specs.Between.{AreEnds};
ghost use Rattle.vfa_wrap.specs.Ends.{shown_ends};
ghost use Rattle.vfa_wrap.specs.WholeSpans.{AreOperandEnds};

use super::*;
use crate::tests::{Extent, lies, range, read, shown};
use std::process::Abort;
use vfa_word::most;

const READINGS: [Reading; 2] = [Reading::Unsigned, Reading::Signed];

/// The ends of the arc from `first` up to `last`.
fn ends<const W: u32>(first: u128, last: u128) -> Ends<W>
    requires { IsWidth W }
    ensures { AreEnds W (shown_ends result) }
{
    Wrapped::new(Word::cut(first), Word::cut(last)).ends()
}

fn whole<const W: u32>(op: Arith, reading: Reading, x: u128, y: u128) -> i128
    requires { IsWidth W }
{
    let left = read::<W>(reading, x);
    let right = read::<W>(reading, y);
    match op {
        Arith::Add => left.wrapping_add(right),
        Arith::Sub => left.wrapping_sub(right),
        Arith::Mul => left.wrapping_mul(right),
        Arith::Shl => left.wrapping_mul(1_i128.wrapping_shl(u32::try_from(y).unwrap_or(0))),
    }
}

/// The least and greatest whole result of a number and the numbers between the ends, and of those seen before.
fn seen_with<const W: u32>(
    op: Arith,
    reading: Reading,
    x: u128,
    b: &Ends<W>,
    before: Option<Extent>,
) -> Option<Extent>
    requires { IsWidth W }
{
    let mut seen = before;
    'rights: for y in 0..=most::<W>() {
        if !lies(b, y) {
            continue;
        }
        let z = whole::<W>(op, reading, x, y);
        let extent = seen.unwrap_or(Extent { least: z, most: z });
        seen = Some(Extent {
            least: extent.least.min(z),
            most: extent.most.max(z),
        });
    }
    seen
}

/// The least and greatest whole result of all pairs of numbers between the ends.
fn seen<const W: u32>(op: Arith, reading: Reading, a: &Ends<W>, b: &Ends<W>) -> Option<Extent>
    requires { IsWidth W }
{
    let mut seen = None;
    'lefts: for x in 0..=most::<W>() {
        if lies(a, x) {
            seen = seen_with(op, reading, x, b, seen);
        }
    }
    seen
}

fn ends_of<const W: u32>(arc: Option<Wrapped<W>>) -> Option<(u128, u128)> {
    Some(shown(&arc?))
}

/// The arc of what two extents have in common.
fn common<const W: u32>(one: Extent, two: Extent) -> Option<Wrapped<W>>
    requires { IsWidth W }
{
    let least = one.least.max(two.least);
    let most = one.most.min(two.most);
    if most < least {
        return None;
    }
    Some(Wrapped::new(Word::wrapped(least), Word::wrapped(most)))
}

/// Compares the calls with what was seen of the whole results.
fn compare<const W: u32>(rt: &impl Abort, op: Arith, a: &Ends<W>, b: &Ends<W>)
    requires width { IsWidth W }
    requires left { AreEnds W (shown_ends a.now) }
    requires right { AreOperandEnds op W (shown_ends b.now) }
{
    'readings: for reading in READINGS {
        let extent = seen(op, reading, a, b).expect(rt, "the ends are numbers");
        let range = range::<W>(reading);
        let inside = range.least <= extent.least && extent.most <= range.most;
        let cut = common::<W>(extent, range);
        assert_eq!(rt; fits(op, reading, a, b), inside);
        assert_eq!(rt; ends_of(bound(op, reading, a, b)), ends_of(cut));
        let overflows = if inside {
            Some(false)
        } else {
            cut.map_or(Some(true), |_| None)
        };
        assert_eq!(rt; overflow(op, reading, a, b), overflows);
    }
}

/// Compares all operations on the arc and each other one.
fn compare_with_each<const W: u32>(rt: &impl Abort, a: &Ends<W>)
    requires width { IsWidth W }
    requires left { AreEnds W (shown_ends a.now) }
{
    'firsts: for first in 0..=most::<W>() {
        'lasts: for last in 0..=most::<W>() {
            let b = ends::<W>(first, last);
            compare(rt, Arith::Add, a, &b);
            compare(rt, Arith::Sub, a, &b);
            compare(rt, Arith::Mul, a, &b);
            if b.hi < W as u128 {
                compare(rt, Arith::Shl, a, &b);
            }
        }
    }
}

fn compare_all<const W: u32>(rt: &impl Abort)
    requires { IsWidth W }
{
    'firsts: for first in 0..=most::<W>() {
        'lasts: for last in 0..=most::<W>() {
            compare_with_each(rt, &ends::<W>(first, last));
        }
    }
}

#[test]
fn spans_of_all_arcs_of_small_widths(rt: HostRuntime) {
    compare_all::<1>(&rt);
    compare_all::<2>(&rt);
    compare_all::<3>(&rt);
}

#[test]
fn spans_too_large_for_the_machine(rt: HostRuntime) {
    let top = ends::<128>(u128::MAX - 1, u128::MAX);
    assert_eq!(rt;
        overflow(Arith::Add, Reading::Unsigned, &top, &top),
        Some(true)
    );
    assert!(rt; fits(Arith::Mul, Reading::Signed, &top, &top));
    let half = ends::<128>(1 << 127, 1 << 127);
    assert_eq!(rt;
        overflow(Arith::Mul, Reading::Signed, &half, &half),
        Some(true)
    );
    let low = ends::<128>(0, 3);
    assert_eq!(rt;
        ends_of(bound(Arith::Sub, Reading::Unsigned, &low, &top)),
        None
    );
    let small = ends::<128>(0, 1);
    assert_eq!(rt;
        ends_of(bound(Arith::Mul, Reading::Signed, &half, &small)),
        Some((1 << 127, 0))
    );
}
