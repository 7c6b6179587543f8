ghost use Rattle.vfa_word.specs.Numbers.{IsWidth};

use super::*;
use vfa_dom::{Domain, SetOf};
use vfa_word::{Word, most};

/// The arc between two numbers, cut to the width.
fn arc<const W: u32>(first: u128, last: u128) -> Wrapped<W>
    requires { IsWidth W }
{
    Wrapped::new(Word::cut(first), Word::cut(last))
}

/// The first and last number of an arc.
pub(crate) fn shown<const W: u32>(arc: &Wrapped<W>) -> (u128, u128) {
    (arc.first().bits(), arc.last().bits())
}

/// Whole numbers from a least one up to a greatest one.
#[derive(Clone, Copy)]
pub(crate) struct Extent {
    pub least: i128,
    pub most: i128,
}

/// The number in the reading.
pub(crate) fn read<const W: u32>(reading: Reading, x: u128) -> i128
    requires { IsWidth W }
{
    match reading {
        Reading::Unsigned => x.cast_signed(),
        Reading::Signed => Word::<W>::cut(x).signed(),
    }
}

/// The numbers that the reading may give.
pub(crate) fn range<const W: u32>(reading: Reading) -> Extent
    requires { IsWidth W }
{
    match reading {
        Reading::Unsigned => Extent {
            least: 0,
            most: most::<W>().cast_signed(),
        },
        Reading::Signed => Extent {
            least: (most::<W>() >> 1)
                .cast_signed()
                .wrapping_neg()
                .wrapping_sub(1),
            most: (most::<W>() >> 1).cast_signed(),
        },
    }
}

/// Whether the number lies between the ends in both readings.
pub(crate) fn lies<const W: u32>(e: &Ends<W>, x: u128) -> bool
    requires { IsWidth W }
{
    let signed = read::<W>(Reading::Signed, x);
    e.lo <= x && x <= e.hi && e.slo <= signed && signed <= e.shi
}

const TOP: u128 = u128::MAX;

const HALF: u128 = 1 << 127;

#[test]
fn an_arc_of_all_numbers_begins_at_zero(rt: HostRuntime) {
    assert_eq!(rt; shown(&arc::<8>(250, 5)), (250, 5));
    assert_eq!(rt; shown(&arc::<8>(6, 5)), (0, 255));
    assert_eq!(rt; shown(&arc::<1>(1, 0)), (0, 1));
    assert!(rt; arc::<64>(9, 8).full());
    assert!(rt; !arc::<128>(9, 7).full());
    assert!(rt; arc::<128>(HALF, HALF - 1).full());
}

#[test]
fn hull_goes_the_shorter_way(rt: HostRuntime) {
    assert_eq!(rt; shown(&arc::<8>(250, 5).hull(&arc(10, 20))), (250, 20));
    assert_eq!(rt; shown(&arc::<8>(0, 0).hull(&arc(128, 128))), (0, 128));
    assert_eq!(rt; shown(&arc::<8>(128, 128).hull(&arc(0, 0))), (0, 128));
    assert_eq!(rt; shown(&arc::<8>(200, 50).hull(&arc(40, 220))), (0, 255));
    assert_eq!(rt; shown(&arc::<1>(0, 0).hull(&arc(1, 1))), (0, 1));
    assert_eq!(rt; shown(&arc::<128>(TOP, TOP).hull(&arc(3, 4))), (TOP, 4));
}

#[test]
fn sums_and_differences(rt: HostRuntime) {
    assert_eq!(rt; shown(&arc::<8>(200, 210).add(&arc(100, 105))), (44, 59));
    assert_eq!(rt; shown(&arc::<8>(0, 128).add(&arc(0, 127))), (0, 255));
    assert_eq!(rt; shown(&arc::<1>(1, 1).add(&arc(1, 1))), (0, 0));
    assert_eq!(rt; shown(&arc::<128>(TOP, TOP).add(&arc(1, 2))), (0, 1));
    assert_eq!(rt; shown(&arc::<8>(10, 20).sub(&arc(15, 16))), (250, 5));
    assert_eq!(rt;
        shown(&arc::<64>(0, 0).sub(&arc(1, 1))),
        (0xffff_ffff_ffff_ffff, 0xffff_ffff_ffff_ffff)
    );
}

#[test]
fn ends_in_both_readings(rt: HostRuntime) {
    let small = arc::<8>(250, 5).ends();
    assert_eq!(rt; (small.lo, small.hi), (0, 255));
    assert_eq!(rt; (small.slo, small.shi), (-6, 5));
    let high = arc::<8>(100, 200).ends();
    assert_eq!(rt; (high.lo, high.hi), (100, 200));
    assert_eq!(rt; (high.slo, high.shi), (-128, 127));
    let bit = arc::<1>(1, 1).ends();
    assert_eq!(rt; (bit.slo, bit.shi), (-1, -1));
    let wide = arc::<128>(HALF, TOP).ends();
    assert_eq!(rt; (wide.slo, wide.shi), (i128::MIN, -1));
}

#[test]
fn pieces_in_order(rt: HostRuntime) {
    let both = arc::<8>(200, 50).pieces(&arc(40, 220));
    assert_eq!(rt; both.one.map(|a| shown(&a)), Some((40, 50)));
    assert_eq!(rt; both.two.map(|a| shown(&a)), Some((200, 220)));
    let apart = arc::<64>(1, 2).pieces(&arc(3, 4));
    assert!(rt; apart.one.is_none());
    assert!(rt; apart.two.is_none());
    let all = arc::<128>(0, TOP).pieces(&arc(7, 3));
    assert_eq!(rt; all.one.map(|a| shown(&a)), Some((7, 3)));
    assert!(rt; all.two.is_none());
}

#[test]
fn rounding_out_to_marks(rt: HostRuntime) {
    let marks = [10, 100, 200];
    assert_eq!(rt;
        shown(&arc::<8>(20, 60).round_out(&arc(20, 50), &marks)),
        (20, 100)
    );
    assert_eq!(rt;
        shown(&arc::<8>(20, 60).round_out(&arc(30, 60), &marks)),
        (10, 60)
    );
    assert_eq!(rt;
        shown(&arc::<8>(5, 210).round_out(&arc(5, 100), &marks)),
        (0, 255)
    );
    assert_eq!(rt;
        shown(&arc::<128>(5, 6).round_out(&arc(6, 6), &[TOP])),
        (TOP, 6)
    );
}

#[test]
fn arcs_are_a_domain(rt: HostRuntime) {
    let some = arc::<8>(250, 5);
    assert!(rt; some.has(Word::cut(255)));
    assert!(rt; !some.has(Word::cut(6)));
    assert!(rt; some.includes(&arc(255, 1)));
    assert!(rt; !arc::<8>(255, 1).includes(&some));
    assert_eq!(rt; shown(&some.join(&arc(10, 20))), (250, 20));
    assert_eq!(rt; shown::<128>(&Domain::any()), (0, TOP));
    assert_eq!(rt;
        <Wrapped<64> as SetOf<Word<64>>>::only(Word::cut(9))
            .single()
            .map(|x| x.bits()),
        Some(9)
    );
    assert!(rt; some.single().is_none());
}
