ghost use Rattle.std.specs.Prelude.{◌≡◌, ◌<◌, ◌≤◌, ◌^◌};
ghost use Rattle.std.specs.Option.{option_map};
ghost use Rattle.vfa_word.specs.Numbers.{IsWidth};
ghost use Rattle.vfa_wrap.specs.Between.{AreEnds};
ghost use Rattle.vfa_wrap.specs.Ends.{shown_ends};
ghost use Rattle.vfa_wrap.specs.Rows.{AreDivisors, udiv_row, urem_row, sdiv_row, srem_row, size_of, near_quotients, least_remainder, greatest_remainder};
ghost use Rattle.vfa_wrap.specs.Wrapped.{span_of};

use crate::arc::Wrapped;
use crate::ends::Ends;
use crate::rows::signed::{most_signed, negated, signed_between};

/// From the least number by the greatest divisor to the greatest number by the least; None where the divisor is 0.
#[tactic(auto, unfolding(crate::specs::Rows::udiv_row))]
pub(crate) fn udiv<const W: u32>(a: &Ends<W>, b: &Ends<W>) -> Option<Wrapped<W>>
    requires width { IsWidth W }
    requires left { AreEnds W (shown_ends a.now) }
    requires right { AreDivisors W (shown_ends b.now) }
    ensures { option_map span_of result ≡ udiv_row W (shown_ends a.now) (shown_ends b.now) }
{
    if b.hi == 0 {
        return None;
    }
    Some(Wrapped::between(a.lo / b.hi, a.hi / b.lo))
}

/// The numbers themselves where all are below each divisor; else from 0 to one less than the greatest divisor, or to
/// the greatest number. None where the divisor is 0.
#[tactic(auto, unfolding(crate::specs::Rows::urem_row))]
pub(crate) fn urem<const W: u32>(a: &Ends<W>, b: &Ends<W>) -> Option<Wrapped<W>>
    requires width { IsWidth W }
    requires left { AreEnds W (shown_ends a.now) }
    requires right { AreDivisors W (shown_ends b.now) }
    ensures { option_map span_of result ≡ urem_row W (shown_ends a.now) (shown_ends b.now) }
{
    if b.hi == 0 {
        return None;
    }
    if a.hi < b.lo {
        return Some(Wrapped::between(a.lo, a.hi));
    }
    Some(Wrapped::between(0, a.hi.min(b.hi - 1)))
}

/// The greatest distance from 0 of a signed reading.
#[tactic(auto, unfolding(crate::specs::Rows::size_of))]
fn size<const W: u32>(e: &Ends<W>) -> u128
    ensures value { result ≡ size_of (shown_ends e.now) }
    ensures bound { result ≤ 2 ^ 127 }
{
    e.slo.unsigned_abs().max(e.shi.unsigned_abs())
}

/// From the negative of the dividend's size to that size, or to the greatest signed number.
#[tactic(auto, unfolding(crate::specs::Rows::near_quotients))]
fn quotients<const W: u32>(a: &Ends<W>) -> Wrapped<W>
    requires { IsWidth W }
    ensures { span_of result ≡ near_quotients W (shown_ends a.now) }
{
    let far = size(a);
    let last = far.min(most_signed::<W>());
    signed_between(negated(far), last as i128)
}

/// As `udiv` where no reading is negative; else the quotients that are no further from 0 than their dividends. None
/// where the divisor is 0.
#[tactic(auto, unfolding(crate::specs::Rows::sdiv_row))]
pub(crate) fn sdiv<const W: u32>(a: &Ends<W>, b: &Ends<W>) -> Option<Wrapped<W>>
    requires width { IsWidth W }
    requires left { AreEnds W (shown_ends a.now) }
    requires right { AreDivisors W (shown_ends b.now) }
    ensures { option_map span_of result ≡ sdiv_row W (shown_ends a.now) (shown_ends b.now) }
{
    if size(b) == 0 {
        return None;
    }
    if a.slo < 0 {
        return Some(quotients(a));
    }
    if b.slo < 0 {
        return Some(quotients(a));
    }
    udiv(a, b)
}

/// The least remainder by a divisor of at most `size`.
#[tactic(auto, unfolding(crate::specs::Rows::least_remainder))]
fn first_remainder<const W: u32>(a: &Ends<W>, size: u128) -> i128
    requires some { 0 < size }
    requires fits { size ≤ 2 ^ 127 }
    ensures { result ≡ least_remainder (shown_ends a.now) size }
{
    if a.slo >= 0 {
        return 0;
    }
    a.slo.max(negated(size - 1))
}

/// The greatest remainder by a divisor of at most `size`.
#[tactic(auto, unfolding(crate::specs::Rows::greatest_remainder))]
fn last_remainder<const W: u32>(a: &Ends<W>, size: u128) -> i128
    requires some { 0 < size }
    requires fits { size ≤ 2 ^ 127 }
    ensures { result ≡ greatest_remainder (shown_ends a.now) size }
{
    if a.shi <= 0 {
        return 0;
    }
    a.shi.min((size - 1) as i128)
}

/// From the least to the greatest remainder: of the dividend's sign, no further from 0 than the dividend, and nearer to
/// 0 than the divisor. None where the divisor is 0.
#[tactic(auto, unfolding(crate::specs::Rows::srem_row))]
pub(crate) fn srem<const W: u32>(a: &Ends<W>, b: &Ends<W>) -> Option<Wrapped<W>>
    requires { IsWidth W }
    ensures { option_map span_of result ≡ srem_row W (shown_ends a.now) (shown_ends b.now) }
{
    let divisor = size(b);
    if divisor == 0 {
        return None;
    }
    let first = first_remainder(a, divisor);
    let last = last_remainder(a, divisor);
    Some(signed_between(first, last))
}
