ghost use Rattle.std.specs.Prelude.{◌≡◌, ◌<◌, ◌^◌, pos, int_lt, if◌then◌else◌};
ghost use Rattle.vfa_word.specs.Numbers.{IsWidth, floor_div};
ghost use Rattle.vfa_wrap.specs.Between.{AreEnds};
ghost use Rattle.vfa_wrap.specs.Ends.{shown_ends};
ghost use Rattle.vfa_wrap.specs.Rows.{shl_row, lshr_row, ashr_row};
ghost use Rattle.vfa_wrap.specs.Wrapped.{span_of};

use crate::arc::Wrapped;
use crate::ends::Ends;
use crate::rows::product::product_within;
use crate::rows::signed::signed_between;

/// 2 to the amount.
fn power(amount: u128) -> u128
    requires { amount < 128 }
    ensures { result ≡ 2 ^ amount }
{
    1 << amount as u32
}

/// The number divided by 2 to an amount and rounded down; the amount is `negative` where the number is below 0.
fn shifted(z: i128, negative: u128, other: u128) -> i128
    requires negative { negative < 128 }
    requires other { other < 128 }
    ensures { result ≡ floor_div z (2 ^ (if int_lt z (pos 0) then negative else other)) }
{
    if z < 0 {
        return z >> negative as u32;
    }
    z >> other as u32
}

/// From the least number shifted least to the greatest one shifted furthest, or full where that passes the width.
#[tactic(auto, unfolding(crate::specs::Rows::shl_row))]
pub(crate) fn shl<const W: u32>(a: &Ends<W>, b: &Ends<W>) -> Wrapped<W>
    requires width { IsWidth W }
    requires left { AreEnds W (shown_ends a.now) }
    requires right { AreEnds W (shown_ends b.now) }
    requires amounts { b.now.hi < W }
    ensures { span_of result ≡ shl_row W (shown_ends a.now) (shown_ends b.now) }
{
    let Some(last) = product_within::<W>(a.hi, power(b.hi)) else {
        return Wrapped::everything();
    };
    Wrapped::between(a.lo * power(b.lo), last)
}

/// From the least number shifted furthest to the greatest one shifted least.
#[tactic(auto, unfolding(crate::specs::Rows::lshr_row))]
pub(crate) fn lshr<const W: u32>(a: &Ends<W>, b: &Ends<W>) -> Wrapped<W>
    requires width { IsWidth W }
    requires left { AreEnds W (shown_ends a.now) }
    requires right { AreEnds W (shown_ends b.now) }
    requires amounts { b.now.hi < W }
    ensures { span_of result ≡ lshr_row W (shown_ends a.now) (shown_ends b.now) }
{
    Wrapped::between(a.lo >> b.hi as u32, a.hi >> b.lo as u32)
}

/// The same for signed readings: the least by the amount that leaves it least, the greatest by the other.
#[tactic(auto, unfolding(crate::specs::Rows::ashr_row))]
pub(crate) fn ashr<const W: u32>(a: &Ends<W>, b: &Ends<W>) -> Wrapped<W>
    requires width { IsWidth W }
    requires right { AreEnds W (shown_ends b.now) }
    requires amounts { b.now.hi < W }
    ensures { span_of result ≡ ashr_row W (shown_ends a.now) (shown_ends b.now) }
{
    signed_between(shifted(a.slo, b.lo, b.hi), shifted(a.shi, b.hi, b.lo))
}
