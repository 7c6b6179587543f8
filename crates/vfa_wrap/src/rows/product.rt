ghost use Rattle.std.specs.Prelude.{◌≡◌, ◌*◌, ◌^◌, ◌<◌, FitsSigned, MatchOption};
ghost use Rattle.std.specs.Int.{w128, int_min, int_max};
ghost use Rattle.std.specs.Option.{SomeIff};
ghost use Rattle.vfa_word.specs.Numbers.{IsWidth};
ghost use Rattle.vfa_wrap.specs.Between.{AreEnds};
ghost use Rattle.vfa_wrap.specs.Ends.{shown_ends};
ghost use Rattle.vfa_wrap.specs.Rows.{mul_row, signed_products};
ghost use Rattle.vfa_wrap.specs.WholeSpans.{least_corner, greatest_corner};
ghost use Rattle.vfa_wrap.specs.Wrapped.{span_of};

use crate::arc::Wrapped;
use crate::ends::Ends;
use crate::rows::signed::{fits, signed_between};
use vfa_word::most;

/// The product, where it is a number of the width.
pub(crate) fn product_within<const W: u32>(x: u128, y: u128) -> Option<u128>
    requires { IsWidth W }
    ensures { SomeIff result (x * y < 2 ^ W) (x * y) }
{
    let product = x.checked_mul(y)?;
    if product <= most::<W>() {
        Some(product)
    } else {
        None
    }
}

/// The least and the greatest of some signed numbers.
#[derive(Clone, Copy)]
struct Bounds {
    least: i128,
    greatest: i128,
}

/// The least and the greatest of four numbers.
fn bounds_of(first: i128, second: i128, third: i128, fourth: i128) -> Bounds
    ensures least { result.least ≡ int_min (int_min first second) (int_min third fourth) }
    ensures greatest { result.greatest ≡ int_max (int_max first second) (int_max third fourth) }
{
    Bounds {
        least: first.min(second).min(third.min(fourth)),
        greatest: first.max(second).max(third.max(fourth)),
    }
}

/// The least and the greatest product of one of `p` and `q` and one of `r` and `s`, where all four products are in the
/// range of `i128`.
fn corners(p: i128, q: i128, r: i128, s: i128) -> Option<Bounds>
    ensures { MatchOption result (¬ (FitsSigned w128 (least_corner p q r s) × FitsSigned w128 (greatest_corner p q r s))) (λ b. (b.least ≡ least_corner p q r s) × (b.greatest ≡ greatest_corner p q r s)) }
{
    let first = p.checked_mul(r)?;
    let second = p.checked_mul(s)?;
    let third = q.checked_mul(r)?;
    let fourth = q.checked_mul(s)?;
    Some(bounds_of(first, second, third, fourth))
}

/// From the least to the greatest product of two signed ends, or full where one of the two leaves the signed range.
fn signed_mul<const W: u32>(a: &Ends<W>, b: &Ends<W>) -> Wrapped<W>
    requires { IsWidth W }
    ensures { span_of result ≡ signed_products W (least_corner a.now.slo a.now.shi b.now.slo b.now.shi) (greatest_corner a.now.slo a.now.shi b.now.slo b.now.shi) }
{
    let Some(bounds) = corners(a.slo, a.shi, b.slo, b.shi) else {
        return Wrapped::everything();
    };
    if !fits::<W>(bounds.least) {
        return Wrapped::everything();
    }
    if !fits::<W>(bounds.greatest) {
        return Wrapped::everything();
    }
    signed_between(bounds.least, bounds.greatest)
}

/// From the product of the least to the product of the greatest numbers, where that is a number of the width; else
/// the same by signed ends.
#[tactic(auto, unfolding(crate::specs::Rows::mul_row))]
pub(crate) fn mul<const W: u32>(a: &Ends<W>, b: &Ends<W>) -> Wrapped<W>
    requires width { IsWidth W }
    requires left { AreEnds W (shown_ends a.now) }
    requires right { AreEnds W (shown_ends b.now) }
    ensures { span_of result ≡ mul_row W (shown_ends a.now) (shown_ends b.now) }
{
    let Some(last) = product_within::<W>(a.hi, b.hi) else {
        return signed_mul(a, b);
    };
    Wrapped::between(a.lo * b.lo, last)
}
