//! The rows of binary operations: what is known of their numbers.

ghost use Rattle.std.specs.Prelude.{◌≡◌, ◌≢◌, Some};
ghost use Rattle.std.specs.Option.{option_map};
ghost use Rattle.vfa_fact.specs.Views.{numbers_of};
ghost use Rattle.vfa_word.specs.Numbers.{IsWidth};
ghost use Rattle.vfa_wrap.specs.Arc.{full_span};
ghost use Rattle.vfa_wrap.specs.Between.{AreEnds};
ghost use Rattle.vfa_wrap.specs.Ends.{EndsOf, shown_ends};
ghost use Rattle.vfa_wrap.specs.Rows.{AreDivisors, AreSecondEnds};
ghost use Rattle.vfa_wrap.specs.Wrapped.{span_of};
ghost use Rattle.vfa_xfer.specs.Binary.{and_bits_row, binary_row, difference_row, disjoint_bound, division_row, ends_in_numbers, left_row, or_bits_row, over_amounts, over_divisors, product_row, right_row, right_signed_row, sum_row, xor_bits_row};
ghost use Rattle.vfa_xfer.specs.Bounds.{both_bounds, bound_if, shown_bounds, wrap_bounds};
ghost use Rattle.vfa_xfer.specs.Rows.{shown_row};

use crate::bounds::{Bounds, row_of, wrap_bounds};
use crate::rows::Row;
use vfa_dom::Domain;
use vfa_fact::Fact;
use vfa_ir::{Bin, Flags};
use vfa_known::Known;
use vfa_word::Arith;
use vfa_wrap::spans::bound;
use vfa_wrap::{Ends, EndsOp, Reading, Wrapped};

/// The ends of the numbers of a fact.
#[tactic(auto, unfolding(crate::specs::Binary::ends_in_numbers))]
pub(crate) fn fact_ends<const W: u32>(a: &Fact<W>) -> Ends<W>
    ensures value { shown_ends result ≡ ends_in_numbers W (numbers_of a.now) }
    ensures reached { AreEnds W (shown_ends result) }
{
    a.ends()
}

/// The bounds of the flags `nuw` and `nsw` by the ends of two facts, which are looked up only where a flag asks for them.
fn fact_bounds<const W: u32>(op: Arith, flags: Flags, a: &Fact<W>, b: &Fact<W>) -> Option<Bounds<W>>
    requires width { IsWidth W }
    requires no_shift { op ≢ Arith.Shl }
    ensures { option_map shown_bounds result ≡ wrap_bounds op flags W (ends_in_numbers W (numbers_of a.now)) (ends_in_numbers W (numbers_of b.now)) }
{
    if !flags.nuw && !flags.nsw {
        return Some(Bounds::none());
    }
    wrap_bounds(op, flags, &fact_ends(a), &fact_ends(b))
}

/// The sums.
#[tactic(auto, unfolding(crate::specs::Binary::sum_row))]
fn sum_row<const W: u32>(flags: Flags, a: &Fact<W>, b: &Fact<W>) -> Option<Row<W>>
    requires width { IsWidth W }
    ensures { option_map shown_row result ≡ sum_row flags W (numbers_of a.now) (numbers_of b.now) }
{
    let bits = a.known().add(&b.known());
    let arc = a.arc().add(&b.arc());
    row_of(bits, Some(arc), fact_bounds(Arith::Add, flags, a, b))
}

/// The differences.
#[tactic(auto, unfolding(crate::specs::Binary::difference_row))]
fn difference_row<const W: u32>(flags: Flags, a: &Fact<W>, b: &Fact<W>) -> Option<Row<W>>
    requires width { IsWidth W }
    ensures { option_map shown_row result ≡ difference_row flags W (numbers_of a.now) (numbers_of b.now) }
{
    let bits = a.known().sub(&b.known());
    let arc = a.arc().sub(&b.arc());
    row_of(bits, Some(arc), fact_bounds(Arith::Sub, flags, a, b))
}

/// The products.
#[tactic(auto, unfolding(crate::specs::Binary::product_row))]
fn product_row<const W: u32>(flags: Flags, a: &Fact<W>, b: &Fact<W>) -> Option<Row<W>>
    requires width { IsWidth W }
    ensures { option_map shown_row result ≡ product_row flags W (numbers_of a.now) (numbers_of b.now) }
{
    let left = fact_ends(a);
    let right = fact_ends(b);
    row_of(
        a.known().mul(&b.known()),
        Wrapped::by_ends(EndsOp::Mul, &left, &right),
        wrap_bounds(Arith::Mul, flags, &left, &right),
    )
}

/// The bits that both have.
#[tactic(auto, unfolding(crate::specs::Binary::and_bits_row))]
fn and_row<const W: u32>(a: &Fact<W>, b: &Fact<W>) -> Option<Row<W>>
    requires width { IsWidth W }
    ensures { option_map shown_row result ≡ and_bits_row W (numbers_of a.now) (numbers_of b.now) }
{
    row_of(
        a.known().and(&b.known()),
        Wrapped::by_ends(EndsOp::And, &fact_ends(a), &fact_ends(b)),
        Some(Bounds::none()),
    )
}

/// The bits that just one has.
#[tactic(auto, unfolding(crate::specs::Binary::xor_bits_row))]
fn xor_row<const W: u32>(a: &Fact<W>, b: &Fact<W>) -> Option<Row<W>>
    requires width { IsWidth W }
    ensures { option_map shown_row result ≡ xor_bits_row W (numbers_of a.now) (numbers_of b.now) }
{
    row_of(
        a.known().xor(&b.known()),
        Some(Wrapped::any()),
        Some(Bounds::none()),
    )
}

/// The numbers of the sums that do not wrap, where no bit is known to be one in both.
#[tactic(auto, unfolding(crate::specs::Binary::disjoint_bound))]
fn disjoint_bound<const W: u32>(a: &Fact<W>, b: &Fact<W>) -> Option<Wrapped<W>>
    requires width { IsWidth W }
    ensures { option_map span_of result ≡ disjoint_bound W (numbers_of a.now) (numbers_of b.now) }
{
    if a.known().ones() & b.known().ones() != 0 {
        return None;
    }
    bound(Arith::Add, Reading::Unsigned, &fact_ends(a), &fact_ends(b))
}

/// The bounds of the flag `disjoint`.
fn or_bounds<const W: u32>(flags: Flags, a: &Fact<W>, b: &Fact<W>) -> Option<Bounds<W>>
    requires width { IsWidth W }
    ensures { option_map shown_bounds result ≡ both_bounds (bound_if flags.disjoint W (disjoint_bound W (numbers_of a.now) (numbers_of b.now))) (Some (full_span W)) }
{
    if !flags.disjoint {
        return Some(Bounds::none());
    }
    let one = disjoint_bound(a, b)?;
    Some(Bounds {
        one,
        two: Wrapped::any(),
    })
}

/// The bits that one or both have.
#[tactic(auto, unfolding(crate::specs::Binary::or_bits_row))]
fn or_row<const W: u32>(flags: Flags, a: &Fact<W>, b: &Fact<W>) -> Option<Row<W>>
    requires width { IsWidth W }
    ensures { option_map shown_row result ≡ or_bits_row flags W (numbers_of a.now) (numbers_of b.now) }
{
    row_of(
        a.known().or(&b.known()),
        Wrapped::by_ends(EndsOp::Or, &fact_ends(a), &fact_ends(b)),
        or_bounds(flags, a, b),
    )
}

/// The shifts to the left; None where no amount is below the width.
#[tactic(auto, unfolding(crate::specs::Binary::over_amounts, crate::specs::Binary::left_row))]
fn shl_row<const W: u32>(flags: Flags, a: &Fact<W>, b: &Fact<W>) -> Option<Row<W>>
    requires width { IsWidth W }
    ensures { option_map shown_row result ≡ over_amounts W (left_row flags W (numbers_of a.now)) (numbers_of b.now) }
{
    let t = b.amounts()?;
    let ends = fact_ends(a);
    row_of(
        a.known().shl(t.mask),
        Wrapped::by_ends(EndsOp::Shl, &ends, &t.ends),
        wrap_bounds(Arith::Shl, flags, &ends, &t.ends),
    )
}

/// The shifts to the right that bring in zeros; None where no amount is below the width.
#[tactic(auto, unfolding(crate::specs::Binary::over_amounts, crate::specs::Binary::right_row))]
fn lshr_row<const W: u32>(a: &Fact<W>, b: &Fact<W>) -> Option<Row<W>>
    requires width { IsWidth W }
    ensures { option_map shown_row result ≡ over_amounts W (right_row W (numbers_of a.now)) (numbers_of b.now) }
{
    let t = b.amounts()?;
    row_of(
        a.known().lshr(t.mask),
        Wrapped::by_ends(EndsOp::Lshr, &fact_ends(a), &t.ends),
        Some(Bounds::none()),
    )
}

/// The shifts to the right that copy the sign; None where no amount is below the width.
#[tactic(auto, unfolding(crate::specs::Binary::over_amounts, crate::specs::Binary::right_signed_row))]
fn ashr_row<const W: u32>(a: &Fact<W>, b: &Fact<W>) -> Option<Row<W>>
    requires width { IsWidth W }
    ensures { option_map shown_row result ≡ over_amounts W (right_signed_row W (numbers_of a.now)) (numbers_of b.now) }
{
    let t = b.amounts()?;
    row_of(
        a.known().ashr(t.mask),
        Wrapped::by_ends(EndsOp::Ashr, &fact_ends(a), &t.ends),
        Some(Bounds::none()),
    )
}

/// The quotients or remainders by the divisors other than 0; None where there is none.
#[tactic(auto, unfolding(crate::specs::Binary::over_divisors, crate::specs::Binary::division_row))]
fn division_row<const W: u32>(op: EndsOp, a: &Fact<W>, b: &Fact<W>) -> Option<Row<W>>
    requires width { IsWidth W }
    requires division { (e : EndsOf) → AreDivisors W e → AreSecondEnds op W e }
    ensures { option_map shown_row result ≡ over_divisors W (division_row op W (numbers_of a.now)) (numbers_of b.now) }
{
    let divisors = b.divisors()?;
    row_of(
        Known::any(),
        Wrapped::by_ends(op, &fact_ends(a), &divisors),
        Some(Bounds::none()),
    )
}

/// The row of a binary operation; None where it is empty.
#[tactic(auto, unfolding(crate::specs::Binary::binary_row))]
pub(crate) fn binary_row<const W: u32>(
    bin: Bin,
    flags: Flags,
    a: &Fact<W>,
    b: &Fact<W>,
) -> Option<Row<W>>
    requires width { IsWidth W }
    ensures { option_map shown_row result ≡ binary_row bin flags W (numbers_of a.now) (numbers_of b.now) }
{
    match bin {
        Bin::Add => sum_row(flags, a, b),
        Bin::Sub => difference_row(flags, a, b),
        Bin::Mul => product_row(flags, a, b),
        Bin::Shl => shl_row(flags, a, b),
        Bin::Udiv => division_row(EndsOp::Udiv, a, b),
        Bin::Sdiv => division_row(EndsOp::Sdiv, a, b),
        Bin::Lshr => lshr_row(a, b),
        Bin::Ashr => ashr_row(a, b),
        Bin::Urem => division_row(EndsOp::Urem, a, b),
        Bin::Srem => division_row(EndsOp::Srem, a, b),
        Bin::And => and_row(a, b),
        Bin::Or => or_row(flags, a, b),
        Bin::Xor => xor_row(a, b),
    }
}
