//! Facts of conversions between widths.

ghost use Rattle.std.specs.Prelude.{◌≡◌, ◌<◌, ◌+◌, ◌-◌, ◌^◌, ◌&&◌, int_lt, neg_ℤ, pos, Some};
ghost use Rattle.std.specs.Option.{option_map};
ghost use Rattle.vfa_fact.specs.CellCuts.{cell_ends, shown_cell_ends};
ghost use Rattle.vfa_fact.specs.Cells.{IsCell, cell_of};
ghost use Rattle.vfa_fact.specs.Fact.{IsFact, span_in};
ghost use Rattle.vfa_ir.specs.Typed.{Converts};
ghost use Rattle.vfa_ir.specs.declared.operations.Cast.{Cast};
ghost use Rattle.vfa_known.specs.Known.{masks_of};
ghost use Rattle.vfa_mean.specs.Meaning.{Allowed, Gave, of_one};
ghost use Rattle.vfa_mean.specs.Rows.{convert};
ghost use Rattle.vfa_mean.specs.declared.value.Val.{Val};
ghost use Rattle.vfa_word.specs.Numbers.{IsWidth, fits_signed};
ghost use Rattle.vfa_word.specs.Operations.{clamped_signed, sign_extended};
ghost use Rattle.vfa_wrap.specs.Arc.{steps};
ghost use Rattle.vfa_wrap.specs.WholeSpans.{lies_in_range, read_ends};
ghost use Rattle.vfa_wrap.specs.Wrapped.{span_of};
ghost use Rattle.vfa_wrap.specs.declared.reading.Reading.{Reading};
ghost use Rattle.vfa_xfer.specs.AnyFacts.{CellHolds};
ghost use Rattle.vfa_xfer.specs.Bounds.{both_bounds, shown_bounds};
ghost use Rattle.vfa_xfer.specs.Casts.{cast_masks, truncated_span, cast_arc, ends_bound, first_bound, second_bound, cast_row, keeps_number, cast_cell};
ghost use Rattle.vfa_xfer.specs.Rows.{row_numbers, shown_row};

use crate::bounds::{Bounds, row_of};
use crate::number_arcs::{arc, known_bits, signed_arc};
use crate::rows::{Row, cell_with};
use vfa_dom::Domain;
use vfa_fact::{Cell, CellEnds, Numbers, at_width};
use vfa_ir::{Cast, CastFlags};
use vfa_known::Known;
use vfa_word::most;
use vfa_wrap::Wrapped;

/// The greatest number of a width.
fn most_of(width: u32) -> u128
    requires { IsWidth width }
    ensures { result + 1 ≡ 2 ^ width }
{
    u128::MAX >> (128 - width)
}

/// The known bits of the numbers at a greater width: all new bits are zero.
fn zext_known<const W: u32>(from: u32, numbers: &Numbers) -> Known<W>
    requires from { IsWidth from }
    requires to { IsWidth W }
    requires wider { from < W }
    requires fact { IsFact from numbers.now }
    ensures { masks_of result ≡ cast_masks Cast.Zext from W numbers.now }
{
    let above = most::<W>() - most_of(from);
    known_bits(numbers.zeros | above, numbers.ones)
}

/// A mask at a greater width, with its highest bit copied to all new places.
fn sign_extended<const W: u32>(from: u32, mask: u128) -> u128
    requires from { IsWidth from }
    requires to { IsWidth W }
    requires wider { from < W }
    requires fits { mask < 2 ^ from }
    ensures { result ≡ sign_extended from W mask }
{
    let most_from = most_of(from);
    if mask <= most_from >> 1 {
        return mask;
    }
    mask + (most::<W>() - most_from)
}

/// The known bits of the signed readings at a greater width: what is known of the highest bit is known of all new ones.
fn sext_known<const W: u32>(from: u32, numbers: &Numbers) -> Known<W>
    requires from { IsWidth from }
    requires to { IsWidth W }
    requires wider { from < W }
    requires fact { IsFact from numbers.now }
    ensures { masks_of result ≡ cast_masks Cast.Sext from W numbers.now }
{
    let zeros = sign_extended::<W>(from, numbers.zeros);
    let ones = sign_extended::<W>(from, numbers.ones);
    known_bits(zeros, ones)
}

/// The known bits of the low bits.
fn trunc_known<const W: u32>(from: u32, numbers: &Numbers) -> Known<W>
    requires from { IsWidth from }
    requires to { IsWidth W }
    requires narrower { W < from }
    requires fact { IsFact from numbers.now }
    ensures { masks_of result ≡ cast_masks Cast.Trunc from W numbers.now }
{
    let kept = most::<W>();
    known_bits(numbers.zeros & kept, numbers.ones & kept)
}

/// The known bits of the converted numbers.
fn cast_known<const W: u32>(cast: Cast, from: u32, numbers: &Numbers) -> Known<W>
    requires from { IsWidth from }
    requires to { IsWidth W }
    requires converts { Converts cast from W }
    requires fact { IsFact from numbers.now }
    ensures { masks_of result ≡ cast_masks cast from W numbers.now }
{
    match cast {
        Cast::Zext => zext_known(from, numbers),
        Cast::Sext => sext_known(from, numbers),
        Cast::Trunc => trunc_known(from, numbers),
    }
}

/// How many steps up lead from the first number of the arc to the last.
fn extent(from: u32, numbers: &Numbers) -> u128
    requires from { IsWidth from }
    requires fact { IsFact from numbers.now }
    ensures value { result ≡ steps from numbers.now.first numbers.now.last }
    ensures fits { result < 2 ^ from }
{
    if numbers.first <= numbers.last {
        return numbers.last - numbers.first;
    }
    most_of(from) - numbers.first + numbers.last + 1
}

/// The arc of the low bits of an arc of width `from`: all where it has 2^W numbers or more.
#[tactic(auto, unfolding(crate::specs::Casts::truncated_span))]
fn truncated_arc<const W: u32>(from: u32, numbers: &Numbers) -> Wrapped<W>
    requires from { IsWidth from }
    requires to { IsWidth W }
    requires fact { IsFact from numbers.now }
    ensures { span_of result ≡ truncated_span from W (span_in numbers.now) }
{
    if extent(from, numbers) < most::<W>() {
        return arc(numbers.first, numbers.last);
    }
    Wrapped::any()
}

/// The arc of the converted numbers.
#[tactic(auto, unfolding(crate::specs::Casts::cast_arc))]
fn cast_arc<const W: u32>(cast: Cast, from: u32, numbers: &Numbers, ends: &CellEnds) -> Wrapped<W>
    requires from { IsWidth from }
    requires to { IsWidth W }
    requires fact { IsFact from numbers.now }
    ensures { span_of result ≡ cast_arc cast from W numbers.now (shown_cell_ends ends.now) }
{
    match cast {
        Cast::Zext => arc(ends.lo, ends.hi),
        Cast::Sext => signed_arc(ends.slo, ends.shi),
        Cast::Trunc => truncated_arc(from, numbers),
    }
}

/// The numbers from the least to the greatest that are below 2^W.
fn natural_bound<const W: u32>(ends: &CellEnds) -> Option<Wrapped<W>>
    requires { IsWidth W }
    ensures { option_map span_of result ≡ ends_bound Reading.Unsigned W (shown_cell_ends ends.now) }
{
    let top = most::<W>();
    if top < ends.lo {
        return None;
    }
    Some(arc(ends.lo.min(top), ends.hi.min(top)))
}

/// The nearest whole number in the signed range of the width.
fn clamped<const W: u32>(whole: i128) -> i128
    requires { IsWidth W }
    ensures { result ≡ clamped_signed W whole }
{
    let greatest = (most::<W>() >> 1) as i128;
    whole.min(greatest).max(!greatest)
}

/// Whether a whole number is below the signed range of the width.
fn is_below<const W: u32>(whole: i128) -> bool
    requires { IsWidth W }
    ensures { result ≡ int_lt whole (neg_ℤ (pos (2 ^ (W - 1)))) }
{
    let greatest = (most::<W>() >> 1) as i128;
    whole < !greatest
}

/// Whether a whole number is above the signed range of the width.
fn is_above<const W: u32>(whole: i128) -> bool
    requires { IsWidth W }
    ensures { result ≡ int_lt (pos (2 ^ (W - 1) - 1)) whole }
{
    let greatest = (most::<W>() >> 1) as i128;
    greatest < whole
}

/// The numbers from the least to the greatest reading that are in the signed range of the width.
fn signed_bound<const W: u32>(ends: &CellEnds) -> Option<Wrapped<W>>
    requires { IsWidth W }
    ensures { option_map span_of result ≡ ends_bound Reading.Signed W (shown_cell_ends ends.now) }
{
    if is_below::<W>(ends.shi) {
        return None;
    }
    if is_above::<W>(ends.slo) {
        return None;
    }
    Some(signed_arc(clamped::<W>(ends.slo), clamped::<W>(ends.shi)))
}

/// The bound of `nneg` of `zext`, and of `nuw` of `trunc`; None where it is empty.
fn first_bound<const W: u32>(
    cast: Cast,
    flags: CastFlags,
    from: u32,
    ends: &CellEnds,
) -> Option<Wrapped<W>>
    requires from { IsWidth from }
    requires to { IsWidth W }
    ensures { option_map span_of result ≡ first_bound cast flags from W (shown_cell_ends ends.now) }
{
    match cast {
        Cast::Zext if flags.nneg => Some(arc(0, most_of(from) >> 1)),
        Cast::Trunc if flags.nuw => natural_bound(ends),
        _ => Some(Wrapped::any()),
    }
}

/// The bound of `nsw` of `trunc`; None where it is empty.
fn second_bound<const W: u32>(cast: Cast, flags: CastFlags, ends: &CellEnds) -> Option<Wrapped<W>>
    requires { IsWidth W }
    ensures { option_map span_of result ≡ second_bound cast flags W (shown_cell_ends ends.now) }
{
    match cast {
        Cast::Trunc if flags.nsw => signed_bound(ends),
        _ => Some(Wrapped::any()),
    }
}

/// Both bounds; None where one is empty.
fn cast_bounds<const W: u32>(
    cast: Cast,
    flags: CastFlags,
    from: u32,
    ends: &CellEnds,
) -> Option<Bounds<W>>
    requires from { IsWidth from }
    requires to { IsWidth W }
    ensures { option_map shown_bounds result ≡ both_bounds (first_bound cast flags from W (shown_cell_ends ends.now)) (second_bound cast flags W (shown_cell_ends ends.now)) }
{
    let one = first_bound(cast, flags, from, ends)?;
    let two = second_bound(cast, flags, ends)?;
    Some(Bounds { one, two })
}

/// The row of the converted numbers; None where a flag leaves none.
#[tactic(auto, unfolding(crate::specs::Casts::cast_row))]
fn cast_row<const W: u32>(
    cast: Cast,
    flags: CastFlags,
    from: u32,
    numbers: &Numbers,
    ends: &CellEnds,
) -> Option<Row<W>>
    requires from { IsWidth from }
    requires to { IsWidth W }
    requires converts { Converts cast from W }
    requires fact { IsFact from numbers.now }
    ensures { option_map shown_row result ≡ cast_row cast flags from W numbers.now (shown_cell_ends ends.now) }
{
    row_of(
        cast_known(cast, from, numbers),
        Some(cast_arc(cast, from, numbers, ends)),
        cast_bounds(cast, flags, from, ends),
    )
}

/// Whether a whole number is in the signed range of the width.
fn is_in_signed_range<const W: u32>(whole: i128) -> bool
    requires { IsWidth W }
    ensures { result ≡ fits_signed W whole }
{
    let greatest = (most::<W>() >> 1) as i128;
    !greatest <= whole && whole <= greatest
}

/// Whether both ends are below 2^W.
#[tactic(auto, unfolding(vfa_wrap::specs::WholeSpans::lies_in_range))]
fn lies_unsigned<const W: u32>(ends: &CellEnds) -> bool
    requires { IsWidth W }
    ensures { result ≡ lies_in_range Reading.Unsigned W (read_ends Reading.Unsigned (shown_cell_ends ends.now)) }
{
    let top = most::<W>();
    if top < ends.lo {
        return false;
    }
    ends.hi <= top
}

/// Whether both signed ends are in the signed range of the width.
#[tactic(auto, unfolding(vfa_wrap::specs::WholeSpans::lies_in_range))]
fn lies_signed<const W: u32>(ends: &CellEnds) -> bool
    requires { IsWidth W }
    ensures { result ≡ lies_in_range Reading.Signed W (read_ends Reading.Signed (shown_cell_ends ends.now)) }
{
    if !is_in_signed_range::<W>(ends.slo) {
        return false;
    }
    is_in_signed_range::<W>(ends.shi)
}

/// Whether no number between the ends leaves the range of width `W` that a flag of `trunc` promises.
#[tactic(auto, unfolding(crate::specs::Casts::keeps_number))]
fn trunc_keeps<const W: u32>(flags: CastFlags, ends: &CellEnds) -> bool
    requires { IsWidth W }
    ensures { result ≡ keeps_number Cast.Trunc flags W (shown_cell_ends ends.now) }
{
    if flags.nuw && !lies_unsigned::<W>(ends) {
        return false;
    }
    !flags.nsw || lies_signed::<W>(ends)
}

/// Whether no number between the ends breaks a flag.
#[tactic(auto, unfolding(crate::specs::Casts::keeps_number))]
fn keeps_number<const W: u32>(cast: Cast, flags: CastFlags, ends: &CellEnds) -> bool
    requires { IsWidth W }
    ensures { result ≡ keeps_number cast flags W (shown_cell_ends ends.now) }
{
    match cast {
        Cast::Zext => !flags.nneg || ends.slo >= 0,
        Cast::Sext => true,
        Cast::Trunc => trunc_keeps::<W>(flags, ends),
    }
}

/// The cell of width `W` of the converted numbers of a fact of width `from` with these ends, by the operand's mark.
fn cast_numbers<const W: u32>(
    cast: Cast,
    flags: CastFlags,
    from: u32,
    numbers: &Numbers,
    ends: &CellEnds,
    never_poison: bool,
) -> Cell
    requires from { IsWidth from }
    requires to { IsWidth W }
    requires converts { Converts cast from W }
    requires fact { IsFact from numbers.now }
    ensures { result ≡ cell_of W (row_numbers W (cast_row cast flags from W numbers.now (shown_cell_ends ends.now)))
        (never_poison && keeps_number cast flags W (shown_cell_ends ends.now)) }
{
    let mark = never_poison && keeps_number::<W>(cast, flags, ends);
    let fact = match cast_row::<W>(cast, flags, from, numbers, ends) {
        Some(row) => row.fact(),
        None => None,
    };
    cell_with(fact, mark)
}

/// The cell of width `W` of the converted numbers of a cell with these ends.
fn cast_at<const W: u32>(cast: Cast, flags: CastFlags, a: &Cell, ends: &CellEnds) -> Cell
    requires width { IsWidth W }
    requires converts { Converts cast a.now.width W }
    requires ends { Some (shown_cell_ends ends.now) ≡ cell_ends a.now }
    ensures { result ≡ cast_cell cast flags W a.now }
{
    let Some(numbers) = &a.numbers else {
        return Cell::none(W);
    };
    cast_numbers::<W>(cast, flags, a.width, numbers, ends, a.never_poison)
}

/// The cell of a width of the converted numbers of a cell with these ends.
fn cast_by_width(to: u32, cast: Cast, flags: CastFlags, a: &Cell, ends: &CellEnds) -> Cell
    requires width { IsWidth to }
    requires converts { Converts cast a.now.width to }
    requires ends { Some (shown_cell_ends ends.now) ≡ cell_ends a.now }
    ensures { result ≡ cast_cell cast flags to a.now }
{
    at_width!(to, cast_at, (cast, flags, a, ends))
}

/// The cell of the converted numbers.
fn cast_cell(cast: Cast, flags: CastFlags, to: u32, a: &Cell) -> Cell
    requires width { IsWidth to }
    requires converts { Converts cast a.now.width to }
    ensures exact { result ≡ cast_cell cast flags to a.now }
    ensures cell { IsCell result }
{
    let Some(ends) = a.ends() else {
        return Cell::none(to);
    };
    cast_by_width(to, cast, flags, a, &ends)
}

/// What a conversion to the width `to` gives of a cell: the numbers that have the bits known of each converted number, lie
/// in the arc of these and within the bounds that the flags put, made sharp. It has no numbers where the operand has none or
/// each breaks a flag, and is never poison where the operand is not and none breaks a flag.
///
/// From width 8 to 4, `trunc nuw` of 10 to 20 is 10 to 15 that may be poison.
pub(crate) fn transfer_cast(cast: Cast, flags: CastFlags, to: u32, a: &Cell) -> Cell
    requires width { IsWidth to }
    requires converts { Converts cast a.now.width to }
    ensures exact { result ≡ cast_cell cast flags to a.now }
    ensures holds { (x r : Val) → CellHolds a.now x →
        Allowed (of_one (convert cast flags a.now.width to) x) (Gave r) → CellHolds result r }
    ensures cell { IsCell result }
{
    // the prover knows that an operand is a cell once a part of it is read
    let _from = a.width;
    cast_cell(cast, flags, to, a)
}
