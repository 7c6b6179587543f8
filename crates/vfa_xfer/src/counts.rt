//! Facts of the intrinsics of one number: counts of bits, and the distance from 0.

ghost use Rattle.std.specs.Prelude.{◌≡◌, ◌-◌, ◌<◌, ◌≤◌, ◌^◌, Some, IfSome};
ghost use Rattle.std.specs.Option.{option_map};
ghost use Rattle.vfa_fact.specs.Cells.{IsCell};
ghost use Rattle.vfa_fact.specs.Fact.{masks_in, in_numbers};
ghost use Rattle.vfa_fact.specs.Views.{numbers_of, in_fact};
ghost use Rattle.vfa_known.specs.Product.{run_of, is_known_zero};
ghost use Rattle.vfa_mean.specs.Meaning.{Allowed, Gave, of_one};
ghost use Rattle.vfa_mean.specs.Rows.{one_number};
ghost use Rattle.vfa_mean.specs.declared.value.Val.{Val};
ghost use Rattle.vfa_word.specs.Numbers.{IsWidth};
ghost use Rattle.vfa_word.specs.Operations.{one_bits, leading_zero_bits, trailing_zero_bits};
ghost use Rattle.vfa_wrap.specs.Between.{AreEnds};
ghost use Rattle.vfa_wrap.specs.Ends.{shown_ends};
ghost use Rattle.vfa_wrap.specs.Rows.{size_of};
ghost use Rattle.vfa_wrap.specs.Wrapped.{span_of};
ghost use Rattle.vfa_xfer.specs.AnyFacts.{CellHolds};
ghost use Rattle.vfa_xfer.specs.Binary.{no_masks};
ghost use Rattle.vfa_xfer.specs.Bounds.{no_bounds, row_of, shown_bounds};
ghost use Rattle.vfa_xfer.specs.Counts.{avoids_edge, counted_ends, distance_arc, distance_bounds, leading_arc, most_trailing, one_cell, one_row, ones_arc, trailing_arc};
ghost use Rattle.vfa_xfer.specs.Rows.{shown_row};

use crate::binary_rows::fact_ends;
use crate::bounds::{Bounds, row_of};
use crate::number_arcs::arc;
use crate::rows::{Row, cell_with};
use vfa_dom::{Domain, SetOf};
use vfa_fact::{Cell, Fact, at_width};
use vfa_ir::Fun1;
use vfa_known::Known;
use vfa_word::{Word, most};
use vfa_wrap::{Ends, Wrapped};

/// The number of ones.
fn ones<const W: u32>(bits: u128) -> u32
    requires { bits < 2 ^ W }
    ensures { result ≡ one_bits W bits }
{
    bits.count_ones()
}

/// The number of zeros above the highest one.
fn leading_zeros<const W: u32>(bits: u128) -> u32
    requires width { IsWidth W }
    requires number { bits < 2 ^ W }
    ensures { result ≡ leading_zero_bits W bits }
{
    bits.leading_zeros() - (128 - W)
}

/// The number of zeros below the lowest one.
fn trailing_zeros<const W: u32>(bits: u128) -> u32
    requires { IsWidth W }
    ensures { result ≡ trailing_zero_bits W bits }
{
    bits.trailing_zeros().min(W)
}

/// From the number of known ones to all bits but the known zeros.
#[tactic(auto, unfolding(crate::specs::Counts::ones_arc))]
fn ones_arc<const W: u32>(a: &Fact<W>) -> Wrapped<W>
    requires { IsWidth W }
    ensures { span_of result ≡ ones_arc W (numbers_of a.now) }
{
    let known = a.known();
    let least = ones::<W>(known.ones());
    let most = W - ones::<W>(known.zeros());
    arc(u128::from(least), u128::from(most))
}

/// The ends of the numbers, or of those other than 0 alone, where there is one.
#[tactic(auto, unfolding(crate::specs::Counts::counted_ends))]
fn counted_ends<const W: u32>(strict: bool, a: &Fact<W>) -> Option<Ends<W>>
    ensures ends { option_map shown_ends result ≡ counted_ends strict W (numbers_of a.now) }
    ensures reached { IfSome result (λ e. AreEnds W (shown_ends e)) }
{
    if !strict {
        return Some(fact_ends(a));
    }
    a.divisors()
}

/// From the zeros above the greatest number to those above the least.
#[tactic(auto, unfolding(crate::specs::Counts::leading_arc))]
fn leading_arc<const W: u32>(strict: bool, a: &Fact<W>) -> Option<Wrapped<W>>
    requires { IsWidth W }
    ensures { option_map span_of result ≡ leading_arc strict W (numbers_of a.now) }
{
    let ends = counted_ends(strict, a)?;
    let least = leading_zeros::<W>(ends.hi);
    let most = leading_zeros::<W>(ends.lo);
    Some(arc(u128::from(least), u128::from(most)))
}

/// The most zeros below the lowest one.
fn most_trailing<const W: u32>(strict: bool, a: &Fact<W>) -> u32
    requires { IsWidth W }
    ensures { result ≡ most_trailing strict W (numbers_of a.now) }
{
    let zeros = trailing_zeros::<W>(a.known().ones());
    if strict {
        return zeros.min(W - 1);
    }
    zeros
}

/// How many bits from bit 0 on are known to be zero.
fn zero_run<const W: u32>(a: &Fact<W>) -> u32
    requires { IsWidth W }
    ensures { result ≡ run_of W (is_known_zero (masks_in (numbers_of a.now))) }
{
    a.known().zeros().trailing_ones()
}

/// From the run of known zeros to the place of the lowest known one.
#[tactic(auto, unfolding(crate::specs::Counts::trailing_arc))]
fn trailing_arc<const W: u32>(strict: bool, a: &Fact<W>) -> Option<Wrapped<W>>
    requires { IsWidth W }
    ensures { option_map span_of result ≡ trailing_arc strict W (numbers_of a.now) }
{
    let _some = counted_ends(strict, a)?;
    let least = zero_run(a);
    let most = most_trailing(strict, a);
    Some(arc(u128::from(least), u128::from(most)))
}

/// The distances from 0 of numbers between the ends.
#[tactic(auto, unfolding(crate::specs::Counts::distance_arc, vfa_wrap::specs::Rows::size_of))]
fn distance_arc<const W: u32>(e: &Ends<W>) -> Wrapped<W>
    requires width { IsWidth W }
    ensures { span_of result ≡ distance_arc W (shown_ends e.now) }
{
    if e.slo >= 0 {
        return arc(e.lo, e.hi);
    }
    let least = e.shi.unsigned_abs();
    let most = e.slo.unsigned_abs();
    if e.shi < 0 {
        return arc(least, most);
    }
    arc(0, most.max(least))
}

/// The numbers that are not negative where they are asked for, else all.
fn distance_bounds<const W: u32>(strict: bool) -> Option<Bounds<W>>
    requires { IsWidth W }
    ensures { option_map shown_bounds result ≡ distance_bounds strict W }
{
    if strict {
        return Some(Bounds {
            one: arc(0, most::<W>() >> 1),
            two: Wrapped::any(),
        });
    }
    Some(Bounds::none())
}

/// The row of an arc, with no bounds and no known bits.
fn count_row<const W: u32>(arc: Option<Wrapped<W>>) -> Option<Row<W>>
    requires { IsWidth W }
    ensures { option_map shown_row result ≡ row_of no_masks (option_map span_of arc.entry) (Some (no_bounds W)) }
{
    row_of(Known::any(), arc, Some(Bounds::none()))
}

/// The row of the results; None where there is none.
#[tactic(auto, unfolding(crate::specs::Counts::one_row))]
fn one_row<const W: u32>(fun: Fun1, strict: bool, a: &Fact<W>) -> Option<Row<W>>
    requires { IsWidth W }
    ensures { option_map shown_row result ≡ one_row fun strict W (numbers_of a.now) }
{
    match fun {
        Fun1::Abs => row_of(
            Known::any(),
            Some(distance_arc(&fact_ends(a))),
            distance_bounds(strict),
        ),
        Fun1::Ctlz => count_row(leading_arc(strict, a)),
        Fun1::Cttz => count_row(trailing_arc(strict, a)),
        Fun1::Ctpop => count_row(Some(ones_arc(a))),
    }
}

/// Whether the number is one of the fact's.
fn has<const W: u32>(a: &Fact<W>, bits: u128) -> bool
    requires { bits < 2 ^ W }
    ensures { result ≡ in_numbers W (numbers_of a.now) bits }
{
    a.has(Word::cut(bits))
}

/// Whether none of the numbers is the edge case, or that is no poison.
#[tactic(auto, unfolding(crate::specs::Counts::avoids_edge))]
fn avoids_edge<const W: u32>(fun: Fun1, strict: bool, a: &Fact<W>) -> bool
    requires { IsWidth W }
    ensures { result ≡ avoids_edge fun strict W (numbers_of a.now) }
{
    match fun {
        Fun1::Abs => !strict || !has(a, 1 << (W - 1)),
        Fun1::Ctlz => !strict || !has(a, 0),
        Fun1::Cttz => !strict || !has(a, 0),
        Fun1::Ctpop => true,
    }
}

/// The result of a cell of width `W`.
fn one_at<const W: u32>(fun: Fun1, strict: bool, a: &Cell) -> Cell
    requires width { IsWidth W }
    requires cell { a.now.width ≡ W }
    ensures { result ≡ one_cell fun strict a.now }
{
    let Some(known) = a.typed::<W>() else {
        return Cell::none(W);
    };
    let mark = a.never_poison && avoids_edge(fun, strict, &known);
    let fact = match one_row(fun, strict, &known) {
        Some(row) => row.fact(),
        None => None,
    };
    cell_with(fact, mark)
}

/// The result of a cell.
fn one_by_width(width: u32, fun: Fun1, strict: bool, a: &Cell) -> Cell
    requires width { IsWidth width }
    requires cell { a.now.width ≡ width }
    ensures { result ≡ one_cell fun strict a.now }
{
    at_width!(width, one_at, (fun, strict, a))
}

/// What an intrinsic of one number gives of a cell; with `strict` its edge case is poison, which is 0 for `ctlz` and `cttz`
/// and the least signed value for `abs`. The counts lie between those that the ends and the known bits tell, and `abs` between
/// the distances from 0 that the ends tell. It has no numbers where the operand has none or has the edge case alone, and is
/// never poison where the operand is not and has no edge case that is poison.
///
/// At width 8, `ctlz` of 1 to 20 is 3 to 7, and of 0 to 20 it is 3 to 8.
pub(crate) fn transfer_one(fun: Fun1, strict: bool, a: &Cell) -> Cell
    ensures exact { result ≡ one_cell fun strict a.now }
    ensures holds { (x r : Val) → CellHolds a.now x →
        Allowed (of_one (one_number fun strict a.now.width) x) (Gave r) → CellHolds result r }
    ensures cell { IsCell result }
{
    one_by_width(a.width, fun, strict, a)
}
