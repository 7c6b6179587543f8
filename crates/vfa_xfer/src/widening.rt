//! Widening of cells.

ghost use Rattle.std.specs.Prelude.{◌≡◌, ◌%◌, ◌^◌, ◌≤◌, ◌&&◌, Some};
ghost use Rattle.std.specs.Option.{option_map};
ghost use Rattle.vfa_fact.specs.Fact.{masks_in};
ghost use Rattle.vfa_fact.specs.Views.{numbers_of};
ghost use Rattle.vfa_known.specs.Known.{masks_of};
ghost use Rattle.vfa_values.specs.Conditions.{AreLandmarks};
ghost use Rattle.vfa_word.specs.Numbers.{IsWidth};
ghost use Rattle.vfa_wrap.specs.Wrapped.{span_of};
ghost use Rattle.vfa_xfer.specs.Widening.{low_masks, is_same_span, reached_span, low_in, widened_fact, widened_cells};

use crate::same::same_numbers;
use vfa_dom::Domain;
use vfa_fact::{Cell, Fact, Test, at_width};
use vfa_known::Known;
use vfa_wrap::Wrapped;

/// The first round in which an arc goes on to landmarks.
const FIRST_LANDMARK_ROUND: u32 = 4;

/// The first round in which an arc goes on to all numbers.
const FIRST_FALLING_ROUND: u32 = 9;

/// The low bits of a number, so many of them.
pub(crate) fn low_bits(bits: u128, count: u32) -> u128
    requires { count ≤ 128 }
    ensures { result ≡ bits % 2 ^ count }
{
    if count < 128 {
        bits & ((1 << count) - 1)
    } else {
        bits
    }
}

/// The unbroken run of known bits from bit 0 on.
fn low_of<const W: u32>(known: &Known<W>) -> Known<W>
    ensures { masks_of result ≡ low_masks W (masks_of known.now) }
{
    let zeros = known.zeros();
    let ones = known.ones();
    let run = (zeros | ones).trailing_ones();
    let Some(low) = Known::new(low_bits(zeros, run), low_bits(ones, run)) else {
        unreachable!()
    };
    low
}

/// Whether two arcs are the same.
fn same_arc<const W: u32>(one: &Wrapped<W>, other: &Wrapped<W>) -> bool
    ensures { result ≡ is_same_span (span_of one.now) (span_of other.now) }
{
    if one.first().bits() != other.first().bits() {
        return false;
    }
    one.last().bits() == other.last().bits()
}

/// The arc to which one goes on that has become other than the old one.
fn reached<const W: u32>(
    round: u32,
    marks: &[u128],
    old: &Wrapped<W>,
    arc: &Wrapped<W>,
) -> Wrapped<W>
    requires { AreLandmarks W marks.now }
    ensures { span_of result ≡ reached_span W round marks.now (span_of old.now) (span_of arc.now) }
{
    if round < FIRST_FALLING_ROUND {
        return arc.round_out(old, marks);
    }
    Wrapped::any()
}

/// The fact of the numbers of an arc that agree with the lowest known bits of a fact in it.
fn low_within<const W: u32>(joined: &Fact<W>, arc: Wrapped<W>) -> Option<Fact<W>>
    ensures { option_map numbers_of result ≡ low_in W (span_of arc.entry) (masks_in (numbers_of joined.now)) }
{
    Fact::sharp(low_of(&joined.known()), arc, &Test::any())
}

/// A fact widened to its join with a new one.
fn widen_fact<const W: u32>(round: u32, marks: &[u128], old: &Fact<W>, joined: &Fact<W>) -> Fact<W>
    requires { AreLandmarks W marks.now }
    ensures { Some (numbers_of result) ≡ widened_fact W round marks.now (numbers_of old.now) (numbers_of joined.now) }
{
    if round < FIRST_LANDMARK_ROUND {
        return *joined;
    }
    let arc = joined.arc();
    let old_arc = old.arc();
    if same_arc(&arc, &old_arc) {
        return *joined;
    }
    let Some(wide) = low_within(joined, reached(round, marks, &old_arc, &arc)) else {
        unreachable!()
    };
    wide
}

/// Whether both cells are never poison.
fn both_marked(a: &Cell, b: &Cell) -> bool
    ensures { result ≡ (a.now.never_poison && b.now.never_poison) }
{
    a.never_poison && b.never_poison
}

/// A cell of width `W` widened by a new one.
fn widen_at<const W: u32>(old: &Cell, new: &Cell, round: u32, marks: &[u128]) -> Cell
    requires old { old.now.width ≡ W }
    requires new { new.now.width ≡ W }
    requires landmarks { AreLandmarks old.now.width marks.now }
    ensures { result ≡ widened_cells round marks.now old.now new.now }
{
    let Some(one) = old.typed::<W>() else {
        return new.unmarked();
    };
    let Some(two) = new.typed::<W>() else {
        return old.unmarked();
    };
    let wide = widen_fact(round, marks, &one, &one.join(&two));
    Cell::of(&wide, both_marked(old, new))
}

/// A cell widened by a new one of its width, in a round from 1 on and by the landmarks of the width.
pub(crate) fn widen(old: &Cell, new: &Cell, round: u32, marks: &[u128]) -> Cell
    requires widths { old.now.width ≡ new.now.width }
    requires landmarks { AreLandmarks old.now.width marks.now }
    ensures { result ≡ widened_cells round marks.now old.now new.now }
{
    if same_numbers(old, new) {
        return old.with_mark(both_marked(old, new));
    }
    at_width!(old.width, widen_at, (old, new, round, marks))
}
