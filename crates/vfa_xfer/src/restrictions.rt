//! What is left of a cell where its value is wanted to be in a set of numbers.

ghost use Rattle.std.specs.Prelude.{◌≡◌, ℕ, ◌^◌, ◌<◌, Bool};
ghost use Rattle.std.specs.Option.{option_map};
ghost use Rattle.vfa_fact.specs.Cells.{marked};
ghost use Rattle.vfa_fact.specs.Compare.{Agree};
ghost use Rattle.vfa_fact.specs.Views.{numbers_of, in_test};
ghost use Rattle.vfa_word.specs.Numbers.{IsWidth};
ghost use Rattle.vfa_wrap.specs.Wrapped.{span_of, in_arc};
ghost use Rattle.vfa_xfer.specs.Restrictions.{kept_of, agrees_under, lands_in, cell_with_bits, cell_moved};

use vfa_dom::Domain;
use vfa_fact::{Cell, Fact, Test, at_width};
use vfa_known::Known;
use vfa_word::Word;
use vfa_wrap::Wrapped;

/// The cell of the numbers of a fact that pass a test, never poison; None exactly where none does.
fn kept<const W: u32>(fact: &Fact<W>, test: &Test<W>) -> Option<Cell>
    ensures { (wanted : ℕ → Bool) → Agree W (in_test W test.now) wanted →
        result ≡ option_map (marked W) (kept_of W (numbers_of fact.now) wanted) }
{
    match Fact::sharp(fact.known(), fact.arc(), test) {
        Some(rest) => Some(Cell::of(&rest, true)),
        None => None,
    }
}

/// The test for numbers that agree with the value on the bits of the mask.
fn agreeing<const W: u32>(mask: u128, value: u128) -> Test<W>
    requires width { IsWidth W }
    requires mask { mask < 2 ^ W }
    ensures { Agree W (in_test W result) (agrees_under mask value) }
{
    let ones = mask & value;
    let Some(cube) = Known::new(mask ^ ones, ones) else {
        unreachable!()
    };
    Test {
        cube,
        one: Wrapped::any(),
        two: Wrapped::any(),
    }
}

/// What is left of a cell of width `W` where it agrees with the value on the bits of the mask.
fn with_bits_at<const W: u32>(cell: &Cell, mask: u128, value: u128) -> Option<Cell>
    requires cell { cell.now.width ≡ W }
    requires mask { mask < 2 ^ cell.now.width }
    ensures { result ≡ cell_with_bits mask value cell.now }
{
    let Some(fact) = cell.typed::<W>() else {
        return None;
    };
    kept(&fact, &agreeing(mask, value))
}

/// The arc of the numbers whose sum with `c` lies in the arc.
fn moved_back<const W: u32>(arc: &Wrapped<W>, c: u128) -> Wrapped<W>
    requires { c < 2 ^ W }
    ensures { Agree W (in_arc W result) (lands_in W c (span_of arc.now)) }
{
    let back = Word::cut(c);
    Wrapped::new(arc.first().sub(back), arc.last().sub(back))
}

/// What is left of a cell of width `W` where its sum with `c` lies in the arc of another one.
fn moved_at<const W: u32>(cell: &Cell, sum: &Cell, c: u128) -> Option<Cell>
    requires cell { cell.now.width ≡ W }
    requires sum { sum.now.width ≡ W }
    requires fits { c < 2 ^ cell.now.width }
    ensures { result ≡ cell_moved c sum.now cell.now }
{
    let Some(sums) = sum.typed::<W>() else {
        return None;
    };
    let Some(fact) = cell.typed::<W>() else {
        return None;
    };
    kept(&fact, &Test::inside(moved_back(&sums.arc(), c)))
}

/// The numbers of the cell that agree with the value on the bits of the mask, never poison; None exactly where none does.
pub(crate) fn with_bits(cell: &Cell, mask: u128, value: u128) -> Option<Cell>
    requires { mask < 2 ^ cell.now.width }
    ensures { result ≡ cell_with_bits mask value cell.now }
{
    at_width!(cell.width, with_bits_at, (cell, mask, value))
}

/// The numbers of the cell whose sum with `c` lies in the arc of another one of its width, never poison; None exactly where
/// there is none, and where the other one has no numbers.
pub(crate) fn moved_from(cell: &Cell, sum: &Cell, c: u128) -> Option<Cell>
    requires widths { cell.now.width ≡ sum.now.width }
    requires fits { c < 2 ^ cell.now.width }
    ensures { result ≡ cell_moved c sum.now cell.now }
{
    at_width!(cell.width, moved_at, (cell, sum, c))
}
