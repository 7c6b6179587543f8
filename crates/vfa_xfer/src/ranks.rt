//! Ranks of cells.

ghost use Rattle.std.specs.Prelude.{◌≡◌, ◌^◌, ◌<◌, ◌≤◌};
ghost use Rattle.vfa_dom.specs.Search.{flag};
ghost use Rattle.vfa_fact.specs.Fact.{IsFact, masks_in, span_in};
ghost use Rattle.vfa_word.specs.Numbers.{IsWidth};
ghost use Rattle.vfa_xfer.specs.Ranks.{low_span, fact_rank, cell_rank};
ghost use Rattle.vfa_xfer.specs.Widening.{is_same_span};

use crate::widening::low_bits;
use vfa_fact::{Cell, Numbers};

/// Whether the arc of a fact of the width is the one from the least to the greatest number that agrees with the lowest
/// known bits.
fn fills_low_span(width: u32, numbers: &Numbers) -> bool
    requires width { IsWidth width }
    requires fact { IsFact width numbers.now }
    ensures { result ≡ is_same_span (span_in numbers.now) (low_span width (masks_in numbers.now)) }
{
    let run = (numbers.zeros | numbers.ones).trailing_ones();
    if numbers.first != low_bits(numbers.ones, run) {
        return false;
    }
    let most = u128::MAX >> (128 - width);
    numbers.last == most ^ low_bits(numbers.zeros, run)
}

/// One where it holds, else nothing.
fn one_if(holds: bool) -> u32
    ensures value { result ≡ flag holds }
    ensures bound { result ≤ 1 }
{
    if holds {
        return 1;
    }
    0
}

/// The rank of the numbers of a fact of the width.
fn rank_of_fact(width: u32, numbers: &Numbers) -> u32
    requires width { IsWidth width }
    requires fact { IsFact width numbers.now }
    ensures value { result ≡ fact_rank width numbers.now }
    ensures bound { result < 2 ^ 16 }
{
    2 * (numbers.zeros | numbers.ones).count_ones() + one_if(!fills_low_span(width, numbers))
}

/// The rank of a cell: twice the number of its known bits, one more where its arc is not that of all numbers with its
/// lowest known bits, and one more where it is never poison; without numbers it is more than any of these.
pub(crate) fn rank(cell: &Cell) -> u32
    ensures value { result ≡ cell_rank cell.now }
    ensures bound { result < 2 ^ 17 }
{
    match &cell.numbers {
        Some(numbers) => rank_of_fact(cell.width, numbers) + one_if(cell.never_poison),
        None => 2 * cell.width + 3,
    }
}
