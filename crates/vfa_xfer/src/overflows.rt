//! Facts of the intrinsics with overflow.

ghost use Rattle.std.specs.Prelude.{◌≡◌, ℕ, Some};
ghost use Rattle.vfa_fact.specs.Cells.{IsCell, cell_of};
ghost use Rattle.vfa_fact.specs.Views.{numbers_of};
ghost use Rattle.vfa_mean.specs.Meaning.{Allowed, Gave, of_two};
ghost use Rattle.vfa_mean.specs.Rows.{overflow_arith, with_overflow};
ghost use Rattle.vfa_mean.specs.declared.value.Val.{Val};
ghost use Rattle.vfa_word.specs.Numbers.{IsWidth};
ghost use Rattle.vfa_wrap.specs.Between.{AreEnds};
ghost use Rattle.vfa_wrap.specs.Ends.{EndsOf};
ghost use Rattle.vfa_wrap.specs.WholeSpans.{AreOperandEnds, overflow_of, span_of_results};
ghost use Rattle.vfa_xfer.specs.AnyFacts.{AreCells, CellHolds, PartsHold};
ghost use Rattle.vfa_xfer.specs.Binary.{ends_in_numbers};
ghost use Rattle.vfa_xfer.specs.Overflows.{decided_bit, no_flags, overflow_cell, overflow_numbers, overflow_operation, overflow_parts, range_of_overflow};

use crate::binary::transfer_binary;
use crate::binary_rows::fact_ends;
use vfa_fact::{Cell, Fact, Parts, at_width};
use vfa_ir::{Bin, Flags, Over};
use vfa_word::Arith;
use vfa_wrap::Reading;
use vfa_wrap::spans::overflow;

/// No flag.
const NO_FLAGS: Flags = Flags {
    nuw: false,
    nsw: false,
    exact: false,
    disjoint: false,
};

/// The operation on whole numbers.
fn overflow_arith(over: Over) -> Arith
    ensures value { result ≡ overflow_arith over }
    ensures plain { (w : ℕ) (e : EndsOf) → AreEnds w e → AreOperandEnds result w e }
{
    match over {
        Over::Uadd => Arith::Add,
        Over::Sadd => Arith::Add,
        Over::Usub => Arith::Sub,
        Over::Ssub => Arith::Sub,
        Over::Umul => Arith::Mul,
        Over::Smul => Arith::Mul,
    }
}

/// The range that the whole result leaves or not.
fn range_of_overflow(over: Over) -> Reading
    ensures { result ≡ range_of_overflow over }
{
    match over {
        Over::Uadd => Reading::Unsigned,
        Over::Sadd => Reading::Signed,
        Over::Usub => Reading::Unsigned,
        Over::Ssub => Reading::Signed,
        Over::Umul => Reading::Unsigned,
        Over::Smul => Reading::Signed,
    }
}

/// The operation that gives the number.
fn overflow_operation(over: Over) -> Bin
    ensures { result ≡ overflow_operation over }
{
    match over {
        Over::Uadd => Bin::Add,
        Over::Sadd => Bin::Add,
        Over::Usub => Bin::Sub,
        Over::Ssub => Bin::Sub,
        Over::Umul => Bin::Mul,
        Over::Smul => Bin::Mul,
    }
}

/// Whether the operation overflows on numbers of the two facts, where the span of its whole results tells it.
fn decided<const W: u32>(over: Over, a: &Fact<W>, b: &Fact<W>) -> Option<bool>
    requires { IsWidth W }
    ensures { result ≡ overflow_of (range_of_overflow over) W (span_of_results (overflow_arith over) (range_of_overflow over)
        (ends_in_numbers W (numbers_of a.now)) (ends_in_numbers W (numbers_of b.now))) }
{
    overflow(
        overflow_arith(over),
        range_of_overflow(over),
        &fact_ends(a),
        &fact_ends(b),
    )
}

/// The cell of a bit that is decided, or of both.
fn bit_cell(bit: Option<bool>, never_poison: bool) -> Cell
    ensures { result ≡ cell_of 1 (Some (decided_bit bit)) never_poison }
{
    let Some(one) = bit else {
        return Cell::any(1, never_poison);
    };
    if one {
        return Cell::literal(1, 1).with_mark(never_poison);
    }
    Cell::literal(1, 0).with_mark(never_poison)
}

/// The cell of the overflow bit of two cells of width `W`.
#[tactic(auto, unfolding(crate::specs::Overflows::overflow_numbers))]
fn overflow_at<const W: u32>(over: Over, a: &Cell, b: &Cell) -> Cell
    requires width { IsWidth W }
    requires left { a.now.width ≡ W }
    requires right { b.now.width ≡ W }
    ensures { result ≡ overflow_cell over a.now b.now }
{
    let Some(one) = a.typed::<W>() else {
        return Cell::none(1);
    };
    let Some(two) = b.typed::<W>() else {
        return Cell::none(1);
    };
    bit_cell(decided(over, &one, &two), a.never_poison && b.never_poison)
}

/// The cell of the overflow bit.
fn overflow_by_width(width: u32, over: Over, a: &Cell, b: &Cell) -> Cell
    requires width { IsWidth width }
    requires left { a.now.width ≡ width }
    requires right { b.now.width ≡ width }
    ensures { result ≡ overflow_cell over a.now b.now }
{
    at_width!(width, overflow_at, (over, a, b))
}

/// What an intrinsic with overflow gives of two cells of one width: the cell of the number, as of the operation without flags,
/// and that of the overflow bit, which is 0 where the span of the whole results lies in the range, 1 where no number of it
/// does, and else both. Neither has numbers where an operand has none, and both are never poison where the operands are.
///
/// At width 8, `uadd.with.overflow` of 200 to 210 and 100 to 105 is 44 to 59 with the bit 1.
pub(crate) fn transfer_over(over: Over, a: &Cell, b: &Cell) -> Parts
    requires { a.now.width ≡ b.now.width }
    ensures exact { result ≡ overflow_parts over a.now b.now }
    ensures holds { (x y r : Val) → CellHolds a.now x → CellHolds b.now y →
        Allowed (of_two (with_overflow over a.now.width) x y) (Gave r) → PartsHold result r }
    ensures cells { AreCells result }
{
    // the prover knows that an operand is a cell once a part of it is read
    let _width = b.width;
    Parts::Two(
        transfer_binary(overflow_operation(over), NO_FLAGS, a, b),
        overflow_by_width(a.width, over, a, b),
    )
}
