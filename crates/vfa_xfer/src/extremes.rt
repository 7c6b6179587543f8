//! Facts of the intrinsics of two numbers: minimum, maximum, and sums and differences clamped to the range.

ghost use Rattle.std.specs.Prelude.{◌≡◌, ℕ};
ghost use Rattle.std.specs.Option.{option_map};
ghost use Rattle.vfa_fact.specs.Cells.{IsCell};
ghost use Rattle.vfa_fact.specs.Views.{numbers_of};
ghost use Rattle.vfa_known.specs.Known.{masks_of};
ghost use Rattle.vfa_mean.specs.Meaning.{Allowed, Gave, of_two};
ghost use Rattle.vfa_mean.specs.Rows.{two_numbers};
ghost use Rattle.vfa_mean.specs.declared.value.Val.{Val};
ghost use Rattle.vfa_word.specs.Numbers.{IsWidth};
ghost use Rattle.vfa_wrap.specs.Between.{AreEnds};
ghost use Rattle.vfa_wrap.specs.Ends.{EndsOf};
ghost use Rattle.vfa_wrap.specs.Rows.{AreSecondEnds};
ghost use Rattle.vfa_xfer.specs.AnyFacts.{CellHolds};
ghost use Rattle.vfa_xfer.specs.Extremes.{ends_operation, two_masks, two_row, two_cell};
ghost use Rattle.vfa_xfer.specs.Rows.{shown_row};

use crate::binary_rows::fact_ends;
use crate::bounds::{Bounds, row_of};
use crate::rows::{Row, cell_with};
use vfa_dom::Domain;
use vfa_fact::{Cell, Fact, at_width};
use vfa_ir::Fun2;
use vfa_known::Known;
use vfa_wrap::{EndsOp, Wrapped};

/// The operation by whose arc the results are bounded.
fn ends_operation(fun: Fun2) -> EndsOp
    ensures value { result ≡ ends_operation fun }
    ensures plain { (w : ℕ) (e : EndsOf) → AreEnds w e → AreSecondEnds result w e }
{
    match fun {
        Fun2::Umin => EndsOp::Umin,
        Fun2::Umax => EndsOp::Umax,
        Fun2::Smin => EndsOp::Smin,
        Fun2::Smax => EndsOp::Smax,
        Fun2::UaddSat => EndsOp::UaddSat,
        Fun2::UsubSat => EndsOp::UsubSat,
        Fun2::SaddSat => EndsOp::SaddSat,
        Fun2::SsubSat => EndsOp::SsubSat,
    }
}

/// The known bits of the results.
fn cube<const W: u32>(fun: Fun2, a: &Fact<W>, b: &Fact<W>) -> Known<W>
    requires { IsWidth W }
    ensures { masks_of result ≡ two_masks fun (numbers_of a.now) (numbers_of b.now) }
{
    match fun {
        Fun2::Umin | Fun2::Umax | Fun2::Smin | Fun2::Smax => a.known().join(&b.known()),
        Fun2::UaddSat | Fun2::UsubSat | Fun2::SaddSat | Fun2::SsubSat => Known::any(),
    }
}

/// The row of the results.
#[tactic(auto, unfolding(crate::specs::Extremes::two_row))]
fn two_row<const W: u32>(fun: Fun2, a: &Fact<W>, b: &Fact<W>) -> Option<Row<W>>
    requires { IsWidth W }
    ensures { option_map shown_row result ≡ two_row fun W (numbers_of a.now) (numbers_of b.now) }
{
    row_of(
        cube(fun, a, b),
        Wrapped::by_ends(ends_operation(fun), &fact_ends(a), &fact_ends(b)),
        Some(Bounds::none()),
    )
}

/// The result of cells of width `W`.
fn two_at<const W: u32>(fun: Fun2, a: &Cell, b: &Cell) -> Cell
    requires width { IsWidth W }
    requires left { a.now.width ≡ W }
    requires right { b.now.width ≡ W }
    ensures { result ≡ two_cell fun a.now b.now }
{
    let Some(one) = a.typed::<W>() else {
        return Cell::none(W);
    };
    let Some(two) = b.typed::<W>() else {
        return Cell::none(W);
    };
    let mark = a.never_poison && b.never_poison;
    let fact = match two_row(fun, &one, &two) {
        Some(row) => row.fact(),
        None => None,
    };
    cell_with(fact, mark)
}

/// The result of cells of one width.
fn two_by_width(width: u32, fun: Fun2, a: &Cell, b: &Cell) -> Cell
    requires width { IsWidth width }
    requires left { a.now.width ≡ width }
    requires right { b.now.width ≡ width }
    ensures { result ≡ two_cell fun a.now b.now }
{
    at_width!(width, two_at, (fun, a, b))
}

/// What an intrinsic of two numbers gives of two cells of one width: the numbers that have the bits known of each result and
/// lie in the arc of the results by the operands' ends, made sharp. It has no numbers where an operand has none, and is never
/// poison where both operands are.
///
/// At width 8, `umin` of 0 to 20 and 10 to 30 is 0 to 20, and `uadd.sat` of 200 to 210 and 40 to 60 is 240 to 255.
pub(crate) fn transfer_two(fun: Fun2, a: &Cell, b: &Cell) -> Cell
    requires { a.now.width ≡ b.now.width }
    ensures exact { result ≡ two_cell fun a.now b.now }
    ensures holds { (x y r : Val) → CellHolds a.now x → CellHolds b.now y →
        Allowed (of_two (two_numbers fun a.now.width) x y) (Gave r) → CellHolds result r }
    ensures cell { IsCell result }
{
    // the prover knows that an operand is a cell once a part of it is read
    let _width = b.width;
    two_by_width(a.width, fun, a, b)
}
