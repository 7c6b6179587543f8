//! Facts of what an operation takes over from an operand: `select`, `freeze`, `extractvalue`, and `llvm.assume`.

ghost use Rattle.std.specs.Prelude.{◌≡◌};
ghost use Rattle.vfa_dom.specs.Sets.{single_of};
ghost use Rattle.vfa_fact.specs.Cells.{IsCell, in_cell};
ghost use Rattle.vfa_fact.specs.declared.cell.Parts.{Parts};
ghost use Rattle.vfa_mean.specs.Meaning.{Allowed, Gave, assumed, chosen, frozen, part_of};
ghost use Rattle.vfa_mean.specs.declared.value.Val.{Val};
ghost use Rattle.vfa_xfer.specs.AnyFacts.{CellHolds, PartsHold};
ghost use Rattle.vfa_xfer.specs.Selects.{possible_arms, selected_cell, frozen_cell, part_cell, assumed_cell};

use vfa_fact::Cell;

/// The arms that a condition leaves: one where it is one number, else both together.
fn possible_arms(c: &Cell, a: &Cell, b: &Cell) -> Cell
    requires { a.now.width ≡ b.now.width }
    ensures value { result ≡ possible_arms (single_of c.now.width (in_cell c.now)) a.now b.now }
{
    let Some(bit) = c.single() else {
        return a.join(b);
    };
    if bit == 0 {
        return *b;
    }
    *a
}

/// What a `select` gives by the condition `c`, of width 1, from the arms `a` and `b`, of one width: the numbers of the arm,
/// where the condition is one number, else of the join of both arms; none where the condition has none. It is never poison
/// where the condition and each arm still possible are.
///
/// At width 8, an open condition and the arms 4 and 12 give `0000?100` from 4 to 12.
pub(crate) fn select(c: &Cell, a: &Cell, b: &Cell) -> Cell
    requires { a.now.width ≡ b.now.width }
    ensures exact { result ≡ selected_cell c.now a.now b.now }
    ensures holds { (z x y r : Val) → CellHolds c.now z → CellHolds a.now x → CellHolds b.now y →
        Allowed (chosen z x y) (Gave r) → CellHolds result r }
    ensures cell { IsCell result }
{
    // the prover knows that an operand is a cell once a part of it is read
    let _width = b.width;
    if c.numbers.is_none() {
        return Cell::none(a.width);
    }
    let arms = possible_arms(c, a, b);
    arms.with_mark(c.never_poison && arms.never_poison)
}

/// What a `freeze` gives: the operand where it is never poison, else all numbers of the width, never poison.
pub(crate) fn freeze(a: &Cell) -> Cell
    ensures exact { result ≡ frozen_cell a.now }
    ensures holds { (x r : Val) → CellHolds a.now x → Allowed (frozen a.now.width x) (Gave r) → CellHolds result r }
    ensures cell { IsCell result }
{
    if a.never_poison {
        return *a;
    }
    Cell::any(a.width, true)
}

/// What an `extractvalue` gives of a pair of these parts: `number` at index 0, else `overflow`.
pub(crate) fn part(index: u32, number: &Cell, overflow: &Cell) -> Cell
    ensures exact { result ≡ part_cell index number.now overflow.now }
    ensures holds { (v r : Val) → PartsHold (Parts.Two number.now overflow.now) v →
        Allowed (part_of index v) (Gave r) → CellHolds result r }
{
    if index == 0 {
        return *number;
    }
    *overflow
}

/// What is known of the condition of an `llvm.assume` behind it: it is 1; none where the condition is never 1, so that the
/// place is not reached.
pub(crate) fn assume(c: &Cell) -> Cell
    requires { c.now.width ≡ 1 }
    ensures exact { result ≡ assumed_cell c.now }
    ensures holds { (z r : Val) → CellHolds c.now z → Allowed (assumed z) (Gave r) → CellHolds result r }
    ensures cell { IsCell result }
{
    if !c.has(1) {
        return Cell::none(1);
    }
    Cell::literal(1, 1).with_mark(c.never_poison)
}
