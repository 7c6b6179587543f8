ghost use Rattle.std.specs.Prelude.{◌≡◌, ◌≢◌, ℕ, ◌<◌, ◌^◌, ◌&&◌, IsTrue, IsSomeAnd, IfSome, Some};
ghost use Rattle.std.specs.Int.{bit_at};
ghost use Rattle.std.specs.Option.{option_map};
ghost use Rattle.vfa_fact.specs.Cells.{IsCell, in_cell, joined_numbers, joined_cells, decided_cells, compared_cells};
ghost use Rattle.vfa_fact.specs.CellCuts.{shown_cell_ends, shown_cell_amounts, cell_ends, cell_amounts, cell_divisors};
ghost use Rattle.vfa_fact.specs.Compare.{satisfies, restrict_of};
ghost use Rattle.vfa_fact.specs.Fact.{IsFact, in_numbers};
ghost use Rattle.vfa_fact.specs.Join.{join_of};
ghost use Rattle.vfa_word.specs.Numbers.{IsWidth};
ghost use Rattle.vfa_wrap.specs.Between.{Between, AreEnds};
ghost use Rattle.vfa_wrap.specs.Ends.{shown_ends};
ghost use Rattle.vfa_wrap.specs.Rows.{AreAmounts, AreDivisors};

use crate::cell::{Cell, CellAmounts, CellEnds};
use crate::{Fact, Numbers, at_width};
use vfa_dom::Domain;
use vfa_ir::Pred;
use vfa_wrap::Ends;

/// The numbers of the join of two facts of width `W`.
fn join_at<const W: u32>(a: &Numbers, b: &Numbers) -> Numbers
    requires width { IsWidth W }
    requires left { IsFact W a.now }
    requires right { IsFact W b.now }
    ensures { Some result ≡ join_of W a.now b.now }
{
    Fact::<W>::from_numbers(a)
        .join(&Fact::from_numbers(b))
        .numbers()
}

/// The numbers of the join of two facts of one width.
fn joined(width: u32, a: &Numbers, b: &Numbers) -> Numbers
    requires width { IsWidth width }
    requires left { IsFact width a.now }
    requires right { IsFact width b.now }
    ensures { Some result ≡ join_of width a.now b.now }
{
    at_width!(width, join_at, (a, b))
}

/// The numbers of two cells of one width together.
fn numbers_of_both(a: &Cell, b: &Cell) -> Option<Numbers>
    requires { a.now.width ≡ b.now.width }
    ensures { result ≡ joined_numbers a.now.width a.now.numbers b.now.numbers }
{
    let Some(one) = &a.numbers else {
        return b.numbers;
    };
    let Some(two) = &b.numbers else {
        return a.numbers;
    };
    if one == two {
        return a.numbers;
    }
    Some(joined(a.width, one, two))
}

/// What the comparison of two cells of width `W` answers.
fn decide_at<const W: u32>(pred: Pred, a: &Cell, b: &Cell) -> Option<bool>
    requires left { a.now.width ≡ W }
    requires right { b.now.width ≡ W }
    ensures { result ≡ decided_cells pred a.now b.now }
{
    let Some(one) = a.typed::<W>() else {
        return None;
    };
    let Some(two) = b.typed::<W>() else {
        return None;
    };
    Fact::decide(pred, &one, &two)
}

/// The numbers that the comparison leaves of the first of two facts of width `W`.
fn restrict_at<const W: u32>(pred: Pred, a: &Numbers, b: &Numbers) -> Option<Numbers>
    requires width { IsWidth W }
    requires left { IsFact W a.now }
    requires right { IsFact W b.now }
    ensures { result ≡ restrict_of W pred a.now (in_numbers W b.now) }
{
    Fact::<W>::from_numbers(a).restricted(pred, &Fact::from_numbers(b))
}

/// The numbers that the comparison leaves of the first of two facts of one width.
fn restricted_numbers(width: u32, pred: Pred, a: &Numbers, b: &Numbers) -> Option<Numbers>
    requires width { IsWidth width }
    requires left { IsFact width a.now }
    requires right { IsFact width b.now }
    ensures { result ≡ restrict_of width pred a.now (in_numbers width b.now) }
{
    at_width!(width, restrict_at, (pred, a, b))
}

/// What the comparison leaves of the first of two cells of one width.
fn compared(pred: Pred, a: &Cell, b: &Cell) -> Option<Cell>
    requires { a.now.width ≡ b.now.width }
    ensures { result ≡ compared_cells pred a.now b.now }
{
    let Some(one) = &a.numbers else {
        return None;
    };
    let Some(two) = &b.numbers else {
        return None;
    };
    match restricted_numbers(a.width, pred, one, two) {
        Some(numbers) => Some(Cell {
            width: a.width,
            numbers: Some(numbers),
            never_poison: true,
        }),
        None => None,
    }
}

/// The same ends, without a width of their own.
fn ends_of_cell<const W: u32>(ends: &Ends<W>) -> CellEnds
    ensures { shown_cell_ends result ≡ shown_ends ends.now }
{
    CellEnds {
        lo: ends.lo,
        hi: ends.hi,
        slo: ends.slo,
        shi: ends.shi,
    }
}

/// The ends of the numbers of a cell of width `W`.
fn ends_at<const W: u32>(a: &Cell) -> Option<CellEnds>
    requires { a.now.width ≡ W }
    ensures { option_map shown_cell_ends result ≡ cell_ends a.now }
{
    let Some(fact) = a.typed::<W>() else {
        return None;
    };
    Some(ends_of_cell(&fact.ends()))
}

/// The amounts among the numbers of a cell of width `W`.
fn amounts_at<const W: u32>(a: &Cell) -> Option<CellAmounts>
    requires { a.now.width ≡ W }
    ensures { option_map shown_cell_amounts result ≡ cell_amounts a.now }
{
    let amounts = a.typed::<W>()?.amounts()?;
    Some(CellAmounts {
        mask: amounts.mask,
        ends: ends_of_cell(&amounts.ends),
    })
}

/// The ends of the divisors among the numbers of a cell of width `W`.
fn divisors_at<const W: u32>(a: &Cell) -> Option<CellEnds>
    requires { a.now.width ≡ W }
    ensures { option_map shown_cell_ends result ≡ cell_divisors a.now }
{
    let ends = a.typed::<W>()?.divisors()?;
    Some(ends_of_cell(&ends))
}

/// The ends of the numbers of a cell.
fn ends_by_width(width: u32, a: &Cell) -> Option<CellEnds>
    requires width { IsWidth width }
    requires cell { a.now.width ≡ width }
    ensures { option_map shown_cell_ends result ≡ cell_ends a.now }
{
    at_width!(width, ends_at, (a))
}

/// The amounts among the numbers of a cell.
fn amounts_by_width(width: u32, a: &Cell) -> Option<CellAmounts>
    requires width { IsWidth width }
    requires cell { a.now.width ≡ width }
    ensures { option_map shown_cell_amounts result ≡ cell_amounts a.now }
{
    at_width!(width, amounts_at, (a))
}

/// The ends of the divisors among the numbers of a cell.
fn divisors_by_width(width: u32, a: &Cell) -> Option<CellEnds>
    requires width { IsWidth width }
    requires cell { a.now.width ≡ width }
    ensures { option_map shown_cell_ends result ≡ cell_divisors a.now }
{
    at_width!(width, divisors_at, (a))
}

impl Cell {
    /// The join of two cells of one width, for a value of the one or of the other: the fact of the numbers that agree with
    /// the bits known alike in both and lie in the hull of the two arcs, never poison exactly where both are. A cell
    /// without numbers gives way to the numbers of the other, and the value may then be poison.
    ///
    /// At width 8, the cells of 4 and of 12, both never poison, join to `0000?100` from 4 to 12, never poison; only poison
    /// and 5, never poison, join to 5 that may be poison.
    pub fn join(&self, other: &Cell) -> Cell
        requires { self.now.width ≡ other.now.width }
        ensures exact { result ≡ joined_cells self.now other.now }
        ensures cell { IsCell result }
        ensures covers_self { (x : ℕ) → IsTrue (in_cell self.now x) → IsTrue (in_cell result x) }
        ensures covers_other { (x : ℕ) → IsTrue (in_cell other.now x) → IsTrue (in_cell result x) }
        ensures mark { result.never_poison ≡ (self.now.never_poison && other.now.never_poison) }
    {
        Cell {
            width: self.width,
            numbers: numbers_of_both(self, other),
            never_poison: self.never_poison && other.never_poison,
        }
    }

    /// What the comparison answers for all pairs of numbers of two cells of one width: Some(true) exactly where all
    /// pairs satisfy it, Some(false) exactly where none does. None where some pair does and some does not, and where a
    /// cell has no numbers.
    ///
    /// At width 8, `ult` of 0 to 4 and 5 to 9 is Some(true).
    pub fn decide(pred: Pred, a: &Cell, b: &Cell) -> Option<bool>
        requires { a.now.width ≡ b.now.width }
        ensures { result ≡ decided_cells pred a.now b.now }
    {
        at_width!(a.width, decide_at, (pred, a, b))
    }

    /// The fact of the numbers of `self` that satisfy the comparison with some number of `other`, of the same width; the
    /// value is never poison from then on. None exactly where no number is left.
    ///
    /// At width 8, 0 to 200 compared by `ugt` with 9 to 20 is 10 to 200, never poison.
    pub fn compare(&self, pred: Pred, other: &Cell) -> Option<Cell>
        requires { self.now.width ≡ other.now.width }
        ensures exact { result ≡ compared_cells pred self.now other.now }
        ensures cell { IfSome result IsCell }
        ensures keeps { (x y : ℕ) → IsTrue (in_cell self.now x) → IsTrue (in_cell other.now y) →
            IsTrue (satisfies self.now.width pred x y) → IsSomeAnd result (λ rest. IsTrue (in_cell rest x)) }
    {
        let _ = &self.numbers;
        compared(pred, self, other)
    }

    /// The least and greatest numbers of the cell, and the least and greatest signed readings of its numbers; None
    /// exactly where it has none. Each number lies between them in both readings, and each of the four is reached.
    ///
    /// At width 8, the cell of 250 to 4 has the ends 0 and 255, and -6 and 4.
    pub fn ends(&self) -> Option<CellEnds>
        ensures exact { option_map shown_cell_ends result ≡ cell_ends self.now }
        ensures cell { IsCell self.now }
        ensures reached { IfSome result (λ e. AreEnds self.now.width (shown_cell_ends e)) }
        ensures between { (x : ℕ) → IsTrue (in_cell self.now x) →
            IsSomeAnd result (λ e. Between self.now.width (shown_cell_ends e) x) }
    {
        ends_by_width(self.width, self)
    }

    /// The numbers of the cell below its width, which are the amounts by which a shift is possible; None exactly where there
    /// is none.
    ///
    /// At width 6, of the cell of 3 up to 1 they are 0, 1, 3, 4 and 5, with the mask `111011`.
    pub fn amounts(&self) -> Option<CellAmounts>
        ensures exact { option_map shown_cell_amounts result ≡ cell_amounts self.now }
        ensures usable { IfSome result (λ a. AreAmounts self.now.width (shown_cell_ends a.ends)) }
        ensures covers { (t : ℕ) → t < self.now.width → IsTrue (in_cell self.now t) →
            IsSomeAnd result (λ a. Between self.now.width (shown_cell_ends a.ends) t × (bit_at a.mask t ≡ 1)) }
    {
        amounts_by_width(self.width, self)
    }

    /// The ends of the numbers of the cell other than 0, by which a division is possible; None exactly where there is none.
    ///
    /// At width 8, of the cell of 254 up to 3 they are 1 and 255, and -2 and 3.
    pub fn divisors(&self) -> Option<CellEnds>
        ensures exact { option_map shown_cell_ends result ≡ cell_divisors self.now }
        ensures usable { IfSome result (λ e. AreDivisors self.now.width (shown_cell_ends e)) }
        ensures covers { (y : ℕ) → y ≢ 0 → IsTrue (in_cell self.now y) →
            IsSomeAnd result (λ e. Between self.now.width (shown_cell_ends e) y) }
    {
        divisors_by_width(self.width, self)
    }
}

#[cfg(test)]
mod tests;
