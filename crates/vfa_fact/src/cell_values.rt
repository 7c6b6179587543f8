ghost use Rattle.std.specs.Prelude.{◌≡◌, ℕ, ◌-◌, ◌<◌, ◌^◌, ◌↔◌, true, false, IsTrue, Some};
ghost use Rattle.vfa_dom.specs.Sets.{single_of};
ghost use Rattle.vfa_fact.specs.Cells.{IsCell, in_cell, poison_cell, only_number, all_numbers, cell_of};
ghost use Rattle.vfa_word.specs.Numbers.{IsWidth};

use crate::cell::Cell;
use crate::numbers::Numbers;

/// The greatest number of the width.
fn most_of(width: u32) -> u128
    requires { IsWidth width }
    ensures { result ≡ 2 ^ width - 1 }
{
    u128::MAX >> (128 - width)
}

impl Cell {
    /// The cell of poison alone, which has no numbers.
    pub fn none(width: u32) -> Cell
        requires { IsWidth width }
        ensures value { result ≡ poison_cell width }
        ensures cell { IsCell result }
    {
        Cell {
            width,
            numbers: None,
            never_poison: false,
        }
    }

    /// The cell of all numbers of the width.
    pub fn any(width: u32, never_poison: bool) -> Cell
        requires { IsWidth width }
        ensures value { result ≡ cell_of width (Some (all_numbers width)) never_poison }
        ensures cell { IsCell result }
        ensures all { (x : ℕ) → x < 2 ^ width → IsTrue (in_cell result x) }
    {
        let numbers = Numbers {
            zeros: 0,
            ones: 0,
            first: 0,
            last: most_of(width),
        };
        Cell {
            width,
            numbers: Some(numbers),
            never_poison,
        }
    }

    /// The cell of a literal: the number alone, never poison.
    ///
    /// At width 8, of 5 the bits are `00000101`, and the arc is 5 to 5.
    pub fn literal(width: u32, bits: u128) -> Cell
        requires width { IsWidth width }
        requires fits { bits < 2 ^ width }
        ensures value { result ≡ cell_of width (Some (only_number width bits)) true }
        ensures cell { IsCell result }
        ensures alone { (x : ℕ) → IsTrue (in_cell result x) ↔ (x ≡ bits) }
    {
        let numbers = Numbers {
            zeros: most_of(width) ^ bits,
            ones: bits,
            first: bits,
            last: bits,
        };
        Cell {
            width,
            numbers: Some(numbers),
            never_poison: true,
        }
    }

    /// The cell with the same numbers and this mark; one without numbers stays unmarked.
    pub fn with_mark(&self, never_poison: bool) -> Cell
        ensures value { result ≡ cell_of self.now.width self.now.numbers never_poison }
        ensures cell { IsCell result }
    {
        Cell {
            width: self.width,
            numbers: self.numbers,
            never_poison: self.numbers.is_some() && never_poison,
        }
    }

    /// The cell with the same numbers, for a value that may be poison.
    pub fn unmarked(&self) -> Cell
        ensures value { result ≡ cell_of self.now.width self.now.numbers false }
        ensures cell { IsCell result }
    {
        self.with_mark(false)
    }

    /// Whether `bits` is one of the cell's numbers.
    pub fn has(&self, bits: u128) -> bool
        ensures { result ≡ in_cell self.now bits }
    {
        let Some(numbers) = &self.numbers else {
            return false;
        };
        if most_of(self.width) < bits {
            return false;
        }
        if !numbers.agree_with(bits) {
            return false;
        }
        numbers.span(bits)
    }

    /// The only number of the cell; None exactly where it has several or none.
    pub fn single(&self) -> Option<u128>
        ensures exact { result ≡ single_of self.now.width (in_cell self.now) }
        ensures only { (x : ℕ) → (result ≡ Some x) ↔ ((y : ℕ) → IsTrue (in_cell self.now y) ↔ (y ≡ x)) }
    {
        let numbers = self.numbers?;
        if numbers.first != numbers.last {
            return None;
        }
        Some(numbers.first)
    }
}
