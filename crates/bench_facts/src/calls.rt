//! The calls that are timed, each over all items and one of them.

ghost use Rattle.vfa_word.specs.Numbers.{IsWidth};

use crate::samples::{Case, inside};
use vfa_dom::Domain;
use vfa_fact::{Cell, Fact};
use vfa_ir::Pred;

/// A number that hangs on all numbers of the fact.
fn weight<const W: u32>(fact: &Option<Fact<W>>) -> u128
    requires { IsWidth W }
{
    match fact {
        Some(fact) => {
            let ends = fact.arc().first().bits() ^ fact.arc().last().bits();
            ends ^ fact.known().zeros() ^ fact.known().ones()
        }
        None => 1,
    }
}

fn cell_weight(cell: &Option<Cell>) -> u128 {
    match cell {
        Some(cell) => match &cell.numbers {
            Some(numbers) => numbers.first,
            None => 2,
        },
        None => 1,
    }
}

/// Sharpens all cases, and gives a number that hangs on the results.
pub fn sharpen<const W: u32>(cases: &[Case<W>], by: &Case<W>) -> u128
    requires { IsWidth W }
{
    let mut sum = 0u128;
    'each: for case in cases {
        sum = sum.wrapping_add(weight(&Fact::sharp(case.known, case.arc, &inside(by.arc))));
    }
    sum
}

/// Joins all facts with one, and gives a number that hangs on the results.
pub fn join<const W: u32>(facts: &[Fact<W>], by: &Fact<W>) -> u128
    requires { IsWidth W }
{
    let mut sum = 0u128;
    'each: for fact in facts {
        sum = sum.wrapping_add(fact.join(by).arc().first().bits());
    }
    sum
}

/// Decides `slt` between all facts and one, and gives a number that hangs on the results.
pub fn decide<const W: u32>(facts: &[Fact<W>], by: &Fact<W>) -> u128
    requires { IsWidth W }
{
    let mut sum = 0u128;
    'each: for fact in facts {
        if Fact::decide(Pred::Slt, fact, by) == Some(true) {
            sum = sum.wrapping_add(1);
        }
    }
    sum
}

/// Restricts all facts by `ule` of one, and gives a number that hangs on the results.
pub fn restrict<const W: u32>(facts: &[Fact<W>], by: &Fact<W>) -> u128
    requires { IsWidth W }
{
    let mut sum = 0u128;
    'each: for fact in facts {
        sum = sum.wrapping_add(weight(&fact.restrict(Pred::Ule, by)));
    }
    sum
}

/// Takes the amounts of all facts, and gives a number that hangs on the results.
pub fn amounts<const W: u32>(facts: &[Fact<W>], by: &Fact<W>) -> u128
    requires { IsWidth W }
{
    let mut sum = by.arc().first().bits();
    'each: for fact in facts {
        if let Some(amounts) = fact.amounts() {
            sum = sum.wrapping_add(amounts.mask);
        }
    }
    sum
}

/// Takes the divisors of all facts, and gives a number that hangs on the results.
pub fn divisors<const W: u32>(facts: &[Fact<W>], by: &Fact<W>) -> u128
    requires { IsWidth W }
{
    let mut sum = by.arc().first().bits();
    'each: for fact in facts {
        if let Some(ends) = fact.divisors() {
            sum = sum.wrapping_add(ends.lo);
        }
    }
    sum
}

/// Joins each cell with itself, and gives a number that hangs on the results.
pub fn join_same(cells: &[Cell], by: &Cell) -> u128 {
    let mut sum = cell_weight(&Some(*by));
    'each: for cell in cells {
        sum = sum.wrapping_add(cell_weight(&Some(cell.join(cell))));
    }
    sum
}

/// Joins all cells with one, and gives a number that hangs on the results.
pub fn join_cells(cells: &[Cell], by: &Cell) -> u128 {
    let mut sum = 0u128;
    'each: for cell in cells {
        if cell.width == by.width {
            sum = sum.wrapping_add(cell_weight(&Some(cell.join(by))));
        }
    }
    sum
}

/// Compares all cells by `ule` with one, and gives a number that hangs on the results.
pub fn compare_cells(cells: &[Cell], by: &Cell) -> u128 {
    let mut sum = 0u128;
    'each: for cell in cells {
        if cell.width == by.width {
            sum = sum.wrapping_add(cell_weight(&cell.compare(Pred::Ule, by)));
        }
    }
    sum
}
