//! All facts of a width, each with the values that it holds of.

ghost use Rattle.vfa_word.specs.Numbers.{IsWidth};

use std::alloc::{AllocError, Global};
use vfa_dom::Domain;
use vfa_fact::{Cell, Fact, Numbers, Parts, Test};
use vfa_known::Known;
use vfa_mean::Val;
use vfa_word::{Word, most};
use vfa_wrap::Wrapped;

/// The greatest width.
pub const GREATEST: u32 = 3;

/// What is known of an operand, and each value that this holds of.
#[derive(Drop)]
pub struct Case {
    /// The fact.
    pub fact: Parts,
    /// The values.
    pub values: Vec<Val>,
}

/// The fact that has these numbers; None where there is none.
fn fact_of<const W: u32>(numbers: &Numbers) -> Option<Fact<W>>
    requires { IsWidth W }
{
    let known = Known::new(numbers.zeros, numbers.ones)?;
    let arc = Wrapped::new(Word::cut(numbers.first), Word::cut(numbers.last));
    let fact = Fact::sharp(known, arc, &Test::any())?;
    let found = fact.known().zeros() == numbers.zeros
        && fact.known().ones() == numbers.ones
        && fact.arc().first().bits() == numbers.first
        && fact.arc().last().bits() == numbers.last;
    if found { Some(fact) } else { None }
}

/// Adds the cells with these masks, each with the mark and without.
fn add_cells<const W: u32>(cells: &mut Vec<Cell>, zeros: u128, ones: u128) -> Result<(), AllocError>
    requires { IsWidth W }
{
    let most = most::<W>();
    'firsts: for first in 0..=most {
        'lasts: for last in 0..=most {
            let numbers = Numbers {
                zeros,
                ones,
                first,
                last,
            };
            if let Some(fact) = fact_of::<W>(&numbers) {
                cells.push(Cell::of(&fact, true))?;
                cells.push(Cell::of(&fact, false))?;
            }
        }
    }
    Ok(())
}

/// Each cell of a width, once: that of poison alone, and each fact with the mark and without.
fn cells<const W: u32>(alloc: Global) -> Result<Vec<Cell>, AllocError>
    requires { IsWidth W }
{
    let most = most::<W>();
    let mut cells = Vec::new(alloc);
    cells.push(Cell::none(W))?;
    'zeros: for zeros in 0..=most {
        'ones: for ones in 0..=most {
            add_cells::<W>(&mut cells, zeros, ones)?;
        }
    }
    Ok(cells)
}

/// The cell with its values: poison where it is not marked, and its numbers.
fn case_of(alloc: Global, cell: &Cell) -> Result<Case, AllocError> {
    let mut values = Vec::new(alloc);
    if !cell.never_poison {
        values.push(Val::Poison)?;
    }
    'numbers: for x in 0..=most::<GREATEST>() {
        if cell.has(x) {
            values.push(Val::Number(x))?;
        }
    }
    Ok(Case {
        fact: Parts::One(*cell),
        values,
    })
}

/// The pair of cells with its values: poison where neither cell is marked, and the pairs of their numbers.
fn case_of_pair(alloc: Global, number: &Cell, bit: &Cell) -> Result<Case, AllocError> {
    let mut values = Vec::new(alloc);
    if !number.never_poison && !bit.never_poison {
        values.push(Val::Poison)?;
    }
    'numbers: for x in 0..=most::<GREATEST>() {
        if number.has(x) && bit.has(0) {
            values.push(Val::Pair(x, false))?;
        }
        if number.has(x) && bit.has(1) {
            values.push(Val::Pair(x, true))?;
        }
    }
    Ok(Case {
        fact: Parts::Two(*number, *bit),
        values,
    })
}

/// Each fact of the numbers of a width, once.
pub fn facts<const W: u32>(alloc: Global) -> Result<Vec<Case>, AllocError>
    requires { IsWidth W }
{
    let mut cases = Vec::new(alloc);
    'cells: for cell in cells::<W>(alloc)? {
        cases.push(case_of(alloc, &cell)?)?;
    }
    Ok(cases)
}

/// Each fact of the pairs of a width that has the given cell for its bit, once.
fn add_pairs<const W: u32>(
    cases: &mut Vec<Case>,
    alloc: Global,
    bit: &Cell,
) -> Result<(), AllocError>
    requires { IsWidth W }
{
    'cells: for cell in cells::<W>(alloc)? {
        cases.push(case_of_pair(alloc, &cell, bit)?)?;
    }
    Ok(())
}

/// Each fact of the pairs of a width, once.
pub fn pairs<const W: u32>(alloc: Global) -> Result<Vec<Case>, AllocError>
    requires { IsWidth W }
{
    let mut cases = Vec::new(alloc);
    'bits: for bit in cells::<1>(alloc)? {
        add_pairs::<W>(&mut cases, alloc, &bit)?;
    }
    Ok(cases)
}

/// Each fact of the pairs of a width that says nothing of the number, once.
pub fn open_pairs<const W: u32>(alloc: Global) -> Result<Vec<Case>, AllocError>
    requires { IsWidth W }
{
    let mut cases = Vec::new(alloc);
    'bits: for bit in cells::<1>(alloc)? {
        cases.push(case_of_pair(alloc, &Cell::any(W, false), &bit)?)?;
    }
    Ok(cases)
}

/// The one fact for an operand that an operation does not have.
pub fn nothing(alloc: Global) -> Result<Vec<Case>, AllocError> {
    let mut cases = Vec::new(alloc);
    cases.push(case_of(alloc, &Cell::none(1))?)?;
    Ok(cases)
}
