//! What a domain's calls answer for facts of values of any type, but for the transfer.

ghost use Rattle.std.specs.Prelude.{◌≡◌, ◌^◌, ◌<◌, ◌≤◌, ◌↔◌, IsTrue};
ghost use Rattle.std.specs.Option.{option_map};
ghost use Rattle.vfa_ir.specs.declared.operations.Ty.{Ty};
ghost use Rattle.vfa_values.specs.Conditions.{width_of, IsType, IsInteger, AreAlike, AreLandmarks};
ghost use Rattle.vfa_word.specs.Numbers.{IsWidth};
ghost use Rattle.vfa_xfer.specs.AnyFacts.{fact_type, IsAnyFact};
ghost use Rattle.vfa_xfer.specs.FactAnswers.{one_fact, two_facts, literal_fact, any_of, poison_of, joined_facts, widened_facts, includes_fact, compared_facts, fact_with_bits, moved_fact, single_of_fact, rank_of_fact};

use crate::any_fact::AnyFact;
use crate::same::same_cell;
use crate::{inclusion, ranks, restrictions, widening};
use vfa_fact::{Cell, Parts};
use vfa_ir::{Pred, Ty};

/// The landmarks of width 1.
const BIT_LANDMARKS: [u128; 2] = [0, 1];

/// The fact of a number.
pub(crate) fn of_cell(cell: Cell) -> AnyFact
    ensures { result ≡ one_fact cell }
{
    AnyFact {
        parts: Parts::One(cell),
    }
}

/// The fact of a pair.
fn of_cells(number: Cell, bit: Cell) -> AnyFact
    ensures { result ≡ two_facts number bit }
{
    AnyFact {
        parts: Parts::Two(number, bit),
    }
}

/// The fact of a cell that is left, where there is one.
fn of_left(cell: Option<Cell>) -> Option<AnyFact>
    ensures { result ≡ option_map one_fact cell }
{
    match cell {
        Some(left) => Some(of_cell(left)),
        None => None,
    }
}

/// The fact of the number alone, never poison.
pub(crate) fn literal(width: u32, bits: u128) -> AnyFact
    requires width { IsWidth width }
    requires fits { bits < 2 ^ width }
    ensures { result ≡ literal_fact width bits }
{
    of_cell(Cell::literal(width, bits))
}

/// The fact of all values of the type, never poison where that is asked for.
pub(crate) fn any(of_type: Ty, never_poison: bool) -> AnyFact
    requires { IsType of_type }
    ensures { result ≡ any_of of_type never_poison }
{
    match of_type {
        Ty::Int(width) => of_cell(Cell::any(width, never_poison)),
        Ty::Pair(width) => of_cells(Cell::any(width, never_poison), Cell::any(1, never_poison)),
    }
}

/// The fact of poison of the type.
pub(crate) fn poison(of_type: Ty) -> AnyFact
    requires { IsType of_type }
    ensures { result ≡ poison_of of_type }
{
    match of_type {
        Ty::Int(width) => of_cell(Cell::none(width)),
        Ty::Pair(width) => of_cells(Cell::none(width), Cell::none(1)),
    }
}

/// The join of two facts of one type, part by part.
pub(crate) fn join(a: &AnyFact, b: &AnyFact) -> AnyFact
    requires { AreAlike fact_type IsAnyFact a.now b.now }
    ensures { result ≡ joined_facts a.now b.now }
{
    match &a.parts {
        Parts::One(one) => {
            let Parts::One(two) = &b.parts else {
                return *a;
            };
            of_cell(one.join(two))
        }
        Parts::Two(one, bit) => {
            let Parts::Two(two, other) = &b.parts else {
                return *a;
            };
            of_cells(one.join(two), bit.join(other))
        }
    }
}

/// Whether the fact holds of all that another one of its type holds of, part by part.
pub(crate) fn includes(a: &AnyFact, b: &AnyFact) -> bool
    requires { AreAlike fact_type IsAnyFact a.now b.now }
    ensures { result ≡ includes_fact a.now b.now }
{
    match &a.parts {
        Parts::One(one) => {
            let Parts::One(two) = &b.parts else {
                return false;
            };
            inclusion::includes(one, two)
        }
        Parts::Two(one, bit) => {
            let Parts::Two(two, other) = &b.parts else {
                return false;
            };
            if !inclusion::includes(one, two) {
                return false;
            }
            inclusion::includes(bit, other)
        }
    }
}

/// A fact widened by a new one of its type in a round from 1 on, part by part: by the landmarks of its type's width, and the
/// second part of a pair by those of width 1.
pub(crate) fn widen(old: &AnyFact, new: &AnyFact, round: u32, marks: &[u128]) -> AnyFact
    requires alike { AreAlike fact_type IsAnyFact old.now new.now }
    requires landmarks { AreLandmarks (width_of (fact_type old.now)) marks.now }
    ensures { result ≡ widened_facts old.now new.now round marks.now }
{
    match &old.parts {
        Parts::One(one) => {
            let Parts::One(two) = &new.parts else {
                return *old;
            };
            of_cell(widening::widen(one, two, round, marks))
        }
        Parts::Two(one, bit) => {
            let Parts::Two(two, other) = &new.parts else {
                return *old;
            };
            let number = widening::widen(one, two, round, marks);
            of_cells(number, widening::widen(bit, other, round, &BIT_LANDMARKS))
        }
    }
}

/// What the comparison with another fact of its integer type leaves of the fact, never poison; None exactly where no number
/// is left.
pub(crate) fn compare(a: &AnyFact, pred: Pred, b: &AnyFact) -> Option<AnyFact>
    requires { AreAlike fact_type IsAnyFact a.now b.now }
    ensures { result ≡ compared_facts a.now pred b.now }
{
    let Parts::One(one) = &a.parts else {
        return None;
    };
    let Parts::One(two) = &b.parts else {
        return None;
    };
    of_left(one.compare(pred, two))
}

/// The numbers of the fact of an integer type that agree with the value on the bits of the mask, never poison; None exactly
/// where none does.
pub(crate) fn with_bits(a: &AnyFact, mask: u128, value: u128) -> Option<AnyFact>
    requires { mask < 2 ^ width_of (fact_type a.now) }
    ensures { result ≡ fact_with_bits a.now mask value }
{
    let Parts::One(one) = &a.parts else {
        return None;
    };
    of_left(restrictions::with_bits(one, mask, value))
}

/// The numbers of the fact of an integer type whose sum with `c` lies in the arc of another one, never poison; None exactly
/// where none does, and where the other one has no numbers.
pub(crate) fn moved_from(a: &AnyFact, sum: &AnyFact, c: u128) -> Option<AnyFact>
    requires alike { AreAlike fact_type IsAnyFact a.now sum.now }
    requires fits { c < 2 ^ width_of (fact_type a.now) }
    ensures { result ≡ moved_fact a.now sum.now c }
{
    let Parts::One(sums) = &sum.parts else {
        return None;
    };
    let Parts::One(one) = &a.parts else {
        return None;
    };
    of_left(restrictions::moved_from(one, sums, c))
}

/// Whether both are the same fact.
pub(crate) fn same(a: &AnyFact, b: &AnyFact) -> bool
    ensures { IsTrue result ↔ (a.now ≡ b.now) }
{
    match &a.parts {
        Parts::One(one) => {
            let Parts::One(two) = &b.parts else {
                return false;
            };
            same_cell(one, two)
        }
        Parts::Two(one, bit) => {
            let Parts::Two(two, other) = &b.parts else {
                return false;
            };
            if !same_cell(one, two) {
                return false;
            }
            same_cell(bit, other)
        }
    }
}

/// The only number of the fact; None exactly where it is one of pairs, or has several numbers or none.
pub(crate) fn single(a: &AnyFact) -> Option<u128>
    ensures { result ≡ single_of_fact a.now }
{
    let Parts::One(one) = &a.parts else {
        return None;
    };
    one.single()
}

/// The rank of the fact: that of its cell, or the sum of those of a pair's.
pub(crate) fn rank(a: &AnyFact) -> u32
    ensures { result ≡ rank_of_fact a.now }
{
    match &a.parts {
        Parts::One(one) => ranks::rank(one),
        Parts::Two(one, bit) => ranks::rank(one) + ranks::rank(bit),
    }
}

#[cfg(test)]
mod tests;
