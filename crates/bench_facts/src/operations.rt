//! The transfers that are timed, each over all facts and others.

use crate::asked::{are_for, is_operation};
use vfa_fact::Parts;
use vfa_ir::Op;
use vfa_values::Values;
use vfa_xfer::AnyFact;

/// A number that hangs on the fact.
fn weight_of(fact: &AnyFact) -> u128 {
    match &fact.parts {
        Parts::One(cell) => match &cell.numbers {
            Some(numbers) => numbers.first,
            None => 2,
        },
        Parts::Two(cell, _) => match &cell.numbers {
            Some(numbers) => numbers.last,
            None => 3,
        },
    }
}

/// The operation of each fact, as its first operand, and two others; a number that hangs on the results.
pub fn over_first(op: &Op, facts: &[AnyFact], second: &AnyFact, third: &AnyFact) -> u128 {
    if !is_operation(op) {
        return 0;
    }
    let mut sum = 0u128;
    'each: for fact in facts {
        if are_for(op, fact, second, third) {
            sum = sum.wrapping_add(weight_of(&AnyFact::transfer(op, fact, second, third)));
        }
    }
    sum
}

/// The operation of each fact, as its condition or pair, and two others; a number that hangs on the results.
pub fn over_third(op: &Op, facts: &[AnyFact], first: &AnyFact, second: &AnyFact) -> u128 {
    if !is_operation(op) {
        return 0;
    }
    let mut sum = 0u128;
    'each: for fact in facts {
        if are_for(op, first, second, fact) {
            sum = sum.wrapping_add(weight_of(&AnyFact::transfer(op, first, second, fact)));
        }
    }
    sum
}
