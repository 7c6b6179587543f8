//! What is known of a result against what the operation gives.

use super::asked::transferred;
use super::facts::{Case, GREATEST};
use super::meaning::{fits, given};
use std::process::Abort;
use vfa_fact::{Cell, Parts};
use vfa_ir::Op;
use vfa_mean::{Done, Val};
use vfa_word::most;

/// Whether the cell holds of the value.
fn cell_holds(cell: &Cell, value: Val) -> bool {
    match value {
        Val::Poison => !cell.never_poison,
        Val::Number(x) => cell.has(x),
        Val::Pair(_, _) => false,
    }
}

/// Whether the cells of a pair hold of the value.
fn cells_hold(number: &Cell, bit: &Cell, value: Val) -> bool {
    match value {
        Val::Poison => !number.never_poison && !bit.never_poison,
        Val::Number(_) => false,
        Val::Pair(x, overflowed) => number.has(x) && bit.has(u128::from(overflowed)),
    }
}

/// Whether the fact holds of the value.
pub fn holds(fact: &Parts, value: Val) -> bool {
    match fact {
        Parts::One(cell) => cell_holds(cell, value),
        Parts::Two(number, bit) => cells_hold(number, bit, value),
    }
}

/// Whether the fact holds of all numbers of the width.
fn holds_of_all(fact: &Parts, width: u32) -> bool {
    let mut all = true;
    'numbers: for x in 0..=most::<GREATEST>() {
        all = all && (!fits(width, x) || holds(fact, Val::Number(x)));
    }
    all
}

/// Whether the fact holds of all that is given.
fn holds_of(fact: &Parts, done: Done) -> bool {
    match done {
        Done::Ub => true,
        Done::Is(value) => holds(fact, value),
        Done::AnyOf(width) => holds_of_all(fact, width),
    }
}

/// The fact holds of what the operation gives of all values that are known.
pub fn check_transfer(rt: &impl Abort, op: &Op, a: &Case, b: &Case, c: &Case) {
    let fact = transferred(op, &a.fact, &b.fact, &c.fact).expect(rt, "facts of its types");
    'first: for x in a.values.as_slice() {
        'second: for y in b.values.as_slice() {
            'third: for z in c.values.as_slice() {
                let done = given(op, *x, *y, *z).expect(rt, "values of its types");
                assert!(rt; holds_of(&fact, done), "{op:?} of {x:?}, {y:?} and {z:?}");
            }
        }
    }
}
