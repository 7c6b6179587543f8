//! What an operation gives after the rules against what it gave before.

use super::asked::changed;
use super::facts::Case;
use super::meaning::{fits, given};
use super::operations::{A, B, C};
use super::transfers::holds;
use std::process::Abort;
use vfa_ir::{Op, Operand, Over};
use vfa_mean::{Done, Val};
use vfa_rules::{Change, OverflowCall};

/// The values of three names.
#[derive(Clone, Copy)]
struct Names {
    a: Val,
    b: Val,
    c: Val,
}

/// The operands of an operation by the names of its fields; poison for one that it does not have.
#[derive(Clone, Copy)]
struct Operands {
    a: Operand,
    b: Operand,
    c: Operand,
}

/// Two operands.
fn both(a: Operand, b: Operand) -> Operands {
    Operands {
        a,
        b,
        c: Operand::Poison,
    }
}

/// The operands of the operation.
fn operands_of(op: &Op) -> Operands {
    match *op {
        Op::Bin { a, b, .. } => both(a, b),
        Op::Icmp { a, b, .. } => both(a, b),
        Op::Select { a, b, c, .. } => Operands { a, b, c },
        Op::Cast { a, .. } => both(a, Operand::Poison),
        Op::Freeze { a, .. } => both(a, Operand::Poison),
        Op::Two { a, b, .. } => both(a, b),
        Op::One { a, .. } => both(a, Operand::Poison),
        Op::Over { a, b, .. } => both(a, b),
        Op::Part { pair, .. } => Operands {
            a: Operand::Poison,
            b: Operand::Poison,
            c: Operand::Value(pair),
        },
        Op::Assume { c } => Operands {
            a: Operand::Poison,
            b: Operand::Poison,
            c,
        },
        Op::Call { .. } => both(Operand::Poison, Operand::Poison),
    }
}

impl Names {
    /// The value of an operand; None of a name that is none of the three.
    fn value(&self, operand: Operand) -> Option<Val> {
        match operand {
            Operand::Literal(bits) => Some(Val::Number(bits)),
            Operand::Poison => Some(Val::Poison),
            name if name == A => Some(self.a),
            name if name == B => Some(self.b),
            name if name == C => Some(self.c),
            Operand::Value(_) => None,
        }
    }

    /// What the operation gives.
    fn given(&self, op: &Op) -> Option<Done> {
        let of = operands_of(op);
        given(op, self.value(of.a)?, self.value(of.b)?, self.value(of.c)?)
    }

    /// What the instruction gives after a change. No division of a width up to 3 is narrowed.
    fn given_after(&self, change: &Change) -> Option<Done> {
        match *change {
            Change::Keep(op) => self.given(&op),
            Change::Narrow(_, _) => None,
            Change::Uses(operand) => Some(Done::Is(self.value(operand)?)),
            Change::Gone => Some(Done::Is(Val::Number(1))),
        }
    }
}

/// Whether the value allows all that is given in its place.
fn value_allows(value: Val, after: Done) -> bool {
    match after {
        Done::Ub => false,
        Done::Is(other) => value == Val::Poison || value == other,
        Done::AnyOf(_) => value == Val::Poison,
    }
}

/// Whether any number of the width allows all that is given in its place.
fn any_number_allows(width: u32, after: Done) -> bool {
    match after {
        Done::Ub => false,
        Done::Is(Val::Number(x)) => fits(width, x),
        Done::Is(_) => false,
        Done::AnyOf(other) => width == other,
    }
}

/// Whether what was given before allows all that is given after in its place.
fn allows(before: Done, after: Done) -> bool {
    match before {
        Done::Ub => true,
        Done::Is(value) => value_allows(value, after),
        Done::AnyOf(width) => any_number_allows(width, after),
    }
}

/// What the operation gave of the values allows what it gives after the change.
fn check_values(rt: &impl Abort, op: &Op, change: &Change, names: &Names) {
    let before = names.given(op).expect(rt, "values of its types");
    let after = names
        .given_after(change)
        .expect(rt, "a change of this width");
    assert!(rt; allows(before, after), "{op:?} becomes {change:?}");
}

/// What the rules make of the operation, whose result is used, gives only what it allows, for all values that are known.
pub fn check_rule(rt: &impl Abort, op: &Op, a: &Case, b: &Case, c: &Case) {
    let change = changed(op, None, true, &a.fact, &b.fact, &c.fact).expect(
        rt,
        "facts of its types",
    );
    if change == Change::Keep(*op) {
        return;
    }
    'first: for x in a.values.as_slice() {
        'second: for y in b.values.as_slice() {
            'third: for z in c.values.as_slice() {
                let names = Names {
                    a: *x,
                    b: *y,
                    c: *z,
                };
                check_values(rt, op, &change, &names);
            }
        }
    }
}

/// The same of a part of the pair that the intrinsic gives of the values, where the pair's fact holds of it.
pub fn check_part(
    rt: &impl Abort,
    op: &Op,
    over: Over,
    width: u32,
    a: &Case,
    b: &Case,
    pair: &Case,
) {
    let call = Op::Over {
        over,
        width,
        a: A,
        b: B,
    };
    let known = OverflowCall { over, a: A, b: B };
    let change = changed(op, Some(known), true, &a.fact, &b.fact, &pair.fact).expect(
        rt,
        "facts of its types",
    );
    if change == Change::Keep(*op) {
        return;
    }
    'first: for x in a.values.as_slice() {
        'second: for y in b.values.as_slice() {
            let given = given(&call, *x, *y, Val::Poison).expect(rt, "values of its types");
            if let Done::Is(z) = given
                && holds(&pair.fact, z)
            {
                let names = Names { a: *x, b: *y, c: z };
                check_values(rt, op, &change, &names);
            }
        }
    }
}
