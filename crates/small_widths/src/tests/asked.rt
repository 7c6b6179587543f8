//! What transfers and rules make of facts, asked only where the facts are of the types that the operation writes.

ghost use Rattle.std.specs.Bool.{OnTrue};
ghost use Rattle.vfa_ir.specs.declared.operations.Ty.{Ty};
ghost use Rattle.vfa_rules.specs.Facts.{type_of_parts, AreCells};
ghost use Rattle.vfa_rules.specs.Results.{AreCallFacts};
ghost use Rattle.vfa_values.specs.Conditions.{IsOf};
ghost use Rattle.vfa_values.specs.Operands.{AreOperandFacts};
ghost use Rattle.vfa_xfer.specs.AnyFacts.{fact_type, IsAnyFact};

use super::meaning::is_operation;
use vfa_fact::Parts;
use vfa_ir::Op;
use vfa_rules::{Change, OverflowCall, rule_with};
use vfa_values::Values;
use vfa_xfer::AnyFact;

/// Whether it is known of a number of the width.
fn is_of_number(width: u32, fact: &Parts) -> bool
    ensures rules { OnTrue result (IsOf type_of_parts AreCells (Ty.Int width) fact.now) }
    ensures transfers { OnTrue result (IsOf fact_type IsAnyFact (Ty.Int width) (record { parts = fact.now })) }
{
    match fact {
        Parts::One(cell) => cell.width == width,
        Parts::Two(_, _) => false,
    }
}

/// Whether it is known of a pair of a number of the width and a bit.
fn is_of_pair(width: u32, fact: &Parts) -> bool
    ensures rules { OnTrue result (IsOf type_of_parts AreCells (Ty.Pair width) fact.now) }
    ensures transfers { OnTrue result (IsOf fact_type IsAnyFact (Ty.Pair width) (record { parts = fact.now })) }
{
    match fact {
        Parts::One(_) => false,
        Parts::Two(number, bit) => {
            if bit.width != 1 {
                return false;
            }
            number.width == width
        }
    }
}

/// Whether both are known of numbers of the width.
fn are_of_numbers(width: u32, a: &Parts, b: &Parts) -> bool
    ensures rules { OnTrue result (IsOf type_of_parts AreCells (Ty.Int width) a.now × IsOf type_of_parts AreCells (Ty.Int width) b.now) }
    ensures transfers { OnTrue result (IsOf fact_type IsAnyFact (Ty.Int width) (record { parts = a.now })
        × IsOf fact_type IsAnyFact (Ty.Int width) (record { parts = b.now })) }
{
    if !is_of_number(width, a) {
        return false;
    }
    is_of_number(width, b)
}

/// Whether the third is known of a bit and the others of numbers of the width.
fn are_of_choice(width: u32, a: &Parts, b: &Parts, c: &Parts) -> bool
    ensures rules { OnTrue result (IsOf type_of_parts AreCells (Ty.Int width) a.now × IsOf type_of_parts AreCells (Ty.Int width) b.now
        × IsOf type_of_parts AreCells (Ty.Int 1) c.now) }
    ensures transfers { OnTrue result (IsOf fact_type IsAnyFact (Ty.Int width) (record { parts = a.now })
        × IsOf fact_type IsAnyFact (Ty.Int width) (record { parts = b.now }) × IsOf fact_type IsAnyFact (Ty.Int 1) (record { parts = c.now })) }
{
    if !is_of_number(width, a) {
        return false;
    }
    if !is_of_number(width, b) {
        return false;
    }
    is_of_number(1, c)
}

/// Whether the facts are of the types that the operation writes.
fn are_for(op: &Op, a: &Parts, b: &Parts, c: &Parts) -> bool
    ensures rules { OnTrue result (AreOperandFacts type_of_parts AreCells op.now a.now b.now c.now) }
    ensures transfers { OnTrue result (AreOperandFacts fact_type IsAnyFact op.now (record { parts = a.now }) (record { parts = b.now }) (record { parts = c.now })) }
{
    match *op {
        Op::Bin { width, .. } => are_of_numbers(width, a, b),
        Op::Icmp { width, .. } => are_of_numbers(width, a, b),
        Op::Select { width, .. } => are_of_choice(width, a, b, c),
        Op::Cast { from, .. } => is_of_number(from, a),
        Op::Freeze { width, .. } => is_of_number(width, a),
        Op::Two { width, .. } => are_of_numbers(width, a, b),
        Op::One { width, .. } => is_of_number(width, a),
        Op::Over { width, .. } => are_of_numbers(width, a, b),
        Op::Part { width, .. } => is_of_pair(width, c),
        Op::Assume { .. } => is_of_number(1, c),
        Op::Call { .. } => false,
    }
}

/// Whether the facts are of the types that the operands of an overflow intrinsic have, whose part the operation takes.
fn are_for_call(
    op: &Op,
    call: Option<OverflowCall>,
    used: bool,
    a: &Parts,
    b: &Parts,
    c: &Parts,
) -> bool
    ensures { OnTrue result (AreCallFacts (record { a = a.now; b = b.now; c = c.now; call = call; used = used }) op.now) }
{
    match *op {
        Op::Part { width, .. } => {
            if call.is_none() {
                return true;
            }
            are_of_numbers(width, a, b)
        }
        _ => true,
    }
}

/// What is known of the operation's result; None where the facts are not of the types that it writes.
pub fn transferred(op: &Op, a: &Parts, b: &Parts, c: &Parts) -> Option<Parts> {
    if !is_operation(op) {
        return None;
    }
    if !are_for(op, a, b, c) {
        return None;
    }
    let (a, b, c) = (
        AnyFact { parts: *a },
        AnyFact { parts: *b },
        AnyFact { parts: *c },
    );
    Some(AnyFact::transfer(op, &a, &b, &c).parts)
}

/// What the rules make of the operation; None where the facts are not of the types that it writes.
pub fn changed(
    op: &Op,
    call: Option<OverflowCall>,
    used: bool,
    a: &Parts,
    b: &Parts,
    c: &Parts,
) -> Option<Change> {
    if !is_operation(op) {
        return None;
    }
    if !are_for(op, a, b, c) {
        return None;
    }
    if !are_for_call(op, call, used, a, b, c) {
        return None;
    }
    Some(rule_with(op, call, used, a, b, c))
}
