//! Whether an operation and its facts are such as a transfer takes.

ghost use Rattle.std.specs.Prelude.{◌≤◌};
ghost use Rattle.std.specs.Bool.{OnTrue};
ghost use Rattle.vfa_ir.specs.Typed.{Converts};
ghost use Rattle.vfa_ir.specs.declared.operations.Ty.{Ty};
ghost use Rattle.vfa_mean.specs.Operands.{IsOperation};
ghost use Rattle.vfa_values.specs.Conditions.{IsOf};
ghost use Rattle.vfa_values.specs.Operands.{AreOperandFacts};
ghost use Rattle.vfa_word.specs.Numbers.{IsWidth};
ghost use Rattle.vfa_xfer.specs.AnyFacts.{fact_type, IsAnyFact};

use vfa_fact::Parts;
use vfa_ir::{Cast, Op};
use vfa_xfer::AnyFact;

fn is_width(width: u32) -> bool
    ensures { OnTrue result (IsWidth width) }
{
    1 <= width && width <= 128
}

fn converts(cast: Cast, from: u32, to: u32) -> bool
    ensures { OnTrue result (Converts cast from to) }
{
    match cast {
        Cast::Zext => from < to,
        Cast::Sext => from < to,
        Cast::Trunc => to < from,
    }
}

fn is_conversion(cast: Cast, from: u32, to: u32) -> bool
    ensures { OnTrue result (IsWidth from × IsWidth to × Converts cast from to) }
{
    if !is_width(from) {
        return false;
    }
    if !is_width(to) {
        return false;
    }
    converts(cast, from, to)
}

fn is_part(width: u32, index: u32) -> bool
    ensures { OnTrue result (IsWidth width × (index ≤ 1)) }
{
    if !is_width(width) {
        return false;
    }
    index <= 1
}

/// Whether it is no call, and its widths are widths.
pub fn is_operation(op: &Op) -> bool
    ensures { OnTrue result (IsOperation op.now) }
{
    match *op {
        Op::Bin { width, .. } => is_width(width),
        Op::Icmp { width, .. } => is_width(width),
        Op::Select { width, .. } => is_width(width),
        Op::Cast { cast, from, to, .. } => is_conversion(cast, from, to),
        Op::Freeze { width, .. } => is_width(width),
        Op::Two { width, .. } => is_width(width),
        Op::One { width, .. } => is_width(width),
        Op::Over { width, .. } => is_width(width),
        Op::Part { width, index, .. } => is_part(width, index),
        Op::Assume { .. } => true,
        Op::Call { .. } => false,
    }
}

/// Whether it is known of a number of the width.
pub fn is_of_number(width: u32, fact: &AnyFact) -> bool
    ensures { OnTrue result (IsOf fact_type IsAnyFact (Ty.Int width) fact.now) }
{
    match &fact.parts {
        Parts::One(cell) => cell.width == width,
        Parts::Two(_, _) => false,
    }
}

/// Whether it is known of a pair of a number of the width and a bit.
fn is_of_pair(width: u32, fact: &AnyFact) -> bool
    ensures { OnTrue result (IsOf fact_type IsAnyFact (Ty.Pair width) fact.now) }
{
    match &fact.parts {
        Parts::One(_) => false,
        Parts::Two(number, bit) => {
            if bit.width != 1 {
                return false;
            }
            number.width == width
        }
    }
}

fn are_of_numbers(width: u32, a: &AnyFact, b: &AnyFact) -> bool
    ensures { OnTrue result (IsOf fact_type IsAnyFact (Ty.Int width) a.now × IsOf fact_type IsAnyFact (Ty.Int width) b.now) }
{
    if !is_of_number(width, a) {
        return false;
    }
    is_of_number(width, b)
}

fn are_of_choice(width: u32, a: &AnyFact, b: &AnyFact, c: &AnyFact) -> bool
    ensures { OnTrue result (IsOf fact_type IsAnyFact (Ty.Int width) a.now × IsOf fact_type IsAnyFact (Ty.Int width) b.now
        × IsOf fact_type IsAnyFact (Ty.Int 1) c.now) }
{
    if !is_of_number(width, a) {
        return false;
    }
    if !is_of_number(width, b) {
        return false;
    }
    is_of_number(1, c)
}

/// Whether the facts are of the types that the operation writes.
pub fn are_for(op: &Op, a: &AnyFact, b: &AnyFact, c: &AnyFact) -> bool
    ensures { OnTrue result (AreOperandFacts fact_type IsAnyFact op.now a.now b.now c.now) }
{
    match *op {
        Op::Bin { width, .. } => are_of_numbers(width, a, b),
        Op::Icmp { width, .. } => are_of_numbers(width, a, b),
        Op::Select { width, .. } => are_of_choice(width, a, b, c),
        Op::Cast { from, .. } => is_of_number(from, a),
        Op::Freeze { width, .. } => is_of_number(width, a),
        Op::Two { width, .. } => are_of_numbers(width, a, b),
        Op::One { width, .. } => is_of_number(width, a),
        Op::Over { width, .. } => are_of_numbers(width, a, b),
        Op::Part { width, .. } => is_of_pair(width, c),
        Op::Assume { .. } => is_of_number(1, c),
        Op::Call { .. } => false,
    }
}
