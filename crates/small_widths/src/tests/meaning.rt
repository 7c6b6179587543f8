//! What operations give of values, asked only where the values are of the types that the operation writes.

ghost use Rattle.std.specs.Prelude.{◌≡◌, ◌<◌, ◌≤◌, ◌^◌};
ghost use Rattle.std.specs.Bool.{OnTrue};
ghost use Rattle.vfa_ir.specs.Typed.{Converts};
ghost use Rattle.vfa_ir.specs.declared.operations.Ty.{Ty};
ghost use Rattle.vfa_mean.specs.Operands.{IsOperation, AreValuesFor};
ghost use Rattle.vfa_mean.specs.Values.{AreOfWidth, IsInt, IsValueOf};
ghost use Rattle.vfa_word.specs.Numbers.{IsWidth};

use vfa_ir::{Cast, Op};
use vfa_mean::{Done, Val, eval};

/// Whether it is a width.
pub fn is_width(width: u32) -> bool
    ensures { OnTrue result (IsWidth width) }
{
    1 <= width && width <= 128
}

/// Whether the conversion leads from the one width to the other.
pub fn converts(cast: Cast, from: u32, to: u32) -> bool
    ensures { OnTrue result (Converts cast from to) }
{
    match cast {
        Cast::Zext => from < to,
        Cast::Sext => from < to,
        Cast::Trunc => to < from,
    }
}

/// Whether it is a number of the width, for widths up to 3.
pub fn fits(width: u32, x: u128) -> bool
    ensures { OnTrue result (x < 2 ^ width) }
{
    match width {
        1 => x < 2,
        2 => x < 4,
        3 => x < 8,
        _ => false,
    }
}

/// Whether it is poison or a number of the width.
fn is_number(width: u32, value: Val) -> bool
    ensures { OnTrue result (IsInt width value) }
{
    match value {
        Val::Poison => true,
        Val::Number(x) => fits(width, x),
        Val::Pair(_, _) => false,
    }
}

/// Whether both are.
fn are_numbers(width: u32, a: Val, b: Val) -> bool
    ensures { OnTrue result (AreOfWidth width a b) }
{
    if !is_number(width, a) {
        return false;
    }
    is_number(width, b)
}

/// Whether the third is a bit and the others are numbers of the width.
fn are_a_choice(width: u32, a: Val, b: Val, c: Val) -> bool
    ensures { OnTrue result (AreOfWidth width a b × IsInt 1 c) }
{
    if !are_numbers(width, a, b) {
        return false;
    }
    is_number(1, c)
}

/// Whether it is poison or a pair of a number of the width and a bit.
fn is_pair(width: u32, value: Val) -> bool
    ensures { OnTrue result (IsValueOf (Ty.Pair width) value) }
{
    match value {
        Val::Poison => true,
        Val::Number(_) => false,
        Val::Pair(x, _) => fits(width, x),
    }
}

/// Whether it is a conversion between widths.
fn is_conversion(cast: Cast, from: u32, to: u32) -> bool
    ensures { OnTrue result (IsWidth from × IsWidth to × Converts cast from to) }
{
    if !is_width(from) {
        return false;
    }
    if !is_width(to) {
        return false;
    }
    converts(cast, from, to)
}

/// Whether it is one of the two parts.
fn is_part(width: u32, index: u32) -> bool
    ensures { OnTrue result (IsWidth width × (index ≤ 1)) }
{
    if !is_width(width) {
        return false;
    }
    index <= 1
}

/// Whether it is no call, and its widths are widths.
pub fn is_operation(op: &Op) -> bool
    ensures { OnTrue result (IsOperation op.now) }
{
    match *op {
        Op::Bin { width, .. } => is_width(width),
        Op::Icmp { width, .. } => is_width(width),
        Op::Select { width, .. } => is_width(width),
        Op::Cast { cast, from, to, .. } => is_conversion(cast, from, to),
        Op::Freeze { width, .. } => is_width(width),
        Op::Two { width, .. } => is_width(width),
        Op::One { width, .. } => is_width(width),
        Op::Over { width, .. } => is_width(width),
        Op::Part { width, index, .. } => is_part(width, index),
        Op::Assume { .. } => true,
        Op::Call { .. } => false,
    }
}

/// Whether the values are of the types that the operation writes.
fn are_for(op: &Op, a: Val, b: Val, c: Val) -> bool
    ensures { OnTrue result (AreValuesFor op.now a b c) }
{
    match *op {
        Op::Bin { width, .. } => are_numbers(width, a, b),
        Op::Icmp { width, .. } => are_numbers(width, a, b),
        Op::Select { width, .. } => are_a_choice(width, a, b, c),
        Op::Cast { from, .. } => is_number(from, a),
        Op::Freeze { width, .. } => is_number(width, a),
        Op::Two { width, .. } => are_numbers(width, a, b),
        Op::One { width, .. } => is_number(width, a),
        Op::Over { width, .. } => are_numbers(width, a, b),
        Op::Part { width, .. } => is_pair(width, c),
        Op::Assume { .. } => is_number(1, c),
        Op::Call { .. } => false,
    }
}

/// What the operation gives of the values; None where they are not of the types that it writes.
pub fn given(op: &Op, a: Val, b: Val, c: Val) -> Option<Done> {
    if !is_operation(op) {
        return None;
    }
    if !are_for(op, a, b, c) {
        return None;
    }
    Some(eval(op, a, b, c))
}
