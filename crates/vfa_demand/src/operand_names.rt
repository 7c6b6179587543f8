//! The names that operations, phis and terminators use, in lists.

ghost use Rattle.std.specs.Prelude.{◌≡◌, ◌++◌, IfOk, flat_map, slice_get};
ghost use Rattle.vfa_check.specs.Uses.{argument_names};
ghost use Rattle.vfa_ir.specs.Defined.{op_names, operand_names, term_names};

use std::alloc::AllocError;
use vfa_ir::{BlockId, CallArg, Function, Op, Operand, Term};

/// Puts the name that an operand is behind others.
fn push_operand(names: &mut Vec<u32>, a: Operand) -> Result<(), AllocError>
    ensures { IfOk result (λ _. names.new.items ≡ names.old.items ++ operand_names a) }
{
    match a {
        Operand::Value(v) => {
            names.push(v.0)?;
            Ok(())
        }
        _ => Ok(()),
    }
}

fn push_two(names: &mut Vec<u32>, a: Operand, b: Operand) -> Result<(), AllocError>
    ensures { IfOk result (λ _. names.new.items ≡ names.old.items ++ (operand_names a ++ operand_names b)) }
{
    push_operand(names, a)?;
    push_operand(names, b)
}

fn push_three(names: &mut Vec<u32>, a: Operand, b: Operand, c: Operand) -> Result<(), AllocError>
    ensures { IfOk result (λ _.
        names.new.items ≡ names.old.items ++ (operand_names a ++ (operand_names b ++ operand_names c))) }
{
    push_operand(names, a)?;
    push_two(names, b, c)
}

fn push_arguments(names: &mut Vec<u32>, arguments: &[CallArg]) -> Result<(), AllocError>
    ensures { IfOk result (λ _.
        names.new.items ≡ names.old.items ++ flat_map (λ a. operand_names a.value) arguments.now) }
{
    'each: for argument in arguments {
        push_operand(names, argument.value)?;
    }
    Ok(())
}

fn push_call(names: &mut Vec<u32>, f: &Function, call: u32) -> Result<(), AllocError>
    ensures { IfOk result (λ _. names.new.items ≡ names.old.items ++ argument_names (slice_get f.now.calls call)) }
{
    match f.calls.as_slice().get(call as usize) {
        Some(call) => push_arguments(names, call.args.as_slice()),
        None => Ok(()),
    }
}

/// Puts the names that an operation of the function uses behind others.
pub(crate) fn push_op(names: &mut Vec<u32>, f: &Function, op: &Op) -> Result<(), AllocError>
    ensures { IfOk result (λ _. names.new.items ≡ names.old.items ++ op_names f.now op.now) }
{
    match *op {
        Op::Bin { a, b, .. } => push_two(names, a, b),
        Op::Icmp { a, b, .. } => push_two(names, a, b),
        Op::Select { c, a, b, .. } => push_three(names, c, a, b),
        Op::Cast { a, .. } => push_operand(names, a),
        Op::Freeze { a, .. } => push_operand(names, a),
        Op::Two { a, b, .. } => push_two(names, a, b),
        Op::One { a, .. } => push_operand(names, a),
        Op::Over { a, b, .. } => push_two(names, a, b),
        Op::Part { pair, .. } => push_operand(names, Operand::Value(pair)),
        Op::Assume { c } => push_operand(names, c),
        Op::Call { call, .. } => push_call(names, f, call),
    }
}

/// Puts the names that the operands of a phi are behind others.
pub(crate) fn push_entries(
    names: &mut Vec<u32>,
    entries: &[(Operand, BlockId)],
) -> Result<(), AllocError>
    ensures { IfOk result (λ _. names.new.items ≡ names.old.items ++ flat_map (λ e. operand_names e.0) entries.now) }
{
    'each: for entry in entries {
        push_operand(names, entry.0)?;
    }
    Ok(())
}

/// Puts the name that a terminator uses behind others.
pub(crate) fn push_term(names: &mut Vec<u32>, term: &Term) -> Result<(), AllocError>
    ensures { IfOk result (λ _. names.new.items ≡ names.old.items ++ term_names term.now) }
{
    match term {
        Term::Ret { a, .. } => push_operand(names, *a),
        Term::CondBr { c, .. } => push_operand(names, *c),
        Term::Switch { on, .. } => push_operand(names, *on),
        Term::Br(_) | Term::Unreachable => Ok(()),
    }
}
