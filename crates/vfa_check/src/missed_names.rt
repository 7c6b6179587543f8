//! The first name that an instruction uses and a set does not have.

ghost use Rattle.std.specs.Prelude.{◌≡◌, ◌++◌, not, find, flat_map, slice_get};
ghost use Rattle.std.specs.Option.{option_map};
ghost use Rattle.vfa_check.specs.NameRows.{has_name};
ghost use Rattle.vfa_ir.specs.Defined.{operand_names, op_names, term_names};
ghost use Rattle.vfa_check.specs.Uses.{first_missed, argument_names};

use crate::name_rows::NameRow;
use vfa_ir::{CallArg, Function, Op, Operand, Term, ValueId};

/// The name that the operand is, if the set does not have it.
pub(crate) fn missed_in(here: &NameRow, a: Operand) -> Option<ValueId>
    ensures { option_map (λ v. v.0) result ≡ first_missed here.now (operand_names a) }
{
    let Operand::Value(v) = a else {
        return None;
    };
    if here.has(v) {
        return None;
    }
    Some(v)
}

fn missed_in_two(here: &NameRow, a: Operand, b: Operand) -> Option<ValueId>
    ensures { option_map (λ v. v.0) result ≡ first_missed here.now (operand_names a ++ operand_names b) }
{
    if let Some(v) = missed_in(here, a) {
        return Some(v);
    }
    missed_in(here, b)
}

fn missed_in_three(here: &NameRow, a: Operand, b: Operand, c: Operand) -> Option<ValueId>
    ensures { option_map (λ v. v.0) result ≡ first_missed here.now (operand_names a ++ (operand_names b ++ operand_names c)) }
{
    if let Some(v) = missed_in(here, a) {
        return Some(v);
    }
    missed_in_two(here, b, c)
}

fn missed_in_arguments(here: &NameRow, arguments: &[CallArg]) -> Option<ValueId>
    ensures { option_map (λ v. v.0) result ≡ first_missed here.now (flat_map (λ a. operand_names a.value) arguments.now) }
{
    'arguments: for argument in arguments {
        if let Some(v) = missed_in(here, argument.value) {
            return Some(v);
        }
    }
    None
}

fn missed_in_call(here: &NameRow, f: &Function, call: u32) -> Option<ValueId>
    ensures { option_map (λ v. v.0) result ≡ first_missed here.now (argument_names (slice_get f.now.calls call)) }
{
    match f.calls.as_slice().get(call as usize) {
        Some(call) => missed_in_arguments(here, call.args.as_slice()),
        None => None,
    }
}

/// The first name that the operation uses and the set does not have.
pub(crate) fn missed_in_op(here: &NameRow, f: &Function, op: &Op) -> Option<ValueId>
    ensures { option_map (λ v. v.0) result ≡ first_missed here.now (op_names f.now op.now) }
{
    match *op {
        Op::Bin { a, b, .. } => missed_in_two(here, a, b),
        Op::Icmp { a, b, .. } => missed_in_two(here, a, b),
        Op::Select { c, a, b, .. } => missed_in_three(here, c, a, b),
        Op::Cast { a, .. } => missed_in(here, a),
        Op::Freeze { a, .. } => missed_in(here, a),
        Op::Two { a, b, .. } => missed_in_two(here, a, b),
        Op::One { a, .. } => missed_in(here, a),
        Op::Over { a, b, .. } => missed_in_two(here, a, b),
        Op::Part { pair, .. } => missed_in(here, Operand::Value(pair)),
        Op::Assume { c } => missed_in(here, c),
        Op::Call { call, .. } => missed_in_call(here, f, call),
    }
}

/// The first name that the terminator uses and the set does not have.
pub(crate) fn missed_in_term(here: &NameRow, term: &Term) -> Option<ValueId>
    ensures { option_map (λ v. v.0) result ≡ first_missed here.now (term_names term.now) }
{
    match term {
        Term::Ret { a, .. } => missed_in(here, *a),
        Term::CondBr { c, .. } => missed_in(here, *c),
        Term::Switch { on, .. } => missed_in(here, *on),
        Term::Br(_) | Term::Unreachable => None,
    }
}
