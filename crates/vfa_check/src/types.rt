//! Which functions are well typed, and the first item that is not.

ghost use Rattle.std.specs.Prelude.{◌≡◌, ◌↔◌, ◌<◌, All, IfOk, IfSome, IsTrue, MatchOption, length, map, nat_eq};
ghost use Rattle.std.specs.HashSet.{IsFromIterResult};
ghost use Rattle.std.specs.List.{IsDistinct};
ghost use Rattle.vfa_check.specs.First.{IsFirstFailure};
ghost use Rattle.vfa_check.specs.Items.{HasItsLines, IllTypedAt, IsIllTypedOn, item_count};
ghost use Rattle.vfa_ir.specs.Typed.{AreOfWidth, Converts, HasType, IsOfType, Typed, TypedBlock, TypedCall, TypedInst, TypedOp, TypedPhi, TypedTerm};
ghost use Rattle.vfa_ir.specs.declared.operations.Ty.TheVariants.{Int, Pair};

use std::alloc::{AllocError, Global};
use std::collections::HashSet;
use vfa_ir::{
    Block, BlockId, CallArg, Cast, Function, Inst, Lines, Op, Operand, Phi, Term, Ty, ValueId,
};

fn has_type(f: &Function, ty: Ty, v: ValueId) -> bool
    ensures { IsTrue result ↔ HasType f.now ty v }
{
    match f.values.as_slice().get(v.0 as usize) {
        Some(value) => value.ty == ty,
        None => false,
    }
}

fn is_of_width(f: &Function, width: u32, a: Operand) -> bool
    ensures { IsTrue result ↔ IsOfType f.now (Int width) a }
{
    match a {
        Operand::Value(v) => has_type(f, Ty::Int(width), v),
        Operand::Literal(_) | Operand::Poison => true,
    }
}

fn are_of_width(f: &Function, width: u32, a: Operand, b: Operand) -> bool
    ensures { IsTrue result ↔ AreOfWidth f.now width a b }
{
    is_of_width(f, width, a) && is_of_width(f, width, b)
}

fn converts(cast: Cast, from: u32, to: u32) -> bool
    ensures { IsTrue result ↔ Converts cast from to }
{
    match cast {
        Cast::Zext | Cast::Sext => from < to,
        Cast::Trunc => to < from,
    }
}

fn is_typed_call(f: &Function, call: u32) -> bool
    ensures { IsTrue result ↔ TypedCall f.now call }
{
    match f.calls.as_slice().get(call as usize) {
        Some(call) => are_typed_arguments(f, call.args.as_slice()),
        None => false,
    }
}

fn are_typed_arguments(f: &Function, arguments: &[CallArg]) -> bool
    ensures { IsTrue result ↔ All (λ a. IsOfType f.now (Int a.width) a.value) arguments.now }
{
    arguments.iter().all(|a| is_of_width(f, a.width, a.value))
}

fn is_typed_op(f: &Function, op: &Op) -> bool
    ensures { IsTrue result ↔ TypedOp f.now op.now }
{
    match *op {
        Op::Bin { width, a, b, .. } => are_of_width(f, width, a, b),
        Op::Icmp { width, a, b, .. } => are_of_width(f, width, a, b),
        Op::Select { width, c, a, b } => is_of_width(f, 1, c) && are_of_width(f, width, a, b),
        Op::Cast {
            cast,
            from,
            to,
            a,
            ..
        } => is_of_width(f, from, a) && converts(cast, from, to),
        Op::Freeze { width, a } => is_of_width(f, width, a),
        Op::Two { width, a, b, .. } => are_of_width(f, width, a, b),
        Op::One { width, a, .. } => is_of_width(f, width, a),
        Op::Over { width, a, b, .. } => are_of_width(f, width, a, b),
        Op::Part { width, pair, .. } => has_type(f, Ty::Pair(width), pair),
        Op::Assume { c } => is_of_width(f, 1, c),
        Op::Call { call, .. } => is_typed_call(f, call),
    }
}

fn is_typed_phi(f: &Function, phi: &Phi) -> bool
    ensures { IsTrue result ↔ TypedPhi f.now phi.now }
{
    phi.entries
        .as_slice()
        .iter()
        .all(|e| is_of_width(f, phi.width, e.0))
}

/// The numbers of the cases, each once.
fn numbers_of(alloc: Global, cases: &[(u128, BlockId)]) -> Result<HashSet<u128>, AllocError>
    ensures { IfOk result (IsFromIterResult nat_eq (map (λ c. c.0) cases.now)) }
{
    cases.iter().map(|c| c.0).collect(alloc)
}

/// Whether no two cases have one number.
fn are_distinct(alloc: Global, cases: &[(u128, BlockId)]) -> Result<bool, AllocError>
    ensures { IfOk result (λ distinct. IsTrue distinct ↔ IsDistinct nat_eq (map (λ c. c.0) cases.now)) }
{
    let numbers = numbers_of(alloc, cases)?;
    Ok(numbers.len() == cases.len())
}

fn is_typed_term(alloc: Global, f: &Function, term: &Term) -> Result<bool, AllocError>
    ensures { IfOk result (λ typed. IsTrue typed ↔ TypedTerm f.now term.now) }
{
    match term {
        Term::Ret { width, a } => Ok(*width == f.width && is_of_width(f, *width, *a)),
        Term::CondBr { c, .. } => Ok(is_of_width(f, 1, *c)),
        Term::Switch {
            width,
            on,
            cases,
            ..
        } => {
            if !is_of_width(f, *width, *on) {
                return Ok(false);
            }
            are_distinct(alloc, cases.as_slice())
        }
        Term::Br(_) | Term::Unreachable => Ok(true),
    }
}

/// The place of the first phi that is ill-typed.
fn ill_typed_phi(f: &Function, phis: &[Phi]) -> Option<usize>
    ensures within { IfSome result (λ place. place < length phis.now) }
    ensures first { IsFirstFailure (TypedPhi f.now) phis.now result }
{
    for (place, phi) in phis.iter().enumerate() {
        if !is_typed_phi(f, phi) {
            return Some(place);
        }
    }
    None
}

/// The place of the first instruction that is ill-typed.
fn ill_typed_instruction(f: &Function, insts: &[Inst]) -> Option<usize>
    ensures within { IfSome result (λ place. place < length insts.now) }
    ensures first { IsFirstFailure (TypedInst f.now) insts.now result }
{
    for (place, inst) in insts.iter().enumerate() {
        if !is_typed_op(f, &inst.op) {
            return Some(place);
        }
    }
    None
}

/// The line of the first item of a block that is ill-typed, where those of its items are these.
fn ill_typed_item(
    alloc: Global,
    f: &Function,
    block: &Block,
    lines: &[u32],
) -> Result<Option<u32>, AllocError>
    requires { length lines.now ≡ item_count block.now }
    ensures { IfOk result (λ line. MatchOption line (TypedBlock f.now block.now) (λ line. IsIllTypedOn f.now lines.now line block.now)) }
{
    let phis = block.phis.as_slice();
    let insts = block.insts.as_slice();
    if let Some(place) = ill_typed_phi(f, phis) {
        return Ok(Some(lines[place]));
    }
    if let Some(place) = ill_typed_instruction(f, insts) {
        return Ok(Some(lines[phis.len() + place]));
    }
    if !is_typed_term(alloc, f, &block.term)? {
        return Ok(Some(lines[phis.len() + insts.len()]));
    }
    Ok(None)
}

/// The line of the first phi, instruction or terminator that is ill-typed; None exactly where the function is well typed.
pub(crate) fn ill_typed_line(
    alloc: Global,
    f: &Function,
    lines: &Lines,
) -> Result<Option<u32>, AllocError>
    requires { HasItsLines f.now lines.now }
    ensures { IfOk result (λ line. MatchOption line (Typed f.now) (IllTypedAt f.now lines.now)) }
{
    let of = lines.of.as_slice();
    for (place, block) in f.blocks.as_slice().iter().enumerate() {
        if let Some(line) = ill_typed_item(alloc, f, block, of[place].as_slice())? {
            return Ok(Some(line));
        }
    }
    Ok(None)
}
