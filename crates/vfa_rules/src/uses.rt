//! Where the value of an instruction comes from, and whether it goes anywhere in its function.

ghost use Rattle.std.specs.Prelude.{◌≡◌, ◌++◌};
ghost use Rattle.std.specs.List.{list_any};
ghost use Rattle.vfa_ir.specs.Defined.{op_names, operand_names, term_names};
ghost use Rattle.vfa_ir.specs.Words.{is_in};
ghost use Rattle.vfa_ir.specs.declared.functions.Block.{Block};
ghost use Rattle.vfa_ir.specs.declared.functions.CallArg.{CallArg};
ghost use Rattle.vfa_ir.specs.declared.operations.Op.{Op};
ghost use Rattle.vfa_rules.specs.BlockUses.{block_has, inst_has, phi_has};
ghost use Rattle.vfa_rules.specs.Uses.{first_found, is_result, is_used, overflow_call, overflow_in, overflow_of};

use crate::change::OverflowCall;
use vfa_ir::{Block, CallArg, Function, Inst, Op, Operand, Phi, Term, ValueId};

/// The overflow intrinsic that the operation is, where it is one of this width.
fn overflow_of(width: u32, op: &Op) -> Option<OverflowCall>
    ensures { result ≡ overflow_of width op.now }
{
    match *op {
        Op::Over {
            over,
            width: own,
            a,
            b,
        } if own == width => Some(OverflowCall { over, a, b }),
        _ => None,
    }
}

/// Whether the name is the result.
fn is_result(v: ValueId, result_name: Option<ValueId>) -> bool
    ensures { result ≡ is_result v.0 result_name }
{
    match result_name {
        Some(name) => name.0 == v.0,
        None => false,
    }
}

/// The overflow intrinsic of this width that the instruction is, where it gives the name.
fn overflow_in(width: u32, v: ValueId, inst: &Inst) -> Option<OverflowCall>
    ensures { result ≡ overflow_in width v.0 inst.now }
{
    if is_result(v, inst.result) {
        return overflow_of(width, &inst.op);
    }
    None
}

/// The overflow intrinsic of this width that gives the name, among instructions.
fn overflow_among(width: u32, v: ValueId, insts: &[Inst]) -> Option<OverflowCall>
    ensures { result ≡ first_found (overflow_in width v.0) insts.now }
{
    for inst in insts {
        if let Some(call) = overflow_in(width, v, inst) {
            return Some(call);
        }
    }
    None
}

/// The overflow intrinsic of this width that gives the name, among blocks.
fn overflow_in_blocks(width: u32, v: ValueId, blocks: &[Block]) -> Option<OverflowCall>
    ensures { result ≡ first_found (λ (b : Block). first_found (overflow_in width v.0) b.insts) blocks.now }
{
    for block in blocks {
        if let Some(call) = overflow_among(width, v, block.insts.as_slice()) {
            return Some(call);
        }
    }
    None
}

/// The overflow intrinsic whose pair the operation takes a part of; none where the operation is no `extractvalue`. In a
/// well-typed function each `extractvalue` has one. The function is gone through up to the intrinsic.
///
/// In `%p = call { i8, i1 } @llvm.uadd.with.overflow.i8(i8 %a, i8 1)` and `%s = extractvalue { i8, i1 } %p, 0` that of `%s` is
/// the sum of `%a` and 1.
pub fn overflow_call(f: &Function, op: &Op) -> Option<OverflowCall>
    ensures { result ≡ overflow_call f.now op.now }
{
    match *op {
        Op::Part { width, pair, .. } => overflow_in_blocks(width, pair, f.blocks.as_slice()),
        _ => None,
    }
}

/// Whether the operand is the name.
fn is_name(v: ValueId, operand: Operand) -> bool
    ensures { result ≡ is_in v.0 (operand_names operand) }
{
    match operand {
        Operand::Value(name) => v.0 == name.0,
        Operand::Literal(_) | Operand::Poison => false,
    }
}

/// Whether one of two operands is the name.
fn is_one_of(v: ValueId, a: Operand, b: Operand) -> bool
    ensures { result ≡ is_in v.0 (operand_names a ++ operand_names b) }
{
    if is_name(v, a) {
        return true;
    }
    is_name(v, b)
}

/// Whether an argument is the name.
fn is_passed(v: ValueId, args: &[CallArg]) -> bool
    ensures { result ≡ list_any (λ (a : CallArg). is_in v.0 (operand_names a.value)) args.now }
{
    args.iter().any(|argument| is_name(v, argument.value))
}

/// Whether the call of this place passes the name.
fn call_has(f: &Function, v: ValueId, call: u32) -> bool
    ensures { result ≡ is_in v.0 (op_names f.now (Op.Call None call)) }
{
    match f.calls.as_slice().get(call as usize) {
        Some(call) => is_passed(v, call.args.as_slice()),
        None => false,
    }
}

/// Whether an operand of the operation is the name.
fn op_has(f: &Function, v: ValueId, op: &Op) -> bool
    ensures { result ≡ is_in v.0 (op_names f.now op.now) }
{
    match *op {
        Op::Bin { a, b, .. } => is_one_of(v, a, b),
        Op::Icmp { a, b, .. } => is_one_of(v, a, b),
        Op::Select { c, a, b, .. } => is_name(v, c) || is_one_of(v, a, b),
        Op::Cast { a, .. } => is_name(v, a),
        Op::Freeze { a, .. } => is_name(v, a),
        Op::Two { a, b, .. } => is_one_of(v, a, b),
        Op::One { a, .. } => is_name(v, a),
        Op::Over { a, b, .. } => is_one_of(v, a, b),
        Op::Part { pair, .. } => v.0 == pair.0,
        Op::Assume { c } => is_name(v, c),
        Op::Call { call, .. } => call_has(f, v, call),
    }
}

/// Whether an operand of an instruction is the name.
fn insts_have(f: &Function, v: ValueId, insts: &[Inst]) -> bool
    ensures { result ≡ list_any (inst_has f.now v.0) insts.now }
{
    insts.iter().any(|inst| op_has(f, v, &inst.op))
}

/// Whether an operand of the phi is the name.
fn phi_has(v: ValueId, phi: &Phi) -> bool
    ensures { result ≡ phi_has v.0 phi.now }
{
    phi.entries
        .as_slice()
        .iter()
        .any(|entry| is_name(v, entry.0))
}

/// Whether an operand of a phi is the name.
fn phis_have(v: ValueId, phis: &[Phi]) -> bool
    ensures { result ≡ list_any (phi_has v.0) phis.now }
{
    phis.iter().any(|phi| phi_has(v, phi))
}

/// Whether the terminator's operand is the name.
fn term_has(v: ValueId, term: &Term) -> bool
    ensures { result ≡ is_in v.0 (term_names term.now) }
{
    match term {
        Term::Ret { a, .. } => is_name(v, *a),
        Term::CondBr { c, .. } => is_name(v, *c),
        Term::Switch { on, .. } => is_name(v, *on),
        Term::Br(_) | Term::Unreachable => false,
    }
}

/// Whether an operand in the block is the name.
fn block_has(f: &Function, v: ValueId, block: &Block) -> bool
    ensures { result ≡ block_has f.now v.0 block.now }
{
    if phis_have(v, block.phis.as_slice()) {
        return true;
    }
    if insts_have(f, v, block.insts.as_slice()) {
        return true;
    }
    term_has(v, &block.term)
}

/// Whether an operand in a block is the name.
fn blocks_have(f: &Function, v: ValueId, blocks: &[Block]) -> bool
    ensures { result ≡ list_any (block_has f.now v.0) blocks.now }
{
    blocks.iter().any(|block| block_has(f, v, block))
}

/// Whether the name is an operand of a phi, an instruction or a terminator of the function; no where there is no name. The
/// function is gone through up to the first use.
pub fn is_used(f: &Function, name: Option<ValueId>) -> bool
    ensures { result ≡ is_used f.now name }
{
    match name {
        Some(v) => blocks_have(f, v, f.blocks.as_slice()),
        None => false,
    }
}
