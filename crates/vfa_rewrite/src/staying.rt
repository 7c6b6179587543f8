//! Which instructions have to stay though nothing uses them.

ghost use Rattle.std.specs.Prelude.{◌≡◌, ℕ, IfOk, Some, true, slice_get};
ghost use Rattle.vfa_ir.specs.declared.functions.Inst.{Inst};
ghost use Rattle.vfa_demand.specs.Used.{must_in};
ghost use Rattle.vfa_rewrite.specs.Expanding.{must_of, must_stay_by, musts_by};
ghost use Rattle.vfa_rewrite.specs.Findings.{Findings};
ghost use Rattle.vfa_rewrite.specs.Found.{AreKeptOf};
ghost use Rattle.vfa_rewrite.specs.Making as making;
ghost use Rattle.vfa_rewrite.specs.Making.{line_at, must_stay_at};
ghost use Rattle.vfa_rewrite.specs.Rewritten.{with_numbers};

use crate::found::{BlockFindings, LineFinding};
use crate::replacing::line_at;
use std::alloc::{AllocError, Global};
use vfa_ir::{Function, Inst, Items, Op};
use vfa_rules::Change;

/// Whether the operation does something beside its result: a call, an `assume`, and a division that may be undefined.
fn has_effect(op: &Op, undefined: bool) -> bool
    ensures { result ≡ making.has_effect op.now undefined }
{
    match op {
        Op::Call { .. } | Op::Assume { .. } => true,
        Op::Bin { .. } => undefined,
        _ => false,
    }
}

/// Whether the instruction is one that goes.
fn is_gone(change: Change) -> bool
    ensures { result ≡ making.is_gone change }
{
    match change {
        Change::Gone => true,
        _ => false,
    }
}

/// Whether an instruction of which this was found has to stay though nothing uses its result.
pub(crate) fn must_stay_by(op: &Op, found: LineFinding) -> bool
    ensures { result ≡ making.must_stay op.now found.change found.may_be_undefined }
{
    if is_gone(found.change) {
        return false;
    }
    has_effect(op, found.may_be_undefined)
}

/// The same of an instruction of which something was found, or nothing, since no run comes to it.
fn must_stay_if(op: &Op, found: Option<LineFinding>) -> bool
    ensures { result ≡ must_stay_by op.now found }
{
    match found {
        Some(found) => must_stay_by(op, found),
        None => false,
    }
}

/// Of each of these instructions whether it has to stay.
fn musts_in(alloc: Global, insts: &[Inst], lines: &[LineFinding]) -> Result<Items<bool>, AllocError>
    ensures { IfOk result (λ must. must ≡ with_numbers (must_of lines.now) 0 insts.now) }
{
    let mut must: Vec<bool> = Vec::with_capacity(alloc, insts.len())?;
    'each: for i in 0..insts.len() {
        must.push(must_stay_if(&insts[i].op, line_at(lines, i)))?;
    }
    Ok(Items(must))
}

/// Of each instruction of the block of this number whether it has to stay.
fn musts_at(
    alloc: Global,
    kept: &[BlockFindings],
    b: usize,
    insts: &[Inst],
) -> Result<Items<bool>, AllocError>
    ensures { IfOk result (λ must. must ≡ musts_by (slice_get kept.now b) insts.now) }
{
    match kept.get(b) {
        Some(found) => musts_in(alloc, insts, found.lines.as_slice()),
        None => Ok(Items(Vec::new(alloc))),
    }
}

/// Of each instruction of a function, block by block, whether it has to stay though nothing uses its result.
pub(crate) fn must_stay(
    alloc: Global,
    f: &Function,
    kept: &[BlockFindings],
) -> Result<Vec<Items<bool>>, AllocError>
    ensures { (found : Findings) → AreKeptOf f.now found kept.now →
        IfOk result (λ must. (b i : ℕ) (inst : Inst) → line_at f.now b i ≡ Some inst → found.met b i ≡ true →
        must_in must.items b i ≡ must_stay_at f.now found b i) }
{
    let blocks = f.blocks.as_slice();
    let mut must: Vec<Items<bool>> = Vec::with_capacity(alloc, blocks.len())?;
    'all: for b in 0..blocks.len() {
        must.push(musts_at(alloc, kept, b, blocks[b].insts.as_slice())?)?;
    }
    Ok(must)
}
