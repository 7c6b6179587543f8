//! The lines that stay.

ghost use Rattle.std.specs.Prelude.{◌≡◌, IfOk, false, filter, map, slice_index_or};
ghost use Rattle.vfa_bits.specs.Narrowed as narrowed;
ghost use Rattle.vfa_bits.specs.Narrowed.{block_left, left, must_stay};
ghost use Rattle.vfa_demand.specs.Rows as rows;
ghost use Rattle.vfa_demand.specs.Used.{AreUsed, UsesItsValues};
ghost use Rattle.vfa_mean.specs.Kept.{is_marked};

use std::alloc::{AllocError, Global};
use vfa_demand::{needs_all, used_names};
use vfa_ir::{Block, Function, Inst, Items, Phi, ValueId};

/// Which instructions stay whatever becomes of their results.
fn needed_lines(alloc: Global, insts: &[Inst]) -> Result<Items<bool>, AllocError>
    ensures { IfOk result (λ all. all ≡ map (λ i. rows.needs_all i.op) insts.now) }
{
    let mut all: Vec<bool> = Vec::with_capacity(alloc, insts.len())?;
    'each: for inst in insts {
        all.push(needs_all(&inst.op))?;
    }
    Ok(Items(all))
}

/// For each block which of its instructions stay whatever becomes of their results.
fn needed(alloc: Global, blocks: &[Block]) -> Result<Vec<Items<bool>>, AllocError>
    ensures { IfOk result (λ all. all.items ≡ map (λ b. map (λ i. rows.needs_all i.op) b.insts) blocks.now) }
{
    let mut all: Vec<Items<bool>> = Vec::with_capacity(alloc, blocks.len())?;
    'each: for block in blocks {
        all.push(needed_lines(alloc, block.insts.as_slice())?)?;
    }
    Ok(all)
}

/// Marks of the names that something hangs on.
pub(crate) fn used_in(alloc: Global, f: &Function) -> Result<Vec<bool>, AllocError>
    requires { UsesItsValues f.now }
    ensures { IfOk result (λ used. AreUsed f.now (must_stay f.now) (is_marked used.items)) }
{
    let must = needed(alloc, f.blocks.as_slice())?;
    used_names(alloc, f, must.as_slice())
}

/// Whether something hangs on a name.
fn is_used(used: &[bool], value: ValueId) -> bool
    ensures { result ≡ is_marked used.now value.0 }
{
    used.get(value.0 as usize).copied().unwrap_or(false)
}

/// Whether an instruction stays.
fn stays(used: &[bool], inst: &Inst) -> bool
    ensures { result ≡ narrowed.stays (is_marked used.now) inst.now }
{
    if needs_all(&inst.op) {
        return true;
    }
    match inst.result {
        Some(value) => is_used(used, value),
        None => false,
    }
}

fn keep_phis(phis: &mut Vec<Phi>, used: &[bool])
    ensures { phis.new.items ≡ filter (λ p. is_marked used.now p.result.0) phis.old.items }
{
    phis.retain(|phi| is_used(used, phi.result));
}

fn keep_lines(insts: &mut Vec<Inst>, used: &[bool])
    ensures { insts.new.items ≡ filter (narrowed.stays (is_marked used.now)) insts.old.items }
{
    insts.retain(|inst| stays(used, inst));
}

fn keep_in(block: &mut Block, used: &[bool])
    ensures { block.new ≡ block_left (is_marked used.now) block.old }
{
    keep_phis(&mut block.phis.0, used);
    keep_lines(&mut block.insts.0, used);
}

fn keep_blocks(blocks: &mut Vec<Block>, used: &[bool])
    ensures { blocks.new.items ≡ map (block_left (is_marked used.now)) blocks.old.items }
{
    'each: for number in 0..blocks.len() {
        keep_in(&mut blocks[number], used);
    }
}

/// The function with the lines that stay: those of names that something hangs on, and all divisions, remainders, calls and
/// assumptions.
pub(crate) fn left(f: Function, used: &[bool]) -> Function
    ensures { result ≡ left (is_marked used.now) f }
{
    let mut f = f;
    keep_blocks(&mut f.blocks.0, used);
    f
}
