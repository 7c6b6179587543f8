//! What is kept of a function, in text order.

ghost use Rattle.std.specs.Prelude.{◌≡◌, ◌≤◌, ◌^◌, [], ◌∷◌, ◌++◌, IfOk, filter, length, map};
ghost use Rattle.std.specs.List.{flat_map};
ghost use Rattle.vfa_ir.specs.Printable.{block_call_places, block_ids, inst_ids};
ghost use Rattle.vfa_mean.specs.Kept.{inst_call_places, is_marked};
ghost use Rattle.vfa_mean.specs.Numbering as numbering;
ghost use Rattle.vfa_mean.specs.Renaming.{at_places};

use std::alloc::{AllocError, Global};
use vfa_ir::{Block, Function, Inst, Op, Param, Phi};

/// A number behind others, where it is marked.
fn push_marked(numbers: &mut Vec<u32>, keeps: &[bool], number: u32) -> Result<(), AllocError>
    ensures { IfOk result (λ _.
        numbers.new.items ≡ numbers.old.items ++ filter (is_marked keeps.now) (number ∷ [])) }
{
    if keeps.get(number as usize).copied().unwrap_or(false) {
        numbers.push(number)?;
    }
    Ok(())
}

/// The numbers of the blocks that are kept.
pub(crate) fn kept_numbers(
    alloc: Global,
    f: &Function,
    keeps: &[bool],
) -> Result<Vec<u32>, AllocError>
    requires { length f.now.blocks ≤ 2 ^ 32 }
    ensures { IfOk result (λ numbers. numbers.items ≡ numbering.kept_numbers f.now (is_marked keeps.now)) }
{
    let mut numbers: Vec<u32> = Vec::new(alloc);
    'each: for number in 0..f.blocks.as_slice().len() {
        push_marked(&mut numbers, keeps, number as u32)?;
    }
    Ok(numbers)
}

fn push_params(ids: &mut Vec<u32>, params: &[Param]) -> Result<(), AllocError>
    ensures { IfOk result (λ _. ids.new.items ≡ ids.old.items ++ map (λ p. p.value.0) params.now) }
{
    'each: for param in params {
        ids.push(param.value.0)?;
    }
    Ok(())
}

fn push_phis(ids: &mut Vec<u32>, phis: &[Phi]) -> Result<(), AllocError>
    ensures { IfOk result (λ _. ids.new.items ≡ ids.old.items ++ map (λ p. p.result.0) phis.now) }
{
    'each: for phi in phis {
        ids.push(phi.result.0)?;
    }
    Ok(())
}

fn push_results(ids: &mut Vec<u32>, insts: &[Inst]) -> Result<(), AllocError>
    ensures { IfOk result (λ _. ids.new.items ≡ ids.old.items ++ inst_ids insts.now) }
{
    'each: for inst in insts {
        if let Some(value) = inst.result {
            ids.push(value.0)?;
        }
    }
    Ok(())
}

fn push_calls(calls: &mut Vec<u32>, insts: &[Inst]) -> Result<(), AllocError>
    ensures { IfOk result (λ _. calls.new.items ≡ calls.old.items ++ inst_call_places insts.now) }
{
    'each: for inst in insts {
        if let Op::Call { call, .. } = inst.op {
            calls.push(call)?;
        }
    }
    Ok(())
}

fn push_block(ids: &mut Vec<u32>, block: &Block) -> Result<(), AllocError>
    ensures { IfOk result (λ _. ids.new.items ≡ ids.old.items ++ block_ids block.now) }
{
    push_phis(ids, block.phis.as_slice())?;
    push_results(ids, block.insts.as_slice())
}

/// The results of the block of a number, behind others.
fn push_block_of(ids: &mut Vec<u32>, blocks: &[Block], number: u32) -> Result<(), AllocError>
    ensures { IfOk result (λ _.
        ids.new.items ≡ ids.old.items ++ flat_map block_ids (at_places blocks.now (number ∷ []))) }
{
    match blocks.get(number as usize) {
        Some(block) => push_block(ids, block),
        None => Ok(()),
    }
}

/// The places of the calls of the block of a number, behind others.
fn push_calls_of(calls: &mut Vec<u32>, blocks: &[Block], number: u32) -> Result<(), AllocError>
    ensures { IfOk result (λ _.
        calls.new.items ≡ calls.old.items ++ flat_map block_call_places (at_places blocks.now (number ∷ []))) }
{
    match blocks.get(number as usize) {
        Some(block) => push_calls(calls, block.insts.as_slice()),
        None => Ok(()),
    }
}

/// The parameters and the results of these blocks.
pub(crate) fn kept_values(
    alloc: Global,
    f: &Function,
    numbers: &[u32],
) -> Result<Vec<u32>, AllocError>
    ensures { IfOk result (λ ids.
        ids.items ≡ map (λ p. p.value.0) f.now.params ++ flat_map block_ids (at_places f.now.blocks numbers.now)) }
{
    let mut ids: Vec<u32> = Vec::new(alloc);
    push_params(&mut ids, f.params.as_slice())?;
    'each: for number in numbers {
        push_block_of(&mut ids, f.blocks.as_slice(), *number)?;
    }
    Ok(ids)
}

/// The places of the calls of these blocks.
pub(crate) fn kept_calls(
    alloc: Global,
    f: &Function,
    numbers: &[u32],
) -> Result<Vec<u32>, AllocError>
    ensures { IfOk result (λ calls. calls.items ≡ flat_map block_call_places (at_places f.now.blocks numbers.now)) }
{
    let mut calls: Vec<u32> = Vec::new(alloc);
    'each: for number in numbers {
        push_calls_of(&mut calls, f.blocks.as_slice(), *number)?;
    }
    Ok(calls)
}
