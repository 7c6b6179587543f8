//! The blocks and the calls that walks come to.

ghost use Rattle.std.specs.Prelude.{◌≡◌, ◌<◌, ◌&&◌, ℕ, Bool, [], ◌∷◌, IfOk, IsTrue, List, length};
ghost use Rattle.vfa_bits.specs.Choosing.{choices_in};
ghost use Rattle.vfa_bits.specs.Narrowed.{AreReached, is_reached_call};
ghost use Rattle.vfa_bits.specs.Noting.{AreMarked};
ghost use Rattle.vfa_cfg.specs.Order.{numbers};
ghost use Rattle.vfa_ir.specs.Printable.{block_call_places};
ghost use Rattle.vfa_ir.specs.Walks.{is_in};
ghost use Rattle.vfa_mean.specs.Kept.{inst_call_places, is_marked};

use std::alloc::{AllocError, Global};
use vfa_check::Checked;
use vfa_ir::{Block, BlockId, Function, Inst, Op};

/// Marks of the blocks that are among these, of so many.
fn marks_of(alloc: Global, blocks: &[BlockId], count: usize) -> Result<Vec<bool>, AllocError>
    requires { (b : ℕ) → IsTrue (is_in b (numbers blocks.now)) → b < count }
    ensures { IfOk result (λ marks. (b : ℕ) → is_marked marks.items b ≡ is_in b (numbers blocks.now)) }
{
    let mut marks: Vec<bool> = vec![in alloc; false; count]?;
    'each: for block in blocks {
        marks[block.0 as usize] = true;
    }
    Ok(marks)
}

/// Marks of the blocks that some walk comes to.
pub(crate) fn reached_blocks(alloc: Global, f: &Checked) -> Result<Vec<bool>, AllocError>
    ensures { IfOk result (λ marks. AreReached f.now (is_marked marks.items)) }
{
    marks_of(alloc, f.order(), f.function().blocks.as_slice().len())
}

/// Marks the call of an instruction, if it is one.
fn mark_call(marks: &mut Vec<bool>, inst: &Inst)
    ensures { AreMarked (λ place. is_in place (inst_call_places (inst.now ∷ []))) marks.old.items marks.new.items }
{
    let Op::Call { call, .. } = inst.op else {
        return;
    };
    let place = call as usize;
    if place < marks.len() {
        marks[place] = true;
    }
}

/// Marks the calls of instructions.
fn mark_calls(marks: &mut Vec<bool>, insts: &[Inst])
    ensures { AreMarked (λ place. is_in place (inst_call_places insts.now)) marks.old.items marks.new.items }
{
    'each: for inst in insts {
        mark_call(marks, inst);
    }
}

/// Marks the calls of a block, if some walk comes to it.
fn mark_if(marks: &mut Vec<bool>, reached: bool, block: &Block)
    ensures { AreMarked (λ place. reached && is_in place (block_call_places block.now)) marks.old.items marks.new.items }
{
    if reached {
        mark_calls(marks, block.insts.as_slice());
    }
}

/// Marks of the calls that stand in a block which some walk comes to; `reached` has the marks of these blocks.
pub(crate) fn reached_calls(
    alloc: Global,
    f: &Function,
    reached: &[bool],
) -> Result<Vec<bool>, AllocError>
    ensures { (changed : List Bool) → IfOk result (λ marks. (place : ℕ) → place < length f.now.calls →
        is_marked marks.items place ≡ is_reached_call (choices_in reached.now changed) place 0 f.now.blocks) }
{
    let mut marks: Vec<bool> = vec![in alloc; false; f.calls.as_slice().len()]?;
    let mut number: usize = 0;
    'each: for block in f.blocks.as_slice() {
        mark_if(
            &mut marks,
            reached.get(number).copied().unwrap_or(false),
            block,
        );
        number += 1;
    }
    Ok(marks)
}
