//! The names that a function uses.

ghost use Rattle.std.specs.Prelude.{◌≡◌, ◌++◌, IfOk, flat_map};
ghost use Rattle.vfa_ir.specs.Defined.{op_names};
ghost use Rattle.vfa_mean.specs.Numbering.{names_used};
ghost use Rattle.vfa_demand.specs.Behind.{phi_names};

use crate::operand_names::{push_entries, push_op, push_term};
use std::alloc::{AllocError, Global};
use vfa_ir::{Block, Function, Inst, Phi};

fn push_phis(names: &mut Vec<u32>, phis: &[Phi]) -> Result<(), AllocError>
    ensures { IfOk result (λ _. names.new.items ≡ names.old.items ++ flat_map phi_names phis.now) }
{
    'each: for phi in phis {
        push_entries(names, phi.entries.as_slice())?;
    }
    Ok(())
}

fn push_insts(names: &mut Vec<u32>, f: &Function, insts: &[Inst]) -> Result<(), AllocError>
    ensures { IfOk result (λ _. names.new.items ≡ names.old.items ++ flat_map (λ i. op_names f.now i.op) insts.now) }
{
    'each: for inst in insts {
        push_op(names, f, &inst.op)?;
    }
    Ok(())
}

/// Puts the names that a block uses behind others.
fn push_used(names: &mut Vec<u32>, f: &Function, block: &Block) -> Result<(), AllocError>
    ensures { IfOk result (λ _. names.new.items ≡ names.old.items ++ names_used f.now block.now) }
{
    push_phis(names, block.phis.as_slice())?;
    push_insts(names, f, block.insts.as_slice())?;
    push_term(names, &block.term)
}

/// The names that the blocks of a function use, block by block those of its phis, its instructions and its terminator, as often
/// as they are used there. An error says that memory was wanting.
///
/// Of `%a = add i8 %x, %x`, `ret i8 %a` they are `%x`, `%x` and `%a`.
pub fn names_used(alloc: Global, f: &Function) -> Result<Vec<u32>, AllocError>
    ensures { IfOk result (λ names. names.items ≡ flat_map (names_used f.now) f.now.blocks) }
{
    let mut names: Vec<u32> = Vec::new(alloc);
    'each: for block in f.blocks.as_slice() {
        push_used(&mut names, f, block)?;
    }
    Ok(names)
}
