//! The table of the operands that names are replaced by.

ghost use Rattle.std.specs.Prelude.{◌≡◌, [], ◌∷◌, IfOk, None, flat_map, replicate};
ghost use Rattle.vfa_bits.specs.Noting.{AreNoted};
ghost use Rattle.vfa_bits.specs.Tables.{AreReplacements};
ghost use Rattle.vfa_check.specs.Within.{IsWithin};
ghost use Rattle.vfa_demand.specs.Masks.{mask_in};

use crate::operands::{mask_of, same_bits_operand};
use std::alloc::{AllocError, Global};
use vfa_ir::{Block, Function, Inst, Operand};

/// Notes the operand that the result of a line is replaced by, in place of what stood there.
fn note(table: &mut Vec<Option<Operand>>, masks: &[u128], inst: &Inst)
    ensures { AreNoted (mask_in masks.now) (inst.now ∷ []) table.old.items table.new.items }
{
    let Some(value) = inst.result else {
        return;
    };
    let place = value.0 as usize;
    if place < table.len() {
        table[place] = same_bits_operand(&inst.op, mask_of(masks, value));
    }
}

/// Notes the operands that the results of lines are replaced by, the last one first.
fn note_lines(table: &mut Vec<Option<Operand>>, masks: &[u128], insts: &[Inst])
    ensures { AreNoted (mask_in masks.now) insts.now table.old.items table.new.items }
{
    for place in (0..insts.len()).rev() {
        note(table, masks, &insts[place]);
    }
}

/// Notes the operands that the results of blocks are replaced by, the last one first.
fn note_blocks(table: &mut Vec<Option<Operand>>, masks: &[u128], blocks: &[Block])
    ensures { AreNoted (mask_in masks.now) (flat_map (λ b. b.insts) blocks.now) table.old.items table.new.items }
{
    for number in (0..blocks.len()).rev() {
        note_lines(table, masks, blocks[number].insts.as_slice());
    }
}

/// Entries for so many values, none of which is replaced.
fn no_replacements(alloc: Global, values: usize) -> Result<Vec<Option<Operand>>, AllocError>
    ensures { IfOk result (λ table. table.items ≡ replicate values None) }
{
    let mut table: Vec<Option<Operand>> = Vec::with_capacity(alloc, values)?;
    'rows: for _ in 0..values {
        table.push(None)?;
    }
    Ok(table)
}

/// For each value of a function the operand that its name is replaced by, if it is: where these bits of each are asked for.
pub(crate) fn replacements(
    alloc: Global,
    f: &Function,
    masks: &[u128],
) -> Result<Vec<Option<Operand>>, AllocError>
    requires { IsWithin f.now }
    ensures { IfOk result (λ table. AreReplacements f.now (mask_in masks.now) table.items) }
{
    let mut table = no_replacements(alloc, f.values.as_slice().len())?;
    note_blocks(&mut table, masks, f.blocks.as_slice());
    Ok(table)
}
