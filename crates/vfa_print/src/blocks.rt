//! Blocks: labels, lines and terminators, with an empty line before each but the first.

ghost use Rattle.std.specs.Prelude.{◌≡◌, ◌+◌, ◌<◌, ◌^◌, ◌++◌, flat_map, length, IfOk};
ghost use Rattle.vfa_print.specs.Layout.{block_text, blocks_text, label_text, line_feed};
ghost use Rattle.vfa_print.specs.Trees.{block_tree, blocks_tree, label_tree};

use crate::lines::{push_insts, push_phis};
use crate::shown::ShownNames;
use crate::terminators::push_term;
use crate::writer::Writer;
use std::alloc::AllocError;
use vfa_ir::{Block, CallOp};

fn push_label(
    w: &mut Writer,
    names: &ShownNames,
    place: usize,
    block: &Block,
) -> Result<(), AllocError>
    ensures { IfOk result (λ _. w.new.text ≡ w.old.text ++ label_text (label_tree names.now place block.now)) }
{
    if place == 0 && block.name.is_none() {
        return Ok(());
    }
    w.label_line(names.block_at(place))
}

fn push_block(
    w: &mut Writer,
    names: &ShownNames,
    calls: &[CallOp],
    place: usize,
    block: &Block,
) -> Result<(), AllocError>
    ensures { IfOk result (λ _. w.new.text ≡ w.old.text ++ block_text (block_tree names.now calls.now place block.now)) }
{
    push_label(w, names, place, block)?;
    push_phis(w, names, block.phis.as_slice())?;
    push_insts(w, names, calls, block.insts.as_slice())?;
    push_term(w, names, &block.term)
}

/// A block after the first.
fn push_next(
    w: &mut Writer,
    names: &ShownNames,
    calls: &[CallOp],
    place: usize,
    block: &Block,
) -> Result<(), AllocError>
    ensures { IfOk result (λ _. w.new.text ≡ w.old.text ++ (line_feed ++ block_text (block_tree names.now calls.now place block.now))) }
{
    w.line_feed()?;
    push_block(w, names, calls, place, block)
}

/// The blocks after the first.
fn push_further(
    w: &mut Writer,
    names: &ShownNames,
    calls: &[CallOp],
    rest: &[Block],
) -> Result<(), AllocError>
    ensures { IfOk result (λ _. w.new.text ≡ w.old.text
        ++ flat_map (λ b. line_feed ++ block_text b) (blocks_tree names.now calls.now 1 rest.now)) }
{
    let mut place: usize = 1;
    'rest: for block in rest {
        push_next(w, names, calls, place, block)?;
        place += 1;
    }
    Ok(())
}

/// The blocks of a function with these calls.
pub fn push_blocks(
    w: &mut Writer,
    names: &ShownNames,
    calls: &[CallOp],
    blocks: &[Block],
) -> Result<(), AllocError>
    ensures { IfOk result (λ _. w.new.text ≡ w.old.text ++ blocks_text (blocks_tree names.now calls.now 0 blocks.now)) }
{
    let Some((entry, rest)) = blocks.split_first() else {
        return Ok(());
    };
    push_block(w, names, calls, 0, entry)?;
    push_further(w, names, calls, rest)
}
