//! Which blocks are heads, by their places in the text.

ghost use Rattle.std.specs.Prelude.{◌≡◌, ℕ, IfOk, false, slice_index_or};
ghost use Rattle.vfa_cfg.specs.Heads.{is_head};
ghost use Rattle.vfa_cfg.specs.Order.{IsOrder};
ghost use Rattle.vfa_cfg.specs.Sizes.{HasFewBlocks};

use std::alloc::{AllocError, Global};
use vfa_cfg::heads;
use vfa_ir::{BlockId, Function};

/// For each block of the function whether it is a head in this order.
pub(crate) fn head_marks(
    alloc: Global,
    f: &Function,
    order: &[BlockId],
) -> Result<Vec<bool>, AllocError>
    requires order { IsOrder f.now order.now }
    requires few { HasFewBlocks f.now }
    ensures { IfOk result (λ marks. (b : ℕ) → slice_index_or marks.items b false ≡ is_head f.now order.now b) }
{
    let heads = heads(alloc, f, order)?;
    let mut marks = vec![in alloc; false; f.blocks.as_slice().len()]?;
    'places: for place in (0..order.len()).rev() {
        marks[order[place].0 as usize] = heads[place];
    }
    Ok(marks)
}

/// The mark of a block; false past the marks.
pub(crate) fn mark_at(marks: &[bool], b: BlockId) -> bool
    ensures { result ≡ slice_index_or marks.now b.0 false }
{
    match marks.get(b.0 as usize) {
        Some(mark) => *mark,
        None => false,
    }
}
