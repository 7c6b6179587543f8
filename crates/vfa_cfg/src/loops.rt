//! The heads of loops.

ghost use Rattle.std.specs.Prelude.{◌≡◌, ◌<◌, ◌||◌, ℕ, IfOk, length, slice_index_or, slice_set, false, true};
ghost use Rattle.vfa_cfg.specs.Heads.{heads_of};
ghost use Rattle.vfa_cfg.specs.Order.{IsOrder};
ghost use Rattle.vfa_cfg.specs.Sizes.{HasFewBlocks};
ghost use Rattle.vfa_ir.specs.Walks.{is_in, successors};

use crate::targets::successor;
use std::alloc::{AllocError, Global};
use vfa_ir::{BlockId, Function};

/// Marks the blocks to which the edges of a block lead.
fn mark_successors(marks: &mut Vec<bool>, f: &Function, from: BlockId)
    requires { HasFewBlocks f.now }
    ensures length { length marks.new.items ≡ length marks.old.items }
    ensures marks { (b : ℕ) → b < length marks.old.items →
        slice_index_or marks.new.items b false ≡ (is_in b (successors f.now from.0) || slice_index_or marks.old.items b false) }
{
    let mut k: usize = 0;
    'edges: while let Some(to) = successor(f, from, k) {
        mark(marks, to);
        k += 1;
    }
}

/// Marks a block, where it has a mark.
fn mark(marks: &mut Vec<bool>, b: BlockId)
    ensures { marks.new.items ≡ slice_set marks.old.items b.0 true }
{
    if (b.0 as usize) < marks.len() {
        marks[b.0 as usize] = true;
    }
}

/// For each block of the order whether it is a head: an edge comes to it from a block at its own place or later in the
/// order. The order is the function's.
///
/// In `entry: br label %a`, `a: br i1 %c, label %a, label %b`, `b: ret i1 %c` the order is entry, a, b, and a alone is a
/// head.
pub fn heads(alloc: Global, f: &Function, order: &[BlockId]) -> Result<Vec<bool>, AllocError>
    requires order { IsOrder f.now order.now }
    requires few { HasFewBlocks f.now }
    ensures { IfOk result (λ heads. heads.items ≡ heads_of f.now order.now) }
{
    let mut led_to = vec![in alloc; false; f.blocks.as_slice().len()]?;
    let mut heads = vec![in alloc; false; order.len()]?;
    'places: for place in (0..order.len()).rev() {
        let block = order[place];
        mark_successors(&mut led_to, f, block);
        heads[place] = led_to[block.0 as usize];
    }
    Ok(heads)
}
