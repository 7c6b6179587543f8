//! The predecessors of the blocks.

ghost use Rattle.std.specs.Prelude.{◌≡◌, [], IfOk, replicate};
ghost use Rattle.vfa_cfg.specs.Sizes.{HasFewBlocks};
ghost use Rattle.vfa_check.specs.Predecessors.{ArePredecessors, with_edge};

use std::alloc::{AllocError, Global};
use vfa_cfg::edges;
use vfa_ir::{BlockId, Function, Items};

/// No predecessors yet, for so many blocks.
fn none_yet(alloc: Global, blocks: usize) -> Result<Vec<Items<BlockId>>, AllocError>
    ensures { IfOk result (λ all. all.items ≡ replicate blocks []) }
{
    let mut all: Vec<Items<BlockId>> = Vec::with_capacity(alloc, blocks)?;
    'rows: for _ in 0..blocks {
        all.push(Items(Vec::new(alloc)))?;
    }
    Ok(all)
}

/// Puts a predecessor last among those of a block, where it is one of these blocks.
fn add(all: &mut Vec<Items<BlockId>>, to: BlockId, from: BlockId) -> Result<(), AllocError>
    ensures { IfOk result (λ _. all.new.items ≡ with_edge from to all.old.items) }
{
    let to = to.0 as usize;
    if to >= all.len() {
        return Ok(());
    }
    let predecessors = &mut all[to];
    predecessors.0.push(from)?;
    Ok(())
}

/// For each block the blocks from which edges lead to it, one for each edge.
pub(crate) fn predecessors(alloc: Global, f: &Function) -> Result<Vec<Items<BlockId>>, AllocError>
    requires { HasFewBlocks f.now }
    ensures { IfOk result (λ all. ArePredecessors f.now all.items) }
{
    let mut all = none_yet(alloc, f.blocks.as_slice().len())?;
    let edges = edges(alloc, f)?;
    'edges: for edge in edges.as_slice() {
        add(&mut all, edge.to, edge.from)?;
    }
    Ok(all)
}
