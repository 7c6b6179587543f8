//! The order of the blocks.

ghost use Rattle.std.specs.Prelude.{IfOk};
ghost use Rattle.vfa_cfg.specs.Order.{IsOrder};
ghost use Rattle.vfa_cfg.specs.Sizes.{HasFewBlocks};

use crate::search::DepthFirst;
use crate::targets::successor;
use std::alloc::{AllocError, Global};
use vfa_ir::{BlockId, Function};

/// The order of the blocks: reverse postorder of the depth-first walk from the entry, successors visited as written.
/// Blocks that no walk reaches are not in it.
///
/// Where the entry branches to a and then to b, and both go on to c, it is entry, b, a, c.
pub fn order(alloc: Global, f: &Function) -> Result<Vec<BlockId>, AllocError>
    requires { HasFewBlocks f.now }
    ensures { IfOk result (λ order. IsOrder f.now order.items) }
{
    let mut walk = DepthFirst::new(alloc, f.blocks.as_slice().len())?;
    walk.come_to(BlockId(0))?;
    'visits: while let Some(visit) = walk.innermost() {
        let next = successor(f, visit.block, visit.next);
        walk.step(visit, next)?;
    }
    Ok(walk.last_ended_first())
}
