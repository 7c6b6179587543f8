//! The steps of the search for names in scope.

ghost use Rattle.std.specs.Prelude.{◌≡◌, ◌<◌, length, slice_get, All, IfSome};
ghost use Rattle.vfa_check.specs.Flow.{IsShaped, IsNarrowed, IsRenewed};
ghost use Rattle.vfa_ir.specs.declared.functions.Function.{Function};
ghost use Rattle.vfa_ir.specs.Printable.{block_ids};

use crate::flow::Flow;
use crate::results::add_results;
use vfa_ir::{BlockId, Function};

/// Takes from the entry of a block what the end of a predecessor does not have. Whether the entry has lost anything.
pub(crate) fn narrow(flow: &mut Flow, f: &Function, from: BlockId, to: BlockId) -> bool
    requires shape { IsShaped f.now flow.old }
    requires from { from.0 < length f.now.blocks }
    requires to { to.0 < length f.now.blocks }
    ensures { IsNarrowed f.now from.0 to.0 flow.old flow.new result }
{
    let lost = flow.entries[to.0 as usize].intersect(&flow.ends[from.0 as usize]);
    if lost {
        flow.unsent[to.0 as usize] = true;
    }
    lost
}

/// Makes the end of a block from its entry and its results.
pub(crate) fn renew(flow: &mut Flow, f: &Function, b: BlockId)
    requires shape { IsShaped f.now flow.old }
    requires block { b.0 < length f.now.blocks }
    requires names { All (λ block. All (λ v. v < length f.now.values) (block_ids block)) f.now.blocks }
    ensures { IsRenewed f.now b.0 flow.old flow.new }
{
    flow.unsent[b.0 as usize] = false;
    let end = &mut flow.ends[b.0 as usize];
    end.copy_from(&flow.entries[b.0 as usize]);
    add_results(end, &f.blocks.as_slice()[b.0 as usize]);
}
