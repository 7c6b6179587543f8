//! Which edges of a block a run may take, by the state before its terminator.

ghost use Rattle.std.specs.Prelude.{◌≡◌, ◌≤◌, ◌^◌, ◌+◌, ℕ, IfOk, Some, false, is_some, length, slice_get, slice_index_or};
ghost use Rattle.vfa_ir.specs.PhisFit.{targets};
ghost use Rattle.vfa_ir.specs.declared.operations.BlockId.{BlockId};
ghost use Rattle.vfa_cfg.specs.Edges.{block_edges, edge};
ghost use Rattle.vfa_cond.specs.States.{known};
ghost use Rattle.vfa_walk.specs.Kept.{IsStateOf};
ghost use Rattle.vfa_walk.specs.Leaving.{edges_out};
ghost use Rattle.vfa_xfer.specs.AnyFacts.{fact_type, IsAnyFact};
ghost use Rattle.vfa_rewrite.specs.ByFacts.{edge_state};

use std::alloc::{AllocError, Global};
use vfa_cfg::{Edge, Way, successor};
use vfa_check::Checked;
use vfa_cond::State;
use vfa_ir::{Block, BlockId, Function, Term};
use vfa_walk::edge_state;
use vfa_xfer::AnyFact;

/// When control takes the edge of this number.
fn way_of(term: &Term, k: usize) -> Way
    requires { k ≤ 2 ^ 28 }
    ensures { (from : ℕ) (to : BlockId) → slice_get (targets term.now) k ≡ Some to → slice_get (block_edges from term.now) k ≡ Some (edge from to result) }
{
    match term {
        Term::CondBr { .. } => {
            if k == 0 {
                return Way::Yes;
            }
            Way::No
        }
        Term::Switch { .. } => {
            if k == 0 {
                return Way::Other;
            }
            Way::Case((k - 1) as u32)
        }
        Term::Ret { .. } | Term::Br(_) | Term::Unreachable => Way::Always,
    }
}

/// How many edges a block has.
pub(crate) fn edge_count(term: &Term) -> usize
    ensures { result ≡ length (targets term.now) }
{
    match term {
        Term::Ret { .. } | Term::Unreachable => 0,
        Term::Br(_) => 1,
        Term::CondBr { .. } => 2,
        Term::Switch { cases, .. } => cases.as_slice().len() + 1,
    }
}

/// Whether a run may take the edge of this number of a block, by the state before its terminator.
fn is_left(
    alloc: Global,
    checked: &Checked,
    f: &Function,
    end: &State<AnyFact>,
    b: BlockId,
    block: &Block,
    k: usize,
) -> Result<bool, AllocError>
    requires same { f.now ≡ checked.now }
    requires block { slice_get f.now.blocks b.0 ≡ Some block.now }
    requires few { k ≤ 2 ^ 28 }
    requires state { IsStateOf fact_type IsAnyFact f.now end.now }
    ensures { IfOk result (λ yes. yes ≡ is_some (edge_state f.now (Some (known end.now)) (slice_get (edges_out f.now b.0) k))) }
{
    let Some(to) = successor(f, b, k) else {
        return Ok(false);
    };
    let edge = Edge {
        from: b,
        to,
        way: way_of(&block.term, k),
    };
    Ok(edge_state(alloc, checked, end, edge)?.is_some())
}

/// Whether a run may take each edge of a block, by the state before its terminator.
pub(crate) fn edges_left(
    alloc: Global,
    checked: &Checked,
    f: &Function,
    end: &State<AnyFact>,
    b: BlockId,
    block: &Block,
) -> Result<Vec<bool>, AllocError>
    requires same { f.now ≡ checked.now }
    requires block { slice_get f.now.blocks b.0 ≡ Some block.now }
    requires few { length (targets block.now.term) ≤ 2 ^ 28 + 1 }
    requires state { IsStateOf fact_type IsAnyFact f.now end.now }
    ensures { IfOk result (λ left. (k : ℕ) → slice_index_or left.items k false ≡ is_some (edge_state f.now (Some (known end.now)) (slice_get (edges_out f.now b.0) k))) }
{
    let mut left: Vec<bool> = Vec::new(alloc);
    'edges: for k in 0..edge_count(&block.term) {
        let is_left = is_left(alloc, checked, f, end, b, block, k)?;
        left.push(is_left)?;
    }
    Ok(left)
}
