//! What edges of a function hand on.

ghost use Rattle.std.specs.Prelude.{◌≡◌, IfOk, IsTrue, Some};
ghost use Rattle.std.specs.Option.{ForSome, option_map};
ghost use Rattle.vfa_mean.specs.Moments.{Into};
ghost use Rattle.vfa_cond.specs.Narrowing.{Becomes};
ghost use Rattle.vfa_cond.specs.States.{known};
ghost use Rattle.vfa_walk.specs.Kept.{AreStates, IsStateOf, kept_entries};
ghost use Rattle.vfa_walk.specs.Leaving.{along_edge, left_to};
ghost use Rattle.vfa_walk.specs.Ready.{HasFewNames, IsReady};
ghost use Rattle.vfa_walk.specs.Stepping.{before_end};
ghost use Rattle.vfa_walk.specs.Tables.{state_at};

use crate::blocks::block_at;
use crate::leaving::{along, pair};
use crate::ready::ready;
use crate::stepping::step_all;
use crate::tables::Table;
use std::alloc::{AllocError, Global};
use vfa_cfg::Edge;
use vfa_check::Checked;
use vfa_cond::State;
use vfa_ir::{BlockId, Function};
use vfa_values::Values;

/// Does all instructions of a block; a no means that no run goes on behind them.
fn step_block<V: Values>(state: &mut State<V>, f: &Function, b: BlockId) -> bool
    requires ready { IsReady f.now }
    requires state { IsStateOf V.ty V.proper f.now state.old }
    ensures becomes { Becomes (before_end V.answers f.now b.0 (known state.old)) result (known state.new) }
    ensures state { IsTrue result → IsStateOf V.ty V.proper f.now state.new }
{
    match block_at(f, b) {
        Some(block) => step_all(state, f, block.insts.as_slice()),
        None => true,
    }
}

/// From the entry state of a block the one before its terminator; None where no run comes there.
pub(crate) fn end_of<V: Values>(
    alloc: Global,
    f: &Function,
    b: BlockId,
    entry: &State<V>,
) -> Result<Option<State<V>>, AllocError>
    requires ready { IsReady f.now }
    requires state { IsStateOf V.ty V.proper f.now entry.now }
    ensures end { IfOk result (λ o. option_map known o ≡ before_end V.answers f.now b.0 (known entry.now)) }
    ensures state { IfOk result (λ o. ForSome o (IsStateOf V.ty V.proper f.now)) }
{
    let mut state = entry.copied(alloc)?;
    if step_block(&mut state, f, b) {
        return Ok(Some(state));
    }
    Ok(None)
}

/// The same state once more.
pub(crate) fn same<V: Values>(
    alloc: Global,
    f: &Function,
    state: &State<V>,
) -> Result<Option<State<V>>, AllocError>
    requires state { IsStateOf V.ty V.proper f.now state.now }
    ensures same { IfOk result (λ o. option_map known o ≡ Some (known state.now)) }
    ensures state { IfOk result (λ o. ForSome o (IsStateOf V.ty V.proper f.now)) }
{
    let _ = f;
    Ok(Some(state.copied(alloc)?))
}

fn edge_state_in<V: Values>(
    alloc: Global,
    f: &Function,
    end: &State<V>,
    edge: Edge,
) -> Result<Option<State<V>>, AllocError>
    requires ready { IsReady f.now }
    requires state { IsStateOf V.ty V.proper f.now end.now }
    ensures along { IfOk result (λ o. option_map known o ≡ along_edge V.answers f.now edge (known end.now)) }
    ensures state { IfOk result (λ o. ForSome o (IsStateOf V.ty V.proper f.now)) }
{
    match block_at(f, edge.from) {
        Some(block) => along(alloc, f, end, &block.term, edge.way),
        None => same(alloc, f, end),
    }
}

/// What an edge of the function makes of the state before the terminator of its block; None exactly where no run takes it.
///
/// In `br i1 %c, label %a, label %b` the edge to a tells that `%c` is 1.
pub fn edge_state<V: Values>(
    alloc: Global,
    f: &Checked,
    end: &State<V>,
    edge: Edge,
) -> Result<Option<State<V>>, AllocError>
    requires { IsStateOf V.ty V.proper f.now end.now }
    ensures along { IfOk result (λ o. option_map known o ≡ along_edge V.answers f.now edge (known end.now)) }
    ensures state { IfOk result (λ o. ForSome o (IsStateOf V.ty V.proper f.now)) }
{
    edge_state_in(alloc, ready(f), end, edge)
}

fn pair_state_in<V: Values>(
    alloc: Global,
    f: &Function,
    entry: &State<V>,
    from: BlockId,
    to: BlockId,
) -> Result<Option<State<V>>, AllocError>
    requires ready { IsReady f.now }
    requires few { HasFewNames f.now }
    requires state { IsStateOf V.ty V.proper f.now entry.now }
    ensures pair { IfOk result (λ o. option_map known o ≡ left_to V.answers f.now from.0 to.0 (known entry.now)) }
    ensures state { IfOk result (λ o. ForSome o (IsStateOf V.ty V.proper f.now)) }
{
    let Some(end) = end_of(alloc, f, from, entry)? else {
        return Ok(None);
    };
    pair(alloc, f, &end, from, to)
}

/// The state of a table before the phis of the block `to`, where it is entered from `from`; None exactly where no run comes
/// there by the table, or no edge leads there.
///
/// In `switch i8 %x, label %o [ i8 1, label %j i8 2, label %j ]` the state before the phis of j says of `%x` what covers 1
/// and 2.
pub fn pair_state<V: Values>(
    alloc: Global,
    f: &Checked,
    table: &Table<V>,
    from: BlockId,
    to: BlockId,
) -> Result<Option<State<V>>, AllocError>
    requires { AreStates V.ty V.proper f.now table.now }
    ensures pair { IfOk result (λ o. option_map known o ≡ state_at V.answers f.now (kept_entries table.now) (Into (Some from.0) to.0)) }
    ensures state { IfOk result (λ o. ForSome o (IsStateOf V.ty V.proper f.now)) }
{
    let Some(entry) = table.entry(from) else {
        return Ok(None);
    };
    pair_state_in(alloc, ready(f), entry, from, to)
}
