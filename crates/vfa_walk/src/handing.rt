//! What a block hands on to the blocks behind it.

ghost use Rattle.std.specs.Prelude.{◌≡◌, ◌<◌, ◌≤◌, ◌+◌, ◌^◌, ℕ, IfOk, Some, length, nat_eq, if◌then◌else◌, slice_get, take};
ghost use Rattle.std.specs.Option.{ForSome, option_map};
ghost use Rattle.vfa_ir.specs.PhisFit.{targets};
ghost use Rattle.vfa_ir.specs.Walks.{is_in, successors};
ghost use Rattle.vfa_cond.specs.States.{known};
ghost use Rattle.vfa_walk.specs.Chains.{AreChains};
ghost use Rattle.vfa_walk.specs.Joining.{joined};
ghost use Rattle.vfa_walk.specs.Kept.{AreStates, IsStateOf, kept_entries};
ghost use Rattle.vfa_walk.specs.Leaving.{handed_on};
ghost use Rattle.vfa_walk.specs.Passes.{followed, merged};
ghost use Rattle.vfa_walk.specs.Ready.{HasFewNames, IsReady, IsReadyBlock};
ghost use Rattle.vfa_walk.specs.Sending.{HaveGot, entered};

use crate::blocks::block_at;
use crate::chains::{Chains, chains_of};
use crate::joining::merge;
use crate::leaving::{edge_count, hand_along, hand_on};
use crate::pairs::end_of;
use crate::tables::Table;
use std::alloc::{AllocError, Global};
use vfa_cfg::successor;
use vfa_cond::State;
use vfa_ir::{Block, BlockId, Function};
use vfa_values::Values;

/// Of so many edges no chains are made.
const FEW_EDGES: usize = 2;

/// Joins what comes to a block of the function to what it has got.
fn give<V: Values>(got: &mut Table<V>, f: &Function, to: BlockId, next: Option<State<V>>)
    requires states { AreStates V.ty V.proper f.now got.old }
    requires next { ForSome next (IsStateOf V.ty V.proper f.now) }
    requires few { length f.now.values ≤ 2 ^ 28 }
    ensures given { (b : ℕ) → b < length got.old → kept_entries got.new b
        ≡ (if nat_eq b to.0 then merged (joined V.answers) (kept_entries got.old b) (option_map known next) else kept_entries got.old b) }
    ensures states { AreStates V.ty V.proper f.now got.new }
    ensures count { length got.new ≡ length got.old }
{
    if to.0 as usize >= got.as_slice().len() {
        return;
    }
    let sum = got.take(to);
    got.set(to, merge(f, sum, next));
}

/// Whether an earlier edge of a block than the one of this number leads to a block.
fn comes_earlier(f: &Function, from: BlockId, to: BlockId, k: usize) -> bool
    requires { k ≤ length (successors f.now from.0) }
    ensures { result ≡ is_in to.0 (take k (successors f.now from.0)) }
{
    'earlier: for j in 0..k {
        let Some(other) = successor(f, from, j) else {
            return false;
        };
        if other == to {
            return true;
        }
    }
    false
}

/// Hands on to a block what all edges there make of the state before the terminator.
fn hand_to<V: Values>(
    alloc: Global,
    f: &Function,
    got: &mut Table<V>,
    end: &State<V>,
    from: BlockId,
    to: BlockId,
) -> Result<(), AllocError>
    requires ready { IsReady f.now }
    requires few { HasFewNames f.now }
    requires states { AreStates V.ty V.proper f.now got.old }
    requires state { IsStateOf V.ty V.proper f.now end.now }
    ensures given { IfOk result (λ _. (b : ℕ) → b < length got.old → kept_entries got.new b
        ≡ (if nat_eq b to.0 then merged (joined V.answers) (kept_entries got.old b) (entered V.answers f.now from.0 to.0 (known end.now)) else kept_entries got.old b)) }
    ensures states { IfOk result (λ _. AreStates V.ty V.proper f.now got.new) }
    ensures count { IfOk result (λ _. length got.new ≡ length got.old) }
{
    let next = hand_on(alloc, f, end, from, to)?;
    give(got, f, to, next);
    Ok(())
}

/// Hands on to a block, unless an earlier edge led there too.
fn hand_first<V: Values>(
    alloc: Global,
    f: &Function,
    got: &mut Table<V>,
    end: &State<V>,
    from: BlockId,
    to: BlockId,
    k: usize,
) -> Result<(), AllocError>
    requires ready { IsReady f.now }
    requires few { HasFewNames f.now }
    requires states { AreStates V.ty V.proper f.now got.old }
    requires state { IsStateOf V.ty V.proper f.now end.now }
    requires number { k ≤ length (successors f.now from.0) }
    ensures given { IfOk result (λ _. (b : ℕ) → b < length got.old → kept_entries got.new b
        ≡ (if is_in to.0 (take k (successors f.now from.0)) then kept_entries got.old b
        else if nat_eq b to.0 then merged (joined V.answers) (kept_entries got.old b) (entered V.answers f.now from.0 to.0 (known end.now)) else kept_entries got.old b)) }
    ensures states { IfOk result (λ _. AreStates V.ty V.proper f.now got.new) }
    ensures count { IfOk result (λ _. length got.new ≡ length got.old) }
{
    if comes_earlier(f, from, to, k) {
        return Ok(());
    }
    hand_to(alloc, f, got, end, from, to)
}

/// Hands on to each block that an edge leads to, once.
fn hand_each<V: Values>(
    alloc: Global,
    f: &Function,
    got: &mut Table<V>,
    end: &State<V>,
    from: BlockId,
) -> Result<(), AllocError>
    requires ready { IsReady f.now }
    requires few { HasFewNames f.now }
    requires states { AreStates V.ty V.proper f.now got.old }
    requires state { IsStateOf V.ty V.proper f.now end.now }
    ensures given { IfOk result (λ _. HaveGot V.answers (λ to. entered V.answers f.now from.0 to (known end.now)) got.old got.new) }
    ensures states { IfOk result (λ _. AreStates V.ty V.proper f.now got.new) }
    ensures count { IfOk result (λ _. length got.new ≡ length got.old) }
{
    let mut k: usize = 0;
    'edges: while let Some(to) = successor(f, from, k) {
        hand_first(alloc, f, got, end, from, to, k)?;
        k += 1;
    }
    Ok(())
}

/// Hands on to a block by the chain of the edges there, unless an earlier edge than the one of this number led there too.
fn hand_chain<V: Values>(
    alloc: Global,
    f: &Function,
    got: &mut Table<V>,
    end: &State<V>,
    from: BlockId,
    block: &Block,
    to: BlockId,
    chains: &Chains,
    k: usize,
) -> Result<(), AllocError>
    requires ready { IsReady f.now }
    requires few { HasFewNames f.now }
    requires block { slice_get f.now.blocks from.0 ≡ Some block.now }
    requires ready_block { IsReadyBlock f.now block.now }
    requires edges { length (targets block.now.term) ≤ 2 ^ 28 + 1 }
    requires states { AreStates V.ty V.proper f.now got.old }
    requires state { IsStateOf V.ty V.proper f.now end.now }
    requires chains { AreChains (successors f.now from.0) chains.now.first.items chains.now.next.items }
    requires blocks { length chains.now.first.items ≡ length got.old }
    requires target { slice_get (successors f.now from.0) k ≡ Some to.0 }
    ensures given { IfOk result (λ _. (b : ℕ) → b < length got.old → kept_entries got.new b
        ≡ (if is_in to.0 (take k (successors f.now from.0)) then kept_entries got.old b
        else if nat_eq b to.0 then merged (joined V.answers) (kept_entries got.old b) (entered V.answers f.now from.0 to.0 (known end.now)) else kept_entries got.old b)) }
    ensures states { IfOk result (λ _. AreStates V.ty V.proper f.now got.new) }
    ensures count { IfOk result (λ _. length got.new ≡ length got.old) }
{
    if !chains.begins(to, k) {
        return Ok(());
    }
    let next = hand_along(alloc, f, end, from, block, to, chains, k)?;
    give(got, f, to, next);
    Ok(())
}

/// Hands on to each block that an edge leads to, once, by the chains of the edges.
fn hand_chains<V: Values>(
    alloc: Global,
    f: &Function,
    got: &mut Table<V>,
    end: &State<V>,
    from: BlockId,
    block: &Block,
) -> Result<(), AllocError>
    requires ready { IsReady f.now }
    requires few { HasFewNames f.now }
    requires block { slice_get f.now.blocks from.0 ≡ Some block.now }
    requires ready_block { IsReadyBlock f.now block.now }
    requires edges { length (targets block.now.term) ≤ 2 ^ 28 + 1 }
    requires states { AreStates V.ty V.proper f.now got.old }
    requires state { IsStateOf V.ty V.proper f.now end.now }
    ensures given { IfOk result (λ _. HaveGot V.answers (λ to. entered V.answers f.now from.0 to (known end.now)) got.old got.new) }
    ensures states { IfOk result (λ _. AreStates V.ty V.proper f.now got.new) }
    ensures count { IfOk result (λ _. length got.new ≡ length got.old) }
{
    let blocks = got.as_slice().len();
    let chains = chains_of(alloc, f, from, edge_count(&block.term), blocks)?;
    let mut k: usize = 0;
    'edges: while let Some(to) = successor(f, from, k) {
        hand_chain(alloc, f, got, end, from, block, to, &chains, k)?;
        k += 1;
    }
    Ok(())
}

/// Hands on to each block that an edge leads to, once. Where there are few edges, all are looked at for each.
fn hand_all<V: Values>(
    alloc: Global,
    f: &Function,
    got: &mut Table<V>,
    end: &State<V>,
    from: BlockId,
) -> Result<(), AllocError>
    requires ready { IsReady f.now }
    requires few { HasFewNames f.now }
    requires states { AreStates V.ty V.proper f.now got.old }
    requires state { IsStateOf V.ty V.proper f.now end.now }
    ensures given { IfOk result (λ _. HaveGot V.answers (λ to. entered V.answers f.now from.0 to (known end.now)) got.old got.new) }
    ensures states { IfOk result (λ _. AreStates V.ty V.proper f.now got.new) }
    ensures count { IfOk result (λ _. length got.new ≡ length got.old) }
{
    let Some(block) = block_at(f, from) else {
        return hand_each(alloc, f, got, end, from);
    };
    if edge_count(&block.term) <= FEW_EDGES {
        return hand_each(alloc, f, got, end, from);
    }
    hand_chains(alloc, f, got, end, from, block)
}

/// Hands on what a block makes of this entry state.
fn hand_over<V: Values>(
    alloc: Global,
    f: &Function,
    got: &mut Table<V>,
    from: BlockId,
    entry: &State<V>,
) -> Result<(), AllocError>
    requires ready { IsReady f.now }
    requires few { HasFewNames f.now }
    requires states { AreStates V.ty V.proper f.now got.old }
    requires state { IsStateOf V.ty V.proper f.now entry.now }
    ensures given { IfOk result (λ _. HaveGot V.answers (λ to. handed_on V.answers f.now from.0 to (known entry.now)) got.old got.new) }
    ensures states { IfOk result (λ _. AreStates V.ty V.proper f.now got.new) }
    ensures count { IfOk result (λ _. length got.new ≡ length got.old) }
{
    let Some(_) = successor(f, from, 0) else {
        return Ok(());
    };
    let Some(end) = end_of(alloc, f, from, entry)? else {
        return Ok(());
    };
    hand_all(alloc, f, got, &end, from)
}

/// Hands on what a block makes of its entry state, if it has one.
pub(crate) fn send<V: Values>(
    alloc: Global,
    f: &Function,
    got: &mut Table<V>,
    from: BlockId,
    entry: &Option<State<V>>,
) -> Result<(), AllocError>
    requires ready { IsReady f.now }
    requires few { HasFewNames f.now }
    requires states { AreStates V.ty V.proper f.now got.old }
    requires entry { ForSome entry.now (IsStateOf V.ty V.proper f.now) }
    ensures given { IfOk result (λ _. HaveGot V.answers (λ to. followed (handed_on V.answers f.now from.0 to) (option_map known entry.now)) got.old got.new) }
    ensures states { IfOk result (λ _. AreStates V.ty V.proper f.now got.new) }
    ensures count { IfOk result (λ _. length got.new ≡ length got.old) }
{
    match entry {
        Some(entry) => hand_over(alloc, f, got, from, entry),
        None => Ok(()),
    }
}
