//! Phis with the entries of the edges that are left, and the operands that are put where they are read.

ghost use Rattle.std.specs.Prelude.{◌≡◌, ◌<◌, ℕ, All, IfOk, OnOk, Some, false, flat_map, length, map, nat_eq, not, slice_get, slice_index_or, slice_set};
ghost use Rattle.std.specs.Option.{option_map};
ghost use Rattle.vfa_ir.specs.PhisFit.{targets};
ghost use Rattle.vfa_mean.specs.Kept.{is_marked};
ghost use Rattle.vfa_cond.specs.States.{known};
ghost use Rattle.vfa_walk.specs.Kept.{AreStates, kept_entries};
ghost use Rattle.vfa_xfer.specs.AnyFacts.{fact_type, IsAnyFact};
ghost use Rattle.vfa_rewrite.specs.ByFacts.{findings_of};
ghost use Rattle.vfa_rewrite.specs.Findings.{Findings};
ghost use Rattle.vfa_rewrite.specs.Found.{AreKeptOf};
ghost use Rattle.vfa_rewrite.specs.Making.{first_marks};
ghost use Rattle.vfa_rewrite.specs.Putting.{ArePutFrom, IsNamed, IsReadyToPut, MayPut, entries_of, entry_put, leads_to, put_by, put_if_from, put_or_poison};
ghost use Rattle.vfa_rewrite.specs.Rewritten.{edge_to, edges_from, edges_of, kept_phis, one_fewer, phi_left, phis_left};

use crate::edges::edge_count;
use crate::found::BlockFindings;
use crate::putting_operands::put;
use crate::putting_terms::has_left;
use smallvec::SmallVec;
use std::alloc::{AllocError, Global};
use vfa_cfg::successor;
use vfa_check::Checked;
use vfa_cond::State;
use vfa_ir::{Block, BlockId, Few, Function, Items, Operand, Phi};
use vfa_walk::{Table, pair_state};
use vfa_xfer::AnyFact;

/// Whether the edge of this number leads to the block.
fn leads_to(f: &Function, from: BlockId, k: usize, to: BlockId) -> bool
    ensures { result ≡ leads_to f.now from.0 k to.0 }
{
    match successor(f, from, k) {
        Some(target) => target.0 == to.0,
        None => false,
    }
}

/// One more, where an edge is left and leads to the block.
fn one_more(is_left: bool, leads: bool, count: usize) -> usize
    requires { count < usize.MAX }
    ensures { result ≡ edge_to is_left leads count }
{
    if !is_left {
        return count;
    }
    if !leads {
        return count;
    }
    count + 1
}

/// How many edges from a block to another are left of those that it has.
fn count_left(f: &Function, from: BlockId, block: &Block, left: &[bool], to: BlockId) -> usize
    requires { slice_get f.now.blocks from.0 ≡ Some block.now }
    ensures { result ≡ edges_from (λ k. slice_index_or left.now k false) to.0 0 (targets block.now.term) }
{
    let mut count: usize = 0;
    'edges: for k in 0..edge_count(&block.term) {
        count = one_more(has_left(left, k), leads_to(f, from, k, to), count);
    }
    count
}

/// How many edges from a block to another are left; of a block that is not left, none.
fn edges_to(
    f: &Function,
    kept: &[BlockFindings],
    reached: &[bool],
    from: BlockId,
    to: BlockId,
) -> usize
    requires { length kept.now ≡ length f.now.blocks }
    ensures { (found : Findings) → AreKeptOf f.now found kept.now → result ≡ edges_of f.now (first_marks f.now found (is_marked reached.now)) to.0 from.0 }
{
    if !has_left(reached, from.0 as usize) {
        return 0;
    }
    let Some(block) = f.blocks.as_slice().get(from.0 as usize) else {
        return 0;
    };
    count_left(f, from, block, kept[from.0 as usize].left.as_slice(), to)
}

/// Notes how many edges from a block are left.
fn set_count(left: &mut Vec<usize>, from: BlockId, count: usize)
    requires { from.0 < length left.old.items }
    ensures { left.new.items ≡ slice_set left.old.items from.0 count }
{
    left[from.0 as usize] = count;
}

/// Notes for each entry how many edges from its block are left.
fn count_entries(
    f: &Function,
    kept: &[BlockFindings],
    reached: &[bool],
    to: BlockId,
    entries: &[(Operand, BlockId)],
    left: &mut Vec<usize>,
)
    requires count { length kept.now ≡ length f.now.blocks }
    requires within { All (λ e. e.1.0 < length left.old.items) entries.now }
    ensures count { length left.new.items ≡ length left.old.items }
    ensures left { (found : Findings) → AreKeptOf f.now found kept.now →
        All (λ e. slice_index_or left.new.items e.1.0 0 ≡ edges_of f.now (first_marks f.now found (is_marked reached.now)) to.0 e.1.0) entries.now }
{
    'each: for entry in entries {
        set_count(left, entry.1, edges_to(f, kept, reached, entry.1, to));
    }
}

/// Takes one of the edges from a block, if there is one.
fn take_edge(left: &mut Vec<usize>, from: BlockId) -> bool
    requires { from.0 < length left.old.items }
    ensures count { length left.new.items ≡ length left.old.items }
    ensures some { result ≡ not (nat_eq (slice_index_or left.old.items from.0 0) 0) }
    ensures left { (p : ℕ) → slice_index_or left.new.items p 0 ≡ one_fewer (λ q. slice_index_or left.old.items q 0) from.0 p }
{
    let count = left[from.0 as usize];
    if count == 0 {
        return false;
    }
    left[from.0 as usize] = count - 1;
    true
}

/// The first entries of each block, as many as edges from it are left, with these operands in place of theirs.
fn keep_entries(
    alloc: Global,
    entries: &[(Operand, BlockId)],
    put: &[Operand],
    left: &mut Vec<usize>,
) -> Result<SmallVec<(Operand, BlockId), 4>, AllocError>
    requires within { All (λ e. e.1.0 < length left.old.items) entries.now }
    requires count { length put.now ≡ length entries.now }
    ensures count { OnOk result (length left.new.items ≡ length left.old.items) }
    ensures entries { IfOk result (λ all. all.items ≡ entries_of entries.now put.now (λ p. slice_index_or left.old.items p 0)) }
{
    let mut all: SmallVec<(Operand, BlockId), 4> = SmallVec::new(alloc);
    'each: for j in 0..entries.len() {
        if !take_edge(left, entries[j].1) {
            continue;
        }
        all.push((put[j], entries[j].1))?;
    }
    Ok(all)
}

/// What is put in place of an entry's operand, where it is one of this block; else what was put before.
fn put_entry(
    f: &Function,
    state: Option<&State<AnyFact>>,
    others: &[Option<Operand>],
    from: BlockId,
    entry: (Operand, BlockId),
    before: Option<Operand>,
) -> Option<Operand>
    requires may { MayPut f.now others.now (option_map (λ s. known s.now) state) }
    requires named { IsNamed f.now entry.0 }
    ensures { result ≡ put_if_from from.0 (put_by f.now others.now (option_map (λ s. known s.now) state.entry)) entry before }
{
    if entry.1.0 != from.0 {
        return before;
    }
    Some(put(f, state, others, entry.0))
}

/// Notes what is put in place of the operand of an entry.
fn set_entry(all: &mut Vec<Option<Operand>>, j: usize, operand: Option<Operand>)
    requires { j < length all.old.items }
    ensures { all.new.items ≡ slice_set all.old.items j operand }
{
    all[j] = operand;
}

/// Puts in place of the operands of the entries of a block, by the state before the phis where they are entered from it.
fn put_from(
    f: &Function,
    state: Option<&State<AnyFact>>,
    others: &[Option<Operand>],
    from: BlockId,
    entries: &[(Operand, BlockId)],
    all: &mut Vec<Option<Operand>>,
)
    requires may { MayPut f.now others.now (option_map (λ s. known s.now) state) }
    requires named { All (λ e. IsNamed f.now e.0) entries.now }
    requires count { length all.old.items ≡ length entries.now }
    ensures { ArePutFrom from.0 (put_by f.now others.now (option_map (λ s. known s.now) state.entry)) entries.now all.old.items (length entries.now) all.new.items }
{
    'each: for j in 0..entries.len() {
        let operand = put_entry(f, state, others, from, entries[j], all[j]);
        set_entry(all, j, operand);
    }
}

/// The operands that were put.
fn operands_put(alloc: Global, all: &[Option<Operand>]) -> Result<Vec<Operand>, AllocError>
    ensures { IfOk result (λ put. put.items ≡ map put_or_poison all.now) }
{
    let mut operands: Vec<Operand> = Vec::new(alloc);
    'each: for operand in all {
        operands.push(operand.unwrap_or(Operand::Poison))?;
    }
    Ok(operands)
}

/// What is put in place of each entry's operand, by the state before the phis where they are entered from the entry's block. The state
/// is made once for each block.
fn put_entries(
    alloc: Global,
    checked: &Checked,
    f: &Function,
    table: &Table<AnyFact>,
    others: &[Option<Operand>],
    to: BlockId,
    entries: &[(Operand, BlockId)],
) -> Result<Vec<Operand>, AllocError>
    requires same { f.now ≡ checked.now }
    requires ready { IsReadyToPut f.now (kept_entries table.now) others.now }
    requires states { AreStates fact_type IsAnyFact f.now table.now }
    requires named { All (λ e. IsNamed f.now e.0) entries.now }
    ensures { IfOk result (λ put. put.items ≡ map (entry_put f.now (findings_of f.now (kept_entries table.now)) to.0) entries.now) }
{
    let mut all: Vec<Option<Operand>> = vec![in alloc; None; entries.len()]?;
    'each: for k in 0..entries.len() {
        if all[k].is_some() {
            continue;
        }
        let from = entries[k].1;
        let state = pair_state(alloc, checked, table, from, to)?;
        put_from(f, state.as_ref(), others, from, entries, &mut all);
    }
    let put = operands_put(alloc, all.as_slice())?;
    Ok(put)
}

/// The entries of all these phis, one after another.
fn all_entries(alloc: Global, phis: &[Phi]) -> Result<Vec<(Operand, BlockId)>, AllocError>
    ensures { IfOk result (λ all. all.items ≡ flat_map (λ p. p.entries) phis.now) }
{
    let mut all: Vec<(Operand, BlockId)> = Vec::new(alloc);
    'each: for phi in phis {
        all.extend_from_slice(phi.entries.as_slice())?;
    }
    Ok(all)
}

/// A phi with the entries of the edges that are left, and these operands in place of all its own.
fn put_phi(
    alloc: Global,
    f: &Function,
    kept: &[BlockFindings],
    reached: &[bool],
    to: BlockId,
    phi: &Phi,
    put: &[Operand],
    left: &mut Vec<usize>,
) -> Result<Phi, AllocError>
    requires count { length kept.now ≡ length f.now.blocks }
    requires within { All (λ e. e.1.0 < length left.old.items) phi.now.entries }
    requires each { length put.now ≡ length phi.now.entries }
    ensures count { OnOk result (length left.new.items ≡ length left.old.items) }
    ensures phi { (found : Findings) → AreKeptOf f.now found kept.now → put.now ≡ map (entry_put f.now found to.0) phi.now.entries →
        IfOk result (λ p. p ≡ phi_left f.now (first_marks f.now found (is_marked reached.now)) to.0 phi.now) }
{
    let entries = phi.entries.as_slice();
    count_entries(f, kept, reached, to, entries, left);
    let entries = keep_entries(alloc, entries, put, left)?;
    Ok(Phi {
        result: phi.result,
        width: phi.width,
        entries: Few(entries),
    })
}

/// The phis of a block with the entries of the edges that are left.
fn kept_phis(
    alloc: Global,
    f: &Function,
    kept: &[BlockFindings],
    reached: &[bool],
    to: BlockId,
    phis: &[Phi],
    put: &[Operand],
    left: &mut Vec<usize>,
) -> Result<Vec<Phi>, AllocError>
    requires count { length kept.now ≡ length f.now.blocks }
    requires within { All (λ phi. All (λ e. e.1.0 < length left.old.items) phi.entries) phis.now }
    requires each { length put.now ≡ length (flat_map (λ p. p.entries) phis.now) }
    ensures count { OnOk result (length left.new.items ≡ length left.old.items) }
    ensures phis { (found : Findings) → AreKeptOf f.now found kept.now → put.now ≡ map (entry_put f.now found to.0) (flat_map (λ p. p.entries) phis.now) →
        IfOk result (λ all. all.items ≡ kept_phis f.now (first_marks f.now found (is_marked reached.now)) to.0 phis.now) }
{
    let mut all: Vec<Phi> = Vec::new(alloc);
    let mut at: usize = 0;
    'each: for phi in phis {
        let next = at + phi.entries.as_slice().len();
        let own = &put[at..next];
        all.push(put_phi(alloc, f, kept, reached, to, phi, own, left)?)?;
        at = next;
    }
    Ok(all)
}

/// The phis of a block of the function with the entries of the edges that are left, and what is put in place of their operands.
pub(crate) fn put_phis(
    alloc: Global,
    checked: &Checked,
    f: &Function,
    table: &Table<AnyFact>,
    kept: &[BlockFindings],
    reached: &[bool],
    others: &[Option<Operand>],
    b: BlockId,
    block: &Block,
    left: &mut Vec<usize>,
) -> Result<Items<Phi>, AllocError>
    requires same { f.now ≡ checked.now }
    requires ready { IsReadyToPut f.now (kept_entries table.now) others.now }
    requires block { slice_get f.now.blocks b.0 ≡ Some block.now }
    requires states { AreStates fact_type IsAnyFact f.now table.now }
    requires kept { AreKeptOf f.now (findings_of f.now (kept_entries table.now)) kept.now }
    requires room { length left.old.items ≡ length f.now.blocks }
    ensures count { OnOk result (length left.new.items ≡ length left.old.items) }
    ensures phis { IfOk result (λ all. all ≡
        phis_left f.now (first_marks f.now (findings_of f.now (kept_entries table.now)) (is_marked reached.now)) b.0 block.now.phis) }
{
    if table.entry(b).is_none() {
        return Ok(Items(Vec::new(alloc)));
    }
    let phis = block.phis.as_slice();
    let asked = all_entries(alloc, phis)?;
    let put = put_entries(alloc, checked, f, table, others, b, asked.as_slice())?;
    let all = kept_phis(alloc, f, kept, reached, b, phis, put.as_slice(), left)?;
    Ok(Items(all))
}
