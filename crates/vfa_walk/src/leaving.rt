//! What the edges of a block hand on.

ghost use Rattle.std.specs.Prelude.{◌≡◌, ◌<◌, ◌≤◌, ◌^◌, ◌+◌, [], ◌∷◌, All, IfOk, IfSome, IsTrue, length, nat_eq, if◌then◌else◌, slice_get};
ghost use Rattle.std.specs.Option.{ForSome, option_map};
ghost use Rattle.vfa_ir.specs.declared.operations.BlockId.{BlockId};
ghost use Rattle.vfa_ir.specs.declared.operations.Ty.TheVariants.{Int};
ghost use Rattle.vfa_ir.specs.declared.functions.Term.TheVariants.{CondBr, Switch};
ghost use Rattle.vfa_ir.specs.PhisFit.{targets};
ghost use Rattle.vfa_ir.specs.Walks.{successors};
ghost use Rattle.vfa_mean.specs.Outcomes.{entry_from};
ghost use Rattle.vfa_cfg.specs.declared.listing.Way.TheVariants.{Always, Yes, No, Other};
ghost use Rattle.vfa_cfg.specs.Edges.{block_edges, case_edges, edge};
ghost use Rattle.vfa_values.specs.Conditions.{IsOf};
ghost use Rattle.vfa_cond.specs.Conditions.{AreFacts, IsNumberOperand};
ghost use Rattle.vfa_cond.specs.Narrowing.{Becomes};
ghost use Rattle.vfa_cond.specs.States.{known};
ghost use Rattle.vfa_walk.specs.Chains.{AreChains};
ghost use Rattle.vfa_walk.specs.Joining.{joined};
ghost use Rattle.vfa_walk.specs.Kept.{IsStateOf};
ghost use Rattle.vfa_walk.specs.Leaving.{along_way, assigned, paired, phi_fact, told_case, told_no_case, with_phis};
ghost use Rattle.vfa_walk.specs.Passes.{merged};
ghost use Rattle.vfa_walk.specs.Ready.{HasFewNames, IsNarrowable, IsReady, IsReadyBlock, IsReadyPhi, IsReadyTerm};

use crate::blocks::block_at;
use crate::chains::Chains;
use crate::definitions::redefine;
use crate::joining::merge;
use crate::operands::fact_of;
use crate::telling::tell;
use std::alloc::{AllocError, Global};
use vfa_cfg::{Edge, Way};
use vfa_cond::State;
use vfa_ir::{Block, BlockId, Few, Function, Operand, Phi, Pred, Term, Ty};
use vfa_values::Values;

/// Tells which way a conditional branch went.
fn tell_branch<V: Values>(state: &mut State<V>, f: &Function, c: Operand, way: Way) -> bool
    requires function { IsNarrowable f.now }
    requires operand { IsNumberOperand f.now 1 c }
    requires state { IsStateOf V.ty V.proper f.now state.old }
    ensures becomes { (yes no : BlockId) → Becomes (along_way V.answers f.now (CondBr c yes no) way (known state.old)) result (known state.new) }
    ensures state { IsTrue result → IsStateOf V.ty V.proper f.now state.new }
{
    match way {
        Way::Yes => tell(state, f, c, 1, Pred::Eq, 1),
        Way::No => tell(state, f, c, 1, Pred::Eq, 0),
        Way::Always | Way::Other | Way::Case(_) => true,
    }
}

/// Tells that the operand of a switch is none of the cases.
fn tell_no_case<V: Values>(
    state: &mut State<V>,
    f: &Function,
    on: Operand,
    width: u32,
    cases: &[(u128, BlockId)],
) -> bool
    requires function { IsNarrowable f.now }
    requires operand { IsNumberOperand f.now width on }
    requires cases { All (λ c. c.0 < 2 ^ width) cases.now }
    requires state { IsStateOf V.ty V.proper f.now state.old }
    ensures becomes { Becomes (told_no_case V.answers f.now on width cases.now (known state.old)) result (known state.new) }
    ensures state { IsTrue result → IsStateOf V.ty V.proper f.now state.new }
{
    'cases: for case in cases {
        if !tell(state, f, on, width, Pred::Ne, case.0) {
            return false;
        }
    }
    true
}

/// Tells that the operand of a switch is the number of the case at this place.
fn tell_case<V: Values>(
    state: &mut State<V>,
    f: &Function,
    on: Operand,
    width: u32,
    cases: &[(u128, BlockId)],
    place: u32,
) -> bool
    requires function { IsNarrowable f.now }
    requires operand { IsNumberOperand f.now width on }
    requires cases { All (λ c. c.0 < 2 ^ width) cases.now }
    requires state { IsStateOf V.ty V.proper f.now state.old }
    ensures becomes { Becomes (told_case V.answers f.now on width (slice_get cases.now place) (known state.old)) result (known state.new) }
    ensures state { IsTrue result → IsStateOf V.ty V.proper f.now state.new }
{
    match cases.get(place as usize) {
        Some(case) => tell(state, f, on, width, Pred::Eq, case.0),
        None => true,
    }
}

/// Tells which way a switch went.
fn tell_switch<V: Values>(
    state: &mut State<V>,
    f: &Function,
    on: Operand,
    width: u32,
    cases: &Few<(u128, BlockId)>,
    way: Way,
) -> bool
    requires function { IsNarrowable f.now }
    requires operand { IsNumberOperand f.now width on }
    requires cases { All (λ c. c.0 < 2 ^ width) cases.now }
    requires state { IsStateOf V.ty V.proper f.now state.old }
    ensures becomes { (other : BlockId) → Becomes (along_way V.answers f.now (Switch width on other cases.now) way (known state.old)) result (known state.new) }
    ensures state { IsTrue result → IsStateOf V.ty V.proper f.now state.new }
{
    match way {
        Way::Other => tell_no_case(state, f, on, width, cases.as_slice()),
        Way::Case(place) => tell_case(state, f, on, width, cases.as_slice(), place),
        Way::Always | Way::Yes | Way::No => true,
    }
}

/// Makes of the state before a terminator the one that an edge hands on; a no means that no run takes the edge.
pub(crate) fn take_edge<V: Values>(
    state: &mut State<V>,
    f: &Function,
    term: &Term,
    way: Way,
) -> bool
    requires function { IsNarrowable f.now }
    requires term { IsReadyTerm f.now term.now }
    requires state { IsStateOf V.ty V.proper f.now state.old }
    ensures becomes { Becomes (along_way V.answers f.now term.now way (known state.old)) result (known state.new) }
    ensures state { IsTrue result → IsStateOf V.ty V.proper f.now state.new }
{
    match term {
        Term::CondBr { c, .. } => tell_branch(state, f, *c, way),
        Term::Switch {
            width,
            on,
            cases,
            ..
        } => tell_switch(state, f, *on, *width, cases, way),
        Term::Ret { .. } | Term::Br(_) | Term::Unreachable => true,
    }
}

/// How many edges a block has.
pub(crate) fn edge_count(term: &Term) -> usize
    ensures { result ≡ length (targets term.now) }
{
    match term {
        Term::Ret { .. } | Term::Unreachable => 0,
        Term::Br(_) => 1,
        Term::CondBr { .. } => 2,
        Term::Switch { cases, .. } => cases.as_slice().len() + 1,
    }
}

/// The edge of a block with one edge.
fn branch_edge(from: BlockId, to: BlockId, k: usize) -> Option<Edge>
    ensures edge { result ≡ slice_get (edge from.0 to Always ∷ []) k }
    ensures from { IfSome result (λ e. e.from ≡ from) }
{
    match k {
        0 => Some(Edge {
            from,
            to,
            way: Way::Always,
        }),
        _ => None,
    }
}

/// The edge of a conditional branch of this number.
fn conditional_edge(from: BlockId, yes: BlockId, no: BlockId, k: usize) -> Option<Edge>
    ensures edge { result ≡ slice_get (edge from.0 yes Yes ∷ edge from.0 no No ∷ []) k }
    ensures from { IfSome result (λ e. e.from ≡ from) }
{
    match k {
        0 => Some(Edge {
            from,
            to: yes,
            way: Way::Yes,
        }),
        1 => Some(Edge {
            from,
            to: no,
            way: Way::No,
        }),
        _ => None,
    }
}

/// The edge of a switch of this number, counted from 0 as written.
fn switch_edge(from: BlockId, other: BlockId, cases: &[(u128, BlockId)], k: usize) -> Option<Edge>
    requires { length cases.now ≤ 2 ^ 28 }
    ensures edge { result ≡ slice_get (edge from.0 other Other ∷ case_edges from.0 0 cases.now) k }
    ensures from { IfSome result (λ e. e.from ≡ from) }
{
    if k == 0 {
        return Some(Edge {
            from,
            to: other,
            way: Way::Other,
        });
    }
    match cases.get(k - 1) {
        Some(case) => Some(Edge {
            from,
            to: case.1,
            way: Way::Case((k - 1) as u32),
        }),
        None => None,
    }
}

/// The edge of a block of this number, counted from 0 as written; None where it has no more than `k`.
pub(crate) fn edge_at(from: BlockId, term: &Term, k: usize) -> Option<Edge>
    requires { length (targets term.now) ≤ 2 ^ 28 + 1 }
    ensures edge { result ≡ slice_get (block_edges from.0 term.now) k }
    ensures from { IfSome result (λ e. e.from ≡ from) }
{
    match term {
        Term::Ret { .. } | Term::Unreachable => None,
        Term::Br(to) => branch_edge(from, *to, k),
        Term::CondBr { yes, no, .. } => conditional_edge(from, *yes, *no, k),
        Term::Switch { other, cases, .. } => switch_edge(from, *other, cases.as_slice(), k),
    }
}

/// What an edge makes of the state before the terminator of its block; None where no run takes it.
pub(crate) fn along<V: Values>(
    alloc: Global,
    f: &Function,
    end: &State<V>,
    term: &Term,
    way: Way,
) -> Result<Option<State<V>>, AllocError>
    requires function { IsNarrowable f.now }
    requires term { IsReadyTerm f.now term.now }
    requires state { IsStateOf V.ty V.proper f.now end.now }
    ensures along { IfOk result (λ o. option_map known o ≡ along_way V.answers f.now term.now way (known end.now)) }
    ensures state { IfOk result (λ o. ForSome o (IsStateOf V.ty V.proper f.now)) }
{
    let mut state = end.copied(alloc)?;
    if take_edge(&mut state, f, term, way) {
        return Ok(Some(state));
    }
    Ok(None)
}

/// Joins what the edge that goes this way hands on.
fn join_along<V: Values>(
    alloc: Global,
    f: &Function,
    end: &State<V>,
    term: &Term,
    way: Way,
    sum: Option<State<V>>,
) -> Result<Option<State<V>>, AllocError>
    requires function { IsNarrowable f.now }
    requires term { IsReadyTerm f.now term.now }
    requires state { IsStateOf V.ty V.proper f.now end.now }
    requires sum { ForSome sum (IsStateOf V.ty V.proper f.now) }
    requires few { length f.now.values ≤ 2 ^ 28 }
    ensures joined { IfOk result (λ o. option_map known o ≡ merged (joined V.answers) (option_map known sum) (along_way V.answers f.now term.now way (known end.now))) }
    ensures state { IfOk result (λ o. ForSome o (IsStateOf V.ty V.proper f.now)) }
{
    let next = along(alloc, f, end, term, way)?;
    Ok(merge(f, sum, next))
}

/// Joins what an edge hands on, if it leads to the block.
fn join_edge<V: Values>(
    alloc: Global,
    f: &Function,
    end: &State<V>,
    term: &Term,
    edge: Edge,
    to: BlockId,
    sum: Option<State<V>>,
) -> Result<Option<State<V>>, AllocError>
    requires function { IsNarrowable f.now }
    requires term { IsReadyTerm f.now term.now }
    requires state { IsStateOf V.ty V.proper f.now end.now }
    requires sum { ForSome sum (IsStateOf V.ty V.proper f.now) }
    requires few { length f.now.values ≤ 2 ^ 28 }
    ensures joined { IfOk result (λ o. option_map known o ≡
        (if nat_eq edge.to.0 to.0 then merged (joined V.answers) (option_map known sum) (along_way V.answers f.now term.now edge.way (known end.now))
        else option_map known sum)) }
    ensures state { IfOk result (λ o. ForSome o (IsStateOf V.ty V.proper f.now)) }
{
    if edge.to != to {
        return Ok(sum);
    }
    join_along(alloc, f, end, term, edge.way, sum)
}

/// What the edges of this block to another make of the state before its terminator.
fn pair_from<V: Values>(
    alloc: Global,
    f: &Function,
    end: &State<V>,
    from: BlockId,
    block: &Block,
    to: BlockId,
) -> Result<Option<State<V>>, AllocError>
    requires ready { IsReady f.now }
    requires few { HasFewNames f.now }
    requires block { slice_get f.now.blocks from.0 ≡ Some block.now }
    requires ready_block { IsReadyBlock f.now block.now }
    requires edges { length (targets block.now.term) ≤ 2 ^ 28 + 1 }
    requires state { IsStateOf V.ty V.proper f.now end.now }
    ensures pair { IfOk result (λ o. option_map known o ≡ paired V.answers f.now from.0 to.0 (known end.now)) }
    ensures state { IfOk result (λ o. ForSome o (IsStateOf V.ty V.proper f.now)) }
{
    let mut sum: Option<State<V>> = None;
    'edges: for k in 0..edge_count(&block.term) {
        let Some(edge) = edge_at(from, &block.term, k) else {
            return Ok(sum);
        };
        sum = join_edge(alloc, f, end, &block.term, edge, to, sum)?;
    }
    Ok(sum)
}

/// What all edges of a block to another make of the state before its terminator; None where there is no such edge, or no
/// run takes one.
pub(crate) fn pair<V: Values>(
    alloc: Global,
    f: &Function,
    end: &State<V>,
    from: BlockId,
    to: BlockId,
) -> Result<Option<State<V>>, AllocError>
    requires ready { IsReady f.now }
    requires few { HasFewNames f.now }
    requires state { IsStateOf V.ty V.proper f.now end.now }
    ensures pair { IfOk result (λ o. option_map known o ≡ paired V.answers f.now from.0 to.0 (known end.now)) }
    ensures state { IfOk result (λ o. ForSome o (IsStateOf V.ty V.proper f.now)) }
{
    match block_at(f, from) {
        Some(block) => pair_from(alloc, f, end, from, block, to),
        None => Ok(None),
    }
}

/// The operand that a phi has for a predecessor; `poison` where it has none.
fn entry_from(from: BlockId, entries: &[(Operand, BlockId)]) -> Operand
    ensures { result ≡ entry_from from.0 entries.now }
{
    'entries: for entry in entries {
        if entry.1 == from {
            return entry.0;
        }
    }
    Operand::Poison
}

/// What is known of the operand that a phi has for a predecessor.
fn phi_fact<V: Values>(f: &Function, before: &State<V>, from: BlockId, phi: &Phi) -> V
    requires phi { IsReadyPhi f.now phi.now }
    requires facts { AreFacts V.ty V.proper f.now (known before.now) }
    ensures fact { result ≡ phi_fact V.answers from.0 (known before.now) phi.now }
    ensures of_type { IsOf V.ty V.proper (Int phi.now.width) result }
{
    fact_of(
        f,
        before,
        Ty::Int(phi.width),
        entry_from(from, phi.entries.as_slice()),
    )
}

/// Assigns phis what their operands are before.
fn assign<V: Values>(
    state: &mut State<V>,
    f: &Function,
    before: &State<V>,
    from: BlockId,
    phis: &[Phi],
)
    requires phis { All (IsReadyPhi f.now) phis.now }
    requires state { IsStateOf V.ty V.proper f.now state.old }
    requires facts { AreFacts V.ty V.proper f.now (known before.now) }
    ensures change { known state.new ≡ assigned V.answers f.now from.0 (known before.now) phis.now (known state.old) }
    ensures state { IsStateOf V.ty V.proper f.now state.new }
{
    'phis: for phi in phis {
        let fact = phi_fact(f, before, from, phi);
        redefine(state, f, phi.result, fact);
    }
}

/// The state with the phis of this block assigned.
fn assigned_copy<V: Values>(
    alloc: Global,
    f: &Function,
    before: &State<V>,
    from: BlockId,
    block: &Block,
) -> Result<State<V>, AllocError>
    requires phis { All (IsReadyPhi f.now) block.now.phis }
    requires state { IsStateOf V.ty V.proper f.now before.now }
    ensures change { IfOk result (λ s. known s ≡ assigned V.answers f.now from.0 (known before.now) block.now.phis (known before.now)) }
    ensures state { IfOk result (IsStateOf V.ty V.proper f.now) }
{
    let mut state = before.copied(alloc)?;
    assign(&mut state, f, before, from, block.phis.as_slice());
    Ok(state)
}

/// The state with the phis of this block assigned; where it has none, that is the state itself.
fn with_phis_of<V: Values>(
    alloc: Global,
    f: &Function,
    before: State<V>,
    from: BlockId,
    block: &Block,
) -> Result<State<V>, AllocError>
    requires phis { All (IsReadyPhi f.now) block.now.phis }
    requires state { IsStateOf V.ty V.proper f.now before }
    ensures change { IfOk result (λ s. known s ≡ assigned V.answers f.now from.0 (known before) block.now.phis (known before)) }
    ensures state { IfOk result (IsStateOf V.ty V.proper f.now) }
{
    if block.phis.as_slice().is_empty() {
        return Ok(before);
    }
    assigned_copy(alloc, f, &before, from, block)
}

/// Assigns all phis of a block that is entered from another.
fn assign_all<V: Values>(
    alloc: Global,
    f: &Function,
    before: State<V>,
    from: BlockId,
    to: BlockId,
) -> Result<State<V>, AllocError>
    requires ready { IsReady f.now }
    requires state { IsStateOf V.ty V.proper f.now before }
    ensures change { IfOk result (λ s. known s ≡ with_phis V.answers f.now from.0 to.0 (known before)) }
    ensures state { IfOk result (IsStateOf V.ty V.proper f.now) }
{
    match block_at(f, to) {
        Some(block) => with_phis_of(alloc, f, before, from, block),
        None => Ok(before),
    }
}

/// What all edges of a block to another hand on to it, its phis done; None where there is no such edge, or no run takes one.
pub(crate) fn hand_on<V: Values>(
    alloc: Global,
    f: &Function,
    end: &State<V>,
    from: BlockId,
    to: BlockId,
) -> Result<Option<State<V>>, AllocError>
    requires ready { IsReady f.now }
    requires few { HasFewNames f.now }
    requires state { IsStateOf V.ty V.proper f.now end.now }
    ensures handed { IfOk result (λ o. option_map known o ≡ option_map (with_phis V.answers f.now from.0 to.0) (paired V.answers f.now from.0 to.0 (known end.now))) }
    ensures state { IfOk result (λ o. ForSome o (IsStateOf V.ty V.proper f.now)) }
{
    let Some(before) = pair(alloc, f, end, from, to)? else {
        return Ok(None);
    };
    Ok(Some(assign_all(alloc, f, before, from, to)?))
}

/// What the edges of this block to another make of the state before its terminator, by the first of them and the chain.
fn pair_along<V: Values>(
    alloc: Global,
    f: &Function,
    end: &State<V>,
    from: BlockId,
    block: &Block,
    to: BlockId,
    chains: &Chains,
    first: usize,
) -> Result<Option<State<V>>, AllocError>
    requires ready { IsReady f.now }
    requires few { HasFewNames f.now }
    requires block { slice_get f.now.blocks from.0 ≡ Some block.now }
    requires ready_block { IsReadyBlock f.now block.now }
    requires edges { length (targets block.now.term) ≤ 2 ^ 28 + 1 }
    requires state { IsStateOf V.ty V.proper f.now end.now }
    requires chains { AreChains (successors f.now from.0) chains.now.first.items chains.now.next.items }
    requires first { slice_get chains.now.first.items to.0 ≡ Some first }
    ensures pair { IfOk result (λ o. option_map known o ≡ paired V.answers f.now from.0 to.0 (known end.now)) }
    ensures state { IfOk result (λ o. ForSome o (IsStateOf V.ty V.proper f.now)) }
{
    let mut sum: Option<State<V>> = None;
    let mut k = first;
    'chain: while let Some(edge) = edge_at(from, &block.term, k) {
        sum = join_along(alloc, f, end, &block.term, edge.way, sum)?;
        k = chains.after(k);
    }
    Ok(sum)
}

/// What all edges of this block to another hand on to it, as `hand_on` does, by the first of them and the chain.
pub(crate) fn hand_along<V: Values>(
    alloc: Global,
    f: &Function,
    end: &State<V>,
    from: BlockId,
    block: &Block,
    to: BlockId,
    chains: &Chains,
    first: usize,
) -> Result<Option<State<V>>, AllocError>
    requires ready { IsReady f.now }
    requires few { HasFewNames f.now }
    requires block { slice_get f.now.blocks from.0 ≡ Some block.now }
    requires ready_block { IsReadyBlock f.now block.now }
    requires edges { length (targets block.now.term) ≤ 2 ^ 28 + 1 }
    requires state { IsStateOf V.ty V.proper f.now end.now }
    requires chains { AreChains (successors f.now from.0) chains.now.first.items chains.now.next.items }
    requires first { slice_get chains.now.first.items to.0 ≡ Some first }
    ensures handed { IfOk result (λ o. option_map known o ≡ option_map (with_phis V.answers f.now from.0 to.0) (paired V.answers f.now from.0 to.0 (known end.now))) }
    ensures state { IfOk result (λ o. ForSome o (IsStateOf V.ty V.proper f.now)) }
{
    let Some(before) = pair_along(alloc, f, end, from, block, to, chains, first)? else {
        return Ok(None);
    };
    Ok(Some(assign_all(alloc, f, before, from, to)?))
}
