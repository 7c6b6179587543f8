//! Passes of states through the blocks.

ghost use Rattle.std.specs.Prelude.{◌≡◌, ◌<◌, ◌≤◌, ◌^◌, ℕ, Bool, List, IfOk, MatchBool, None, false, length, nat_eq, if◌then◌else◌, slice_index_or, slice_set, true};
ghost use Rattle.std.specs.List.{IsDistinct};
ghost use Rattle.std.specs.Option.{ForSome, option_map};
ghost use Rattle.vfa_ir.specs.declared.operations.BlockId.{BlockId};
ghost use Rattle.vfa_ir.specs.Walks.{IsDefinedAt, IsMissedAt};
ghost use Rattle.vfa_mean.specs.Outcomes.{first_block, has_noundef, type_of};
ghost use Rattle.vfa_cfg.specs.Heads.{is_head};
ghost use Rattle.vfa_cfg.specs.Order.{IsOrder, numbers};
ghost use Rattle.vfa_cfg.specs.Ordered.{IsOrdered};
ghost use Rattle.vfa_values.specs.Conditions.{IsOf};
ghost use Rattle.vfa_cond.specs.States.{known, with_fact};
ghost use Rattle.vfa_walk.specs.Analysis.{Layout, IsLayout, flow_of, start_state};
ghost use Rattle.vfa_walk.specs.Joining.{kept_names};
ghost use Rattle.vfa_walk.specs.Kept.{AreStates, IsStateOf, entry_in, kept_entries, kept_in_order, taken};
ghost use Rattle.vfa_walk.specs.Passes.{pass_next, pass_table};
ghost use Rattle.vfa_walk.specs.Ready.{HasFewNames, IsNameOf, IsReady};
ghost use Rattle.vfa_walk.specs.Sending.{IsApart, IsScopeAt, got_from, layout, next_at};

use crate::definitions::has_noundef;
use crate::handing::send;
use crate::joining::take_over;
use crate::ready::ready;
use crate::tables::Table;
use std::alloc::{AllocError, Global};
use vfa_check::Checked;
use vfa_cond::State;
use vfa_ir::{BlockId, Function, Items, Param, Ty, ValueId};
use vfa_values::Values;

/// The same state once more, if there is one.
pub(crate) fn copied<V: Values>(
    alloc: Global,
    f: &Function,
    entry: &Option<State<V>>,
) -> Result<Option<State<V>>, AllocError>
    requires { ForSome entry.now (IsStateOf V.ty V.proper f.now) }
    ensures same { IfOk result (λ o. option_map known o ≡ option_map known entry.now) }
    ensures state { IfOk result (λ o. ForSome o (IsStateOf V.ty V.proper f.now)) }
{
    let _ = f;
    match entry {
        Some(state) => Ok(Some(state.copied(alloc)?)),
        None => Ok(None),
    }
}

/// Takes what is known of a name away, where it is not in scope at the entry of a block.
fn cut_name<V: Values>(
    state: &mut State<V>,
    checked: &Checked,
    f: &Function,
    b: BlockId,
    v: ValueId,
    near: &mut usize,
)
    requires same { f.now ≡ checked.now }
    requires state { IsStateOf V.ty V.proper f.now state.old }
    requires name { v.0 < length f.now.values }
    ensures change { (names : ℕ → Bool) → MatchBool (names v.0) (IsDefinedAt f.now b.0 0 v.0) (IsMissedAt f.now b.0 0 v.0) →
        known state.new ≡ taken v.0 (kept_names names (known state.old)) (known state.old) }
    ensures state { IsStateOf V.ty V.proper f.now state.new }
{
    if checked.defined(b, v) {
        return;
    }
    take_over(state, f, v, None, false, near);
}

/// Keeps of a state what the entry of a block has in scope.
fn cut<V: Values>(state: &mut State<V>, checked: &Checked, f: &Function, b: BlockId)
    requires same { f.now ≡ checked.now }
    requires state { IsStateOf V.ty V.proper f.now state.old }
    requires few { length f.now.values ≤ 2 ^ 28 }
    ensures change { (names : ℕ → Bool) → IsScopeAt f.now b.0 names →
        known state.new ≡ kept_names names (known state.old) }
    ensures state { IsStateOf V.ty V.proper f.now state.new }
{
    let mut near: usize = 0;
    // the last names first, so that what is taken away stands near the end
    'names: for v in (0..f.values.as_slice().len()).rev() {
        cut_name(state, checked, f, b, ValueId(v as u32), &mut near);
    }
}

/// What is known of the parameters where the function begins.
fn start<V: Values>(alloc: Global, f: &Function) -> Result<State<V>, AllocError>
    requires { IsReady f.now }
    ensures start { IfOk result (λ s. known s ≡ start_state V.answers f.now) }
    ensures state { IfOk result (IsStateOf V.ty V.proper f.now) }
{
    let facts: Vec<(ValueId, V)> = Vec::new(alloc);
    let live: Vec<ValueId> = Vec::new(alloc);
    let mut state = State::of(alloc, f, facts.as_slice(), live.as_slice())?;
    let params = f.params.as_slice();
    let mut left = params.len();
    // of two parameters with one name the first counts, so it is put last
    'params: while left > 0 {
        left -= 1;
        put_parameter(&mut state, f, &params[left]);
    }
    Ok(state)
}

/// What is known of a parameter: any number of its type, never poison where its words say so.
fn parameter_fact<V: Values>(f: &Function, param: &Param) -> V
    requires { IsNameOf f.now (type_of f.now param.now.value) param.now.value }
    ensures fact { result ≡ V.answers.any (type_of f.now param.now.value) (has_noundef param.now.words) }
    ensures of_type { IsOf V.ty V.proper (type_of f.now param.now.value) result }
{
    V::any(type_of(f, param.value), has_noundef(param.words.as_slice()))
}

/// Takes in what is known of a parameter.
fn put_parameter<V: Values>(state: &mut State<V>, f: &Function, param: &Param)
    requires state { IsStateOf V.ty V.proper f.now state.old }
    requires name { IsNameOf f.now (type_of f.now param.now.value) param.now.value }
    ensures change { known state.new ≡ with_fact (known state.old) param.now.value.0 (Some (V.answers.any (type_of f.now param.now.value) (has_noundef param.now.words))) }
    ensures state { IsStateOf V.ty V.proper f.now state.new }
{
    let fact = parameter_fact(f, param);
    state.put(param.value, Some(fact));
}

/// The type of a name.
pub(crate) fn type_of(f: &Function, v: ValueId) -> Ty
    ensures { result ≡ type_of f.now v }
{
    match f.values.as_slice().get(v.0 as usize) {
        Some(value) => value.ty,
        None => Ty::Int(1),
    }
}

/// What a block has got, cut to what its entry has in scope; it is taken out.
fn met<V: Values>(
    checked: &Checked,
    f: &Function,
    got: &mut Table<V>,
    b: BlockId,
) -> Option<State<V>>
    requires same { f.now ≡ checked.now }
    requires few { HasFewNames f.now }
    requires states { AreStates V.ty V.proper f.now got.old }
    ensures met { (names : ℕ → Bool) → IsScopeAt f.now b.0 names →
        option_map known result ≡ option_map (kept_names names) (kept_entries got.old b.0) }
    ensures state { ForSome result (IsStateOf V.ty V.proper f.now) }
    ensures left { got.new ≡ slice_set got.old b.0 None }
{
    let Some(mut state) = got.take(b) else {
        return None;
    };
    cut(&mut state, checked, f, b);
    Some(state)
}

/// Whether a block is a head of the order.
pub(crate) fn is_head(checked: &Checked, f: &Function, order: &[BlockId], b: BlockId) -> bool
    requires same { f.now ≡ checked.now }
    requires order { IsOrder f.now order.now }
    ensures { result ≡ is_head f.now order.now b.0 }
{
    let _ = f;
    let _ = order;
    checked.is_head(b)
}

/// The entry state of a block in its turn. What a block other than a head has got is taken out.
fn entry_of<V: Values>(
    alloc: Global,
    checked: &Checked,
    f: &Function,
    order: &[BlockId],
    got: &mut Table<V>,
    b: BlockId,
    head: &Option<State<V>>,
) -> Result<Option<State<V>>, AllocError>
    requires same { f.now ≡ checked.now }
    requires ready { IsReady f.now }
    requires few { HasFewNames f.now }
    requires order { IsOrder f.now order.now }
    requires states { AreStates V.ty V.proper f.now got.old }
    requires head { ForSome head.now (IsStateOf V.ty V.proper f.now) }
    ensures entry { IfOk result (λ o. (names : ℕ → Bool) → IsScopeAt f.now b.0 names → option_map known o ≡
        (if nat_eq b.0 first_block then Some (start_state V.answers f.now)
        else if is_head f.now order.now b.0 then option_map known head.now
        else option_map (kept_names names) (kept_entries got.old b.0))) }
    ensures state { IfOk result (λ o. ForSome o (IsStateOf V.ty V.proper f.now)) }
    ensures others { IfOk result (λ _. (c : ℕ) → IsApart f.now order.now b.0 c → kept_entries got.new c ≡ kept_entries got.old c) }
    ensures states { IfOk result (λ _. AreStates V.ty V.proper f.now got.new) }
    ensures count { IfOk result (λ _. length got.new ≡ length got.old) }
{
    if b.0 == 0 {
        return Ok(Some(start(alloc, f)?));
    }
    if is_head(checked, f, order, b) {
        return copied(alloc, f, head);
    }
    Ok(met(checked, f, got, b))
}

/// What a pass has found: the entry states, and what the heads have got.
#[derive(Drop)]
struct Found<V: Values> {
    table: Table<V>,
    got: Table<V>,
}

/// Sends states through the blocks of the order.
fn go<V: Values>(
    alloc: Global,
    checked: &Checked,
    f: &Function,
    order: &[BlockId],
    heads: &[Option<State<V>>],
) -> Result<Found<V>, AllocError>
    requires same { f.now ≡ checked.now }
    requires ready { IsReady f.now }
    requires few { HasFewNames f.now }
    requires order { IsOrder f.now order.now }
    requires ordered { IsOrdered f.now order.now }
    requires heads { AreStates V.ty V.proper f.now heads.now }
    requires each { length heads.now ≡ length order.now }
    ensures table { IfOk result (λ p. (names : ℕ → ℕ → Bool) → IsLayout f.now (layout order.now names) → (b : ℕ) →
        kept_entries p.table b ≡ pass_table (flow_of V.answers f.now (layout order.now names)) (kept_in_order order.now heads.now) b) }
    ensures got { IfOk result (λ p. (b : ℕ) → is_head f.now order.now b ≡ true →
        kept_entries p.got b ≡ got_from V.answers f.now (kept_entries p.table) (numbers order.now) b) }
    ensures states { IfOk result (λ p. AreStates V.ty V.proper f.now p.table) }
    ensures got_states { IfOk result (λ p. AreStates V.ty V.proper f.now p.got) }
    ensures count { IfOk result (λ p. length p.table ≡ length f.now.blocks) }
{
    let count = f.blocks.as_slice().len();
    let mut table: Table<V> = Table::empty(alloc, count)?;
    let mut got: Table<V> = Table::empty(alloc, count)?;
    'order: for place in 0..order.len() {
        let b = order[place];
        let entry = entry_of(alloc, checked, f, order, &mut got, b, &heads[place])?;
        send(alloc, f, &mut got, b, &entry)?;
        table.set(b, entry);
    }
    Ok(Found { table, got })
}

/// What a head has got, cut to what its entry has in scope; None for a block that is no head.
fn next_of<V: Values>(
    checked: &Checked,
    f: &Function,
    order: &[BlockId],
    got: &mut Table<V>,
    b: BlockId,
) -> Option<State<V>>
    requires same { f.now ≡ checked.now }
    requires few { HasFewNames f.now }
    requires order { IsOrder f.now order.now }
    requires states { AreStates V.ty V.proper f.now got.old }
    ensures next { (names : ℕ → Bool) → IsScopeAt f.now b.0 names → option_map known result ≡
        (if is_head f.now order.now b.0 then option_map (kept_names names) (kept_entries got.old b.0) else None) }
    ensures state { ForSome result (IsStateOf V.ty V.proper f.now) }
    ensures others { (c : ℕ) → nat_eq c b.0 ≡ false → kept_entries got.new c ≡ kept_entries got.old c }
    ensures states { AreStates V.ty V.proper f.now got.new }
{
    if !is_head(checked, f, order, b) {
        return None;
    }
    met(checked, f, got, b)
}

/// What heads have got, one place for each block of the order.
fn all_next<V: Values>(
    alloc: Global,
    checked: &Checked,
    f: &Function,
    order: &[BlockId],
    got: &mut Table<V>,
) -> Result<Vec<Option<State<V>>>, AllocError>
    requires same { f.now ≡ checked.now }
    requires few { HasFewNames f.now }
    requires order { IsOrder f.now order.now }
    requires distinct { IsDistinct nat_eq (numbers order.now) }
    requires states { AreStates V.ty V.proper f.now got.old }
    ensures count { IfOk result (λ v. length v.items ≡ length order.now) }
    ensures next { IfOk result (λ v. (names : ℕ → ℕ → Bool) → IsLayout f.now (layout order.now names) → (k : ℕ) → k < length order.now →
        option_map known (entry_in v.items k) ≡ next_at f.now order.now (kept_entries got.old) names (slice_index_or order.now k (record { 0 = 0 })).0) }
    ensures states { IfOk result (λ v. AreStates V.ty V.proper f.now v.items) }
{
    let mut next: Vec<Option<State<V>>> = Vec::new(alloc);
    'order: for place in 0..order.len() {
        next.push(next_of(checked, f, order, got, order[place]))?;
    }
    Ok(next)
}

/// What a pass gives.
#[derive(Drop)]
pub struct Passed<V: Values> {
    /// The entry states of the blocks.
    pub table: Table<V>,
    /// What the heads get, one place for each block of the order; None for a block that is no head.
    pub next: Items<Option<State<V>>>,
}

/// A pass of states through the blocks of a function, where the heads have these states. There is one place for each block of
/// the order, in its sequence; those of blocks that are no heads are not looked at.
///
/// In a loop of one block with `%i = phi i8 [ 0, %entry ], [ %n, %head ]` a pass in which the head has no state gives the head
/// what comes from the entry.
pub fn pass<V: Values>(
    alloc: Global,
    f: &Checked,
    heads: &[Option<State<V>>],
) -> Result<Passed<V>, AllocError>
    requires states { AreStates V.ty V.proper f.now heads.now }
    requires each { (order : List BlockId) → IsOrder f.now order → length heads.now ≡ length order }
    ensures table { IfOk result (λ p. (l : Layout) → IsLayout f.now l → (b : ℕ) →
        kept_entries p.table b ≡ pass_table (flow_of V.answers f.now l) (kept_in_order l.order heads.now) b) }
    ensures next { IfOk result (λ p. (l : Layout) → IsLayout f.now l → (b : ℕ) →
        kept_in_order l.order p.next b ≡ pass_next (flow_of V.answers f.now l) (kept_in_order l.order heads.now) b) }
    ensures states { IfOk result (λ p. AreStates V.ty V.proper f.now p.table × AreStates V.ty V.proper f.now p.next) }
    ensures each { IfOk result (λ p. length p.next ≡ length heads.now) }
    ensures count { IfOk result (λ p. length p.table ≡ length f.now.blocks) }
{
    let function = ready(f);
    let order = f.order();
    let mut found = go(alloc, f, function, order, heads)?;
    let next = all_next(alloc, f, function, order, &mut found.got)?;
    Ok(Passed {
        table: found.table,
        next: Items(next),
    })
}
