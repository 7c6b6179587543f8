//! Rounds of widening: the states of heads.

ghost use Rattle.std.specs.Prelude.{◌≡◌, ◌<◌, ◌≤◌, ◌^◌, ℕ, List, IfOk, MatchBool, None, length, true, if◌then◌else◌, slice_index_or};
ghost use Rattle.std.specs.Option.{ForSome, option_map};
ghost use Rattle.vfa_ir.specs.declared.operations.BlockId.{BlockId};
ghost use Rattle.vfa_cfg.specs.Heads.{is_head};
ghost use Rattle.vfa_cfg.specs.Order.{IsOrder};
ghost use Rattle.vfa_cfg.specs.Ordered.{IsOrdered};
ghost use Rattle.vfa_cond.specs.Conditions.{AreFacts};
ghost use Rattle.vfa_cond.specs.States.{known};
ghost use Rattle.vfa_walk.specs.Analysis.{Layout, IsLayout, flow_of};
ghost use Rattle.vfa_walk.specs.Heads.{after_round, AreSame, HasChanged};
ghost use Rattle.vfa_walk.specs.Kept.{AreStates, IsStateOf, entry_in, kept_in_order};
ghost use Rattle.vfa_walk.specs.Marks.{AreMarksOf};
ghost use Rattle.vfa_walk.specs.Passes.{merged};

use crate::joining::Near;
use crate::marks::Marks;
use crate::passes::is_head;
use crate::ready::ready;
use crate::widening::widened_entry;
use std::alloc::{AllocError, Global};
use vfa_check::Checked;
use vfa_cond::State;
use vfa_ir::{BlockId, Function, Items, ValueId};
use vfa_values::Values;

/// The state of a block after a round: that of a head is widened by what it got, and other blocks have none.
fn widened_at<V: Values>(
    alloc: Global,
    checked: &Checked,
    f: &Function,
    order: &[BlockId],
    b: BlockId,
    old: &Option<State<V>>,
    new: &Option<State<V>>,
    round: u32,
    marks: &Marks,
) -> Result<Option<State<V>>, AllocError>
    requires same { f.now ≡ checked.now }
    requires order { IsOrder f.now order.now }
    requires few { length f.now.values ≤ 2 ^ 28 }
    requires old { ForSome old.now (IsStateOf V.ty V.proper f.now) }
    requires new { ForSome new.now (IsStateOf V.ty V.proper f.now) }
    requires round { 1 ≤ round }
    requires marks { AreMarksOf f.now marks.now }
    ensures after { IfOk result (λ o. option_map known o ≡ after_round V.answers f.now order.now round b.0 (option_map known old.now) (option_map known new.now)) }
    ensures state { IfOk result (λ o. ForSome o (IsStateOf V.ty V.proper f.now)) }
{
    if !is_head(checked, f, order, b) {
        return Ok(None);
    }
    widened_entry(alloc, f, old, new, round, marks)
}

/// The states of the blocks after a round, one place for each block of the order.
fn all_widened<V: Values>(
    alloc: Global,
    checked: &Checked,
    f: &Function,
    order: &[BlockId],
    old: &[Option<State<V>>],
    new: &[Option<State<V>>],
    round: u32,
    marks: &Marks,
) -> Result<Vec<Option<State<V>>>, AllocError>
    requires same { f.now ≡ checked.now }
    requires order { IsOrder f.now order.now }
    requires few { length f.now.values ≤ 2 ^ 28 }
    requires old { AreStates V.ty V.proper f.now old.now }
    requires new { AreStates V.ty V.proper f.now new.now }
    requires each_old { length old.now ≡ length order.now }
    requires each_new { length new.now ≡ length order.now }
    requires round { 1 ≤ round }
    requires marks { AreMarksOf f.now marks.now }
    ensures count { IfOk result (λ v. length v.items ≡ length order.now) }
    ensures after { IfOk result (λ v. (k : ℕ) → k < length order.now → option_map known (entry_in v.items k) ≡
        after_round V.answers f.now order.now round (slice_index_or order.now k (record { 0 = 0 })).0 (option_map known (entry_in old.now k)) (option_map known (entry_in new.now k))) }
    ensures states { IfOk result (λ v. AreStates V.ty V.proper f.now v.items) }
{
    let mut after: Vec<Option<State<V>>> = Vec::new(alloc);
    'order: for place in 0..order.len() {
        let b = order[place];
        let state = widened_at(
            alloc,
            checked,
            f,
            order,
            b,
            &old[place],
            &new[place],
            round,
            marks,
        )?;
        after.push(state)?;
    }
    Ok(after)
}

/// Whether a name has the same fact in two states, or none in both.
fn same_fact<V: Values>(
    f: &Function,
    a: &State<V>,
    b: &State<V>,
    v: ValueId,
    near: &mut Near,
) -> bool
    requires first { AreFacts V.ty V.proper f.now (known a.now) }
    requires second { AreFacts V.ty V.proper f.now (known b.now) }
    ensures { MatchBool result ((known a.now).fact v.0 ≡ (known b.now).fact v.0) ((known a.now).fact v.0 ≡ (known b.now).fact v.0 → ⊥) }
{
    let _ = f;
    let second = b.fact_near(v, &mut near.second);
    let Some(first) = a.fact_near(v, &mut near.first) else {
        return second.is_none();
    };
    let Some(second) = second else {
        return false;
    };
    first.same(&second)
}

/// Whether equations are live in both states or in neither.
fn same_mark(a: bool, b: bool) -> bool
    ensures { MatchBool result (a ≡ b) (a ≡ b → ⊥) }
{
    a == b
}

/// Whether two states know the same of a name.
fn same_name<V: Values>(
    f: &Function,
    a: &State<V>,
    b: &State<V>,
    v: ValueId,
    near: &mut Near,
) -> bool
    requires first { AreFacts V.ty V.proper f.now (known a.now) }
    requires second { AreFacts V.ty V.proper f.now (known b.now) }
    ensures { MatchBool result (((known a.now).fact v.0 ≡ (known b.now).fact v.0) × ((known a.now).live v.0 ≡ (known b.now).live v.0)) (known a.now ≡ known b.now → ⊥) }
{
    if same_mark(a.live(v), b.live(v)) {
        return same_fact(f, a, b, v, near);
    }
    false
}

/// Whether two states are the same.
fn same_state<V: Values>(f: &Function, a: &State<V>, b: &State<V>) -> bool
    requires first { IsStateOf V.ty V.proper f.now a.now }
    requires second { IsStateOf V.ty V.proper f.now b.now }
    requires few { length f.now.values ≤ 2 ^ 28 }
    ensures { MatchBool result (known a.now ≡ known b.now) (known a.now ≡ known b.now → ⊥) }
{
    let mut near = Near {
        first: 0,
        second: 0,
    };
    'names: for v in 0..f.values.as_slice().len() {
        if !same_name(f, a, b, ValueId(v as u32), &mut near) {
            return false;
        }
    }
    true
}

/// Whether two entries, of which each may be none, are the same.
fn same_entry<V: Values>(f: &Function, a: &Option<State<V>>, b: &Option<State<V>>) -> bool
    requires first { ForSome a.now (IsStateOf V.ty V.proper f.now) }
    requires second { ForSome b.now (IsStateOf V.ty V.proper f.now) }
    requires few { length f.now.values ≤ 2 ^ 28 }
    ensures { MatchBool result (option_map known a.now ≡ option_map known b.now) (option_map known a.now ≡ option_map known b.now → ⊥) }
{
    let Some(first) = a else {
        return b.is_none();
    };
    let Some(second) = b else {
        return false;
    };
    same_state(f, first, second)
}

/// Whether the entries of two lists at a place differ, and are those of a head.
fn changed_at<V: Values>(
    checked: &Checked,
    f: &Function,
    order: &[BlockId],
    b: BlockId,
    old: &Option<State<V>>,
    new: &Option<State<V>>,
) -> bool
    requires same { f.now ≡ checked.now }
    requires order { IsOrder f.now order.now }
    requires few { length f.now.values ≤ 2 ^ 28 }
    requires old { ForSome old.now (IsStateOf V.ty V.proper f.now) }
    requires new { ForSome new.now (IsStateOf V.ty V.proper f.now) }
    ensures { MatchBool result ((is_head f.now order.now b.0 ≡ true) × (option_map known new.now ≡ option_map known old.now → ⊥))
        (is_head f.now order.now b.0 ≡ true → option_map known new.now ≡ option_map known old.now) }
{
    if !is_head(checked, f, order, b) {
        return false;
    }
    !same_entry(f, new, old)
}

/// Whether some head of the order has another state in the second list than in the first.
fn has_changed<V: Values>(
    checked: &Checked,
    f: &Function,
    order: &[BlockId],
    old: &[Option<State<V>>],
    new: &[Option<State<V>>],
) -> bool
    requires same { f.now ≡ checked.now }
    requires order { IsOrder f.now order.now }
    requires ordered { IsOrdered f.now order.now }
    requires few { length f.now.values ≤ 2 ^ 28 }
    requires old { AreStates V.ty V.proper f.now old.now }
    requires new { AreStates V.ty V.proper f.now new.now }
    requires each_old { length old.now ≡ length order.now }
    requires each_new { length new.now ≡ length order.now }
    ensures { MatchBool result ((b : ℕ) × HasChanged f.now order.now old.now new.now b) (AreSame f.now order.now old.now new.now) }
{
    'order: for place in 0..order.len() {
        if changed_at(checked, f, order, order[place], &old[place], &new[place]) {
            return true;
        }
    }
    false
}

/// The states of heads after a round of widening, and whether some head's state changed.
#[derive(Drop)]
pub struct Widened<V: Values> {
    /// The states of the heads, one place for each block of the order; None for a block that is no head.
    pub heads: Items<Option<State<V>>>,
    /// Whether some head has another state than before.
    pub changed: bool,
}

/// The heads after a round, by the landmarks of the function.
///
/// The answer is that of `widen_heads`; the landmarks are made once for all rounds.
pub fn widen_heads_by<V: Values>(
    alloc: Global,
    f: &Checked,
    heads: &[Option<State<V>>],
    next: &[Option<State<V>>],
    round: u32,
    marks: &Marks,
) -> Result<Widened<V>, AllocError>
    requires heads { AreStates V.ty V.proper f.now heads.now }
    requires next { AreStates V.ty V.proper f.now next.now }
    requires each_head { (order : List BlockId) → IsOrder f.now order → length heads.now ≡ length order }
    requires each_next { (order : List BlockId) → IsOrder f.now order → length next.now ≡ length order }
    requires round { 1 ≤ round }
    requires marks { AreMarksOf f.now marks.now }
    ensures heads { IfOk result (λ w. (l : Layout) → IsLayout f.now l → (b : ℕ) → kept_in_order l.order w.heads b ≡
        (if is_head f.now l.order b then merged ((flow_of V.answers f.now l).widen round) (kept_in_order l.order heads.now b) (kept_in_order l.order next.now b) else None)) }
    ensures changed { IfOk result (λ w. (l : Layout) → IsLayout f.now l →
        MatchBool w.changed ((b : ℕ) × (is_head f.now l.order b ≡ true) × (kept_in_order l.order w.heads b ≡ kept_in_order l.order heads.now b → ⊥))
        ((b : ℕ) → is_head f.now l.order b ≡ true → kept_in_order l.order w.heads b ≡ kept_in_order l.order heads.now b)) }
    ensures states { IfOk result (λ w. AreStates V.ty V.proper f.now w.heads) }
    ensures each { IfOk result (λ w. length w.heads ≡ length heads.now) }
{
    let function = ready(f);
    let order = f.order();
    let after = all_widened(alloc, f, function, order, heads, next, round, marks)?;
    let changed = has_changed(f, function, order, heads, after.as_slice());
    Ok(Widened {
        heads: Items(after),
        changed,
    })
}

/// The heads after a round of widening: each head's state is widened by what it got in the pass, and where it had none it is what
/// it got. There is one place for each block of the order, in its sequence, and rounds count from 1. It is also told whether
/// some head has another state than before.
///
/// In a loop of one block with `%i = phi i8 [ 0, %entry ], [ %n, %head ]` the first round gives the head what comes from the entry,
/// and that is a change.
pub fn widen_heads<V: Values>(
    alloc: Global,
    f: &Checked,
    heads: &[Option<State<V>>],
    next: &[Option<State<V>>],
    round: u32,
) -> Result<Widened<V>, AllocError>
    requires heads { AreStates V.ty V.proper f.now heads.now }
    requires next { AreStates V.ty V.proper f.now next.now }
    requires each_head { (order : List BlockId) → IsOrder f.now order → length heads.now ≡ length order }
    requires each_next { (order : List BlockId) → IsOrder f.now order → length next.now ≡ length order }
    requires round { 1 ≤ round }
    ensures heads { IfOk result (λ w. (l : Layout) → IsLayout f.now l → (b : ℕ) → kept_in_order l.order w.heads b ≡
        (if is_head f.now l.order b then merged ((flow_of V.answers f.now l).widen round) (kept_in_order l.order heads.now b) (kept_in_order l.order next.now b) else None)) }
    ensures changed { IfOk result (λ w. (l : Layout) → IsLayout f.now l →
        MatchBool w.changed ((b : ℕ) × (is_head f.now l.order b ≡ true) × (kept_in_order l.order w.heads b ≡ kept_in_order l.order heads.now b → ⊥))
        ((b : ℕ) → is_head f.now l.order b ≡ true → kept_in_order l.order w.heads b ≡ kept_in_order l.order heads.now b)) }
    ensures states { IfOk result (λ w. AreStates V.ty V.proper f.now w.heads) }
    ensures each { IfOk result (λ w. length w.heads ≡ length heads.now) }
{
    let marks = Marks::of(alloc, f)?;
    widen_heads_by(alloc, f, heads, next, round, &marks)
}
