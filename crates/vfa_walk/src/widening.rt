//! Heads that are widened.

ghost use Rattle.std.specs.Prelude.{◌≡◌, ◌≤◌, ◌<◌, ◌^◌, ℕ, length, IfOk};
ghost use Rattle.std.specs.Option.{ForSome, option_map};
ghost use Rattle.vfa_values.specs.Conditions.{IsOf, width_of};
ghost use Rattle.vfa_cond.specs.Conditions.{AreFacts, name_type};
ghost use Rattle.vfa_cond.specs.States.{known};
ghost use Rattle.vfa_walk.specs.Joining.{widened};
ghost use Rattle.vfa_walk.specs.Kept.{IsStateOf, taken};
ghost use Rattle.vfa_walk.specs.Marks.{AreMarksOf};
ghost use Rattle.vfa_walk.specs.Passes.{merged};

use crate::joining::{Near, agrees, take_over};
use crate::marks::Marks;
use crate::pairs::same;
use crate::passes::{copied, type_of};
use std::alloc::{AllocError, Global};
use vfa_cond::State;
use vfa_ir::{Function, Ty, ValueId};
use vfa_values::Values;

fn width_of(of_type: Ty) -> u32
    ensures { result ≡ width_of of_type }
{
    match of_type {
        Ty::Int(width) | Ty::Pair(width) => width,
    }
}

/// The old fact of a name widened by the new one.
fn widened_fact<V: Values>(
    f: &Function,
    old: &State<V>,
    new: &State<V>,
    v: ValueId,
    round: u32,
    marks: &Marks,
    near: &mut Near,
) -> Option<V>
    requires first { AreFacts V.ty V.proper f.now (known old.now) }
    requires second { AreFacts V.ty V.proper f.now (known new.now) }
    requires round { 1 ≤ round }
    requires marks { AreMarksOf f.now marks.now }
    ensures fact { result ≡ (widened V.answers f.now round (known old.now) (known new.now)).fact v.0 }
    ensures of_type { ForSome result (IsOf V.ty V.proper (name_type f.now v.0)) }
{
    let Some(first) = old.fact_near(v, &mut near.first) else {
        return None;
    };
    let Some(second) = new.fact_near(v, &mut near.second) else {
        return None;
    };
    Some(first.widen(&second, round, marks.at(width_of(type_of(f, v)))))
}

/// Widens what a state knows of a name.
fn widen_name<V: Values>(
    state: &mut State<V>,
    f: &Function,
    new: &State<V>,
    v: ValueId,
    round: u32,
    marks: &Marks,
    near: &mut Near,
)
    requires state { IsStateOf V.ty V.proper f.now state.old }
    requires new { IsStateOf V.ty V.proper f.now new.now }
    requires name { v.0 < length f.now.values }
    requires round { 1 ≤ round }
    requires marks { AreMarksOf f.now marks.now }
    ensures change { known state.new ≡ taken v.0 (widened V.answers f.now round (known state.old) (known new.now)) (known state.old) }
    ensures state { IsStateOf V.ty V.proper f.now state.new }
{
    if agrees(f, state, new, v, near) {
        return;
    }
    let live = state.live(v) & new.live(v);
    let fact = widened_fact(f, state, new, v, round, marks, near);
    take_over(state, f, v, fact, live, &mut near.first);
}

/// Widens the old state of a head by the new one.
pub(crate) fn widen<V: Values>(
    state: &mut State<V>,
    f: &Function,
    new: &State<V>,
    round: u32,
    marks: &Marks,
)
    requires state { IsStateOf V.ty V.proper f.now state.old }
    requires new { IsStateOf V.ty V.proper f.now new.now }
    requires few { length f.now.values ≤ 2 ^ 28 }
    requires round { 1 ≤ round }
    requires marks { AreMarksOf f.now marks.now }
    ensures change { known state.new ≡ widened V.answers f.now round (known state.old) (known new.now) }
    ensures state { IsStateOf V.ty V.proper f.now state.new }
{
    let mut near = Near {
        first: 0,
        second: 0,
    };
    'names: for v in (0..f.values.as_slice().len()).rev() {
        widen_name(state, f, new, ValueId(v as u32), round, marks, &mut near);
    }
}

/// The old state of a head widened by the new one, of which each may be none: what is not there gives way.
pub(crate) fn widened_entry<V: Values>(
    alloc: Global,
    f: &Function,
    old: &Option<State<V>>,
    new: &Option<State<V>>,
    round: u32,
    marks: &Marks,
) -> Result<Option<State<V>>, AllocError>
    requires old { ForSome old.now (IsStateOf V.ty V.proper f.now) }
    requires new { ForSome new.now (IsStateOf V.ty V.proper f.now) }
    requires few { length f.now.values ≤ 2 ^ 28 }
    requires round { 1 ≤ round }
    requires marks { AreMarksOf f.now marks.now }
    ensures widened { IfOk result (λ o. option_map known o ≡ merged (widened V.answers f.now round) (option_map known old.now) (option_map known new.now)) }
    ensures state { IfOk result (λ o. ForSome o (IsStateOf V.ty V.proper f.now)) }
{
    match old {
        Some(old) => widened_by(alloc, f, old, new, round, marks),
        None => copied(alloc, f, new),
    }
}

/// A state of a head widened by the new one, which may be none.
fn widened_by<V: Values>(
    alloc: Global,
    f: &Function,
    old: &State<V>,
    new: &Option<State<V>>,
    round: u32,
    marks: &Marks,
) -> Result<Option<State<V>>, AllocError>
    requires old { IsStateOf V.ty V.proper f.now old.now }
    requires new { ForSome new.now (IsStateOf V.ty V.proper f.now) }
    requires few { length f.now.values ≤ 2 ^ 28 }
    requires round { 1 ≤ round }
    requires marks { AreMarksOf f.now marks.now }
    ensures widened { IfOk result (λ o. option_map known o ≡ merged (widened V.answers f.now round) (Some (known old.now)) (option_map known new.now)) }
    ensures state { IfOk result (λ o. ForSome o (IsStateOf V.ty V.proper f.now)) }
{
    match new {
        Some(new) => Ok(Some(widened_copy(alloc, f, old, new, round, marks)?)),
        None => same(alloc, f, old),
    }
}

/// A state of a head widened by the new one, as a state of its own.
fn widened_copy<V: Values>(
    alloc: Global,
    f: &Function,
    old: &State<V>,
    new: &State<V>,
    round: u32,
    marks: &Marks,
) -> Result<State<V>, AllocError>
    requires old { IsStateOf V.ty V.proper f.now old.now }
    requires new { IsStateOf V.ty V.proper f.now new.now }
    requires few { length f.now.values ≤ 2 ^ 28 }
    requires round { 1 ≤ round }
    requires marks { AreMarksOf f.now marks.now }
    ensures widened { IfOk result (λ s. known s ≡ widened V.answers f.now round (known old.now) (known new.now)) }
    ensures state { IfOk result (IsStateOf V.ty V.proper f.now) }
{
    let mut state = old.copied(alloc)?;
    widen(&mut state, f, new, round, marks);
    Ok(state)
}
