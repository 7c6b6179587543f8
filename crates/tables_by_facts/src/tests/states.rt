//! States of checked functions: the entry states of their tables, and states that differ from these.

ghost use Rattle.std.specs.Prelude.{◌≡◌, ◌<◌, IfOk, IsTrue, length};
ghost use Rattle.std.specs.Option.{ForSome};
ghost use Rattle.vfa_mean.specs.Outcomes.{type_of};
ghost use Rattle.vfa_values.specs.Conditions.{IsOf, IsType};
ghost use Rattle.vfa_walk.specs.Kept.{IsStateOf};

use std::alloc::{AllocError, Global};
use vfa_check::Checked;
use vfa_cond::State;
use vfa_ir::{BlockId, Function, Ty, ValueId};
use vfa_solve::solve;
use vfa_values::Values;
use vfa_walk::{Table, pair_state};

/// How a state differs from the one of a table.
#[derive(Clone, Copy)]
pub enum Change {
    /// In nothing.
    Same,
    /// The name may be any number or poison.
    Unknown(ValueId),
    /// The name has no fact.
    WithoutFact(ValueId),
    /// The equation of the name is not live.
    Ended(ValueId),
}

/// The state at the entry of a block by the table; None where no run comes there.
pub fn entry<V: Values>(
    alloc: Global,
    f: &Checked,
    b: BlockId,
) -> Result<Option<State<V>>, AllocError>
    ensures { IfOk result (λ o. ForSome o (IsStateOf V.ty V.proper f.now)) }
{
    let table: Table<V> = solve(alloc, f)?;
    let Some(entry) = table.entry(b) else {
        return Ok(None);
    };
    let state = entry.copied(alloc)?;
    Ok(Some(state))
}

/// The state before the phis of a block by the table, where it is entered from another; None where no run comes so.
pub fn entry_from<V: Values>(
    alloc: Global,
    f: &Checked,
    from: BlockId,
    to: BlockId,
) -> Result<Option<State<V>>, AllocError> {
    let table: Table<V> = solve(alloc, f)?;
    pair_state(alloc, f, &table, from, to)
}

/// The type of a name.
fn type_of(f: &Function, v: ValueId) -> Ty
    ensures { result ≡ type_of f.now v }
{
    match f.values.as_slice().get(v.0 as usize) {
        Some(value) => value.ty,
        None => Ty::Int(1),
    }
}

/// Whether it is an integer type.
fn is_number_type(of: Ty) -> bool
    ensures { IsTrue result → IsType of }
{
    let Ty::Int(width) = of else {
        return false;
    };
    if width < 1 {
        return false;
    }
    width <= 128
}

/// Any number of a name's type, or poison.
fn anything<V: Values>(f: &Function, v: ValueId) -> V
    requires { IsType (type_of f.now v) }
    ensures { IsOf V.ty V.proper (type_of f.now v) result }
{
    V::any(type_of(f, v), false)
}

/// Forgets what is known of a name of an integer type.
fn forget<V: Values>(state: &mut State<V>, f: &Function, v: ValueId)
    requires state { IsStateOf V.ty V.proper f.now state.old }
    requires name { v.0 < length f.now.values }
    ensures { IsStateOf V.ty V.proper f.now state.new }
{
    if !is_number_type(type_of(f, v)) {
        return;
    }
    let fact = anything(f, v);
    state.put(v, Some(fact));
}

/// Takes the fact of a name away.
fn drop_fact<V: Values>(state: &mut State<V>, f: &Function, v: ValueId)
    requires state { IsStateOf V.ty V.proper f.now state.old }
    requires name { v.0 < length f.now.values }
    ensures { IsStateOf V.ty V.proper f.now state.new }
{
    let _ = f;
    state.put(v, None);
}

/// Ends the equation of a name.
fn end<V: Values>(state: &mut State<V>, f: &Function, v: ValueId)
    requires state { IsStateOf V.ty V.proper f.now state.old }
    requires name { v.0 < length f.now.values }
    ensures { IsStateOf V.ty V.proper f.now state.new }
{
    let _ = f;
    state.set_live(v, false);
}

/// Whether it is one of the function's names.
fn is_name(f: &Function, v: ValueId) -> bool
    ensures { IsTrue result → v.0 < length f.now.values }
{
    (v.0 as usize) < f.values.as_slice().len()
}

fn make_in<V: Values>(state: &mut State<V>, f: &Function, change: Change)
    requires { IsStateOf V.ty V.proper f.now state.old }
    ensures { IsStateOf V.ty V.proper f.now state.new }
{
    match change {
        Change::Same => {}
        Change::Unknown(v) => {
            if is_name(f, v) {
                forget(state, f, v);
            }
        }
        Change::WithoutFact(v) => {
            if is_name(f, v) {
                drop_fact(state, f, v);
            }
        }
        Change::Ended(v) => {
            if is_name(f, v) {
                end(state, f, v);
            }
        }
    }
}

/// Makes the change, if it is of one of the function's names.
pub fn make<V: Values>(state: &mut State<V>, f: &Checked, change: Change)
    requires { IsStateOf V.ty V.proper f.now state.old }
    ensures { IsStateOf V.ty V.proper f.now state.new }
{
    make_in(state, f.function(), change);
}
