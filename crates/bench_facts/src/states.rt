//! States of the function, and what they are told.

ghost use Rattle.std.specs.Prelude.{◌≡◌, ◌<◌, IfOk, length};
ghost use Rattle.std.specs.Bool.{OnTrue};
ghost use Rattle.vfa_cond.specs.Conditions.{HasTypedEquations, IsNumberOperand};
ghost use Rattle.vfa_ir.specs.declared.operations.Operand.{Operand};
ghost use Rattle.vfa_ir.specs.declared.operations.Ty.{Ty};
ghost use Rattle.vfa_mean.specs.FreshOperands.{DefinesOnce};
ghost use Rattle.vfa_values.specs.Conditions.{IsOf};
ghost use Rattle.vfa_walk.specs.Kept.{IsStateOf};
ghost use Rattle.vfa_xfer.specs.AnyFacts.{fact_type, IsAnyFact};

use crate::asked::is_of_number;
use std::alloc::{AllocError, Global};
use vfa_cond::{State, Want};
use vfa_ir::{Function, Operand, Pred, Ty, ValueId};
use vfa_values::Values;
use vfa_xfer::AnyFact;

/// The width of the numbers that are compared.
pub const WIDTH: u32 = 32;

const BIT: u32 = 1;

const X: ValueId = ValueId(0);

const Y: ValueId = ValueId(1);

const C: ValueId = ValueId(2);

/// What is measured.
#[derive(Clone, Copy)]
pub enum Told {
    /// Nothing but the facts.
    Nothing,
    /// That the predicate holds of the two names.
    Holds,
    /// That the comparison is true.
    IsTrue,
}

/// Whether it is one of the function's names, of this width.
fn is_name(f: &Function, v: ValueId, width: u32) -> bool
    ensures { OnTrue result (IsNumberOperand f.now width (Operand.Value v)) }
{
    if width < 1 {
        return false;
    }
    if width > 128 {
        return false;
    }
    match f.values.as_slice().get(v.0 as usize) {
        Some(value) => value.ty == Ty::Int(width),
        None => false,
    }
}

/// Gives a name its fact.
fn set(state: &mut State<AnyFact>, f: &Function, v: ValueId, width: u32, fact: &AnyFact)
    requires state { IsStateOf fact_type IsAnyFact f.now state.old }
    requires name { IsNumberOperand f.now width (Operand.Value v) }
    requires fact { IsOf fact_type IsAnyFact (Ty.Int width) fact.now }
    ensures { IsStateOf fact_type IsAnyFact f.now state.new }
{
    let _ = f;
    let _ = width;
    state.put(v, Some(*fact));
}

/// Gives a name its fact, where it is of its type.
fn set_known(state: &mut State<AnyFact>, f: &Function, v: ValueId, width: u32, fact: &AnyFact)
    requires { IsStateOf fact_type IsAnyFact f.now state.old }
    ensures { IsStateOf fact_type IsAnyFact f.now state.new }
{
    if !is_name(f, v, width) {
        return;
    }
    if !is_of_number(width, fact) {
        return;
    }
    set(state, f, v, width, fact);
}

/// Tells the state that the first name is less than the second.
fn hold(state: &mut State<AnyFact>, f: &Function) -> bool
    requires equations { HasTypedEquations f.now }
    requires once { DefinesOnce f.now }
    requires state { IsStateOf fact_type IsAnyFact f.now state.old }
    ensures { OnTrue result (IsStateOf fact_type IsAnyFact f.now state.new) }
{
    if !is_name(f, X, WIDTH) {
        return false;
    }
    if !is_name(f, Y, WIDTH) {
        return false;
    }
    state.hold(f, Operand::Value(X), Pred::Ult, Operand::Value(Y), WIDTH)
}

/// Tells the state that the name, a bit, is the bit.
fn narrow(state: &mut State<AnyFact>, f: &Function, bit: &AnyFact) -> bool
    requires equations { HasTypedEquations f.now }
    requires once { DefinesOnce f.now }
    requires state { IsStateOf fact_type IsAnyFact f.now state.old }
    requires bit { IsOf fact_type IsAnyFact (Ty.Int 1) bit.now }
    ensures { OnTrue result (IsStateOf fact_type IsAnyFact f.now state.new) }
{
    if !is_name(f, C, BIT) {
        return false;
    }
    state.narrow(f, C, &Want::Compare(Pred::Eq, *bit))
}

/// Tells the state that the comparison is true.
fn be_true(state: &mut State<AnyFact>, f: &Function) -> bool
    requires equations { HasTypedEquations f.now }
    requires once { DefinesOnce f.now }
    requires state { IsStateOf fact_type IsAnyFact f.now state.old }
    ensures { OnTrue result (IsStateOf fact_type IsAnyFact f.now state.new) }
{
    set_known(state, f, C, BIT, &AnyFact::any(Ty::Int(BIT), true));
    let bit = AnyFact::literal(BIT, 1);
    narrow(state, f, &bit)
}

/// Gives the two names their facts, and tells the state what is measured; a no means that it is to be dropped.
fn tell(
    state: &mut State<AnyFact>,
    f: &Function,
    told: Told,
    first: &AnyFact,
    second: &AnyFact,
) -> bool
    requires equations { HasTypedEquations f.now }
    requires once { DefinesOnce f.now }
    requires state { IsStateOf fact_type IsAnyFact f.now state.old }
    ensures { OnTrue result (IsStateOf fact_type IsAnyFact f.now state.new) }
{
    set_known(state, f, X, WIDTH, first);
    set_known(state, f, Y, WIDTH, second);
    match told {
        Told::Nothing => true,
        Told::Holds => hold(state, f),
        Told::IsTrue => be_true(state, f),
    }
}

/// The same state once more.
fn fresh(alloc: Global, f: &Function, spare: &State<AnyFact>) -> Result<State<AnyFact>, AllocError>
    requires { IsStateOf fact_type IsAnyFact f.now spare.now }
    ensures { IfOk result (IsStateOf fact_type IsAnyFact f.now) }
{
    let _ = f;
    let state = spare.copied(alloc)?;
    Ok(state)
}

/// Tells states of all facts and one of them what is measured; gives how many are dropped.
pub fn turn(
    alloc: Global,
    f: &Function,
    spare: &State<AnyFact>,
    told: Told,
    facts: &[AnyFact],
    by: &AnyFact,
) -> Result<u128, AllocError>
    requires equations { HasTypedEquations f.now }
    requires once { DefinesOnce f.now }
    requires spare { IsStateOf fact_type IsAnyFact f.now spare.now }
{
    let mut state = fresh(alloc, f, spare)?;
    let mut dropped = 0u128;
    'each: for fact in facts {
        if !tell(&mut state, f, told, fact, by) {
            state = fresh(alloc, f, spare)?;
            dropped = dropped.wrapping_add(1);
        }
    }
    Ok(dropped)
}

/// The state of the function that has no facts and no live equations.
fn empty(alloc: Global, f: &Function) -> Result<State<AnyFact>, AllocError>
    ensures { IfOk result (IsStateOf fact_type IsAnyFact f.now) }
{
    let facts: Vec<(ValueId, AnyFact)> = Vec::new(alloc);
    let live: Vec<ValueId> = Vec::new(alloc);
    let state = State::of(alloc, f, facts.as_slice(), live.as_slice())?;
    Ok(state)
}

/// Makes the equation of a name live.
fn enliven(state: &mut State<AnyFact>, f: &Function, v: ValueId)
    requires state { IsStateOf fact_type IsAnyFact f.now state.old }
    requires name { v.0 < length f.now.values }
    ensures { IsStateOf fact_type IsAnyFact f.now state.new }
{
    let _ = f;
    state.set_live(v, true);
}

/// Makes the comparison live.
fn enliven_comparison(state: &mut State<AnyFact>, f: &Function)
    requires { IsStateOf fact_type IsAnyFact f.now state.old }
    ensures { IsStateOf fact_type IsAnyFact f.now state.new }
{
    if (C.0 as usize) < f.values.as_slice().len() {
        enliven(state, f, C);
    }
}

/// The state of the function that has no facts, and in which the comparison is live.
pub fn spare(alloc: Global, f: &Function) -> Result<State<AnyFact>, AllocError>
    ensures { IfOk result (IsStateOf fact_type IsAnyFact f.now) }
{
    let mut state = empty(alloc, f)?;
    enliven_comparison(&mut state, f);
    Ok(state)
}
