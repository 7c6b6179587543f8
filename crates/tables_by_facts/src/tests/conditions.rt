//! Conditions, and what they make of states.

ghost use Rattle.std.specs.Prelude.{◌≡◌, ◌<◌, ◌^◌, IfOk, IsTrue};
ghost use Rattle.std.specs.Option.{ForSome};
ghost use Rattle.vfa_cond.specs.Changes.{AreChangesOf};
ghost use Rattle.vfa_cond.specs.Conditions.{HasTypedEquations, IsNumberOperand};
ghost use Rattle.vfa_ir.specs.declared.operations.Ty.TheVariants.{Int};
ghost use Rattle.vfa_ir.specs.Printable.{IsOperand};
ghost use Rattle.vfa_ir.specs.Typed.{IsOfType};
ghost use Rattle.vfa_mean.specs.FreshOperands.{DefinesOnce};
ghost use Rattle.vfa_walk.specs.Kept.{IsStateOf};
ghost use Rattle.vfa_word.specs.Numbers.{IsWidth};

use super::shown::{NAMES, changed_facts};
use super::states::{Change, entry, make};
use std::alloc::{AllocError, Global};
use vfa_check::Checked;
use vfa_cond::{Changes, State, typed_functions_have_typed_equations};
use vfa_ir::{BlockId, Function, Operand, Pred, Ty, ValueId};
use vfa_print::fit_is_printable;
use vfa_values::Values;
use vfa_xfer::AnyFact;

const BIT: u32 = 1;

const BYTE: u32 = 8;

/// The block at whose entry conditions are told.
const AT: BlockId = BlockId(1);

/// A predicate between two operands of one width, which is 8 or 1.
#[derive(Clone, Copy)]
pub struct Condition {
    a: Operand,
    pred: Pred,
    b: Operand,
    width: u32,
}

/// The name, of type `i1`, is the bit.
pub fn is(v: ValueId, bit: u128) -> Condition {
    Condition {
        a: Operand::Value(v),
        pred: Pred::Eq,
        b: Operand::Literal(bit),
        width: BIT,
    }
}

/// The predicate holds of two operands of type `i8`.
pub fn holds(a: Operand, pred: Pred, b: Operand) -> Condition {
    Condition {
        a,
        pred,
        b,
        width: BYTE,
    }
}

/// Whether the literal is a number of the width, which is 8 or 1.
fn literal_fits(width: u32, bits: u128) -> bool
    ensures width { IsTrue result → IsWidth width }
    ensures fits { IsTrue result → bits < 2 ^ width }
{
    if width == BYTE {
        return bits < 256;
    }
    if width == BIT {
        return bits < 2;
    }
    false
}

/// Whether the operand is one of the width, which is 8 or 1.
fn operand_fits(f: &Function, width: u32, operand: Operand) -> bool
    ensures range { IsTrue result → IsOperand f.now width operand }
    ensures typed { IsTrue result → IsOfType f.now (Int width) operand }
{
    match operand {
        Operand::Value(v) => match f.values.as_slice().get(v.0 as usize) {
            Some(value) => value.ty == Ty::Int(width),
            None => false,
        },
        Operand::Literal(bits) => literal_fits(width, bits),
        Operand::Poison => true,
    }
}

fn is_operand(f: &Function, width: u32, operand: Operand) -> bool
    ensures { IsTrue result → IsNumberOperand f.now width operand }
{
    if width < 1 {
        return false;
    }
    if width > 128 {
        return false;
    }
    operand_fits(f, width, operand)
}

/// What narrowing asks of a function is so of one that was checked.
fn was_checked(f: &Checked)
    ensures equations { HasTypedEquations f.now }
    ensures once { DefinesOnce f.now }
{
    typed_functions_have_typed_equations();
    fit_is_printable();
    let _ = f.function();
}

fn tell_in<V: Values>(
    state: &mut State<V>,
    f: &Function,
    condition: &Condition,
    changes: &mut Changes<V>,
) -> bool
    requires equations { HasTypedEquations f.now }
    requires once { DefinesOnce f.now }
    requires state { IsStateOf V.ty V.proper f.now state.old }
    requires changes { AreChangesOf changes.old state.old }
    ensures { AreChangesOf changes.new state.new }
{
    let Condition { a, pred, b, width } = *condition;
    if !is_operand(f, width, a) {
        return false;
    }
    if !is_operand(f, width, b) {
        return false;
    }
    state.hold_noting(f, a, pred, b, width, changes)
}

/// Tells a state that the condition holds; a no means that no values meet the state then, or that the condition is none of
/// the function's operands.
fn tell<V: Values>(
    state: &mut State<V>,
    f: &Checked,
    condition: &Condition,
    changes: &mut Changes<V>,
) -> bool
    requires state { IsStateOf V.ty V.proper f.now state.old }
    requires changes { AreChangesOf changes.old state.old }
    ensures { AreChangesOf changes.new state.new }
{
    was_checked(f);
    tell_in(state, f.function(), condition, changes)
}

/// The entry state of the second block, after the change; None where no run comes there.
fn start<V: Values>(
    alloc: Global,
    f: &Checked,
    change: Change,
) -> Result<Option<State<V>>, AllocError>
    ensures { IfOk result (λ o. ForSome o (IsStateOf V.ty V.proper f.now)) }
{
    let Some(mut state) = entry(alloc, f, AT)? else {
        return Ok(None);
    };
    make(&mut state, f, change);
    Ok(Some(state))
}

/// No changes, of a state of the function.
fn no_changes<V: Values>(
    alloc: Global,
    f: &Checked,
    state: &State<V>,
) -> Result<Changes<V>, AllocError>
    requires { IsStateOf V.ty V.proper f.now state.now }
    ensures { IfOk result (λ changes. AreChangesOf changes state.now) }
{
    let _ = state;
    let changes = Changes::of(alloc, f.function())?;
    Ok(changes)
}

/// A line for each of the first names whose fact the condition changes in the entry state of the second block, after a change
/// of that state. What narrowing does is undone at the end, and a line says so if that leaves another state.
pub fn told(
    alloc: Global,
    f: &Checked,
    names: u32,
    change: Change,
    condition: &Condition,
) -> Result<Vec<u8>, AllocError> {
    let Some(mut state) = start::<AnyFact>(alloc, f, change)? else {
        return b"never-reached\n".to_vec(alloc);
    };
    let before = state.copied(alloc)?;
    let mut changes = no_changes(alloc, f, &state)?;
    let told = if tell(&mut state, f, condition, &mut changes) {
        changed_facts(alloc, f.function(), names, &before, &state)?
    } else {
        b"no values\n".to_vec(alloc)?
    };
    state.undo(&mut changes);
    if changed_facts(alloc, f.function(), NAMES, &before, &state)?.is_empty() {
        return Ok(told);
    }
    b"not undone\n".to_vec(alloc)
}
