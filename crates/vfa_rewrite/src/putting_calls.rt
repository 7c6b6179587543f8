//! Calls with the arguments that are put where they are made.

ghost use Rattle.std.specs.Prelude.{◌≡◌, ◌<◌, ℕ, true, All, IfOk, None, OnOk, Some, if◌then◌else◌, length, map, nat_eq, slice_get, slice_index_or, unwrap_or};
ghost use Rattle.std.specs.Option.{option_map, option_or};
ghost use Rattle.vfa_ir.specs.declared.functions.CallOp.{CallOp};
ghost use Rattle.vfa_cond.specs.States.{known};
ghost use Rattle.vfa_rewrite.specs.Making.{makes_call};
ghost use Rattle.vfa_rewrite.specs.Putting.{IsNamed, MayPut, call_with, put_by};
ghost use Rattle.vfa_rewrite.specs.Rewritten.{argument_left, with_numbers};

use crate::copies::{copied_call, copied_words};
use crate::putting_operands::put;
use std::alloc::{AllocError, Global};
use vfa_cond::State;
use vfa_ir::{CallArg, CallOp, Function, Items, Op, Operand};
use vfa_xfer::AnyFact;

/// The arguments with what is put in their place.
fn put_args(
    alloc: Global,
    f: &Function,
    state: Option<&State<AnyFact>>,
    others: &[Option<Operand>],
    args: &[CallArg],
) -> Result<Items<CallArg>, AllocError>
    requires may { MayPut f.now others.now (option_map (λ s. known s.now) state) }
    requires named { All (λ a. IsNamed f.now a.value) args.now }
    ensures { IfOk result (λ all. all ≡ map (argument_left (put_by f.now others.now (option_map (λ s. known s.now) state.entry))) args.now) }
{
    let mut all = Vec::new(alloc);
    'each: for arg in args {
        let words = copied_words(alloc, &arg.words)?;
        all.push(CallArg {
            width: arg.width,
            words,
            value: put(f, state, others, arg.value),
        })?;
    }
    Ok(Items(all))
}

/// The call with what is put in place of its arguments.
fn put_call(
    alloc: Global,
    f: &Function,
    state: Option<&State<AnyFact>>,
    others: &[Option<Operand>],
    call: &CallOp,
) -> Result<CallOp, AllocError>
    requires may { MayPut f.now others.now (option_map (λ s. known s.now) state) }
    requires named { All (λ a. IsNamed f.now a.value) call.now.args }
    ensures { IfOk result (λ c. c ≡ call_with (put_by f.now others.now (option_map (λ s. known s.now) state.entry)) call.now) }
{
    Ok(CallOp {
        callee: call.callee.copied(alloc)?,
        words: copied_words(alloc, &call.words)?,
        args: put_args(alloc, f, state, others, call.args.as_slice())?,
    })
}

/// Notes the call of a number, if none was noted before.
fn note_call(calls: &mut Vec<Option<CallOp>>, number: u32, call: CallOp)
    requires { number < length calls.old.items }
    ensures count { length calls.new.items ≡ length calls.old.items }
    ensures calls { (k : ℕ) → slice_index_or calls.new.items k None ≡
        option_or (slice_index_or calls.old.items k None) (if nat_eq number k then Some call else None) }
{
    if calls[number as usize].is_some() {
        return;
    }
    calls[number as usize] = Some(call);
}

/// Notes the call that an operation makes, with what is put in place of its arguments.
pub(crate) fn make_call(
    alloc: Global,
    f: &Function,
    state: Option<&State<AnyFact>>,
    others: &[Option<Operand>],
    op: &Op,
    calls: &mut Vec<Option<CallOp>>,
) -> Result<(), AllocError>
    requires may { MayPut f.now others.now (option_map (λ s. known s.now) state) }
    requires named { (k : ℕ) (call : CallOp) → makes_call k op.now ≡ true → slice_get f.now.calls k ≡ Some call →
        All (λ a. IsNamed f.now a.value) call.args }
    requires count { length calls.old.items ≡ length f.now.calls }
    ensures count { OnOk result (length calls.new.items ≡ length calls.old.items) }
    ensures calls { OnOk result ((k : ℕ) → slice_index_or calls.new.items k None ≡
        option_or (slice_index_or calls.old.items k None) (if makes_call k op.now
        then option_map (call_with (put_by f.now others.now (option_map (λ s. known s.now) state.entry))) (slice_get f.now.calls k) else None)) }
{
    let Op::Call { call: number, .. } = *op else {
        return Ok(());
    };
    let Some(call) = f.calls.as_slice().get(number as usize) else {
        return Ok(());
    };
    let call = put_call(alloc, f, state, others, call)?;
    note_call(calls, number, call);
    Ok(())
}

/// So many calls, none of which was made yet.
pub(crate) fn no_calls(alloc: Global, count: usize) -> Result<Vec<Option<CallOp>>, AllocError>
    ensures count { IfOk result (λ calls. length calls.items ≡ count) }
    ensures none { IfOk result (λ calls. (k : ℕ) → slice_index_or calls.items k None ≡ None) }
{
    let mut calls: Vec<Option<CallOp>> = Vec::new(alloc);
    'numbers: for _ in 0..count {
        calls.push(None)?;
    }
    Ok(calls)
}

/// The call that was made, else the same call.
fn made_or_same(
    alloc: Global,
    made: Option<&Option<CallOp>>,
    call: &CallOp,
) -> Result<CallOp, AllocError>
    ensures { IfOk result (λ c. c ≡ unwrap_or (unwrap_or (option_map (λ m. m.now) made.entry) None) call.now) }
{
    match made {
        Some(Some(made)) => copied_call(alloc, made),
        Some(None) | None => copied_call(alloc, call),
    }
}

/// The calls of the function, those that were made as they were noted.
pub(crate) fn all_calls(
    alloc: Global,
    f: &Function,
    made: &[Option<CallOp>],
) -> Result<Items<CallOp>, AllocError>
    ensures { IfOk result (λ all. all ≡ with_numbers (λ k call. unwrap_or (slice_index_or made.now k None) call) 0 f.now.calls) }
{
    let mut all = Vec::new(alloc);
    let calls = f.calls.as_slice();
    'each: for k in 0..calls.len() {
        all.push(made_or_same(alloc, made.get(k), &calls[k])?)?;
    }
    Ok(Items(all))
}
