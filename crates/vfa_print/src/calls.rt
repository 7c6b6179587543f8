//! Calls of functions that are no intrinsics.

ghost use Rattle.std.specs.Prelude.{◌≡◌, ◌∷◌, ◌++◌, [], flat_map, map, slice_get, IfOk};
ghost use Rattle.std.specs.List.{join_by};
ghost use Rattle.vfa_ir.specs.Spelling.{argument as argument_tokens, call as call_tokens, comma, operation as operation_tokens, result_type};
ghost use Rattle.vfa_print.specs.Trees.{argument_tree, bare_call, call_tree};
ghost use Rattle.vfa_print.specs.Writing.{with_tokens};

use crate::operands::push_operand;
use crate::shown::ShownNames;
use crate::writer::Writer;
use std::alloc::AllocError;
use vfa_ir::{CallArg, CallOp};

/// `iN`, or `void` where there is no width.
fn push_result_type(w: &mut Writer, width: Option<u32>) -> Result<(), AllocError>
    ensures { IfOk result (λ _. w.new ≡ with_tokens w.old (result_type width ∷ [])) }
{
    match width {
        Some(width) => w.integer_type(width),
        None => w.word(b"void"),
    }
}

/// `iN`, the attributes of an argument, and its value.
#[tactic(auto, using(crate::proofs::Drafts::with_tokens_append))]
fn push_argument(w: &mut Writer, names: &ShownNames, arg: &CallArg) -> Result<(), AllocError>
    ensures { IfOk result (λ _. w.new ≡ with_tokens w.old (argument_tokens (argument_tree names.now arg.now))) }
{
    w.integer_type(arg.width)?;
    w.words(arg.words.as_slice())?;
    push_operand(w, names, arg.width, arg.value)
}

/// The arguments after the first.
#[tactic(auto, using(crate::proofs::Drafts::with_tokens_append))]
fn push_further(w: &mut Writer, names: &ShownNames, rest: &[CallArg]) -> Result<(), AllocError>
    ensures { IfOk result (λ _. w.new ≡ with_tokens w.old
        (flat_map (λ a. comma ∷ argument_tokens a) (map (argument_tree names.now) rest.now))) }
{
    'passed: for arg in rest {
        w.mark(b',')?;
        push_argument(w, names, arg)?;
    }
    Ok(())
}

/// The arguments of a call, with commas between them.
#[tactic(auto, using(crate::proofs::Drafts::with_tokens_append))]
fn push_arguments(w: &mut Writer, names: &ShownNames, args: &[CallArg]) -> Result<(), AllocError>
    ensures { IfOk result (λ _. w.new ≡ with_tokens w.old
        (join_by argument_tokens (comma ∷ []) (map (argument_tree names.now) args.now))) }
{
    let Some((first, rest)) = args.split_first() else {
        return Ok(());
    };
    push_argument(w, names, first)?;
    push_further(w, names, rest)
}

/// A call of a function without a name and without arguments.
fn push_nameless(w: &mut Writer, width: Option<u32>) -> Result<(), AllocError>
    ensures { IfOk result (λ _. w.new ≡ with_tokens w.old (call_tokens bare_call (result_type width ∷ []) [] [])) }
{
    w.word(b"call")?;
    push_result_type(w, width)?;
    w.global(b"")?;
    w.mark(b'(')?;
    w.mark(b')')
}

/// `call`, its words, the type of its result, the callee and the arguments.
#[tactic(auto, using(crate::proofs::Drafts::with_tokens_append))]
fn push_known(
    w: &mut Writer,
    names: &ShownNames,
    width: Option<u32>,
    call: &CallOp,
) -> Result<(), AllocError>
    ensures { IfOk result (λ _. w.new ≡ with_tokens w.old (operation_tokens (call_tree names.now width (Some call.now)))) }
{
    w.word(b"call")?;
    w.words(call.words.as_slice())?;
    push_result_type(w, width)?;
    w.global(call.callee.bytes())?;
    w.mark(b'(')?;
    push_arguments(w, names, call.args.as_slice())?;
    w.mark(b')')
}

/// The call at a place; one of a function without a name where there is none, which does not occur.
pub fn push_call(
    w: &mut Writer,
    names: &ShownNames,
    calls: &[CallOp],
    width: Option<u32>,
    place: u32,
) -> Result<(), AllocError>
    ensures { IfOk result (λ _. w.new ≡ with_tokens w.old (operation_tokens (call_tree names.now width (slice_get calls.now place)))) }
{
    match calls.get(place as usize) {
        Some(call) => push_known(w, names, width, call),
        None => push_nameless(w, width),
    }
}
