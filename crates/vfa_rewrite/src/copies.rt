//! Copies of what stays as it is.

ghost use Rattle.std.specs.Prelude.{◌≡◌, IfOk};

use std::alloc::{AllocError, Global};
use vfa_ir::{CallArg, CallOp, Items, Name, Param, Value};

/// The same words.
pub(crate) fn copied_words(alloc: Global, words: &Items<Name>) -> Result<Items<Name>, AllocError>
    ensures { IfOk result (λ copy. copy ≡ words.now) }
{
    let mut copy = Vec::new(alloc);
    'each: for word in words.as_slice() {
        copy.push(word.copied(alloc)?)?;
    }
    Ok(Items(copy))
}

/// The same name, or none.
pub(crate) fn copied_name(alloc: Global, name: &Option<Name>) -> Result<Option<Name>, AllocError>
    ensures { IfOk result (λ copy. copy ≡ name.now) }
{
    match name {
        Some(name) => Ok(Some(name.copied(alloc)?)),
        None => Ok(None),
    }
}

/// The same values.
pub(crate) fn copied_values(
    alloc: Global,
    values: &Items<Value>,
) -> Result<Items<Value>, AllocError>
    ensures { IfOk result (λ copy. copy ≡ values.now) }
{
    let mut copy = Vec::new(alloc);
    'each: for value in values.as_slice() {
        let name = copied_name(alloc, &value.name)?;
        copy.push(Value { name, ty: value.ty })?;
    }
    Ok(Items(copy))
}

/// The same parameters.
pub(crate) fn copied_params(
    alloc: Global,
    params: &Items<Param>,
) -> Result<Items<Param>, AllocError>
    ensures { IfOk result (λ copy. copy ≡ params.now) }
{
    let mut copy = Vec::new(alloc);
    'each: for param in params.as_slice() {
        let words = copied_words(alloc, &param.words)?;
        copy.push(Param {
            value: param.value,
            words,
        })?;
    }
    Ok(Items(copy))
}

/// The same arguments.
fn copied_args(alloc: Global, args: &Items<CallArg>) -> Result<Items<CallArg>, AllocError>
    ensures { IfOk result (λ copy. copy ≡ args.now) }
{
    let mut copy = Vec::new(alloc);
    'each: for arg in args.as_slice() {
        let words = copied_words(alloc, &arg.words)?;
        copy.push(CallArg {
            width: arg.width,
            words,
            value: arg.value,
        })?;
    }
    Ok(Items(copy))
}

/// The same call.
pub(crate) fn copied_call(alloc: Global, call: &CallOp) -> Result<CallOp, AllocError>
    ensures { IfOk result (λ copy. copy ≡ call.now) }
{
    Ok(CallOp {
        callee: call.callee.copied(alloc)?,
        words: copied_words(alloc, &call.words)?,
        args: copied_args(alloc, &call.args)?,
    })
}
