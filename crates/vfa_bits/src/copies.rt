//! Copies of the parts of a function that stay.

ghost use Rattle.std.specs.Prelude.{◌≡◌, IfOk};

use smallvec::SmallVec;
use std::alloc::{AllocError, Global};
use vfa_ir::{BlockId, Few, Items, Name, Param, Value};

/// The same words.
pub(crate) fn copied_words(alloc: Global, words: &Items<Name>) -> Result<Items<Name>, AllocError>
    ensures { IfOk result (λ copy. copy ≡ words.now) }
{
    let mut copy = Vec::new(alloc);
    'each: for word in words.as_slice() {
        copy.push(word.copied(alloc)?)?;
    }
    Ok(Items(copy))
}

/// The same name, or none.
pub(crate) fn copied_name(alloc: Global, name: &Option<Name>) -> Result<Option<Name>, AllocError>
    ensures { IfOk result (λ copy. copy ≡ name.now) }
{
    match name {
        Some(name) => Ok(Some(name.copied(alloc)?)),
        None => Ok(None),
    }
}

/// The same values.
pub(crate) fn copied_values(alloc: Global, values: &[Value]) -> Result<Items<Value>, AllocError>
    ensures { IfOk result (λ copy. copy ≡ values.now) }
{
    let mut copy = Vec::with_capacity(alloc, values.len())?;
    'each: for value in values {
        let name = copied_name(alloc, &value.name)?;
        copy.push(Value { name, ty: value.ty })?;
    }
    Ok(Items(copy))
}

/// The same parameters.
pub(crate) fn copied_params(alloc: Global, params: &[Param]) -> Result<Items<Param>, AllocError>
    ensures { IfOk result (λ copy. copy ≡ params.now) }
{
    let mut copy = Vec::with_capacity(alloc, params.len())?;
    'each: for param in params {
        let words = copied_words(alloc, &param.words)?;
        copy.push(Param {
            value: param.value,
            words,
        })?;
    }
    Ok(Items(copy))
}

/// The same cases of a `switch`.
pub(crate) fn copied_cases(
    alloc: Global,
    cases: &[(u128, BlockId)],
) -> Result<Few<(u128, BlockId)>, AllocError>
    ensures { IfOk result (λ copy. copy ≡ cases.now) }
{
    let mut copy: SmallVec<(u128, BlockId), 4> = SmallVec::new(alloc);
    'each: for case in cases {
        copy.push(*case)?;
    }
    Ok(Few(copy))
}
