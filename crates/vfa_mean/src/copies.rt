//! Copies of names and values.

ghost use Rattle.std.specs.Prelude.{◌≡◌, IfOk};

use std::alloc::{AllocError, Global};
use vfa_ir::{Items, Name, Value};

/// The same words.
pub(crate) fn copied_words(alloc: Global, words: &Items<Name>) -> Result<Items<Name>, AllocError>
    ensures { IfOk result (λ copy. copy ≡ words.now) }
{
    let mut copy = Vec::new(alloc);
    'each: for word in words.as_slice() {
        copy.push(word.copied(alloc)?)?;
    }
    Ok(Items(copy))
}

/// The same name, or none.
pub(crate) fn copied_name(alloc: Global, name: &Option<Name>) -> Result<Option<Name>, AllocError>
    ensures { IfOk result (λ copy. copy ≡ name.now) }
{
    match name {
        Some(name) => Ok(Some(name.copied(alloc)?)),
        None => Ok(None),
    }
}

/// The same value.
pub(crate) fn copied_value(alloc: Global, value: &Value) -> Result<Value, AllocError>
    ensures { IfOk result (λ copy. copy ≡ value.now) }
{
    Ok(Value {
        name: copied_name(alloc, &value.name)?,
        ty: value.ty,
    })
}
