//! The numbers of the values and blocks that have no name.

ghost use Rattle.std.specs.Prelude.{◌≡◌, ◌<◌, ◌++◌, length, map, IfOk};
ghost use Rattle.vfa_ir.specs.Shown.{is_unnamed, locals_of, locals_of_block, number_of, results_of, same_local, shown_block_name, shown_value_name};

use crate::functions::{Block, Function, Inst};
use crate::names::Name;
use crate::operations::{BlockId, ValueId};
use std::alloc::{AllocError, Global};

/// What a local identifier names: a value or a block, by its place in `Function::values` or `Function::blocks`.
#[derive(Clone, Copy, Debug, PartialEq, Eq)]
pub enum Local {
    /// A parameter or a result.
    Value(usize),
    /// A block.
    Block(usize),
}

/// All that a function defines in text order: its parameters, then each block and its results.
pub fn locals(alloc: Global, f: &Function) -> Result<Vec<Local>, AllocError>
    ensures { IfOk result (λ all. all.items ≡ locals_of f.now) }
{
    let mut all: Vec<Local> = Vec::new(alloc);
    for param in f.params.as_slice() {
        all.push(Local::Value(param.value.0 as usize))?;
    }
    for (place, block) in f.blocks.as_slice().iter().enumerate() {
        push_block(&mut all, place, block)?;
    }
    Ok(all)
}

fn push_block(all: &mut Vec<Local>, place: usize, block: &Block) -> Result<(), AllocError>
    ensures { IfOk result (λ _. all.new.items ≡ all.old.items ++ locals_of_block place block.now) }
{
    all.push(Local::Block(place))?;
    for phi in block.phis.as_slice() {
        all.push(Local::Value(phi.result.0 as usize))?;
    }
    push_results(all, block.insts.as_slice())
}

fn push_results(all: &mut Vec<Local>, insts: &[Inst]) -> Result<(), AllocError>
    ensures { IfOk result (λ _. all.new.items ≡ all.old.items ++ results_of insts.now) }
{
    for inst in insts {
        if let Some(v) = inst.result {
            all.push(Local::Value(v.0 as usize))?;
        }
    }
    Ok(())
}

fn same(a: Local, b: Local) -> bool
    ensures { result ≡ same_local a b }
{
    match (a, b) {
        (Local::Value(v), Local::Value(w)) => v == w,
        (Local::Block(v), Local::Block(w)) => v == w,
        _ => false,
    }
}

fn has_no_name(f: &Function, local: Local) -> bool
    ensures { result ≡ is_unnamed f.now local }
{
    match local {
        Local::Value(v) => match f.values.as_slice().get(v) {
            Some(value) => value.name.is_none(),
            None => true,
        },
        Local::Block(b) => match f.blocks.as_slice().get(b) {
            Some(block) => block.name.is_none(),
            None => true,
        },
    }
}

/// The number of a value or a block: how many stand before it in text order without a name.
fn number(alloc: Global, f: &Function, local: Local) -> Result<usize, AllocError>
    ensures { IfOk result (λ n. n ≡ number_of f.now local) }
{
    let all = locals(alloc, f)?;
    Ok(
        all.iter()
            .take_while(|other| !same(**other, local))
            .filter(|other| has_no_name(f, **other))
            .count(),
    )
}

/// The bytes that a value is shown by, without sigil, quotes or escapes: its name, or the decimal digits of its number
/// where it has none. The values and blocks without a name are numbered from 0 in text order (LLVM Language Reference,
/// "Identifiers"). The id is one of the function.
///
/// In `define i8 @f(i8 %x)` with an unlabelled entry and one result without a name, the values are `x` and `1`.
pub fn shown_value(alloc: Global, f: &Function, v: ValueId) -> Result<Name, AllocError>
    requires { v.0 < length f.now.values }
    ensures { IfOk result (λ name. name ≡ shown_value_name f.now v.0) }
{
    match &f.values.as_slice()[v.0 as usize].name {
        Some(name) => name.copied(alloc),
        None => Name::decimal(alloc, number(alloc, f, Local::Value(v.0 as usize))?),
    }
}

/// The bytes that a block is shown by, as those of a value: in the example, the block is `0`.
pub fn shown_block(alloc: Global, f: &Function, b: BlockId) -> Result<Name, AllocError>
    requires { b.0 < length f.now.blocks }
    ensures { IfOk result (λ name. name ≡ shown_block_name f.now b.0) }
{
    match &f.blocks.as_slice()[b.0 as usize].name {
        Some(name) => name.copied(alloc),
        None => Name::decimal(alloc, number(alloc, f, Local::Block(b.0 as usize))?),
    }
}
