//! Where names are defined.

ghost use Rattle.std.specs.Prelude.{◌≡◌, [], IfOk, Some, replicate};
ghost use Rattle.vfa_demand.specs.Definitions.{AreDefinitions, BlockPut, BlocksPut, IsMore, IsPut, IsPutTo, LinesPut, PhisPut};

use std::alloc::{AllocError, Global};
use vfa_ir::{Block, Function, Inst, Items, Phi, ValueId};

/// A phi or an instruction of a function, by its block and its place among those there.
#[derive(Clone, Copy)]
pub(crate) enum Definition {
    Phi { block: usize, place: usize },
    Line { block: usize, place: usize },
}

/// No definitions yet, for so many values.
fn none_yet(alloc: Global, values: usize) -> Result<Vec<Items<Definition>>, AllocError>
    ensures { IfOk result (λ all. all.items ≡ replicate values []) }
{
    let mut all: Vec<Items<Definition>> = Vec::with_capacity(alloc, values)?;
    'rows: for _ in 0..values {
        all.push(Items(Vec::new(alloc)))?;
    }
    Ok(all)
}

/// Puts a definition to those of a value, if there is one of this number.
fn put(
    all: &mut Vec<Items<Definition>>,
    value: ValueId,
    definition: Definition,
) -> Result<(), AllocError>
    ensures { IfOk result (λ _. IsPut value.0 definition all.old.items all.new.items) }
{
    let place = value.0 as usize;
    if place >= all.len() {
        return Ok(());
    }
    let definitions = &mut all[place];
    definitions.0.push(definition)?;
    Ok(())
}

fn put_phis(all: &mut Vec<Items<Definition>>, block: usize, phis: &[Phi]) -> Result<(), AllocError>
    ensures more { IfOk result (λ _. IsMore all.old.items all.new.items) }
    ensures put { IfOk result (λ _. PhisPut block phis.now all.new.items) }
{
    'each: for (place, phi) in phis.iter().enumerate() {
        put(all, phi.result, Definition::Phi { block, place })?;
    }
    Ok(())
}

/// Puts an instruction to the definitions of its result, if it has one.
fn put_line(
    all: &mut Vec<Items<Definition>>,
    inst: &Inst,
    definition: Definition,
) -> Result<(), AllocError>
    ensures more { IfOk result (λ _. IsMore all.old.items all.new.items) }
    ensures put { IfOk result (λ _. (v : ValueId) → inst.now.result ≡ Some v → IsPutTo v.0 definition all.new.items) }
{
    match inst.result {
        Some(value) => put(all, value, definition),
        None => Ok(()),
    }
}

fn put_lines(
    all: &mut Vec<Items<Definition>>,
    block: usize,
    insts: &[Inst],
) -> Result<(), AllocError>
    ensures more { IfOk result (λ _. IsMore all.old.items all.new.items) }
    ensures put { IfOk result (λ _. LinesPut block insts.now all.new.items) }
{
    'each: for (place, inst) in insts.iter().enumerate() {
        put_line(all, inst, Definition::Line { block, place })?;
    }
    Ok(())
}

fn put_block(
    all: &mut Vec<Items<Definition>>,
    number: usize,
    block: &Block,
) -> Result<(), AllocError>
    ensures more { IfOk result (λ _. IsMore all.old.items all.new.items) }
    ensures put { IfOk result (λ _. BlockPut number block.now all.new.items) }
{
    put_phis(all, number, block.phis.as_slice())?;
    put_lines(all, number, block.insts.as_slice())
}

fn put_blocks(all: &mut Vec<Items<Definition>>, blocks: &[Block]) -> Result<(), AllocError>
    ensures more { IfOk result (λ _. IsMore all.old.items all.new.items) }
    ensures put { IfOk result (λ _. BlocksPut blocks.now all.new.items) }
{
    'each: for (number, block) in blocks.iter().enumerate() {
        put_block(all, number, block)?;
    }
    Ok(())
}

/// For each value of a function its definitions: of a parameter none, of any other name of a function that is checked one.
pub(crate) fn definitions(alloc: Global, f: &Function) -> Result<Vec<Items<Definition>>, AllocError>
    ensures { IfOk result (λ all. AreDefinitions f.now all.items) }
{
    let mut all = none_yet(alloc, f.values.as_slice().len())?;
    put_blocks(&mut all, f.blocks.as_slice())?;
    Ok(all)
}
