//! The names that the definitions of each name use.

ghost use Rattle.std.specs.Prelude.{◌≡◌, [], IfOk, flat_map, replicate};
ghost use Rattle.vfa_demand.specs.Behind.{AreNamesBehind, ArePut, behind_in, behind_line, behind_phi};

use crate::operand_names::{push_entries, push_op};
use std::alloc::{AllocError, Global};
use vfa_ir::{Block, Function, Inst, Items, Phi};

/// No names yet, for so many values.
fn none_yet(alloc: Global, values: usize) -> Result<Vec<Items<u32>>, AllocError>
    ensures { IfOk result (λ all. all.items ≡ replicate values []) }
{
    let mut all: Vec<Items<u32>> = Vec::with_capacity(alloc, values)?;
    'rows: for _ in 0..values {
        all.push(Items(Vec::new(alloc)))?;
    }
    Ok(all)
}

/// Puts the names that a phi uses to those of its result.
fn put_phi(all: &mut Vec<Items<u32>>, phi: &Phi) -> Result<(), AllocError>
    ensures { IfOk result (λ _. ArePut (behind_phi phi.now) all.old.items all.new.items) }
{
    let place = phi.result.0 as usize;
    if place >= all.len() {
        return Ok(());
    }
    let names = &mut all[place];
    push_entries(&mut names.0, phi.entries.as_slice())
}

/// Puts the names that an instruction uses to those of its result, if it has one.
fn put_line(all: &mut Vec<Items<u32>>, f: &Function, inst: &Inst) -> Result<(), AllocError>
    ensures { IfOk result (λ _. ArePut (behind_line f.now inst.now) all.old.items all.new.items) }
{
    let Some(value) = inst.result else {
        return Ok(());
    };
    let place = value.0 as usize;
    if place >= all.len() {
        return Ok(());
    }
    let names = &mut all[place];
    push_op(&mut names.0, f, &inst.op)
}

fn put_phis(all: &mut Vec<Items<u32>>, phis: &[Phi]) -> Result<(), AllocError>
    ensures { IfOk result (λ _. ArePut (λ v. flat_map (λ p. behind_phi p v) phis.now) all.old.items all.new.items) }
{
    'each: for phi in phis {
        put_phi(all, phi)?;
    }
    Ok(())
}

fn put_lines(all: &mut Vec<Items<u32>>, f: &Function, insts: &[Inst]) -> Result<(), AllocError>
    ensures { IfOk result (λ _. ArePut (λ v. flat_map (λ i. behind_line f.now i v) insts.now) all.old.items all.new.items) }
{
    'each: for inst in insts {
        put_line(all, f, inst)?;
    }
    Ok(())
}

fn put_block(all: &mut Vec<Items<u32>>, f: &Function, block: &Block) -> Result<(), AllocError>
    ensures { IfOk result (λ _. ArePut (behind_in f.now block.now) all.old.items all.new.items) }
{
    put_phis(all, block.phis.as_slice())?;
    put_lines(all, f, block.insts.as_slice())
}

/// For each value of a function the names that its definitions use, in text order: of a parameter none, of the result of a
/// phi or an instruction those that it uses. An error says that memory was wanting.
///
/// Of `%a` in `%a = add i8 %x, %y` they are `%x` and `%y`.
pub fn names_behind(alloc: Global, f: &Function) -> Result<Vec<Items<u32>>, AllocError>
    ensures { IfOk result (λ names. AreNamesBehind f.now names.items) }
{
    let mut all = none_yet(alloc, f.values.as_slice().len())?;
    'each: for block in f.blocks.as_slice() {
        put_block(&mut all, f, block)?;
    }
    Ok(all)
}
