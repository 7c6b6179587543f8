//! The names that something hangs on.

ghost use Rattle.std.specs.Prelude.{◌≡◌, ◌++◌, IfOk, false, length, slice_index_or};
ghost use Rattle.vfa_demand.specs.Needed.{names_if, needed_by, needed_in, needed_names};
ghost use Rattle.vfa_demand.specs.Used.{AreUsed, UsesItsValues, must_in};

use crate::behind::names_behind;
use crate::operand_names::{push_op, push_term};
use crate::reach::led_to;
use std::alloc::{AllocError, Global};
use vfa_ir::{Block, Function, Inst, Items};

/// Whether the list says of this place that it has to stay.
fn stays(must: &[bool], place: usize) -> bool
    ensures { result ≡ slice_index_or must.now place false }
{
    must.get(place).copied().unwrap_or(false)
}

/// Puts the names that an instruction uses behind others, if it has to stay.
fn push_if(names: &mut Vec<u32>, f: &Function, stays: bool, inst: &Inst) -> Result<(), AllocError>
    ensures { IfOk result (λ _. names.new.items ≡ names.old.items ++ names_if f.now stays inst.now) }
{
    if stays {
        return push_op(names, f, &inst.op);
    }
    Ok(())
}

fn push_lines(
    names: &mut Vec<u32>,
    f: &Function,
    must: &[bool],
    insts: &[Inst],
) -> Result<(), AllocError>
    ensures { IfOk result (λ _.
        names.new.items ≡ names.old.items ++ needed_by f.now (λ i. slice_index_or must.now i false) insts.now) }
{
    let mut place: usize = 0;
    'each: for inst in insts {
        push_if(names, f, stays(must, place), inst)?;
        place += 1;
    }
    Ok(())
}

fn push_block(
    names: &mut Vec<u32>,
    f: &Function,
    must: &[bool],
    block: &Block,
) -> Result<(), AllocError>
    ensures { IfOk result (λ _.
        names.new.items ≡ names.old.items ++ needed_in f.now (λ i. slice_index_or must.now i false) block.now) }
{
    push_lines(names, f, must, block.insts.as_slice())?;
    push_term(names, &block.term)
}

/// Puts the names that the block of this number needs behind others.
fn push_numbered(
    names: &mut Vec<u32>,
    f: &Function,
    must: &[Items<bool>],
    number: usize,
    block: &Block,
) -> Result<(), AllocError>
    ensures { IfOk result (λ _. names.new.items ≡ names.old.items ++ needed_in f.now (must_in must.now number) block.now) }
{
    match must.get(number) {
        Some(must) => push_block(names, f, must.as_slice(), block),
        None => push_block(names, f, &[], block),
    }
}

/// The names that terminators use, and the instructions that have to stay.
fn needed(alloc: Global, f: &Function, must: &[Items<bool>]) -> Result<Vec<u32>, AllocError>
    ensures { IfOk result (λ names. names.items ≡ needed_names f.now (must_in must.now)) }
{
    let mut names: Vec<u32> = Vec::new(alloc);
    let mut number: usize = 0;
    'each: for block in f.blocks.as_slice() {
        push_numbered(&mut names, f, must, number, block)?;
        number += 1;
    }
    Ok(names)
}

/// The names that something hangs on, a mark for each value: those that terminators use, those that instructions use which
/// have to stay, and those that the definitions of these names use. `must` has a list for each block, and says there of each
/// instruction whether it has to stay. All names that the function uses are its values'; they may be defined more than
/// once or nowhere. An error says that memory was wanting. After LLVM's aggressive dead code elimination.
///
/// In `%a = add i8 %x, 1`, `%b = add i8 %y, 1`, `ret i8 %a` with nothing that has to stay they are `%a` and `%x`.
pub fn used_names(
    alloc: Global,
    f: &Function,
    must: &[Items<bool>],
) -> Result<Vec<bool>, AllocError>
    requires { UsesItsValues f.now }
    ensures used { IfOk result (λ used. AreUsed f.now (must_in must.now) (λ v. slice_index_or used.items v false)) }
    ensures length { IfOk result (λ used. length used.items ≡ length f.now.values) }
{
    let behind = names_behind(alloc, f)?;
    let needed = needed(alloc, f, must)?;
    led_to(alloc, needed.as_slice(), behind.as_slice())
}
