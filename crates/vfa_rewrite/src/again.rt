//! The check of functions that are known to pass it.

ghost use Rattle.std.specs.Prelude.{◌≡◌, ◌+◌, IfOk, length};
ghost use Rattle.vfa_check.specs.Checked.{IsChecked};
ghost use Rattle.vfa_check.specs.Items.{HasItsLines, item_count};

use std::alloc::{AllocError, Global};
use vfa_check::{Checked, check, refused_is_ill_formed};
use vfa_ir::{Block, Function, Items, Lines, Outside};

/// So many lines more, which are in no text.
fn push_lines(lines: &mut Vec<u32>, count: usize) -> Result<(), AllocError>
    ensures { IfOk result (λ _. length lines.new.items ≡ length lines.old.items + count) }
{
    'each: for _ in 0..count {
        lines.push(0)?;
    }
    Ok(())
}

/// A line for each phi and instruction of a block, and for its terminator.
fn block_lines(alloc: Global, block: &Block) -> Result<Vec<u32>, AllocError>
    ensures { IfOk result (λ lines. length lines.items ≡ item_count block.now) }
{
    let mut lines: Vec<u32> = Vec::new(alloc);
    push_lines(&mut lines, block.phis.as_slice().len())?;
    push_lines(&mut lines, block.insts.as_slice().len())?;
    lines.push(0)?;
    Ok(lines)
}

/// Lines for a function that stands in no text.
fn no_lines(alloc: Global, f: &Function) -> Result<Lines, AllocError>
    ensures { IfOk result (HasItsLines f.now) }
{
    let mut of: Vec<Items<u32>> = Vec::new(alloc);
    'all: for block in f.blocks.as_slice() {
        of.push(Items(block_lines(alloc, block)?))?;
    }
    Ok(Lines { of: Items(of) })
}

/// The same function, checked.
pub(crate) fn checked_again(alloc: Global, f: Function) -> Result<Checked, AllocError>
    requires { IsChecked f }
    ensures { IfOk result (λ g. g ≡ f) }
{
    refused_is_ill_formed();
    let lines = no_lines(alloc, &f)?;
    match check(alloc, f, &lines) {
        Ok(checked) => Ok(checked),
        Err(Outside::Memory) => Err(AllocError),
        Err(_) => unreachable!(),
    }
}
