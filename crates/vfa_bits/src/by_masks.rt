//! Functions narrowed by the bits that are asked for.

ghost use Rattle.std.specs.Prelude.{◌≡◌, IfOk, replicate, true};
ghost use Rattle.vfa_bits.specs.Narrowed.{AreReached, IsNarrowed};
ghost use Rattle.vfa_bits.specs.Sizes.{IsNoLarger};
ghost use Rattle.vfa_bits.specs.Written.{IsRewritten};
ghost use Rattle.vfa_check.specs.Checked.{IsChecked};
ghost use Rattle.vfa_check.specs.Items.{HasItsLines};
ghost use Rattle.vfa_demand.specs.Masks.{AreMasks, mask_in};
ghost use Rattle.vfa_ir.specs.declared.functions.Function.{Function};
ghost use Rattle.vfa_mean.specs.Kept.{is_marked};
ghost use Rattle.vfa_mean.specs.Refines.{Refines};

use crate::changes::Masked;
use crate::laws::{narrowed_is_checked, narrowing_refines};
use crate::leaving::{left, used_in};
use crate::reached::{reached_blocks, reached_calls};
use crate::replacements::replacements;
use crate::rewriting::Rewriting;
use std::alloc::{AllocError, Global};
use vfa_check::{Checked, check, refused_is_ill_formed};
use vfa_ir::{Block, Function, Items, Lines, Outside};
use vfa_mean::numbered;
use vfa_print::fit_is_printable;

/// Lines for the phis, the instructions and the terminators of a function that stands in no text.
fn no_lines(alloc: Global, blocks: &[Block]) -> Result<Lines, AllocError>
    ensures { (f : Function) → f.blocks ≡ blocks.now → IfOk result (HasItsLines f) }
{
    let mut all: Vec<Items<u32>> = Vec::with_capacity(alloc, blocks.len())?;
    'each: for block in blocks {
        let count = block.phis.as_slice().len() + block.insts.as_slice().len() + 1;
        all.push(Items(vec![in alloc; 0; count]?))?;
    }
    Ok(Lines { of: Items(all) })
}

/// The function as one that was checked.
fn checked(alloc: Global, f: Function) -> Result<Checked, AllocError>
    requires { IsChecked f }
    ensures { IfOk result (λ c. c ≡ f) }
{
    refused_is_ill_formed();
    let lines = no_lines(alloc, f.blocks.as_slice())?;
    match check(alloc, f, &lines) {
        Ok(checked) => Ok(checked),
        Err(Outside::Memory) => Err(AllocError),
        Err(_) => unreachable!(),
    }
}

/// The function with all its lines as they are written anew; `reached` has marks of the blocks that a walk comes to.
fn rewritten(
    alloc: Global,
    f: &Function,
    reached: &[bool],
    masks: &[u128],
) -> Result<Function, AllocError>
    requires checked { IsChecked f.now }
    requires reached { AreReached f.now (is_marked reached.now) }
    requires masks { AreMasks f.now (mask_in masks.now) }
    ensures { IfOk result (IsRewritten f.now (mask_in masks.now)) }
{
    fit_is_printable();
    let table = replacements(alloc, f, masks)?;
    let masked = Masked {
        f,
        masks,
        replacements: table.as_slice(),
    };
    let changed = masked.changed(alloc)?;
    let called = reached_calls(alloc, f, reached)?;
    let rewriting = Rewriting {
        f,
        masks,
        replacements: table.as_slice(),
        reached,
        called: called.as_slice(),
        changed: changed.as_slice(),
    };
    rewriting.function(alloc)
}

/// Marks of so many blocks.
fn all_marked(alloc: Global, blocks: usize) -> Result<Vec<bool>, AllocError>
    ensures { IfOk result (λ marks. marks.items ≡ replicate blocks true) }
{
    vec![in alloc; true; blocks]
}

/// The narrowed function.
fn narrowed(
    alloc: Global,
    f: &Function,
    reached: &[bool],
    masks: &[u128],
) -> Result<Function, AllocError>
    requires checked { IsChecked f.now }
    requires reached { AreReached f.now (is_marked reached.now) }
    requires masks { AreMasks f.now (mask_in masks.now) }
    ensures { IfOk result (IsNarrowed f.now (mask_in masks.now)) }
{
    fit_is_printable();
    let whole = rewritten(alloc, f, reached, masks)?;
    let used = used_in(alloc, &whole)?;
    let rest = left(whole, used.as_slice());
    let all = all_marked(alloc, rest.blocks.as_slice().len())?;
    numbered(alloc, &rest, all.as_slice())
}

/// The function narrowed by the bits that are asked for: names of which nothing is asked become 0, operands of `and`, `or`
/// and `xor` beside a literal that changes no bit that is asked for take the place of the result, a `sext` whose sign nobody
/// asks for becomes a `zext`, flags are lost where an operand may have changed, and lines that nothing hangs on are gone, but
/// for divisions, remainders, calls and assumptions. The values and the calls are numbered in text order. The masks are the
/// least ones of the function, as `masks` of `vfa_demand` gives them. An error says that memory was wanting. After LLVM's
/// demanded bits and bit-tracking dead code elimination.
///
/// `%a = and i32 %x, 65535`, `%t = trunc i32 %a to i8`, `ret i8 %t` becomes `%t = trunc i32 %x to i8`, `ret i8 %t`.
pub fn narrow_by_masks(alloc: Global, f: &Checked, masks: &[u128]) -> Result<Checked, AllocError>
    requires { AreMasks f.now (mask_in masks.now) }
    ensures narrowed { IfOk result (IsNarrowed f.now (mask_in masks.now)) }
    ensures no_larger { IfOk result (IsNoLarger f.now) }
    ensures refines { IfOk result (Refines f.now) }
{
    narrowing_refines();
    narrowed_is_checked();
    let reached = reached_blocks(alloc, f)?;
    let narrowed = narrowed(alloc, f.function(), reached.as_slice(), masks)?;
    checked(alloc, narrowed)
}
