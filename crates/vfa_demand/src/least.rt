//! The least masks.

ghost use Rattle.std.specs.Prelude.{◌≡◌, IfOk, length};
ghost use Rattle.vfa_demand.specs.Masks.{AreMasks, mask_in};
ghost use Rattle.vfa_demand.specs.Usable.{AreUsable};

use crate::definitions::definitions;
use crate::growing::Growing;
use std::alloc::{AllocError, Global};
use vfa_check::Checked;
use vfa_ir::Function;
use vfa_print::fit_is_printable;

/// For each value of a function the bits of it that something hangs on, as a mask: the least masks with all that each use
/// asks for. Of a pair all bits of its number are asked for, or none.
///
/// In `%a = and i32 %x, 65535`, `%t = trunc i32 %a to i8`, `ret i8 %t` it is 255 of each of the three.
///
/// An error says that memory was wanting. After LLVM's DemandedBits.
pub fn masks(alloc: Global, f: &Checked) -> Result<Vec<u128>, AllocError>
    ensures masks { IfOk result (λ masks. AreMasks f.now (mask_in masks.items)) }
    ensures length { IfOk result (λ masks. length masks.items ≡ length f.now.values) }
{
    fit_is_printable();
    least_masks(alloc, f.function())
}

/// The least masks of a function whose operands are values of it, literals and `poison`, at widths of 1 to 128.
pub(crate) fn least_masks(alloc: Global, f: &Function) -> Result<Vec<u128>, AllocError>
    requires { AreUsable f.now }
    ensures masks { IfOk result (λ masks. AreMasks f.now (mask_in masks.items)) }
    ensures length { IfOk result (λ masks. length masks.items ≡ length f.now.values) }
{
    let definitions = definitions(alloc, f)?;
    let mut growing = Growing::new(alloc, f.values.as_slice().len())?;
    growing.ask_roots(f, f.blocks.as_slice())?;
    'names: while let Some(name) = growing.ahead.pop() {
        growing.waits[name] = false;
        growing.ask_definitions(f, definitions[name].as_slice())?;
    }
    Ok(growing.bits)
}
