//! What `opt` writes for an accepted function.

ghost use Rattle.std.specs.Prelude.{◌≤◌, ◌^◌, ℕ, List, IfOk, length};
ghost use Rattle.vfa_opt.specs.Optimised.{IsOptimisedText};
ghost use Rattle.vfa_opt.specs.Sound.{IsRefinement};

use crate::optimised::{numbers_are_printed, one_optimised, optimised};
use std::alloc::{AllocError, Global};
use vfa_check::Checked;
use vfa_print::print_function;

/// The text that stands in place of a function: that of the optimised function.
pub fn printed(alloc: Global, f: &Checked) -> Result<Vec<u8>, AllocError>
    requires few { length f.now.values ≤ 2 ^ 26 }
    ensures text { IfOk result (λ text. IsOptimisedText f.now text.items) }
    ensures sound { IfOk result (λ _. (text : List ℕ) → IsOptimisedText f.now text → IsRefinement f.now text) }
{
    one_optimised();
    numbers_are_printed();
    let _checked = f.function();
    let optimised = optimised(alloc, f)?;
    let function = optimised.function();
    let text = print_function(alloc, function)?;
    Ok(text)
}
