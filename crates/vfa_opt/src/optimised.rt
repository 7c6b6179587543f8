//! A function, optimised.

ghost use Rattle.std.specs.Prelude.{◌≡◌, ◌≤◌, ◌^◌, IfOk, length};
ghost use Rattle.vfa_check.specs.Checked.{IsChecked};
ghost use Rattle.vfa_ir.specs.declared.functions.Function.{Function};
ghost use Rattle.vfa_mean.specs.Refines.{Refines};
ghost use Rattle.vfa_rewrite.specs.PrintedNumbers.{PrintsNumbers};
ghost use Rattle.vfa_walk.specs.Tables.{IsTableOf, States};
ghost use Rattle.vfa_xfer.specs.Transfers.{fact_answers};
ghost use Rattle.vfa_xfer.specs.declared.any_fact.AnyFact.{AnyFact as SomeFact};
ghost use Rattle.vfa_opt.specs.Optimised.{IsOptimised};

use std::alloc::{AllocError, Global};
use vfa_bits::{narrow_by_masks, narrowed_is_checked, one_narrowed};
use vfa_check::Checked;
use vfa_demand::masks;
use vfa_mean::refinement_is_a_preorder;
use vfa_print::fit_is_printable;
use vfa_rewrite::{one_rewritten, rewrite, rewritten_is_checked};
use vfa_solve::solve;
use vfa_xfer::AnyFact;

/// The function, rewritten by its table of facts and narrowed by the bits that are asked for of what that leaves. It refines the
/// function: all that may come of it is allowed by what may come of the function.
///
/// `%a = and i8 %x, 15`, `%b = and i8 %a, -16`, `ret i8 %b` becomes `ret i8 0`.
pub fn optimised(alloc: Global, f: &Checked) -> Result<Checked, AllocError>
    requires few { length f.now.values ≤ 2 ^ 26 }
    ensures optimised { IfOk result (IsOptimised f.now) }
    ensures refines { IfOk result (Refines f.now) }
{
    refinement_is_a_preorder();
    let table = solve::<AnyFact>(alloc, f)?;
    let simpler = rewrite(alloc, f, &table)?;
    let asked = masks(alloc, &simpler)?;
    let narrow = narrow_by_masks(alloc, &simpler, &asked)?;
    Ok(narrow)
}

/// A law: a checked function is optimised to one function at most.
pub fn one_optimised()
    ensures { (f g g' : Function) → IsChecked f → IsOptimised f g → IsOptimised f g' → g ≡ g' }
{
    fit_is_printable();
    one_rewritten();
    one_narrowed();
}

/// A law: of a checked function each operand that its table knows to be one number is that number in the optimised function, wherever
/// its line is left.
pub fn numbers_are_printed()
    ensures { (f g : Function) (t : States SomeFact) → IsChecked f → length f.values ≤ 2 ^ 26 → IsOptimised f g → IsTableOf fact_answers f t →
        PrintsNumbers f t g }
{
    fit_is_printable();
    rewritten_is_checked();
    narrowed_is_checked();
    vfa_rewrite::numbers_are_printed();
}
