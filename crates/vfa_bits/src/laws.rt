//! Laws of narrowed functions.

ghost use Rattle.std.specs.Prelude.{◌≡◌, ℕ};
ghost use Rattle.vfa_bits.specs.Narrowed.{IsNarrowed};
ghost use Rattle.vfa_bits.specs.Sizes.{IsNoLarger};
ghost use Rattle.vfa_check.specs.Checked.{IsChecked};
ghost use Rattle.vfa_demand.specs.Masks.{AreMasks};
ghost use Rattle.vfa_ir.specs.declared.functions.Function.{Function};
ghost use Rattle.vfa_mean.specs.Refines.{Refines};

use vfa_check::{fit_defines_once, fit_is_within};
use vfa_mean::{
    numbered_is_in_text_order, numbered_is_printable, numbering_keeps_definitions,
    numbering_keeps_phis, numbering_keeps_types,
};
use vfa_print::{fit_is_printable, printable_is_fit};

/// The bits that are not asked for are no part of what comes of a function: narrowed by the least masks with all that its
/// uses ask for, a checked function is refined. Undefined behaviour stays, calls are made with the same arguments, and the
/// same is returned.
pub fn narrowing_refines()
    ensures { (f g : Function) (masks : ℕ → ℕ) → IsChecked f → AreMasks f masks → IsNarrowed f masks g → Refines f g }
{
    fit_is_printable();
}

/// A function is narrowed by the bits that are asked for to one function at most: its masks are the only ones, and they decide
/// on all that is written anew.
pub fn one_narrowed()
    ensures { (f : Function) (masks others : ℕ → ℕ) (g g' : Function) → AreMasks f masks → AreMasks f others →
        IsNarrowed f masks g → IsNarrowed f others g' → g ≡ g' }
{}

/// A narrowed function is such as the check accepts: some text reads as it, its values, blocks and calls are numbered in
/// text order, operands are of the types that are written, phis fit the edges, and names are defined before they are used.
/// It is no larger than the function.
pub fn narrowed_is_checked()
    ensures no_larger { (f g : Function) (masks : ℕ → ℕ) → IsChecked f → IsNarrowed f masks g → IsNoLarger f g }
    ensures checked { (f g : Function) (masks : ℕ → ℕ) → IsChecked f → AreMasks f masks → IsNarrowed f masks g → IsChecked g }
{
    fit_is_printable();
    printable_is_fit();
    fit_is_within();
    fit_defines_once();
    numbered_is_in_text_order();
    numbering_keeps_types();
    numbering_keeps_phis();
    numbering_keeps_definitions();
    numbered_is_printable();
}
