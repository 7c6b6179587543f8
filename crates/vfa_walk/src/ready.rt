//! What is known of checked functions, as the walk needs it.

ghost use Rattle.std.specs.Prelude.{◌≡◌};
ghost use Rattle.vfa_ir.specs.Printable.{IsPrintable};
ghost use Rattle.vfa_ir.specs.declared.functions.Function.{Function};
ghost use Rattle.vfa_check.specs.Checked.{IsChecked};
ghost use Rattle.vfa_walk.specs.Ready.{HasFewNames, IsReady};

use vfa_check::Checked;
use vfa_ir::Function;
use vfa_print::fit_is_printable;

/// A checked function is ready to be walked through.
fn checked_is_ready()
    ensures ready { (f : Function) → IsChecked f → IsPrintable f → IsReady f }
    ensures few { (f : Function) → IsChecked f → HasFewNames f }
{}

/// The function that was checked.
pub(crate) fn ready(f: &Checked) -> &Function
    ensures same { result.now ≡ f.now }
    ensures checked { IsChecked result.now }
    ensures ready { IsReady result.now }
    ensures few { HasFewNames result.now }
{
    checked_is_ready();
    fit_is_printable();
    f.function()
}

/// The function that was checked; some text reads as it.
pub(crate) fn printable(f: &Checked) -> &Function
    ensures same { result.now ≡ f.now }
    ensures printable { IsPrintable result.now }
{
    fit_is_printable();
    f.function()
}

/// What is known of a function that was checked.
pub(crate) fn was_checked(f: &Checked)
    ensures checked { IsChecked f.now }
    ensures printable { IsPrintable f.now }
{
    fit_is_printable();
    let _ = f.function();
}
