//! What is known of checked functions, as rewriting needs it.

ghost use Rattle.std.specs.Prelude.{◌≡◌};
ghost use Rattle.vfa_ir.specs.Printable.{IsPrintable};
ghost use Rattle.vfa_ir.specs.declared.functions.Function.{Function};
ghost use Rattle.vfa_check.specs.Checked.{IsChecked};
ghost use Rattle.vfa_walk.specs.Ready.{IsReady};

use vfa_check::Checked;
use vfa_ir::Function;
use vfa_print::fit_is_printable;

/// A checked function is ready to be walked through.
fn checked_is_ready()
    ensures { (f : Function) → IsChecked f → IsPrintable f → IsReady f }
{}

/// The function that was checked.
pub(crate) fn ready(f: &Checked) -> &Function
    ensures same { result.now ≡ f.now }
    ensures checked { IsChecked result.now }
    ensures ready { IsReady result.now }
{
    checked_is_ready();
    fit_is_printable();
    f.function()
}
