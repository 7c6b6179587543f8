//! What `facts` writes for an accepted function.

ghost use Rattle.std.specs.Prelude.{ℕ, List, IfOk};
ghost use Rattle.vfa_report.specs.Report.{IsReport};
ghost use Rattle.vfa_opt.specs.Sound.{IsTrueReport};

use std::alloc::{AllocError, Global};
use vfa_check::Checked;
use vfa_print::fit_is_printable;
use vfa_report::{bits_are_best, report, reports_hold};
use vfa_solve::solve;
use vfa_xfer::AnyFact;

/// The report on a function: what its table says of each of its names.
pub fn reported(alloc: Global, f: &Checked) -> Result<Vec<u8>, AllocError>
    ensures text { IfOk result (λ text. IsReport f.now text.items) }
    ensures sound { IfOk result (λ _. (text : List ℕ) → IsReport f.now text → IsTrueReport f.now text) }
{
    fit_is_printable();
    reports_hold();
    bits_are_best();
    let _checked = f.function();
    let table = solve::<AnyFact>(alloc, f)?;
    let text = report(alloc, f, &table)?;
    Ok(text)
}
