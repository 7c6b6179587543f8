//! What the lines of a report say of runs, as laws.

ghost use Rattle.std.specs.Prelude.{◌≡◌, ℕ, List};
ghost use Rattle.vfa_ir.specs.declared.functions.Function.{Function};
ghost use Rattle.vfa_ir.specs.Printable.{IsPrintable};
ghost use Rattle.vfa_check.specs.Checked.{IsChecked};
ghost use Rattle.vfa_walk.specs.Tables.{States};
ghost use Rattle.vfa_xfer.specs.declared.any_fact.AnyFact.{AnyFact};
ghost use Rattle.vfa_report.specs.BestBits.{ReportIsBest};
ghost use Rattle.vfa_report.specs.Reads.{AgreeWhereReported};
ghost use Rattle.vfa_report.specs.Report.{IsReport, report_text};
ghost use Rattle.vfa_report.specs.ReportTruth.{ReportHolds};

/// Each line of the report on a checked function holds of its runs: what is shown of a name holds of the value that it has
/// whenever a run comes to the line's place, and no run comes to a place that is said never to be reached or passed.
pub fn reports_hold()
    ensures { (f : Function) → IsChecked f → IsPrintable f → ReportHolds f }
{}

/// Of the result of an `and`, `or`, `xor`, `add` or `sub`, whatever its flags, the report on a checked function leaves no bit unknown
/// that the known bits of the operands decide: each bit that is shown as unknown is 0 in what the operation without its flags
/// gives of some numbers that agree with what is known of the operands' bits right before the instruction, and 1 in what it
/// gives of others.
///
/// Where the bits of `%x` are `00?1`, those of `add i4 %x, 1` are `0??0`.
pub fn bits_are_best()
    ensures { (f : Function) → IsChecked f → IsPrintable f → ReportIsBest f }
{}

/// A function has at most one report.
pub fn one_report()
    ensures { (f : Function) (s t : List ℕ) → IsReport f s → IsReport f t → s ≡ t }
{}

/// A report depends on the names that it reads alone: by two tables that have states for the same blocks, and say the same of these
/// names at each block, it is one text. At a block they are the names that its instructions and its terminator use and what
/// narrowing follows from these, the results of its phis, and in the first block the parameters.
pub fn reports_are_one_by_read_names()
    ensures { (f : Function) (t u : States AnyFact) → AgreeWhereReported f t u → report_text f t ≡ report_text f u }
{}
