//! Laws of the functions that have a text.

ghost use Rattle.std.specs.Prelude.{◌+◌, ◌<◌, ◌^◌, length};
ghost use Rattle.vfa_ir.specs.Printable.{IsPrintable};
ghost use Rattle.vfa_ir.specs.Reads.{Fit, Reads};
ghost use Rattle.vfa_ir.specs.declared.functions.Function.{Function};
ghost use Rattle.vfa_ir.specs.declared.functions.Lines.{Lines};
ghost use Rattle.vfa_print.specs.Trees.{function_text};

/// A function that some text reads as has its ids in text order, names that are defined once, and widths and numbers in
/// their ranges.
pub fn fit_is_printable()
    ensures { (f : Function) → Fit f → IsPrintable f }
{}

/// The text of such a function reads as the function. Numbers in names have at most 64 digits, so it is said of
/// functions of fewer than 10 ^ 64 values and blocks.
pub fn printed_reads_again()
    ensures { (f : Function) → IsPrintable f → length f.values + length f.blocks < 10 ^ 64 →
        (lines : Lines) × Reads (function_text f) f lines }
{}

/// So some text reads as it.
pub fn printable_is_fit()
    ensures { (f : Function) → IsPrintable f → length f.values + length f.blocks < 10 ^ 64 → Fit f }
{}
