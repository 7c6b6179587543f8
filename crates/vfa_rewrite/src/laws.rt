//! Laws of rewriting.

ghost use Rattle.std.specs.Prelude.{ℕ, ◌≡◌, ◌≤◌, ◌^◌, ◌↔◌, length};
ghost use Rattle.vfa_ir.specs.declared.functions.Function.{Function};
ghost use Rattle.vfa_ir.specs.declared.operations.Operand.{Operand};
ghost use Rattle.vfa_ir.specs.declared.operations.Ty.{Ty};
ghost use Rattle.vfa_ir.specs.Defined.{Defined};
ghost use Rattle.vfa_ir.specs.Printable.{IsPrintable};
ghost use Rattle.vfa_ir.specs.Typed.{Typed};
ghost use Rattle.vfa_ir.specs.Walks.{IsReached};
ghost use Rattle.vfa_mean.specs.Moments.{Place};
ghost use Rattle.vfa_mean.specs.Refines.{Refines};
ghost use Rattle.vfa_check.specs.Checked.{IsChecked};
ghost use Rattle.vfa_walk.specs.Tables.{IsTableOf, IsTrueTable};
ghost use Rattle.vfa_walk.specs.TruthLaws.{HasTypedFacts};
ghost use Rattle.vfa_walk.specs.TruthReads.{AgreeWhereRead};
ghost use Rattle.vfa_xfer.specs.AnyFacts.{HoldsOf, IsAnyFact, fact_type};
ghost use Rattle.vfa_xfer.specs.Transfers.{fact_answers};
ghost use Rattle.vfa_rewrite.specs.Alike.{LeaveTheSame};
ghost use Rattle.vfa_rewrite.specs.ByFacts.{FactTable, findings_of};
ghost use Rattle.vfa_rewrite.specs.Chains.{IsWalkedTo, becoming};
ghost use Rattle.vfa_rewrite.specs.Findings.{AreFitting, AreTrue, Findings, IsUsable};
ghost use Rattle.vfa_rewrite.specs.Marks.{AreMarks, Becomes, Reached};
ghost use Rattle.vfa_rewrite.specs.PrintedNumbers.{PrintsNumbers};
ghost use Rattle.vfa_rewrite.specs.Rewriting.{IsRewritten};
ghost use Rattle.vfa_rewrite.specs.Rewritten.{Marks, rewritten};
ghost use Rattle.vfa_rewrite.specs.Sizes.{IsLittleLarger};
ghost use Rattle.vfa_mean.specs.Numbering.{numbered};
ghost use Rattle.vfa_rewrite.specs.Sound.{AreSound};

use vfa_check::{fit_defines_once, fit_is_within};
use vfa_mean::{
    numbered_is_printable, numbering_keeps_definitions, numbering_keeps_phis, numbering_keeps_types,
};
use vfa_print::{fit_is_printable, printable_is_fit};

/// What is left of a function by sound marks refines it: for all arguments, all answers of the functions that it calls and
/// any number of entered blocks, each outcome of what is left is allowed by an outcome of the function.
pub fn rewriting_refines()
    ensures { (f : Function) (m : Marks) → AreSound f m → Refines f (rewritten f m) }
{}

/// The marks that true findings give of a function are sound.
pub fn marks_are_sound()
    ensures { (f : Function) (found : Findings) (m : Marks) → IsPrintable f → Typed f → Defined f → AreTrue f found →
        AreMarks f found m → AreSound f m }
{}

/// What a true table of facts and the rules on single instructions find out of a checked function is true.
pub fn findings_are_true()
    ensures { (f : Function) (t : FactTable) → IsChecked f → IsPrintable f → HasTypedFacts fact_type IsAnyFact f t →
        IsTrueTable HoldsOf f t → AreTrue f (findings_of f t) }
{}

/// Rewriting by the facts of a true table refines: marks that the table and the rules on single instructions give leave of a
/// checked function one that refines it, calls as events included.
pub fn rewriting_by_facts_refines()
    ensures { (f : Function) (t : FactTable) (m : Marks) → IsChecked f → IsPrintable f → HasTypedFacts fact_type IsAnyFact f t →
        IsTrueTable HoldsOf f t → AreMarks f (findings_of f t) m → Refines f (rewritten f m) }
{}

/// So does rewriting by the table of the function, which is true.
pub fn rewriting_by_the_table_refines()
    ensures { (f : Function) (t : FactTable) (m : Marks) → IsChecked f → IsPrintable f → IsTableOf fact_answers f t →
        AreMarks f (findings_of f t) m → Refines f (rewritten f m) }
{}

/// What a table of facts and the rules on single instructions find out of a checked function fits, whether or not the table is
/// true.
pub fn findings_fit()
    ensures { (f : Function) (t : FactTable) → IsChecked f → IsPrintable f → HasTypedFacts fact_type IsAnyFact f t →
        AreFitting f (findings_of f t) }
{}

/// Two marks of the same fitting findings leave the same blocks and the same function.
pub fn marks_are_one()
    ensures { (f : Function) (found : Findings) (m m' : Marks) → IsPrintable f → AreFitting f found → AreMarks f found m →
        AreMarks f found m' → LeaveTheSame f m m' }
{}

/// Rewriting a checked function by a table of facts gives at most one function.
pub fn one_rewritten()
    ensures { (f : Function) (t : FactTable) (g g' : Function) → IsChecked f → IsPrintable f →
        HasTypedFacts fact_type IsAnyFact f t → IsRewritten f t g → IsRewritten f t g' → g ≡ g' }
{}

/// Rewriting a checked function depends on the names that are read alone: by two tables that have states for the same blocks, and
/// say the same of these names at each block, it gives the same. At a block they are the names that its instructions, its
/// terminator and the phis behind its edges use, what may stand in the place of such a name, and what narrowing follows from these.
pub fn rewriting_is_one_by_read_names()
    ensures { (f g : Function) (t u : FactTable) → IsChecked f → AgreeWhereRead f t u → (IsRewritten f t g ↔ IsRewritten f u g) }
{}

/// An operand becomes what is found by following the operands that take its place, at each place that some walk comes to and
/// where it may be used: as many steps as the function has names are enough.
pub fn chains_end()
    ensures { (f : Function) (found : Findings) (place : Place) (ty : Ty) (a : Operand) → IsPrintable f → Defined f →
        AreFitting f found → IsWalkedTo f place → IsUsable f place ty a →
        Becomes f found place ty a (becoming f found place ty (length f.values) a) }
{}

/// Some walk comes to each block that is left, and so to each place in it.
pub fn left_blocks_are_walked_to()
    ensures { (f : Function) (found : Findings) (b : ℕ) → Reached f found b → IsReached f b }
{}

/// What the marks of fitting findings leave of a checked function, numbered in text order, is such as the check accepts: some
/// text reads as it, its values, blocks and calls are numbered in text order, operands are of the types that are written,
/// phis fit the edges that are left, and names are defined before they are used. It has at most four values for each one.
pub fn fitting_marks_leave_checked()
    ensures little_larger { (f : Function) (found : Findings) (m : Marks) → IsChecked f → AreFitting f found → AreMarks f found m →
        IsLittleLarger f (numbered (rewritten f m) m.reached) }
    ensures checked { (f : Function) (found : Findings) (m : Marks) → IsChecked f → AreFitting f found → AreMarks f found m →
        length (numbered (rewritten f m) m.reached).values ≤ 2 ^ 28 → IsChecked (numbered (rewritten f m) m.reached) }
{
    fit_is_printable();
    printable_is_fit();
    fit_is_within();
    fit_defines_once();
    numbering_keeps_types();
    numbering_keeps_phis();
    numbering_keeps_definitions();
    numbered_is_printable();
}

/// So is a function that is rewritten by a table of facts, whether or not the table is true. The check asks for at most 2 ^ 28
/// values, and four times those of the function suffice.
pub fn rewritten_is_checked()
    ensures little_larger { (f g : Function) (t : FactTable) → IsChecked f → HasTypedFacts fact_type IsAnyFact f t →
        IsRewritten f t g → IsLittleLarger f g }
    ensures checked { (f g : Function) (t : FactTable) → IsChecked f → HasTypedFacts fact_type IsAnyFact f t →
        IsRewritten f t g → length g.values ≤ 2 ^ 28 → IsChecked g }
{
    fit_is_printable();
    findings_fit();
    fitting_marks_leave_checked();
}

/// Each operand of the function that the table knows to be one number is that number in the function that is rewritten by it, where
/// its line is left, whether or not the table is true.
pub fn numbers_are_printed()
    ensures { (f g : Function) (t : FactTable) → IsChecked f → HasTypedFacts fact_type IsAnyFact f t →
        IsRewritten f t g → PrintsNumbers f t g }
{
    fit_is_printable();
    findings_fit();
}
