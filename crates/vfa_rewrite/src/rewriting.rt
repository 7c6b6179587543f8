//! Rewriting functions by tables of facts.

ghost use Rattle.std.specs.Prelude.{◌≡◌, ◌≤◌, ◌^◌, IfOk, length};
ghost use Rattle.vfa_check.specs.Checked.{IsChecked};
ghost use Rattle.vfa_mean.specs.Refines.{Refines};
ghost use Rattle.vfa_walk.specs.Kept.{AreStates, kept_entries};
ghost use Rattle.vfa_walk.specs.Ready.{IsReady};
ghost use Rattle.vfa_walk.specs.Tables.{IsTrueTable};
ghost use Rattle.vfa_walk.specs.TruthLaws.{HasTypedFacts};
ghost use Rattle.vfa_walk.specs.TruthReads.{AgreeWhereRead};
ghost use Rattle.vfa_xfer.specs.AnyFacts.{HoldsOf, IsAnyFact, fact_type};
ghost use Rattle.vfa_rewrite.specs.ByFacts.{FactTable};
ghost use Rattle.vfa_rewrite.specs.Remains.{AreRemains};
ghost use Rattle.vfa_rewrite.specs.Rewriting.{IsRewritten};
ghost use Rattle.vfa_rewrite.specs.Sizes.{IsLittleLarger};

use crate::again::checked_again;
use crate::expanding::lines_left;
use crate::found::find_out;
use crate::laws::{rewriting_by_facts_refines, rewritten_is_checked};
use crate::made::made_marks_are_marks;
use crate::putting::put_in;
use crate::ready::ready;
use crate::replacing::replaced;
use crate::spreading::reached;
use crate::staying::must_stay;
use std::alloc::{AllocError, Global};
use vfa_check::Checked;
use vfa_demand::used_names;
use vfa_ir::Function;
use vfa_mean::{numbered, refinement_is_a_preorder};
use vfa_print::fit_is_printable;
use vfa_walk::Table;
use vfa_xfer::AnyFact;

/// What rewriting leaves of a function: the function, whose values, blocks and calls still have their numbers, and marks of the
/// blocks that are left.
#[derive(Drop)]
pub(crate) struct Remains {
    pub(crate) function: Function,
    pub(crate) reached: Vec<bool>,
}

/// What rewriting leaves of a function. First all lines stay that a run may come to, with the operands that are put in; then those
/// go whose names nothing uses.
fn what_is_left(
    alloc: Global,
    checked: &Checked,
    f: &Function,
    table: &Table<AnyFact>,
) -> Result<Remains, AllocError>
    requires same { f.now ≡ checked.now }
    requires checked { IsChecked f.now }
    requires ready { IsReady f.now }
    requires states { AreStates fact_type IsAnyFact f.now table.now }
    requires few { length f.now.values ≤ 2 ^ 26 }
    ensures { IfOk result (AreRemains f.now (kept_entries table.now)) }
{
    fit_is_printable();
    made_marks_are_marks();
    let found = find_out(alloc, checked, table)?;
    let kept = found.as_slice();
    let reached = reached(alloc, f, kept)?;
    let marks = reached.as_slice();
    let others = replaced(alloc, f, kept)?;
    let put = put_in(alloc, checked, table, kept, marks, others.as_slice())?;
    let must = must_stay(alloc, f, kept)?;
    let used = used_names(alloc, &put, must.as_slice())?;
    let function = lines_left(alloc, f, put, kept, marks, used.as_slice())?;
    Ok(Remains { function, reached })
}

/// Rewrites a function by the facts of a table (LLVM's CorrelatedValuePropagation).
///
/// - An operand that is one number becomes it, and one that has no number becomes `poison`; where facts or the rules on single
///   instructions (`vfa_rules::rule`) say that a name has the value of another operand, that one takes its place.
/// - An instruction becomes what the rules make of it: `sdiv` of numbers that are not negative becomes `udiv`, say, or is done at a
///   lesser width.
/// - An edge that no run takes goes, and so does what stands behind an instruction that no run passes.
/// - Calls, assumptions that are left and divisions that may be undefined stay, and what they and the terminators hang on; the rest
///   goes. Values, blocks and calls are numbered in text order.
///
/// For a true table, as that of `vfa_solve::solve`, the result refines the function, calls as events included. For any other it is
/// a function that the check accepts. A table may stand in place of another that has states for the same blocks and says the same
/// of the names that rewriting reads (`rewriting_is_one_by_read_names`). The result has at most four values for each one of the function, no more blocks, and no block with
/// more edges than the widest one had. An error says that memory was wanting.
///
/// Of `%a = and i8 %x, 15`, `%b = and i8 %a, -16`, `%r = call i8 @g(i8 %b)`, `ret i8 %b` the lines `%r = call i8 @g(i8 0)` and
/// `ret i8 0` are left.
pub fn rewrite(alloc: Global, f: &Checked, table: &Table<AnyFact>) -> Result<Checked, AllocError>
    requires states { AreStates fact_type IsAnyFact f.now table.now }
    requires few { length f.now.values ≤ 2 ^ 26 }
    ensures rewritten { IfOk result (IsRewritten f.now (kept_entries table.now)) }
    ensures little_larger { IfOk result (IsLittleLarger f.now) }
    ensures refines { IsTrueTable HoldsOf f.now (kept_entries table.now) → IfOk result (Refines f.now) }
    ensures by_read_names { (t : FactTable) → AgreeWhereRead f.now t (kept_entries table.now) → IfOk result (IsRewritten f.now t) }
    ensures refines_by_read_names { (t : FactTable) → HasTypedFacts fact_type IsAnyFact f.now t → IsTrueTable HoldsOf f.now t →
        AgreeWhereRead f.now t (kept_entries table.now) → IfOk result (Refines f.now) }
{
    fit_is_printable();
    rewritten_is_checked();
    rewriting_by_facts_refines();
    refinement_is_a_preorder();
    let left = what_is_left(alloc, f, ready(f), table)?;
    let numbered = numbered(alloc, &left.function, left.reached.as_slice())?;
    checked_again(alloc, numbered)
}
