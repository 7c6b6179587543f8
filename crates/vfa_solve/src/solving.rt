//! The table of a function.

ghost use Rattle.std.specs.Prelude.{◌≡◌, IfOk, length};
ghost use Rattle.vfa_ir.specs.Printable.{IsPrintable};
ghost use Rattle.vfa_check.specs.Checked.{IsChecked};
ghost use Rattle.vfa_walk.specs.Analysis.{Layout, IsLayout};
ghost use Rattle.vfa_walk.specs.Kept.{AreStates, kept_entries};
ghost use Rattle.vfa_walk.specs.Tables.{HasShape, IsTableOf, IsTrueTable};
ghost use Rattle.vfa_walk.specs.TruthLaws.{HasTypedFacts};

use std::alloc::{AllocError, Global};
use vfa_check::Checked;
use vfa_print::fit_is_printable;
use vfa_values::Values;
use vfa_walk::truth::{table_has_shape, table_is_true};
use vfa_walk::{Table, table_by_rounds};

/// What is known of a function that was checked.
fn was_checked(f: &Checked)
    ensures checked { IsChecked f.now }
    ensures printable { IsPrintable f.now }
{
    fit_is_printable();
    let _ = f.function();
}

/// The table of a function: the entry state of each block, its phis done; none for a block to which no run comes.
///
/// Heads of loops begin without a state. In each round their states are widened by what comes to them in a pass, until a
/// round changes nothing; then one more pass begins with what came to the heads in that round. The table is true: whenever a
/// run comes to a block, the block has a state there, and each fact and each live equation of the state holds.
///
/// An error says that memory was wanting. After LLVM's LazyValueInfo and SCCP, with widening.
///
/// In `entry: br label %head`, `head: %i = phi i8 [ 0, %entry ], [ %n, %head ]`, `%n = add i8 %i, 1`,
/// `br i1 %c, label %head, label %exit` facts say of `%i` that it may be any number, and is never poison.
pub fn solve<V: Values>(alloc: Global, f: &Checked) -> Result<Table<V>, AllocError>
    ensures table { IfOk result (λ t. IsTableOf V.answers f.now (kept_entries t)) }
    ensures is_true { IfOk result (λ t. IsTrueTable V.holds f.now (kept_entries t)) }
    ensures typed { IfOk result (λ t. HasTypedFacts V.ty V.proper f.now (kept_entries t)) }
    ensures shape { IfOk result (λ t. (l : Layout) → IsLayout f.now l → HasShape V.ty V.proper f.now l (kept_entries t)) }
    ensures states { IfOk result (λ t. AreStates V.ty V.proper f.now t) }
    ensures count { IfOk result (λ t. length t ≡ length f.now.blocks) }
{
    was_checked(f);
    table_is_true::<V>();
    table_has_shape::<V>();
    let table = table_by_rounds(alloc, f)?;
    Ok(table)
}
