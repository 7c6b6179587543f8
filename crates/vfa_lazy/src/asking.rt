//! Questions about one value at one place.

ghost use Rattle.std.specs.Prelude.{◌≡◌, ◌<◌, IfOk, length};
ghost use Rattle.std.specs.Option.{option_map};
ghost use Rattle.vfa_ir.specs.Printable.{IsPrintable};
ghost use Rattle.vfa_check.specs.Checked.{IsChecked};
ghost use Rattle.vfa_mean.specs.FreshOperands.{IsDefinedAtPlace};
ghost use Rattle.vfa_cond.specs.States.{known};
ghost use Rattle.vfa_walk.specs.Kept.{AreStates, kept_entries};
ghost use Rattle.vfa_walk.specs.Tables.{state_at};
ghost use Rattle.vfa_lazy.specs.declared.questions.Answer.TheVariants.{NeverReached};
ghost use Rattle.vfa_lazy.specs.Questions.{IsAnswer, IsAskedOf, IsReachedPlace, IsTrueOfRuns, IsTypedAnswer, place_of};
ghost use Rattle.vfa_lazy.specs.Telling.{told_of};

use crate::defined::is_defined;
use crate::questions::{Answer, Place};
use std::alloc::{AllocError, Global};
use vfa_check::Checked;
use vfa_cond::State;
use vfa_ir::ValueId;
use vfa_print::fit_is_printable;
use vfa_values::Values;
use vfa_walk::truth::{table_has_shape, table_is_true, true_table_is_true_everywhere};
use vfa_walk::{Table, pair_state, table_by_rounds};

/// What is known of a function that was checked.
fn was_checked(f: &Checked)
    ensures checked { IsChecked f.now }
    ensures printable { IsPrintable f.now }
{
    fit_is_printable();
    let _ = f.function();
}

/// What a state tells of a name.
fn told_of<V: Values>(state: Option<&State<V>>, v: ValueId) -> Answer<V>
    ensures { result ≡ told_of (option_map (λ s. known s.now) state.entry) v.0 }
{
    match state {
        Some(state) => match state.fact(v) {
            Some(fact) => Answer::Fact(fact),
            None => Answer::NotDefined,
        },
        None => Answer::NeverReached,
    }
}

/// What the state of a table at the place tells of a name.
fn told_at<V: Values>(
    alloc: Global,
    f: &Checked,
    table: &Table<V>,
    v: ValueId,
    place: Place,
) -> Result<Answer<V>, AllocError>
    requires { AreStates V.ty V.proper f.now table.now }
    ensures { IfOk result (λ a. a ≡ told_of (state_at V.answers f.now (kept_entries table.now) (place_of place)) v.0) }
{
    match place {
        Place::Entry(b) => Ok(told_of(table.entry(b), v)),
        Place::Pair(from, to) => {
            let state = pair_state(alloc, f, table, from, to)?;
            Ok(told_of(state.as_ref(), v))
        }
    }
}

/// What the table of the function tells of a name that is defined on every walk to the place.
fn told_by_table<V: Values>(
    alloc: Global,
    f: &Checked,
    v: ValueId,
    place: Place,
) -> Result<Answer<V>, AllocError>
    requires { IsDefinedAtPlace f.now (place_of place) v.0 }
    ensures answer { IfOk result (λ a. IsAnswer V.answers f.now place v.0 a) }
    ensures is_true { IfOk result (λ a. IsTrueOfRuns V.holds f.now (place_of place) v.0 a) }
    ensures typed { IfOk result (λ a. IsTypedAnswer V.ty V.proper f.now v.0 a) }
    ensures unreached { (IsReachedPlace f.now place → ⊥) → IfOk result (λ a. a ≡ NeverReached) }
{
    was_checked(f);
    table_is_true::<V>();
    table_has_shape::<V>();
    true_table_is_true_everywhere::<V>();
    let table = table_by_rounds(alloc, f)?;
    told_at(alloc, f, &table, v, place)
}

/// What is known of a value at a place of its function. Where some walk from the entry comes to the place without a definition of
/// the value, it is not defined there; else what the table of the function has there answers: no run comes to a place
/// without a state, and the fact of the state holds of the value whenever a run comes to the place.
///
/// For a pair of blocks the walks are those to the end of the first one, and the state is the one that all edges from it to
/// the second hand on, before the phis there. A place that no walk reaches is never reached.
///
/// The name and the blocks are the function's, and an edge leads from the first block of a pair to the second. An error says
/// that memory was wanting. After LLVM's LazyValueInfo.
///
/// In `entry: %y = add i8 %x, -10`, `%c = icmp ult i8 %y, 5`, `br i1 %c, label %in, label %out` facts say of `%x` at the
/// entry of `in` that it is 10 to 14, and never poison.
pub fn ask<V: Values>(
    alloc: Global,
    f: &Checked,
    v: ValueId,
    place: Place,
) -> Result<Answer<V>, AllocError>
    requires name { v.0 < length f.now.values }
    requires place { IsAskedOf f.now place }
    ensures answer { IfOk result (λ a. IsAnswer V.answers f.now place v.0 a) }
    ensures is_true { IfOk result (λ a. IsTrueOfRuns V.holds f.now (place_of place) v.0 a) }
    ensures typed { IfOk result (λ a. IsTypedAnswer V.ty V.proper f.now v.0 a) }
    ensures unreached { (IsReachedPlace f.now place → ⊥) → IfOk result (λ a. a ≡ NeverReached) }
{
    if !is_defined(f, v, place) {
        return Ok(Answer::NotDefined);
    }
    told_by_table(alloc, f, v, place)
}
