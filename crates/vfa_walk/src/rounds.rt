//! The table of a function by rounds: each widens the states of heads by what comes to them in a pass.

ghost use Rattle.std.specs.Prelude.{◌≡◌, ◌+◌, ℕ, All, Bool, IfOk, None, length, min};
ghost use Rattle.vfa_walk.specs.Analysis.{Layout, IsLayout, flow_of, last_round};
ghost use Rattle.vfa_walk.specs.Kept.{AreStates, kept_entries, kept_in_order};
ghost use Rattle.vfa_walk.specs.LastRound.{ComesLast};
ghost use Rattle.vfa_walk.specs.Marks.{AreMarksOf};
ghost use Rattle.vfa_walk.specs.Sending.{layout};
ghost use Rattle.vfa_walk.specs.Tables.{IsTableOf};

use crate::heads::widen_heads_by;
use crate::loop_free::table_without_loops;
use crate::marks::Marks;
use crate::passes::pass;
use crate::ready::was_checked;
use crate::tables::Table;
use std::alloc::{AllocError, Global};
use vfa_check::Checked;
use vfa_cond::State;
use vfa_ir::{BlockId, Items};
use vfa_values::Values;

/// No state, so many times.
fn no_states<V: Values>(alloc: Global, count: usize) -> Result<Items<Option<State<V>>>, AllocError>
    ensures count { IfOk result (λ states. length states ≡ count) }
    ensures none { IfOk result (λ states. All (λ s. s ≡ None) states) }
{
    let mut states: Vec<Option<State<V>>> = Vec::new(alloc);
    'places: for _ in 0..count {
        states.push(None)?;
    }
    Ok(Items(states))
}

/// The number of the next round. The last number stays, since later rounds widen as that round does.
fn round_after(round: u32) -> u32
    ensures { result ≡ min (round + 1) last_round }
{
    round.saturating_add(1)
}

/// What comes to the heads in the first round that changes nothing, one place for each block of the order.
fn last_next<V: Values>(
    alloc: Global,
    f: &Checked,
    order: &[BlockId],
    marks: &Marks,
) -> Result<Items<Option<State<V>>>, AllocError>
    requires layout { (names : ℕ → ℕ → Bool) × IsLayout f.now (layout order.now names) }
    requires marks { AreMarksOf f.now marks.now }
    ensures last { IfOk result (λ next. (l : Layout) → IsLayout f.now l → ComesLast (flow_of V.answers f.now l) (kept_in_order l.order next)) }
    ensures states { IfOk result (λ next. AreStates V.ty V.proper f.now next) }
    ensures each { IfOk result (λ next. length next ≡ length order.now) }
{
    was_checked(f);
    let mut heads = no_states(alloc, order.len())?;
    let mut round: u32 = 1;
    'rounds: loop {
        let states = heads.as_slice();
        let passed = pass(alloc, f, states)?;
        let next = passed.next.as_slice();
        let widened = widen_heads_by(alloc, f, states, next, round, marks)?;
        if !widened.changed {
            return Ok(passed.next);
        }
        heads = widened.heads;
        round = round_after(round);
    }
}

/// The table of a function by rounds, until one changes nothing, and one more pass.
fn table_with_loops<V: Values>(alloc: Global, f: &Checked) -> Result<Table<V>, AllocError>
    ensures table { IfOk result (λ t. IsTableOf V.answers f.now (kept_entries t)) }
    ensures states { IfOk result (λ t. AreStates V.ty V.proper f.now t) }
    ensures count { IfOk result (λ t. length t ≡ length f.now.blocks) }
{
    let order = f.order();
    let marks = Marks::of(alloc, f)?;
    let next = last_next(alloc, f, order, &marks)?;
    let passed = pass(alloc, f, next.as_slice())?;
    Ok(passed.table)
}

/// The table of a function. Heads of loops begin without a state; rounds of a pass and a widening go on until one changes
/// nothing, and one more pass begins with what came to the heads in that round. Without loops one pass gives the table, and
/// no landmarks are asked for.
///
/// In `entry: br label %head`, `head: %i = phi i8 [ 0, %entry ], [ %n, %head ]`, `%n = add i8 %i, 1`,
/// `br i1 %c, label %head, label %exit` facts say of `%i` that it may be any number, and is never poison.
pub fn table_by_rounds<V: Values>(alloc: Global, f: &Checked) -> Result<Table<V>, AllocError>
    ensures table { IfOk result (λ t. IsTableOf V.answers f.now (kept_entries t)) }
    ensures states { IfOk result (λ t. AreStates V.ty V.proper f.now t) }
    ensures count { IfOk result (λ t. length t ≡ length f.now.blocks) }
{
    match table_without_loops(alloc, f)? {
        Some(table) => Ok(table),
        None => table_with_loops(alloc, f),
    }
}
