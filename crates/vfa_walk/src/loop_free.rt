//! The table of a function without loops.

ghost use Rattle.std.specs.Prelude.{◌≡◌, ℕ, List, IfOk, MatchBool, MatchOption, false, length, true};
ghost use Rattle.std.specs.Option.{ForSome};
ghost use Rattle.vfa_ir.specs.declared.operations.BlockId.{BlockId};
ghost use Rattle.vfa_cfg.specs.Heads.{is_head};
ghost use Rattle.vfa_cfg.specs.Order.{IsOrder};
ghost use Rattle.vfa_walk.specs.Kept.{AreStates, kept_entries};
ghost use Rattle.vfa_walk.specs.Tables.{IsTableOf};

use crate::passes::{is_head, pass};
use crate::ready::ready;
use crate::tables::Table;
use std::alloc::{AllocError, Global};
use vfa_check::Checked;
use vfa_cond::State;
use vfa_ir::{BlockId, Function};
use vfa_values::Values;

/// Whether some block of the order is a head.
fn has_head(checked: &Checked, f: &Function, order: &[BlockId]) -> bool
    requires same { f.now ≡ checked.now }
    requires order { IsOrder f.now order.now }
    ensures { MatchBool result ((b : ℕ) × (is_head f.now order.now b ≡ true)) ((b : ℕ) → is_head f.now order.now b ≡ false) }
{
    'order: for b in order {
        if is_head(checked, f, order, *b) {
            return true;
        }
    }
    false
}

/// The table of a function without loops, by one pass; None exactly where some block is the head of a loop.
///
/// In `entry: br i1 %c, label %a, label %b`, `a: br label %b`, `b: ret i8 %x` no block is a head.
pub fn table_without_loops<V: Values>(
    alloc: Global,
    f: &Checked,
) -> Result<Option<Table<V>>, AllocError>
    ensures loops { IfOk result (λ o. (order : List BlockId) → IsOrder f.now order →
        MatchOption o ((b : ℕ) × (is_head f.now order b ≡ true)) (λ _. (b : ℕ) → is_head f.now order b ≡ false)) }
    ensures table { IfOk result (λ o. ForSome o (λ t. IsTableOf V.answers f.now (kept_entries t))) }
    ensures states { IfOk result (λ o. ForSome o (AreStates V.ty V.proper f.now)) }
    ensures count { IfOk result (λ o. ForSome o (λ t. length t ≡ length f.now.blocks)) }
{
    let order = f.order();
    if has_head(f, ready(f), order) {
        return Ok(None);
    }
    let none: Table<V> = Table::empty(alloc, order.len())?;
    let passed = pass(alloc, f, none.as_slice())?;
    Ok(Some(passed.table))
}
