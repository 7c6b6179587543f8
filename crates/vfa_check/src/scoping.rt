//! The names in scope, found.

ghost use Rattle.std.specs.Prelude.{◌≡◌, ◌<◌, ◌||◌, ℕ, length, IfOk, All, map, true};
ghost use Rattle.vfa_cfg.specs.Order.{IsOrder};
ghost use Rattle.vfa_cfg.specs.Sizes.{HasFewBlocks};
ghost use Rattle.vfa_check.specs.Flow.{IsFlow, IsSettled, phi_results};
ghost use Rattle.vfa_check.specs.NameRows.{IsRow, has_name, has_at};
ghost use Rattle.vfa_check.specs.Scopes.{AreScopes};
ghost use Rattle.vfa_check.specs.Within.{IsWithin};
ghost use Rattle.vfa_ir.specs.Walks.{is_in, is_parameter, successors};

use crate::flow::Flow;
use crate::name_rows::NameRow;
use crate::results::{add_parameters, add_phis};
use crate::scopes::Scopes;
use crate::search::settle;
use std::alloc::{AllocError, Global};
use vfa_ir::{BlockId, Function};

/// So many rows with all names.
fn full_rows(alloc: Global, count: usize, names: usize) -> Result<Vec<NameRow>, AllocError>
    ensures count { IfOk result (λ rows. length rows.items ≡ count) }
    ensures rows { IfOk result (λ rows. All (IsRow names) rows.items) }
    ensures full { IfOk result (λ rows. (b v : ℕ) → has_at rows.items b v ≡ true) }
{
    let mut rows: Vec<NameRow> = Vec::new(alloc);
    'rows: for _ in 0..count {
        rows.push(NameRow::full(alloc, names)?)?;
    }
    Ok(rows)
}

/// The row of the parameters.
fn parameters(alloc: Global, f: &Function) -> Result<NameRow, AllocError>
    requires { IsWithin f.now }
    ensures row { IfOk result (IsRow (length f.now.values)) }
    ensures has { IfOk result (λ row. (v : ℕ) → has_name row v ≡ is_parameter f.now v) }
{
    let mut row = NameRow::empty(alloc, f.values.as_slice().len())?;
    add_parameters(&mut row, f.params.as_slice());
    Ok(row)
}

/// The flow before anything has been sent: all names, but at the entry of the function its parameters alone.
fn begin(alloc: Global, f: &Function) -> Result<Flow, AllocError>
    requires { IsWithin f.now }
    ensures { IfOk result (IsFlow f.now (successors f.now)) }
{
    let names = f.values.as_slice().len();
    let count = f.blocks.as_slice().len();
    let mut entries = full_rows(alloc, count, names)?;
    entries[0] = parameters(alloc, f)?;
    Ok(Flow {
        entries,
        ends: full_rows(alloc, count, names)?,
        unsent: vec![in alloc; true; count]?,
    })
}

/// Adds to the row of each block the results of its phis.
fn add_all_phis(rows: &mut Vec<NameRow>, f: &Function)
    requires count { length rows.old.items ≡ length f.now.blocks }
    requires rows { All (IsRow (length f.now.values)) rows.old.items }
    requires within { IsWithin f.now }
    ensures count { length rows.new.items ≡ length f.now.blocks }
    ensures rows { All (IsRow (length f.now.values)) rows.new.items }
    ensures added { (b v : ℕ) → has_at rows.new.items b v ≡ (is_in v (phi_results f.now b) || has_at rows.old.items b v) }
{
    'rows: for b in 0..rows.len() {
        add_phis(&mut rows[b], f.blocks.as_slice()[b].phis.as_slice());
    }
}

impl Scopes {
    /// The names in scope in a function, whose order this is: from all names down, each block takes away at the entries
    /// of its successors what its end does not have, until none loses a name.
    ///
    /// In `entry: br label %a`, `a: %x = add i8 %p, 1`, `br i1 %c, label %a, label %b`, `b: ret i8 %x`, the name `%x` is in
    /// scope at the end of a and at the entry of b, and not at the entry of a, since the first walk there misses it.
    pub(crate) fn of(alloc: Global, f: &Function, order: &[BlockId]) -> Result<Scopes, AllocError>
        requires order { IsOrder f.now order.now }
        requires within { IsWithin f.now }
        requires few { HasFewBlocks f.now }
        ensures { IfOk result (AreScopes f.now) }
    {
        let mut flow = begin(alloc, f)?;
        settle(&mut flow, f, order);
        let Flow {
            mut entries,
            ends,
            ..
        } = flow;
        add_all_phis(&mut entries, f);
        Ok(Scopes { entries, ends })
    }
}
