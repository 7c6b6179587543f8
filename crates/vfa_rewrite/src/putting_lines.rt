//! A block's instructions with the operands that are put where a cursor comes to them.

ghost use Rattle.std.specs.Prelude.{◌≡◌, ℕ, Bool, IfOk, None, OnOk, length, slice_get, slice_index_or};
ghost use Rattle.std.specs.Option.{option_or};
ghost use Rattle.vfa_ir.specs.Defined.{line_count};
ghost use Rattle.vfa_mean.specs.Moments.{At};
ghost use Rattle.vfa_walk.specs.Kept.{AreStates, kept_entries};
ghost use Rattle.vfa_xfer.specs.AnyFacts.{fact_type, IsAnyFact};
ghost use Rattle.vfa_rules.specs.Uses.{first_found};
ghost use Rattle.vfa_rewrite.specs.ByFacts.{fact_state, findings_of};
ghost use Rattle.vfa_rewrite.specs.Chains.{itself};
ghost use Rattle.vfa_rewrite.specs.Findings.{operation_of};
ghost use Rattle.vfa_rewrite.specs.Making.{first_marks};
ghost use Rattle.vfa_rewrite.specs.Putting.{IsReadyToPut, call_in, worked};
ghost use Rattle.vfa_rewrite.specs.Replacing.{AreKeptLines};
ghost use Rattle.vfa_rewrite.specs.Rewritten.{lines_left, with_numbers};
ghost use Rattle.vfa_rewrite.specs.Walked.{EndsWith};

use crate::found::LineFinding;
use crate::putting_calls::make_call;
use crate::putting_operands::put_op;
use crate::replacing::line_at;
use std::alloc::{AllocError, Global};
use vfa_check::Checked;
use vfa_ir::{Block, BlockId, CallOp, Function, Inst, Op, Operand};
use vfa_rules::Change;
use vfa_walk::{Cursor, Moved, Table};
use vfa_xfer::AnyFact;

/// What is left of a block's instructions, and a cursor before its terminator, if a run may come there.
#[derive(Drop)]
pub(crate) struct PutLines {
    pub(crate) insts: Vec<Inst>,
    pub(crate) end: Option<Cursor<AnyFact>>,
}

/// The operation that does the work of an instruction after a change.
fn operation_of(change: Change, old: Op) -> Op
    ensures { result ≡ operation_of change old }
{
    match change {
        Change::Keep(op) | Change::Narrow(op, _) => op,
        Change::Uses(_) | Change::Gone => old,
    }
}

/// The operation that does the work of an instruction of which this was found out.
fn worked(line: Option<LineFinding>, old: Op) -> Op
    ensures { result ≡ worked line old }
{
    match line {
        Some(line) => operation_of(line.change, old),
        None => old,
    }
}

/// A block's instructions up to the last one that a run may come to, each with the operation that does its work and with the
/// operands that are put in place of its own. The calls that they make are noted.
pub(crate) fn put_lines(
    alloc: Global,
    checked: &Checked,
    f: &Function,
    table: &Table<AnyFact>,
    others: &[Option<Operand>],
    b: BlockId,
    block: &Block,
    lines: &[LineFinding],
    calls: &mut Vec<Option<CallOp>>,
) -> Result<PutLines, AllocError>
    requires same { f.now ≡ checked.now }
    requires ready { IsReadyToPut f.now (kept_entries table.now) others.now }
    requires block { slice_get f.now.blocks b.0 ≡ Some block.now }
    requires states { AreStates fact_type IsAnyFact f.now table.now }
    requires lines { AreKeptLines (findings_of f.now (kept_entries table.now)) b.0 block.now.insts lines.now }
    requires count { length calls.old.items ≡ length f.now.calls }
    ensures insts { IfOk result (λ put. (reached : ℕ → Bool) →
        put.insts.items ≡ lines_left (first_marks f.now (findings_of f.now (kept_entries table.now)) reached) b.0 0 block.now.insts) }
    ensures end { IfOk result (λ put. EndsWith f.now (fact_state f.now (kept_entries table.now) (At b.0 (line_count f.now b.0))) put.end) }
    ensures count { OnOk result (length calls.new.items ≡ length calls.old.items) }
    ensures calls { OnOk result ((k : ℕ) → slice_index_or calls.new.items k None ≡
        option_or (slice_index_or calls.old.items k None)
        (first_found itself (with_numbers (call_in f.now (findings_of f.now (kept_entries table.now)) k b.0) 0 block.now.insts))) }
{
    let mut insts: Vec<Inst> = Vec::new(alloc);
    let Some(mut cursor) = Cursor::start(alloc, checked, table, b)? else {
        return Ok(PutLines { insts, end: None });
    };
    let all = block.insts.as_slice();
    'lines: for i in 0..all.len() {
        let inst = all[i];
        let state = cursor.state();
        make_call(alloc, f, Some(state), others, &inst.op, calls)?;
        let old = worked(line_at(lines, i), inst.op);
        let op = put_op(f, Some(state), others, &old);
        insts.push(Inst {
            result: inst.result,
            op,
        })?;
        let Moved::On = cursor.step(checked) else {
            return Ok(PutLines { insts, end: None });
        };
    }
    Ok(PutLines {
        insts,
        end: Some(cursor),
    })
}
