//! What a table of facts and the rules on single instructions find out of a function, block by block.

ghost use Rattle.std.specs.Prelude.{◌≡◌, ◌≤◌, ◌^◌, ◌+◌, IfOk, Some, length, slice_get};
ghost use Rattle.vfa_ir.specs.PhisFit.{targets};
ghost use Rattle.vfa_cfg.specs.Sizes.{HasFewBlocks};
ghost use Rattle.vfa_cond.specs.Conditions.{AreFacts};
ghost use Rattle.vfa_cond.specs.States.{known};
ghost use Rattle.vfa_walk.specs.Kept.{AreStates, kept_entries};
ghost use Rattle.vfa_walk.specs.Ready.{IsReady, IsReadyInst};
ghost use Rattle.vfa_xfer.specs.AnyFacts.{fact_type, IsAnyFact};
ghost use Rattle.vfa_rewrite.specs.ByFacts.{findings_of};
ghost use Rattle.vfa_rewrite.specs.Found.{AreKeptOf, IsKeptOf};
ghost use Rattle.vfa_rewrite.specs.Uses.{AreUses};
ghost use Rattle.vfa_rewrite.specs.Walked.{IsWalkedOf, line_by};

use crate::edges::edges_left;
use crate::facts::{change_by, may_be_undefined};
use crate::ready::ready;
use crate::uses::uses;
use std::alloc::{AllocError, Global};
use vfa_check::Checked;
use vfa_cond::State;
use vfa_ir::{Block, BlockId, Function, Inst};
use vfa_rules::Change;
use vfa_walk::{Cursor, Moved, Table};
use vfa_xfer::AnyFact;

/// What was found out of an instruction that a run may come to.
#[derive(Clone, Copy)]
pub(crate) struct LineFinding {
    /// What the rules make of it.
    pub(crate) change: Change,
    /// Whether it may be undefined, so that it has to stay.
    pub(crate) may_be_undefined: bool,
}

/// What was found out of a block.
#[derive(Drop)]
pub(crate) struct BlockFindings {
    /// Its instructions up to the last one that a run may come to.
    pub(crate) lines: Vec<LineFinding>,
    /// Whether a run may come to its terminator.
    pub(crate) is_end_met: bool,
    /// Whether a run may take each of its edges.
    pub(crate) left: Vec<bool>,
}

/// What a cursor found out that went through a block, and where it stands, if a run may come to the terminator.
#[derive(Drop)]
pub(crate) struct Walked {
    lines: Vec<LineFinding>,
    end: Option<Cursor<AnyFact>>,
}

/// What is found out of an instruction by the state before it.
fn line_by(f: &Function, used: &[bool], state: &State<AnyFact>, inst: &Inst) -> LineFinding
    requires used { AreUses f.now used.now }
    requires ready { IsReady f.now }
    requires inst { IsReadyInst f.now inst.now }
    requires facts { AreFacts fact_type IsAnyFact f.now (known state.now) }
    ensures { result ≡ line_by f.now (known state.now) inst.now }
{
    LineFinding {
        change: change_by(f, used, state, inst),
        may_be_undefined: may_be_undefined(f, state, &inst.op),
    }
}

/// Goes through the instructions of a block.
fn walk(
    alloc: Global,
    checked: &Checked,
    f: &Function,
    used: &[bool],
    table: &Table<AnyFact>,
    b: BlockId,
    block: &Block,
) -> Result<Walked, AllocError>
    requires same { f.now ≡ checked.now }
    requires used { AreUses f.now used.now }
    requires ready { IsReady f.now }
    requires block { slice_get f.now.blocks b.0 ≡ Some block.now }
    requires states { AreStates fact_type IsAnyFact f.now table.now }
    ensures { IfOk result (IsWalkedOf f.now (kept_entries table.now) b.0) }
{
    let mut lines: Vec<LineFinding> = Vec::new(alloc);
    let Some(mut cursor) = Cursor::start(alloc, checked, table, b)? else {
        return Ok(Walked { lines, end: None });
    };
    'lines: for inst in block.insts.as_slice() {
        lines.push(line_by(f, used, cursor.state(), inst))?;
        let Moved::On = cursor.step(checked) else {
            return Ok(Walked { lines, end: None });
        };
    }
    Ok(Walked {
        lines,
        end: Some(cursor),
    })
}

/// What is found out of a block.
fn found_in(
    alloc: Global,
    checked: &Checked,
    f: &Function,
    used: &[bool],
    table: &Table<AnyFact>,
    b: BlockId,
    block: &Block,
) -> Result<BlockFindings, AllocError>
    requires same { f.now ≡ checked.now }
    requires used { AreUses f.now used.now }
    requires ready { IsReady f.now }
    requires block { slice_get f.now.blocks b.0 ≡ Some block.now }
    requires few { length (targets block.now.term) ≤ 2 ^ 28 + 1 }
    requires states { AreStates fact_type IsAnyFact f.now table.now }
    ensures { IfOk result (IsKeptOf f.now (findings_of f.now (kept_entries table.now)) b.0) }
{
    let Walked { lines, end } = walk(alloc, checked, f, used, table, b, block)?;
    let Some(cursor) = end else {
        return Ok(BlockFindings {
            lines,
            is_end_met: false,
            left: Vec::new(alloc),
        });
    };
    let left = edges_left(alloc, checked, f, cursor.state(), b, block)?;
    Ok(BlockFindings {
        lines,
        is_end_met: true,
        left,
    })
}

/// What is found out of each block.
fn found_blocks(
    alloc: Global,
    checked: &Checked,
    f: &Function,
    used: &[bool],
    table: &Table<AnyFact>,
) -> Result<Vec<BlockFindings>, AllocError>
    requires same { f.now ≡ checked.now }
    requires used { AreUses f.now used.now }
    requires ready { IsReady f.now }
    requires few { HasFewBlocks f.now }
    requires states { AreStates fact_type IsAnyFact f.now table.now }
    ensures { IfOk result (λ kept. AreKeptOf f.now (findings_of f.now (kept_entries table.now)) kept.items) }
{
    let mut kept: Vec<BlockFindings> = Vec::new(alloc);
    let mut b: u32 = 0;
    'all: for block in f.blocks.as_slice() {
        kept.push(found_in(alloc, checked, f, used, table, BlockId(b), block)?)?;
        b += 1;
    }
    Ok(kept)
}

/// What the table and the rules find out of each block of a checked function.
pub(crate) fn find_out(
    alloc: Global,
    checked: &Checked,
    table: &Table<AnyFact>,
) -> Result<Vec<BlockFindings>, AllocError>
    requires { AreStates fact_type IsAnyFact checked.now table.now }
    ensures { IfOk result (λ kept. AreKeptOf checked.now (findings_of checked.now (kept_entries table.now)) kept.items) }
{
    let f = ready(checked);
    let used = uses(alloc, f)?;
    found_blocks(alloc, checked, f, used.as_slice(), table)
}
