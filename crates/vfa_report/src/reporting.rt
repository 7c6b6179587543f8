//! The report on a function.

ghost use Rattle.std.specs.Prelude.{◌≡◌, ◌<◌, ◌^◌, ◌++◌, ℕ, Some, length, slice_get, codes, flat_map, true, IfOk};
ghost use Rattle.vfa_cond.specs.States.{known};
ghost use Rattle.vfa_mean.specs.Moments.{At};
ghost use Rattle.vfa_print.specs.Layout.{line_feed};
ghost use Rattle.vfa_print.specs.Trees.{block_name_at, shown_scope};
ghost use Rattle.vfa_walk.specs.Kept.{AreStates, IsStateOf, kept_entries};
ghost use Rattle.vfa_walk.specs.Stepping.{insts_of};
ghost use Rattle.vfa_walk.specs.Tables.{States, IsTableOf, state_at};
ghost use Rattle.vfa_xfer.specs.AnyFacts.{fact_type, IsAnyFact};
ghost use Rattle.vfa_xfer.specs.Transfers.{fact_answers};
ghost use Rattle.vfa_xfer.specs.declared.any_fact.AnyFact.{AnyFact};
ghost use Rattle.vfa_report.specs.FactLines.{local_text};
ghost use Rattle.vfa_report.specs.Reads.{AgreeWhereReported};
ghost use Rattle.vfa_report.specs.Report.{IsReport, ReportLine, block_lines, inst_lines, line_text, lines_from, parameter_lines, phi_lines, report_text, used_lines};

use crate::naming::{push_names, push_parameters, push_phis, push_result};
use crate::shown::{ShownNames, shown_names};
use crate::uses::names_in;
use std::alloc::{AllocError, Global};
use vfa_check::Checked;
use vfa_cond::State;
use vfa_ir::{Block, BlockId, Function, Inst};
use vfa_print::{fit_is_printable, push_name};
use vfa_walk::{Cursor, Moved, Table};
use vfa_xfer::AnyFact;

/// Puts the line of the function's name last in a text.
fn push_title(text: &mut Vec<u8>, f: &Function) -> Result<(), AllocError>
    ensures { IfOk result (λ _. text.new.items ≡ text.old.items ++ line_text f.now ReportLine.function) }
{
    text.extend_from_slice(b"function @")?;
    push_name(text, f.name.bytes())?;
    text.push(b'\n')?;
    Ok(())
}

/// Puts the line of a block, but for its end, last in a text.
fn push_heading(text: &mut Vec<u8>, names: &ShownNames, b: BlockId) -> Result<(), AllocError>
    ensures { IfOk result (λ _. text.new.items ≡ text.old.items ++ (codes "  block " ++ local_text (block_name_at names.now b))) }
{
    text.extend_from_slice(b"  block %")?;
    push_name(text, names.block(b))?;
    Ok(())
}

/// Puts the lines of the parameters last in a text; there are none where no run comes to the first block.
fn push_entry(
    alloc: Global,
    text: &mut Vec<u8>,
    f: &Function,
    names: &ShownNames,
    table: &Table<AnyFact>,
) -> Result<(), AllocError>
    requires names { names.now ≡ shown_scope f.now }
    requires states { AreStates fact_type IsAnyFact f.now table.now }
    ensures { IfOk result (λ _. text.new.items ≡ text.old.items ++ flat_map (line_text f.now) (parameter_lines f.now (kept_entries table.now))) }
{
    let Some(state) = table.entry(BlockId(0)) else {
        return Ok(());
    };
    push_parameters(alloc, text, names, state, f.params.as_slice())?;
    Ok(())
}

/// Puts the lines of the names that a block uses last in a text.
fn push_uses(
    alloc: Global,
    text: &mut Vec<u8>,
    f: &Function,
    names: &ShownNames,
    state: &State<AnyFact>,
    block: &Block,
) -> Result<(), AllocError>
    requires names { names.now ≡ shown_scope f.now }
    requires state { IsStateOf fact_type IsAnyFact f.now state.now }
    ensures { (b : ℕ) → IfOk result (λ _. text.new.items ≡ text.old.items ++ flat_map (line_text f.now) (used_lines f.now b block.now (known state.now))) }
{
    let used = names_in(alloc, f, block)?;
    push_names(alloc, text, names, state, used.as_slice())?;
    Ok(())
}

/// Puts the lines of the results of a block's instructions last in a text, from where the cursor stands before the first.
fn push_insts(
    alloc: Global,
    text: &mut Vec<u8>,
    f: &Checked,
    names: &ShownNames,
    cursor: &mut Cursor<AnyFact>,
    insts: &[Inst],
) -> Result<(), AllocError>
    requires names { names.now ≡ shown_scope f.now }
    requires reached { cursor.old.is_reached ≡ true }
    requires line { cursor.old.line ≡ 0 }
    requires state { IsStateOf fact_type IsAnyFact f.now cursor.old.state }
    requires insts { insts_of f.now cursor.old.block.0 ≡ insts.now }
    ensures { (t : States AnyFact) → state_at fact_answers f.now t (At cursor.old.block.0 0) ≡ Some (known cursor.old.state) →
        IfOk result (λ _. text.new.items ≡ text.old.items ++ flat_map (line_text f.now) (inst_lines f.now t cursor.old.block.0 0 insts.now)) }
{
    'insts: for inst in insts {
        match cursor.step(f) {
            Moved::On => push_result(alloc, text, names, cursor.state(), inst.result)?,
            Moved::AtTerm => return Ok(()),
            Moved::Bottom => {
                text.extend_from_slice(b"    never-past-here\n")?;
                return Ok(());
            }
        }
    }
    Ok(())
}

/// Puts the lines of a block, behind its name, last in a text, from where the cursor stands at its entry.
fn push_reached(
    alloc: Global,
    text: &mut Vec<u8>,
    f: &Checked,
    names: &ShownNames,
    cursor: &mut Cursor<AnyFact>,
    block: &Block,
) -> Result<(), AllocError>
    requires names { names.now ≡ shown_scope f.now }
    requires reached { cursor.old.is_reached ≡ true }
    requires line { cursor.old.line ≡ 0 }
    requires state { IsStateOf fact_type IsAnyFact f.now cursor.old.state }
    requires block { slice_get f.now.blocks cursor.old.block.0 ≡ Some block.now }
    ensures { (t : States AnyFact) → state_at fact_answers f.now t (At cursor.old.block.0 0) ≡ Some (known cursor.old.state) →
        IfOk result (λ _. text.new.items ≡ text.old.items ++ (line_feed
        ++ (flat_map (line_text f.now) (used_lines f.now cursor.old.block.0 block.now (known cursor.old.state))
        ++ (flat_map (line_text f.now) (phi_lines cursor.old.block.0 block.now (known cursor.old.state))
        ++ flat_map (line_text f.now) (inst_lines f.now t cursor.old.block.0 0 block.now.insts))))) }
{
    text.push(b'\n')?;
    push_uses(alloc, text, f.function(), names, cursor.state(), block)?;
    push_phis(alloc, text, names, cursor.state(), block.phis.as_slice())?;
    push_insts(alloc, text, f, names, cursor, block.insts.as_slice())?;
    Ok(())
}

/// Puts the lines of a block last in a text.
fn push_block(
    alloc: Global,
    text: &mut Vec<u8>,
    f: &Checked,
    names: &ShownNames,
    table: &Table<AnyFact>,
    b: BlockId,
    block: &Block,
) -> Result<(), AllocError>
    requires names { names.now ≡ shown_scope f.now }
    requires states { AreStates fact_type IsAnyFact f.now table.now }
    requires block { slice_get f.now.blocks b.0 ≡ Some block.now }
    ensures { IfOk result (λ _. text.new.items ≡ text.old.items ++ flat_map (line_text f.now) (block_lines f.now (kept_entries table.now) b.0 block.now)) }
{
    push_heading(text, names, b)?;
    let Some(mut cursor) = Cursor::start(alloc, f, table, b)? else {
        text.extend_from_slice(b" never-reached\n")?;
        return Ok(());
    };
    push_reached(alloc, text, f, names, &mut cursor, block)?;
    Ok(())
}

/// Puts the lines of the blocks last in a text.
fn push_blocks(
    alloc: Global,
    text: &mut Vec<u8>,
    f: &Checked,
    names: &ShownNames,
    table: &Table<AnyFact>,
    blocks: &[Block],
) -> Result<(), AllocError>
    requires names { names.now ≡ shown_scope f.now }
    requires states { AreStates fact_type IsAnyFact f.now table.now }
    requires blocks { f.now.blocks ≡ blocks.now }
    requires few { length blocks.now < 2 ^ 32 }
    ensures { IfOk result (λ _. text.new.items ≡ text.old.items ++ flat_map (line_text f.now) (lines_from f.now (kept_entries table.now) 0 blocks.now)) }
{
    let mut b: u32 = 0;
    'all: for block in blocks {
        push_block(alloc, text, f, names, table, BlockId(b), block)?;
        b += 1;
    }
    Ok(())
}

/// The report on a function by a table: what the table says of each of its names, a line each.
///
/// `function @NAME` stands first. A `param` line for each parameter follows. For each block in text order there is a `block`
/// line, with `never-reached` behind the name where the table has no state of its entry and then nothing more; an `in` line
/// for each name that it uses and does not define, in order of first use; and a `def` line for each result, phis first. Where
/// no run goes on behind an instruction, `never-past-here` stands in place of its line and of the rest. Fact lines are those of
/// `fact_line`. By the table of the function each line holds of its runs. A table may stand in its place that has states for the
/// same blocks and says the same of the names that a report reads (`reports_are_one_by_read_names`).
///
/// The report on `define i8 @f(i8 %x) { ret i8 %x }` has the four lines `function @f`, `  param %x i8 ???????? full maybe-poison`,
/// `  block %0` and `    in %x i8 ???????? full maybe-poison`.
pub fn report(alloc: Global, f: &Checked, table: &Table<AnyFact>) -> Result<Vec<u8>, AllocError>
    requires count { length table.now ≡ length f.now.blocks }
    requires states { AreStates fact_type IsAnyFact f.now table.now }
    ensures text { IfOk result (λ t. t.items ≡ report_text f.now (kept_entries table.now)) }
    ensures report { IsTableOf fact_answers f.now (kept_entries table.now) → IfOk result (λ t. IsReport f.now t.items) }
    ensures by_read_names { (t : States AnyFact) → IsTableOf fact_answers f.now t → AgreeWhereReported f.now t (kept_entries table.now) →
        IfOk result (λ text. IsReport f.now text.items) }
{
    fit_is_printable();
    let function = f.function();
    let names = shown_names(alloc, function)?;
    let mut text = Vec::new(alloc);
    push_title(&mut text, function)?;
    push_entry(alloc, &mut text, function, &names, table)?;
    push_blocks(
        alloc,
        &mut text,
        f,
        &names,
        table,
        function.blocks.as_slice(),
    )?;
    Ok(text)
}
