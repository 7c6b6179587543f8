//! From the function in which all lines stay to the one in which those stay that are used.

ghost use Rattle.std.specs.Prelude.{◌≡◌, ◌<◌, ◌≤◌, ◌^◌, ◌++◌, All, IfOk, Some, length, slice_get, slice_set};
ghost use Rattle.std.specs.List.{filter};
ghost use Rattle.std.specs.Option.{ForSome};
ghost use Rattle.vfa_ir.specs.declared.functions.Block.{Block};
ghost use Rattle.vfa_mean.specs.Kept.{is_marked};
ghost use Rattle.vfa_walk.specs.Ready.{IsReady};
ghost use Rattle.vfa_rewrite.specs.Expanding as expanding;
ghost use Rattle.vfa_rewrite.specs.Expanding.{expanded, is_used_phi, stays_by, used_block, used_block_at, used_line};
ghost use Rattle.vfa_rewrite.specs.Findings.{Findings};
ghost use Rattle.vfa_rewrite.specs.Found.{AreKeptOf};
ghost use Rattle.vfa_rewrite.specs.Making as making;
ghost use Rattle.vfa_rewrite.specs.Making.{first_marks, made_marks};
ghost use Rattle.vfa_rewrite.specs.Rewritten.{rewritten, with_numbers};

use crate::divisions::push_narrowed;
use crate::found::{BlockFindings, LineFinding};
use crate::replacing::line_at;
use crate::staying::must_stay_by;
use crate::widths::{marked, narrowed_widths, push_added};
use std::alloc::{AllocError, Global};
use vfa_ir::{Block, Function, Inst, Items, Phi, ValueId};
use vfa_rules::Change;

/// The number of the name that an instruction gives; 0 where it gives none.
fn result_number(name: Option<ValueId>) -> u32
    ensures { result ≡ making.result_number name }
{
    match name {
        Some(name) => name.0,
        None => 0,
    }
}

/// Puts what becomes of the line that does an instruction's work behind others.
fn push_expanded(
    lines: &mut Vec<Inst>,
    f: &Function,
    inst: &Inst,
    change: Change,
    line: &Inst,
) -> Result<(), AllocError>
    requires few { length f.now.values ≤ 2 ^ 26 }
    requires below { ForSome inst.now.result (λ v. v.0 < length f.now.values) }
    ensures { IfOk result (λ _. lines.new.items ≡ lines.old.items ++ expanded f.now inst.now change line.now) }
{
    match change {
        Change::Keep(_) | Change::Uses(_) => {
            lines.push(*line)?;
            Ok(())
        }
        Change::Narrow(_, lesser) => {
            let names = f.values.as_slice().len() as u32;
            let first = names + 3 * result_number(inst.result);
            push_narrowed(lines, first, lesser, inst.result, &line.op)
        }
        Change::Gone => Ok(()),
    }
}

/// Whether the name that an instruction gives is used.
fn is_used(used: &[bool], name: Option<ValueId>) -> bool
    ensures { result ≡ making.is_kept_result (is_marked used.now) name }
{
    match name {
        Some(name) => marked(used, name.0 as usize),
        None => false,
    }
}

/// Whether an instruction of which this was found stays: it has to, or its result is used.
fn stays(used: &[bool], inst: &Inst, found: LineFinding) -> bool
    ensures { result ≡ stays_by (is_marked used.now) inst.now found }
{
    if must_stay_by(&inst.op, found) {
        return true;
    }
    is_used(used, inst.result)
}

/// Puts what is left of the line that does an instruction's work behind others.
fn push_used(
    lines: &mut Vec<Inst>,
    f: &Function,
    used: &[bool],
    inst: Option<Inst>,
    found: Option<LineFinding>,
    line: &Inst,
) -> Result<(), AllocError>
    requires few { length f.now.values ≤ 2 ^ 26 }
    requires below { ForSome inst (λ i. ForSome i.result (λ v. v.0 < length f.now.values)) }
    ensures { IfOk result (λ _. lines.new.items ≡ lines.old.items ++ used_line f.now (is_marked used.now) inst found line.now) }
{
    let Some(inst) = inst else {
        return Ok(());
    };
    let Some(found) = found else {
        return Ok(());
    };
    if stays(used, &inst, found) {
        return push_expanded(lines, f, &inst, found.change, line);
    }
    Ok(())
}

/// The instruction of this number.
fn inst_at(insts: &[Inst], i: usize) -> Option<Inst>
    ensures { result ≡ slice_get insts.now i }
{
    insts.get(i).copied()
}

/// What is left of these lines, each of which does the work of the instruction of its number.
fn used_lines(
    alloc: Global,
    f: &Function,
    used: &[bool],
    insts: &[Inst],
    found: &[LineFinding],
    put: &[Inst],
) -> Result<Vec<Inst>, AllocError>
    requires few { length f.now.values ≤ 2 ^ 26 }
    requires below { All (λ inst. ForSome inst.result (λ v. v.0 < length f.now.values)) insts.now }
    ensures { IfOk result (λ lines. lines.items ≡ expanding.used_lines f.now (is_marked used.now) insts.now found.now 0 put.now) }
{
    let mut lines: Vec<Inst> = Vec::with_capacity(alloc, put.len())?;
    'each: for i in 0..put.len() {
        push_used(
            &mut lines,
            f,
            used,
            inst_at(insts, i),
            line_at(found, i),
            &put[i],
        )?;
    }
    Ok(lines)
}

/// Keeps those phis whose names are used.
fn keep_used(phis: &mut Vec<Phi>, used: &[bool])
    ensures { phis.new.items ≡ filter (is_used_phi (is_marked used.now)) phis.old.items }
{
    phis.retain(|phi| marked(used, phi.result.0 as usize));
}

/// Leaves of a block the lines and the phis that are used.
fn use_block(
    alloc: Global,
    f: &Function,
    used: &[bool],
    block: &Block,
    found: &BlockFindings,
    put: &mut Block,
) -> Result<(), AllocError>
    requires few { length f.now.values ≤ 2 ^ 26 }
    requires below { All (λ inst. ForSome inst.result (λ v. v.0 < length f.now.values)) block.now.insts }
    ensures { IfOk result (λ _. put.new ≡ used_block f.now (is_marked used.now) block.now found.now put.old) }
{
    let lines = used_lines(
        alloc,
        f,
        used,
        block.insts.as_slice(),
        found.lines.as_slice(),
        put.insts.as_slice(),
    )?;
    put.insts = Items(lines);
    keep_used(&mut put.phis.0, used);
    Ok(())
}

/// Leaves of the block of this number the lines and the phis that are used.
fn use_block_at(
    alloc: Global,
    f: &Function,
    used: &[bool],
    kept: &[BlockFindings],
    put: &mut Vec<Block>,
    b: usize,
) -> Result<(), AllocError>
    requires few { length f.now.values ≤ 2 ^ 26 }
    requires ready { IsReady f.now }
    requires inside { b < length f.now.blocks }
    requires found { b < length kept.now }
    requires room { b < length put.old.items }
    ensures { IfOk result (λ _. (block : Block) → slice_get put.old.items b ≡ Some block →
        put.new.items ≡ slice_set put.old.items b (used_block_at f.now kept.now (is_marked used.now) b block)) }
{
    let blocks = f.blocks.as_slice();
    let block = &mut put[b];
    use_block(alloc, f, used, &blocks[b], &kept[b], block)?;
    Ok(())
}

/// Leaves of each block the lines and the phis that are used.
fn use_blocks(
    alloc: Global,
    f: &Function,
    used: &[bool],
    kept: &[BlockFindings],
    put: &mut Vec<Block>,
) -> Result<(), AllocError>
    requires few { length f.now.values ≤ 2 ^ 26 }
    requires ready { IsReady f.now }
    requires found { length kept.now ≡ length f.now.blocks }
    requires same { length put.old.items ≡ length f.now.blocks }
    ensures { IfOk result (λ _. put.new.items ≡ with_numbers (used_block_at f.now kept.now (is_marked used.now)) 0 put.old.items) }
{
    'all: for b in 0..kept.len() {
        use_block_at(alloc, f, used, kept, put, b)?;
    }
    Ok(())
}

/// What is left of a function `f`: of `put`, in which all lines stay that runs may come to, each as the operation that does its
/// work, those lines and phis go that nothing uses, and narrowed divisions are written out, with new names behind the others.
/// A name is used, and a block reached, where it is marked. An error says that memory was wanting.
pub(crate) fn lines_left(
    alloc: Global,
    f: &Function,
    put: Function,
    kept: &[BlockFindings],
    reached: &[bool],
    used: &[bool],
) -> Result<Function, AllocError>
    requires few { length f.now.values ≤ 2 ^ 26 }
    requires ready { IsReady f.now }
    requires found { length kept.now ≡ length f.now.blocks }
    requires same { length put.blocks ≡ length f.now.blocks }
    ensures { (found : Findings) → AreKeptOf f.now found kept.now → put ≡ rewritten f.now (first_marks f.now found (is_marked reached.now)) →
        IfOk result (λ g. g ≡ rewritten f.now (made_marks f.now found (is_marked reached.now) (is_marked used.now))) }
{
    let mut left = put;
    let widths = narrowed_widths(alloc, f, kept, reached)?;
    use_blocks(alloc, f, used, kept, &mut left.blocks.0)?;
    push_added(&mut left.values.0, widths.as_slice())?;
    Ok(left)
}
