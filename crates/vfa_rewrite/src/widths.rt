//! The widths to which instructions are narrowed, name by name, and the names that this adds.

ghost use Rattle.std.specs.Prelude.{◌≡◌, ◌<◌, ◌++◌, ℕ, All, IfOk, None, Some, if◌then◌else◌, length, slice_index_or};
ghost use Rattle.std.specs.Option.{ForSome, option_or};
ghost use Rattle.vfa_mean.specs.Kept.{is_marked};
ghost use Rattle.vfa_rules.specs.Uses.{first_found};
ghost use Rattle.vfa_walk.specs.Ready.{IsReady};
ghost use Rattle.vfa_rewrite.specs.Chains.{itself};
ghost use Rattle.vfa_rewrite.specs.Expanding.{added_by, width_of};
ghost use Rattle.vfa_rewrite.specs.Findings.{Findings};
ghost use Rattle.vfa_rewrite.specs.Found.{AreKeptOf};
ghost use Rattle.vfa_rewrite.specs.Making as making;
ghost use Rattle.vfa_rewrite.specs.Making.{narrowed_width, three, width_in};
ghost use Rattle.vfa_rewrite.specs.Replacing.{AreKeptLines};
ghost use Rattle.vfa_rewrite.specs.Rewritten.{with_numbers};

use crate::found::{BlockFindings, LineFinding};
use crate::replacing::{line_at, note};
use std::alloc::{AllocError, Global};
use vfa_ir::{Function, Inst, Ty, Value, ValueId};
use vfa_rules::Change;

/// Notes the width to which an instruction is narrowed, if it is.
fn note_line(widths: &mut Vec<Option<u32>>, name: Option<ValueId>, line: Option<LineFinding>)
    requires { ForSome name (λ v. v.0 < length widths.old.items) }
    ensures count { length widths.new.items ≡ length widths.old.items }
    ensures widths { (n : ℕ) → slice_index_or widths.new.items n None ≡
        option_or (slice_index_or widths.old.items n None) (width_of n name line) }
{
    let Some(name) = name else {
        return;
    };
    let Some(found) = line else {
        return;
    };
    if let Change::Narrow(_, width) = found.change {
        note(widths, name, width);
    }
}

/// Notes the widths to which a block's instructions are narrowed.
fn note_lines(widths: &mut Vec<Option<u32>>, insts: &[Inst], lines: &[LineFinding])
    requires { All (λ inst. ForSome inst.result (λ v. v.0 < length widths.old.items)) insts.now }
    ensures count { length widths.new.items ≡ length widths.old.items }
    ensures widths { (found : Findings) (b : ℕ) → AreKeptLines found b insts.now lines.now → (n : ℕ) →
        slice_index_or widths.new.items n None ≡
        option_or (slice_index_or widths.old.items n None) (first_found itself (with_numbers (width_in found n b) 0 insts.now)) }
{
    'each: for i in 0..insts.len() {
        note_line(widths, insts[i].result, line_at(lines, i));
    }
}

/// Notes the widths to which the instructions of a block are narrowed, if it is reached.
fn note_block(
    widths: &mut Vec<Option<u32>>,
    is_reached: bool,
    insts: &[Inst],
    lines: &[LineFinding],
)
    requires { All (λ inst. ForSome inst.result (λ v. v.0 < length widths.old.items)) insts.now }
    ensures count { length widths.new.items ≡ length widths.old.items }
    ensures widths { (found : Findings) (b : ℕ) → AreKeptLines found b insts.now lines.now → (n : ℕ) →
        slice_index_or widths.new.items n None ≡
        option_or (slice_index_or widths.old.items n None) (if is_reached then first_found itself (with_numbers (width_in found n b) 0 insts.now) else None) }
{
    if is_reached {
        note_lines(widths, insts, lines);
    }
}

/// Whether a number is marked.
pub(crate) fn marked(marks: &[bool], n: usize) -> bool
    ensures { result ≡ is_marked marks.now n }
{
    marks.get(n).copied().unwrap_or(false)
}

/// Notes the widths to which the instructions of the reached blocks are narrowed.
fn note_blocks(
    widths: &mut Vec<Option<u32>>,
    f: &Function,
    kept: &[BlockFindings],
    reached: &[bool],
)
    requires ready { IsReady f.now }
    requires names { length widths.old.items ≡ length f.now.values }
    requires count { length kept.now ≡ length f.now.blocks }
    ensures count { length widths.new.items ≡ length widths.old.items }
    ensures widths { (found : Findings) → AreKeptOf f.now found kept.now → (n : ℕ) → slice_index_or widths.new.items n None ≡
        option_or (slice_index_or widths.old.items n None) (narrowed_width f.now found (is_marked reached.now) n) }
{
    let blocks = f.blocks.as_slice();
    'all: for b in 0..kept.len() {
        note_block(
            widths,
            marked(reached, b),
            blocks[b].insts.as_slice(),
            kept[b].lines.as_slice(),
        );
    }
}

/// For each name of a function the width to which its instruction is narrowed, if it is one of a reached block that is.
pub(crate) fn narrowed_widths(
    alloc: Global,
    f: &Function,
    kept: &[BlockFindings],
    reached: &[bool],
) -> Result<Vec<Option<u32>>, AllocError>
    requires ready { IsReady f.now }
    requires count { length kept.now ≡ length f.now.blocks }
    ensures count { IfOk result (λ widths. length widths.items ≡ length f.now.values) }
    ensures widths { (found : Findings) → AreKeptOf f.now found kept.now → IfOk result (λ widths. (n : ℕ) →
        slice_index_or widths.items n None ≡ narrowed_width f.now found (is_marked reached.now) n) }
{
    let mut widths: Vec<Option<u32>> = vec![in alloc; None; f.values.as_slice().len()]?;
    note_blocks(&mut widths, f, kept, reached);
    Ok(widths)
}

/// The width that was noted for the name of this number.
fn width_at(widths: &[Option<u32>], n: usize) -> Option<u32>
    ensures { result ≡ slice_index_or widths.now n None }
{
    widths.get(n).copied().unwrap_or(None)
}

/// The type of the names that are added for a name.
fn added_type(width: Option<u32>) -> Ty
    ensures { result ≡ making.added_type width }
{
    match width {
        Some(width) => Ty::Int(width),
        None => Ty::Int(1),
    }
}

/// Puts three values without names behind others.
fn push_three(values: &mut Vec<Value>, ty: Ty) -> Result<(), AllocError>
    ensures { IfOk result (λ _. values.new.items ≡ values.old.items ++ three ty) }
{
    values.push(Value { name: None, ty })?;
    values.push(Value { name: None, ty })?;
    values.push(Value { name: None, ty })?;
    Ok(())
}

/// Puts the values that narrowing adds behind others: three for each name, whether or not its instruction is narrowed.
pub(crate) fn push_added(values: &mut Vec<Value>, widths: &[Option<u32>]) -> Result<(), AllocError>
    ensures { IfOk result (λ _. values.new.items ≡ values.old.items ++ added_by widths.now (length widths.now)) }
{
    'names: for n in 0..widths.len() {
        push_three(values, added_type(width_at(widths, n)))?;
    }
    Ok(())
}
