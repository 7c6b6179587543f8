//! The operands that take the place of names.

ghost use Rattle.std.specs.Prelude.{◌≡◌, ◌<◌, ℕ, All, IfOk, None, Some, if◌then◌else◌, length, nat_eq, slice_get, slice_index_or};
ghost use Rattle.std.specs.Option.{ForSome, option_or};
ghost use Rattle.vfa_rules.specs.Uses.{first_found};
ghost use Rattle.vfa_walk.specs.Ready.{IsReady};
ghost use Rattle.vfa_rewrite.specs.Chains.{itself, other_for, other_in};
ghost use Rattle.vfa_rewrite.specs.Findings.{Findings};
ghost use Rattle.vfa_rewrite.specs.Found.{AreKeptOf};
ghost use Rattle.vfa_rewrite.specs.Replacing.{AreKeptLines, other_of};
ghost use Rattle.vfa_rewrite.specs.Rewritten.{with_numbers};

use crate::found::{BlockFindings, LineFinding};
use std::alloc::{AllocError, Global};
use vfa_ir::{Function, Inst, Operand, ValueId};
use vfa_rules::Change;

/// Notes what is found of a name, if nothing was noted of it before.
pub(crate) fn note<T: Copy>(noted: &mut Vec<Option<T>>, name: ValueId, found: T)
    requires { name.0 < length noted.old.items }
    ensures count { length noted.new.items ≡ length noted.old.items }
    ensures noted { (n : ℕ) → slice_index_or noted.new.items n None ≡
        option_or (slice_index_or noted.old.items n None) (if nat_eq name.0 n then Some found else None) }
{
    if noted[name.0 as usize].is_some() {
        return;
    }
    noted[name.0 as usize] = Some(found);
}

/// Notes the operand that takes the place of an instruction's result, where one does.
fn note_line(others: &mut Vec<Option<Operand>>, name: Option<ValueId>, line: Option<LineFinding>)
    requires { ForSome name (λ v. v.0 < length others.old.items) }
    ensures count { length others.new.items ≡ length others.old.items }
    ensures others { (n : ℕ) → slice_index_or others.new.items n None ≡
        option_or (slice_index_or others.old.items n None) (other_of n name line) }
{
    let Some(name) = name else {
        return;
    };
    let Some(found) = line else {
        return;
    };
    if let Change::Uses(other) = found.change {
        note(others, name, other);
    }
}

/// What was found out of the instruction of this number.
pub(crate) fn line_at(lines: &[LineFinding], i: usize) -> Option<LineFinding>
    ensures { result ≡ slice_get lines.now i }
{
    lines.get(i).copied()
}

/// Notes the operands that take the place of the results of a block's instructions.
fn note_lines(others: &mut Vec<Option<Operand>>, insts: &[Inst], lines: &[LineFinding])
    requires { All (λ inst. ForSome inst.result (λ v. v.0 < length others.old.items)) insts.now }
    ensures count { length others.new.items ≡ length others.old.items }
    ensures others { (found : Findings) (b : ℕ) → AreKeptLines found b insts.now lines.now → (n : ℕ) →
        slice_index_or others.new.items n None ≡
        option_or (slice_index_or others.old.items n None) (first_found itself (with_numbers (other_in found n b) 0 insts.now)) }
{
    'each: for i in 0..insts.len() {
        note_line(others, insts[i].result, line_at(lines, i));
    }
}

/// Notes the operands that take the place of the results of a function's instructions.
fn note_blocks(others: &mut Vec<Option<Operand>>, f: &Function, kept: &[BlockFindings])
    requires ready { IsReady f.now }
    requires names { length others.old.items ≡ length f.now.values }
    requires count { length kept.now ≡ length f.now.blocks }
    ensures { (found : Findings) → AreKeptOf f.now found kept.now → (n : ℕ) → slice_index_or others.new.items n None ≡
        option_or (slice_index_or others.old.items n None) (other_for f.now found n) }
{
    let blocks = f.blocks.as_slice();
    'all: for b in 0..kept.len() {
        note_lines(others, blocks[b].insts.as_slice(), kept[b].lines.as_slice());
    }
}

/// For each name of a function the operand that takes the place of its uses, where one does.
pub(crate) fn replaced(
    alloc: Global,
    f: &Function,
    kept: &[BlockFindings],
) -> Result<Vec<Option<Operand>>, AllocError>
    requires ready { IsReady f.now }
    requires count { length kept.now ≡ length f.now.blocks }
    ensures { (found : Findings) → AreKeptOf f.now found kept.now →
        IfOk result (λ others. (n : ℕ) → slice_index_or others.items n None ≡ other_for f.now found n) }
{
    let mut others: Vec<Option<Operand>> = vec![in alloc; None; f.values.as_slice().len()]?;
    note_blocks(&mut others, f, kept);
    Ok(others)
}
