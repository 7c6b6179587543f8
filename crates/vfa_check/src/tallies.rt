//! Whether the entries of a phi fit the predecessors of its block, by a tally for each block.

ghost use Rattle.std.specs.Prelude.{◌≡◌, ◌<◌, ◌+◌, ◌↔◌, ℕ, All, IfOk, IsTrue, false, length, slice_get, slice_index};
ghost use Rattle.vfa_check.specs.Predecessors.{AreClear, FitsPredecessors, HasOneOperand, HasSource, NamesEach, times, times_named};

use std::alloc::{AllocError, Global};
use vfa_ir::{BlockId, Operand};

/// Counts each block among these predecessors. The tallies are zero before.
fn count(left: &mut Vec<usize>, predecessors: &[BlockId])
    requires within { All (λ p. p.0 < length left.old.items) predecessors.now }
    requires zero { (b : ℕ) → slice_index left.old.items b ≡ 0 }
    ensures each { length left.new.items ≡ length left.old.items }
    ensures counted { (b : ℕ) → slice_index left.new.items b ≡ times b predecessors.now }
{
    'predecessors: for from in predecessors {
        left[from.0 as usize] += 1;
    }
}

/// Takes each entry off the tally of the block that it names; false where there is nothing left for one.
fn take_off(left: &mut Vec<usize>, entries: &[(Operand, BlockId)]) -> bool
    ensures each { length left.new.items ≡ length left.old.items }
    ensures within { IsTrue result → All (λ e. e.1.0 < length left.old.items) entries.now }
    ensures taken { IsTrue result → (b : ℕ) → slice_index left.new.items b + times_named b entries.now ≡ slice_index left.old.items b }
    ensures lacks { result ≡ false → (b : ℕ) × (slice_index left.old.items b < times_named b entries.now) }
{
    'entries: for entry in entries {
        let from = entry.1.0 as usize;
        if from >= left.len() {
            return false;
        }
        if left[from] == 0 {
            return false;
        }
        left[from] -= 1;
    }
    true
}

/// Whether nothing is left for any of these predecessors.
fn none_left(left: &[usize], predecessors: &[BlockId]) -> bool
    ensures { IsTrue result ↔ All (λ p. slice_index left.now p.0 ≡ 0) predecessors.now }
{
    predecessors
        .iter()
        .all(|p| left.get(p.0 as usize).copied().unwrap_or(0) == 0)
}

/// Whether the entries name each predecessor once for each edge. The tallies are zero before, and after a yes.
fn names_each(
    left: &mut Vec<usize>,
    predecessors: &[BlockId],
    entries: &[(Operand, BlockId)],
) -> bool
    requires within { All (λ p. p.0 < length left.old.items) predecessors.now }
    requires zero { (b : ℕ) → slice_index left.old.items b ≡ 0 }
    ensures each { length left.new.items ≡ length left.old.items }
    ensures names { IsTrue result ↔ NamesEach predecessors.now entries.now }
    ensures within { IsTrue result → All (λ e. e.1.0 < length left.old.items) entries.now }
    ensures zero { IsTrue result → (b : ℕ) → slice_index left.new.items b ≡ 0 }
{
    count(left, predecessors);
    if !take_off(left, entries) {
        return false;
    }
    none_left(left.as_slice(), predecessors)
}

/// Writes the operand of each entry at the block that it names.
fn write(operands: &mut Vec<Operand>, entries: &[(Operand, BlockId)])
    requires within { All (λ e. e.1.0 < length operands.old.items) entries.now }
    ensures each { length operands.new.items ≡ length operands.old.items }
    ensures written { All (HasSource entries.now operands.new.items) entries.now }
{
    'entries: for entry in entries {
        operands[entry.1.0 as usize] = entry.0;
    }
}

/// Whether this operand is written at the block that the entry names.
fn is_written(operands: &[Operand], entry: &(Operand, BlockId)) -> bool
    ensures { IsTrue result ↔ (slice_get operands.now entry.now.1.0 ≡ Some entry.now.0) }
{
    match operands.get(entry.1.0 as usize) {
        Some(operand) => *operand == entry.0,
        None => false,
    }
}

/// Whether the operand of each entry is written at the block that it names.
fn are_written(operands: &[Operand], entries: &[(Operand, BlockId)]) -> bool
    ensures { IsTrue result ↔ All (λ e. slice_get operands.now e.1.0 ≡ Some e.0) entries.now }
{
    entries.iter().all(|e| is_written(operands, e))
}

/// Whether entries that name one block have one operand.
fn has_one_operand(operands: &mut Vec<Operand>, entries: &[(Operand, BlockId)]) -> bool
    requires within { All (λ e. e.1.0 < length operands.old.items) entries.now }
    ensures each { length operands.new.items ≡ length operands.old.items }
    ensures one { IsTrue result ↔ HasOneOperand entries.now }
{
    write(operands, entries);
    are_written(operands.as_slice(), entries)
}

/// A tally and an operand for each block.
#[derive(Drop)]
pub struct Tallies {
    left: Vec<usize>,
    operands: Vec<Operand>,
}

impl Tallies {
    /// Those of so many blocks: nothing is tallied.
    pub(crate) fn new(alloc: Global, blocks: usize) -> Result<Tallies, AllocError>
        ensures each { IfOk result (λ t. length t.left.items ≡ blocks) }
        ensures clear { IfOk result (λ t. AreClear t.left.items t.operands.items) }
    {
        Ok(Tallies {
            left: vec![in alloc; 0; blocks]?,
            operands: vec![in alloc; Operand::Poison; blocks]?,
        })
    }

    /// Whether the entries of a phi name each of these predecessors once for each edge, with one operand where they name
    /// it more than once. After a yes nothing is tallied.
    pub(crate) fn fits(&mut self, predecessors: &[BlockId], entries: &[(Operand, BlockId)]) -> bool
        requires clear { AreClear self.old.left.items self.old.operands.items }
        requires within { All (λ p. p.0 < length self.old.left.items) predecessors.now }
        ensures each { length self.new.left.items ≡ length self.old.left.items }
        ensures fits { IsTrue result ↔ FitsPredecessors predecessors.now entries.now }
        ensures clear { IsTrue result → AreClear self.new.left.items self.new.operands.items }
    {
        names_each(&mut self.left, predecessors, entries)
            && has_one_operand(&mut self.operands, entries)
    }
}
