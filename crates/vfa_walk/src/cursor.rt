//! Cursors, which go through the instructions of a block with the state.

ghost use Rattle.std.specs.Prelude.{◌≡◌, ◌<◌, ◌+◌, IfOk, IfSome, MatchOption, slice_get, true};
ghost use Rattle.std.specs.Option.{ForSome};
ghost use Rattle.vfa_ir.specs.declared.operations.BlockId.{BlockId};
ghost use Rattle.vfa_ir.specs.declared.functions.Function.{Function};
ghost use Rattle.vfa_mean.specs.Moments.{At};
ghost use Rattle.vfa_cond.specs.States.{known};
ghost use Rattle.vfa_walk.specs.declared.cursor.Cursor.{Cursor};
ghost use Rattle.vfa_walk.specs.Cursors.{HasGoneOn, IsAtEntry, IsMoved, Stops};
ghost use Rattle.vfa_walk.specs.Kept.{AreStates, IsStateOf, kept_entries};
ghost use Rattle.vfa_walk.specs.Ready.{IsReady};
ghost use Rattle.vfa_walk.specs.Stepping.{insts_of};
ghost use Rattle.vfa_walk.specs.Tables.{States, state_at};

use crate::blocks::block_at;
use crate::ready::ready;
use crate::stepping::step;
use crate::tables::Table;
use std::alloc::{AllocError, Global};
use vfa_check::Checked;
use vfa_cond::State;
use vfa_ir::{BlockId, Function, Inst};
use vfa_values::Values;

/// Where a step of a cursor led.
#[derive(Clone, Copy, Debug, PartialEq, Eq)]
pub enum Moved {
    /// Behind one instruction.
    On,
    /// Nowhere: the cursor stands before the terminator.
    AtTerm,
    /// No run goes on behind the instruction.
    Bottom,
}

/// A place in a block, before an instruction or before the terminator, with what is known there.
#[derive(Drop)]
pub struct Cursor<V: Values> {
    state: State<V>,
    block: BlockId,
    line: usize,
    is_reached: bool,
}

/// The instruction of this number among these.
fn inst_in(insts: &[Inst], line: usize) -> Option<Inst>
    ensures found { result ≡ slice_get insts.now line }
    ensures room { IfSome result (λ _. line < usize.MAX) }
{
    if line >= insts.len() {
        return None;
    }
    Some(insts[line])
}

/// The instruction of this number of a block.
fn inst_at(f: &Function, b: BlockId, line: usize) -> Option<Inst>
    ensures found { result ≡ slice_get (insts_of f.now b.0) line }
    ensures room { IfSome result (λ _. line < usize.MAX) }
{
    match block_at(f, b) {
        Some(block) => inst_in(block.insts.as_slice(), line),
        None => None,
    }
}

impl<V: Values> Cursor<V> {
    /// A cursor before the first instruction of a block, with a copy of its entry state; None exactly where the table has no
    /// state there.
    pub fn start(
        alloc: Global,
        f: &Checked,
        table: &Table<V>,
        b: BlockId,
    ) -> Result<Option<Cursor<V>>, AllocError>
        requires { AreStates V.ty V.proper f.now table.now }
        ensures start { IfOk result (λ o. MatchOption o (kept_entries table.now b.0 ≡ None) (IsAtEntry (kept_entries table.now) b)) }
        ensures state { IfOk result (λ o. ForSome o (λ c. IsStateOf V.ty V.proper f.now c.state)) }
    {
        let _ = f;
        let Some(entry) = table.entry(b) else {
            return Ok(None);
        };
        let state = entry.copied(alloc)?;
        Ok(Some(Cursor {
            state,
            block: b,
            line: 0,
            is_reached: true,
        }))
    }

    /// What is known where the cursor stands. No step has answered that no run goes on.
    pub fn state(&self) -> &State<V>
        requires { self.now.is_reached ≡ true }
        ensures { result.now ≡ self.now.state }
    {
        &self.state
    }

    /// Does one instruction of the function. Before the terminator the cursor stays, and where no run goes on behind the
    /// instruction the answer is `Bottom`, now and ever after.
    pub fn step(&mut self, f: &Checked) -> Moved
        requires { self.old.is_reached ≡ true → IsStateOf V.ty V.proper f.now self.old.state }
        ensures moved { IsMoved V.answers f.now self.old result self.new }
        ensures state { self.new.is_reached ≡ true → IsStateOf V.ty V.proper f.now self.new.state }
    {
        self.step_in(ready(f))
    }

    fn step_in(&mut self, f: &Function) -> Moved
        requires ready { IsReady f.now }
        requires state { self.old.is_reached ≡ true → IsStateOf V.ty V.proper f.now self.old.state }
        ensures moved { IsMoved V.answers f.now self.old result self.new }
        ensures state { self.new.is_reached ≡ true → IsStateOf V.ty V.proper f.now self.new.state }
    {
        if !self.is_reached {
            return Moved::Bottom;
        }
        let Some(inst) = inst_at(f, self.block, self.line) else {
            return Moved::AtTerm;
        };
        if step(&mut self.state, f, &inst) {
            self.line += 1;
            return Moved::On;
        }
        self.is_reached = false;
        Moved::Bottom
    }
}

/// A cursor has the state that the table gives at its place: where it starts, and where a step has led. Behind an instruction
/// where a step answers `Bottom` the table has no state.
pub fn cursor_has_the_state_at_its_place<V: Values>()
    ensures start { (f : Function) (t : States V) (c : Cursor V) (b : BlockId) → IsAtEntry t b c →
        state_at V.answers f t (At c.block.0 c.line) ≡ Some (known c.state) }
    ensures on { (f : Function) (t : States V) (old new : Cursor V) → HasGoneOn V.answers f old new →
        state_at V.answers f t (At old.block.0 old.line) ≡ Some (known old.state) →
        state_at V.answers f t (At new.block.0 new.line) ≡ Some (known new.state) }
    ensures bottom { (f : Function) (t : States V) (old : Cursor V) → Stops V.answers f old →
        state_at V.answers f t (At old.block.0 old.line) ≡ Some (known old.state) →
        state_at V.answers f t (At old.block.0 (old.line + 1)) ≡ None }
{}
