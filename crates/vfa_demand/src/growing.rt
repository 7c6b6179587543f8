//! Masks that grow by what uses ask for, and the names that wait for their definitions to be asked.

ghost use Rattle.std.specs.Prelude.{◌≡◌, ◌<◌, ◌≤◌, ℕ, [], true, All, IfOk, bit_or, flat_map, length, replicate};
ghost use Rattle.vfa_demand.specs.Masks as masks;
ghost use Rattle.vfa_demand.specs.Masks.{ask_of, mask_in, operand_asks, result_mask, seen_in, whole_asks};
ghost use Rattle.vfa_demand.specs.Steps.{IsPutAhead, IsSearched, IsStep, block_root_asks, definition_asks, left_of, line_asks_at, phi_asks_at, place_asks, root_asks};
ghost use Rattle.vfa_demand.specs.Usable.{AreUsable, IsNameBelow, IsUsable, IsUsableBlock, IsUsableInst, IsUsablePhi};
ghost use Rattle.vfa_ir.specs.Operands.{operands_of};
ghost use Rattle.vfa_ir.specs.Words.{is_in};

use crate::definitions::Definition;
use crate::rows::{all_bits, asked, needs_all};
use std::alloc::{AllocError, Global};
use vfa_ir::{Block, BlockId, Function, Inst, Op, Operand, Phi, Term, Ty, ValueId, operand};

/// The width of a number, and of the number of a pair: 1 to 128. Of `{ i8, i1 }` it is 8.
pub fn number_width(ty: Ty) -> u32
    ensures { result ≡ masks.number_width ty }
{
    match ty {
        Ty::Int(width) | Ty::Pair(width) => width,
    }
}

/// How many operands an operation of the function has.
fn operand_count(f: &Function, op: &Op) -> usize
    ensures { result ≡ length (operands_of f.now op.now) }
{
    match *op {
        Op::Select { .. } => 3,
        Op::Bin { .. } | Op::Icmp { .. } | Op::Two { .. } | Op::Over { .. } => 2,
        Op::Call { call, .. } => match f.calls.as_slice().get(call as usize) {
            Some(call) => call.args.as_slice().len(),
            None => 0,
        },
        _ => 1,
    }
}

/// The bits of both masks.
fn both(mask: u128, more: u128) -> u128
    ensures { result ≡ bit_or mask more }
{
    mask | more
}

/// All names, in order.
fn all_names(alloc: Global, count: usize) -> Result<Vec<usize>, AllocError>
    ensures all { IfOk result (λ names. (v : ℕ) → v < count → is_in v names.items ≡ true) }
    ensures within { IfOk result (λ names. (v : ℕ) → is_in v names.items ≡ true → v < count) }
{
    let mut names: Vec<usize> = Vec::with_capacity(alloc, count)?;
    'each: for name in 0..count {
        names.push(name)?;
    }
    Ok(names)
}

/// Masks that grow, and the names whose definitions are still to be asked, each once.
#[derive(Drop)]
pub(crate) struct Growing {
    pub(crate) bits: Vec<u128>,
    pub(crate) waits: Vec<bool>,
    pub(crate) ahead: Vec<usize>,
}

impl Growing {
    /// Masks of no bits. All names wait, the last one at the front, since most names are used after their definition.
    pub(crate) fn new(alloc: Global, count: usize) -> Result<Growing, AllocError>
        ensures bits { IfOk result (λ growing. growing.bits.items ≡ replicate count 0) }
        ensures waits { IfOk result (λ growing. growing.waits.items ≡ replicate count true) }
        ensures all { IfOk result (λ growing. (v : ℕ) → v < count → is_in v growing.ahead.items ≡ true) }
        ensures within { IfOk result (λ growing. (v : ℕ) → is_in v growing.ahead.items ≡ true → v < count) }
    {
        let bits = vec![in alloc; 0; count]?;
        let waits = vec![in alloc; true; count]?;
        let ahead = all_names(alloc, count)?;
        Ok(Growing { bits, waits, ahead })
    }

    /// The mask of a value.
    pub(crate) fn mask(&self, value: ValueId) -> u128
        ensures { result ≡ mask_in self.now.bits.items value.0 }
    {
        self.bits.get(value.0 as usize).copied().unwrap_or(0)
    }

    /// Puts a name to those that wait.
    fn put(&mut self, name: usize) -> Result<(), AllocError>
        requires { name < length self.old.waits.items }
        ensures bits { self.new.bits.items ≡ self.old.bits.items }
        ensures put { IfOk result (λ _. IsPutAhead name self.old.waits.items self.new.waits.items self.old.ahead.items self.new.ahead.items) }
    {
        if self.waits[name] {
            return Ok(());
        }
        self.waits[name] = true;
        self.ahead.push(name)?;
        Ok(())
    }

    /// Takes in that these bits of an operand are asked for.
    fn ask(&mut self, operand: Operand, bits: u128) -> Result<(), AllocError>
        requires names { length self.old.waits.items ≡ length self.old.bits.items }
        requires below { IsNameBelow (length self.old.bits.items) operand }
        ensures { IfOk result (λ _. IsStep (ask_of bits operand)
            self.old.bits.items self.new.bits.items self.old.waits.items self.new.waits.items self.old.ahead.items self.new.ahead.items) }
    {
        let Operand::Value(value) = operand else {
            return Ok(());
        };
        let name = value.0 as usize;
        let old = self.bits[name];
        let new = both(old, bits);
        if new == old {
            return Ok(());
        }
        self.bits[name] = new;
        self.put(name)
    }

    /// Takes in what the operand of this place of an operation asks for, where the result has this mask.
    fn ask_place(
        &mut self,
        f: &Function,
        op: &Op,
        place: usize,
        mask: u128,
    ) -> Result<(), AllocError>
        requires names { length self.old.waits.items ≡ length self.old.bits.items }
        requires usable { All (IsUsable (length self.old.bits.items)) (operands_of f.now op.now) }
        ensures { IfOk result (λ _. IsStep (place_asks f.now op.now place mask)
            self.old.bits.items self.new.bits.items self.old.waits.items self.new.waits.items self.old.ahead.items self.new.ahead.items) }
    {
        match operand(f, op, place) {
            Some((ty, operand)) => self.ask(operand, asked(op, number_width(ty), place, mask)),
            None => Ok(()),
        }
    }

    /// Takes in what the terminator of a block asks for.
    fn ask_terminator(&mut self, term: &Term) -> Result<(), AllocError>
        requires names { length self.old.waits.items ≡ length self.old.bits.items }
        requires usable { All (IsUsable (length self.old.bits.items)) (seen_in term.now) }
        ensures { IfOk result (λ _. IsStep (whole_asks (seen_in term.now))
            self.old.bits.items self.new.bits.items self.old.waits.items self.new.waits.items self.old.ahead.items self.new.ahead.items) }
    {
        match term {
            Term::Ret { width, a } => self.ask(*a, all_bits(*width)),
            Term::CondBr { c, .. } => self.ask(*c, all_bits(1)),
            Term::Switch { width, on, .. } => self.ask(*on, all_bits(*width)),
            Term::Br(_) | Term::Unreachable => Ok(()),
        }
    }

    /// The mask of the result of an instruction; 0 where it has none.
    fn result_mask(&self, instruction: &Inst) -> u128
        ensures { result ≡ result_mask (mask_in self.now.bits.items) instruction.now }
    {
        match instruction.result {
            Some(value) => self.mask(value),
            None => 0,
        }
    }

    /// Takes in what the operands of an operation ask for, where the result has this mask.
    fn ask_operands(&mut self, f: &Function, op: &Op, mask: u128) -> Result<(), AllocError>
        requires names { length self.old.waits.items ≡ length self.old.bits.items }
        requires usable { All (IsUsable (length self.old.bits.items)) (operands_of f.now op.now) }
        ensures { IfOk result (λ _. IsStep (operand_asks op.now mask 0 (operands_of f.now op.now))
            self.old.bits.items self.new.bits.items self.old.waits.items self.new.waits.items self.old.ahead.items self.new.ahead.items) }
    {
        'each: for place in 0..operand_count(f, op) {
            self.ask_place(f, op, place, mask)?;
        }
        Ok(())
    }

    /// Takes in that operands have all that the result of their phi has.
    fn ask_entries(&mut self, entries: &[(Operand, BlockId)], mask: u128) -> Result<(), AllocError>
        requires names { length self.old.waits.items ≡ length self.old.bits.items }
        requires below { All (λ e. IsNameBelow (length self.old.bits.items) e.0) entries.now }
        ensures { IfOk result (λ _. IsStep (flat_map (λ e. ask_of mask e.0) entries.now)
            self.old.bits.items self.new.bits.items self.old.waits.items self.new.waits.items self.old.ahead.items self.new.ahead.items) }
    {
        'each: for entry in entries {
            self.ask(entry.0, mask)?;
        }
        Ok(())
    }

    /// Takes in what the phi of this place asks for.
    fn ask_phi_at(&mut self, phis: &[Phi], place: usize) -> Result<(), AllocError>
        requires names { length self.old.waits.items ≡ length self.old.bits.items }
        requires usable { All (IsUsablePhi (length self.old.bits.items)) phis.now }
        ensures { IfOk result (λ _. IsStep (phi_asks_at (mask_in self.old.bits.items) phis.now place)
            self.old.bits.items self.new.bits.items self.old.waits.items self.new.waits.items self.old.ahead.items self.new.ahead.items) }
    {
        match phis.get(place) {
            Some(phi) => self.ask_entries(phi.entries.as_slice(), self.mask(phi.result)),
            None => Ok(()),
        }
    }

    /// Takes in what the instruction of this place asks for.
    fn ask_line_at(&mut self, f: &Function, insts: &[Inst], place: usize) -> Result<(), AllocError>
        requires names { length self.old.waits.items ≡ length self.old.bits.items }
        requires usable { All (IsUsableInst f.now (length self.old.bits.items)) insts.now }
        ensures { IfOk result (λ _. IsStep (line_asks_at f.now (mask_in self.old.bits.items) insts.now place)
            self.old.bits.items self.new.bits.items self.old.waits.items self.new.waits.items self.old.ahead.items self.new.ahead.items) }
    {
        match insts.get(place) {
            Some(inst) => self.ask_operands(f, &inst.op, self.result_mask(inst)),
            None => Ok(()),
        }
    }

    /// Takes in what a definition asks for.
    fn ask_definition(&mut self, f: &Function, definition: Definition) -> Result<(), AllocError>
        requires names { length self.old.waits.items ≡ length self.old.bits.items }
        requires usable { All (IsUsableBlock f.now (length self.old.bits.items)) f.now.blocks }
        ensures { IfOk result (λ _. IsStep (definition_asks f.now (mask_in self.old.bits.items) definition)
            self.old.bits.items self.new.bits.items self.old.waits.items self.new.waits.items self.old.ahead.items self.new.ahead.items) }
    {
        match definition {
            Definition::Phi { block, place } => match f.blocks.as_slice().get(block) {
                Some(block) => self.ask_phi_at(block.phis.as_slice(), place),
                None => Ok(()),
            },
            Definition::Line { block, place } => match f.blocks.as_slice().get(block) {
                Some(block) => self.ask_line_at(f, block.insts.as_slice(), place),
                None => Ok(()),
            },
        }
    }

    /// Takes in what these definitions ask for, so that they are settled.
    pub(crate) fn ask_definitions(
        &mut self,
        f: &Function,
        definitions: &[Definition],
    ) -> Result<(), AllocError>
        requires usable { AreUsable f.now }
        requires searched { IsSearched f.now definitions.now self.old.bits.items self.old.waits.items self.old.ahead.items }
        ensures searched { IfOk result (λ _. IsSearched f.now [] self.new.bits.items self.new.waits.items self.new.ahead.items) }
        ensures room { IfOk result (λ _. left_of self.new.bits.items self.new.ahead.items ≤ left_of self.old.bits.items self.old.ahead.items) }
    {
        'each: for definition in definitions {
            self.ask_definition(f, *definition)?;
        }
        Ok(())
    }

    /// Takes in what an instruction asks for whatever is asked of its result.
    fn ask_root(&mut self, f: &Function, inst: &Inst) -> Result<(), AllocError>
        requires names { length self.old.waits.items ≡ length self.old.bits.items }
        requires usable { IsUsableInst f.now (length self.old.bits.items) inst.now }
        ensures { IfOk result (λ _. IsStep (root_asks f.now inst.now)
            self.old.bits.items self.new.bits.items self.old.waits.items self.new.waits.items self.old.ahead.items self.new.ahead.items) }
    {
        if needs_all(&inst.op) {
            return self.ask_operands(f, &inst.op, 0);
        }
        Ok(())
    }

    fn ask_line_roots(&mut self, f: &Function, insts: &[Inst]) -> Result<(), AllocError>
        requires names { length self.old.waits.items ≡ length self.old.bits.items }
        requires usable { All (IsUsableInst f.now (length self.old.bits.items)) insts.now }
        ensures { IfOk result (λ _. IsStep (flat_map (root_asks f.now) insts.now)
            self.old.bits.items self.new.bits.items self.old.waits.items self.new.waits.items self.old.ahead.items self.new.ahead.items) }
    {
        'each: for inst in insts {
            self.ask_root(f, inst)?;
        }
        Ok(())
    }

    fn ask_block_roots(&mut self, f: &Function, block: &Block) -> Result<(), AllocError>
        requires names { length self.old.waits.items ≡ length self.old.bits.items }
        requires usable { IsUsableBlock f.now (length self.old.bits.items) block.now }
        ensures { IfOk result (λ _. IsStep (block_root_asks f.now block.now)
            self.old.bits.items self.new.bits.items self.old.waits.items self.new.waits.items self.old.ahead.items self.new.ahead.items) }
    {
        self.ask_line_roots(f, block.insts.as_slice())?;
        self.ask_terminator(&block.term)
    }

    /// Takes in what is asked for whatever is asked of results: by operations that need all bits, and by terminators.
    pub(crate) fn ask_roots(&mut self, f: &Function, blocks: &[Block]) -> Result<(), AllocError>
        requires names { length self.old.waits.items ≡ length self.old.bits.items }
        requires usable { All (IsUsableBlock f.now (length self.old.bits.items)) blocks.now }
        ensures { IfOk result (λ _. IsStep (flat_map (block_root_asks f.now) blocks.now)
            self.old.bits.items self.new.bits.items self.old.waits.items self.new.waits.items self.old.ahead.items self.new.ahead.items) }
    {
        'each: for block in blocks {
            self.ask_block_roots(f, block)?;
        }
        Ok(())
    }
}
