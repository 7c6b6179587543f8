//! Blocks, with ids in place of names.

ghost use Rattle.std.specs.Prelude.{◌≡◌, ◌++◌, map, flat_map, length, option_map, All, IfOk};
ghost use Rattle.vfa_ir.specs.DefinedNames.{block_uses, operation_uses, phi_uses};
ghost use Rattle.vfa_ir.specs.Grammar.{FitsBlock, FitsInstruction, FitsPhi};
ghost use Rattle.vfa_ir.specs.Resolution.{block_calls, block_of, blocks_of, inst_of, instruction_calls, insts_of, phi_of, value_id};
ghost use Rattle.vfa_read.specs.Resolving.{operation_calls, Resolves};

use super::table::SymbolTable;
use super::values::kept_option;
use std::alloc::Global;
use vfa_ir::syntax::{BasicBlock, Instruction, PhiNode};
use vfa_ir::{Block, CallOp, Inst, Items, Outside, Phi, ValueId};

impl SymbolTable {
    fn result_of(&self, instruction: &Instruction) -> Option<ValueId>
        ensures { result ≡ option_map (value_id self.now) instruction.now.result }
    {
        match &instruction.result {
            Some(name) => Some(self.defined_value(name)),
            None => None,
        }
    }

    /// The instruction of ids, before which these calls stand. A call is put last among them.
    fn instruction(
        &self,
        alloc: Global,
        calls: &mut Vec<CallOp>,
        instruction: &Instruction,
    ) -> Result<Inst, Outside>
        requires { FitsInstruction instruction.now }
        ensures resolves { Resolves self.now (operation_uses instruction.now.operation) (inst_of self.now (length calls.old.items) instruction.now) result }
        ensures calls { IfOk result (λ _. calls.new.items ≡ calls.old.items ++ operation_calls self.now instruction.now.operation) }
    {
        let op = self.operation(alloc, calls, &instruction.operation)?;
        Ok(Inst {
            result: self.result_of(instruction),
            op,
        })
    }

    fn instructions(
        &self,
        alloc: Global,
        calls: &mut Vec<CallOp>,
        instructions: &[Instruction],
    ) -> Result<Items<Inst>, Outside>
        requires { All FitsInstruction instructions.now }
        ensures resolves { Resolves self.now (flat_map (λ i. operation_uses i.operation) instructions.now) (insts_of self.now (length calls.old.items) instructions.now) result }
        ensures calls { IfOk result (λ _. calls.new.items ≡ calls.old.items ++ instruction_calls self.now instructions.now) }
    {
        let mut list = Vec::new(alloc);
        'each: for instruction in instructions {
            let item = self.instruction(alloc, calls, instruction)?;
            list.push(item)?;
        }
        Ok(Items(list))
    }

    fn phis(&self, alloc: Global, phis: &[PhiNode]) -> Result<Items<Phi>, Outside>
        requires { All FitsPhi phis.now }
        ensures { Resolves self.now (flat_map phi_uses phis.now) (map (phi_of self.now) phis.now) result }
    {
        let mut list = Vec::new(alloc);
        'each: for phi in phis {
            let item = self.phi(alloc, phi)?;
            list.push(item)?;
        }
        Ok(Items(list))
    }

    /// The block of ids, before which these calls stand. Its calls are put last among them.
    fn basic_block(
        &self,
        alloc: Global,
        calls: &mut Vec<CallOp>,
        block: &BasicBlock,
    ) -> Result<Block, Outside>
        requires { FitsBlock block.now }
        ensures resolves { Resolves self.now (block_uses block.now) (block_of self.now (length calls.old.items) block.now) result }
        ensures calls { IfOk result (λ _. calls.new.items ≡ calls.old.items ++ block_calls self.now block.now) }
    {
        let name = kept_option(alloc, &block.label)?;
        let nodes = block.phis.as_slice();
        let phis = self.phis(alloc, nodes)?;
        let instructions = block.instructions.as_slice();
        let insts = self.instructions(alloc, calls, instructions)?;
        let term = self.terminator(alloc, &block.terminator.kind)?;
        Ok(Block {
            name,
            phis,
            insts,
            term,
        })
    }

    /// The blocks of ids. Their calls are put last among these, in text order.
    pub fn basic_blocks(
        &self,
        alloc: Global,
        calls: &mut Vec<CallOp>,
        blocks: &[BasicBlock],
    ) -> Result<Items<Block>, Outside>
        requires { All FitsBlock blocks.now }
        ensures resolves { Resolves self.now (flat_map block_uses blocks.now) (blocks_of self.now (length calls.old.items) blocks.now) result }
        ensures calls { IfOk result (λ _. calls.new.items ≡ calls.old.items ++ flat_map (block_calls self.now) blocks.now) }
    {
        let mut list = Vec::new(alloc);
        'each: for block in blocks {
            let item = self.basic_block(alloc, calls, block)?;
            list.push(item)?;
        }
        Ok(Items(list))
    }
}
