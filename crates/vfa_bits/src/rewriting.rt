//! The lines of a function as they are written anew.

ghost use Rattle.std.specs.Prelude.{◌≡◌, ◌<◌, ◌≤◌, ◌++◌, ℕ, IfOk, flat_map, length, map, slice_get};
ghost use Rattle.std.specs.List.{list_any};
ghost use Rattle.vfa_bits.specs.Choosing.{choices_in, is_changed_in};
ghost use Rattle.vfa_bits.specs.Narrowed as narrowed;
ghost use Rattle.vfa_bits.specs.Narrowed.{is_reached_call, new_argument, new_block, new_blocks, new_call, new_calls, new_entry, new_line, new_operation, new_phi, rewritten, with_operand};
ghost use Rattle.vfa_bits.specs.Standing.{put_for};
ghost use Rattle.vfa_bits.specs.Tables.{AreReplacements};
ghost use Rattle.vfa_check.specs.Uses.{argument_names};
ghost use Rattle.vfa_demand.specs.Masks as demanded;
ghost use Rattle.vfa_demand.specs.Masks.{mask_in};
ghost use Rattle.vfa_ir.specs.Defined.{operand_names};
ghost use Rattle.vfa_mean.specs.Kept.{is_marked};

use crate::copies::{copied_cases, copied_name, copied_params, copied_values, copied_words};
use crate::lines::{lost_flags, narrowed_cast};
use crate::operands::{mask_of, standing, zeroed};
use smallvec::SmallVec;
use std::alloc::{AllocError, Global};
use vfa_ir::{Block, BlockId, CallArg, CallOp, Few, Function, Inst, Items, Op, Operand, Phi, Term};

/// A function, and what its lines are written anew by: the masks of its values, the operands that their names are replaced
/// by, and marks of the blocks and the calls that a walk comes to and of the names that may have changed.
#[derive(Clone, Copy)]
pub(crate) struct Rewriting<'a> {
    pub(crate) f: &'a Function,
    pub(crate) masks: &'a [u128],
    pub(crate) replacements: &'a [Option<Operand>],
    pub(crate) reached: &'a [bool],
    pub(crate) called: &'a [bool],
    pub(crate) changed: &'a [bool],
    pub(crate) ghost are: { AreReplacements f.now (mask_in masks.now) replacements.now },
    pub(crate) ghost calls: { (place : ℕ) → place < length f.now.calls →
        is_marked called.now place ≡ is_reached_call (choices_in reached.now changed.now) place 0 f.now.blocks },
}

impl<'a> Rewriting<'a> {
    /// What takes the place of an operand, by whether some walk comes to its use.
    fn put(&self, reached: bool, a: Operand) -> Operand
        ensures { result ≡ put_for self.now.f.now (mask_in self.now.masks.now) reached a }
    {
        if reached {
            return standing(self.masks, self.replacements, a);
        }
        zeroed(self.masks, a)
    }

    /// Whether some walk comes to the block of a number.
    fn is_reached(&self, number: usize) -> bool
        ensures { result ≡ is_marked self.now.reached.now number }
    {
        self.reached.get(number).copied().unwrap_or(false)
    }

    /// Whether an operand is a name that may have changed. A number that is no value's counts as one, since nothing is asked
    /// of it.
    fn is_changed(&self, a: Operand) -> bool
        ensures { result ≡ list_any (is_changed_in self.now.changed.now) (operand_names a) }
    {
        match a {
            Operand::Value(value) => self.changed.get(value.0 as usize).copied().unwrap_or(true),
            _ => false,
        }
    }

    /// Whether one of two operands may have changed.
    fn some_changed(&self, a: Operand, b: Operand) -> bool
        ensures { result ≡ list_any (is_changed_in self.now.changed.now) (operand_names a ++ operand_names b) }
    {
        if self.is_changed(a) {
            return true;
        }
        self.is_changed(b)
    }

    /// Whether one of the operands of a `select` may have changed.
    fn select_has_changed(&self, c: Operand, a: Operand, b: Operand) -> bool
        ensures { result ≡ list_any (is_changed_in self.now.changed.now) (operand_names c ++ (operand_names a ++ operand_names b)) }
    {
        if self.is_changed(c) {
            return true;
        }
        self.some_changed(a, b)
    }

    /// Whether an argument of a call may have changed.
    fn has_changed_argument(&self, arguments: &[CallArg]) -> bool
        ensures { result ≡ list_any (is_changed_in self.now.changed.now) (flat_map (λ a. operand_names a.value) arguments.now) }
    {
        'each: for argument in arguments {
            if self.is_changed(argument.value) {
                return true;
            }
        }
        false
    }

    /// Whether an argument of the call of a place may have changed.
    fn call_has_changed(&self, place: u32) -> bool
        ensures { result ≡ list_any (is_changed_in self.now.changed.now) (argument_names (slice_get self.now.f.now.calls place)) }
    {
        match self.f.calls.as_slice().get(place as usize) {
            Some(call) => self.has_changed_argument(call.args.as_slice()),
            None => false,
        }
    }

    /// Whether an operand of an operation may have changed.
    fn has_changed(&self, op: &Op) -> bool
        ensures { result ≡ narrowed.has_changed self.now.f.now (is_changed_in self.now.changed.now) op.now }
    {
        match *op {
            Op::Bin { a, b, .. } => self.some_changed(a, b),
            Op::Icmp { a, b, .. } => self.some_changed(a, b),
            Op::Select { c, a, b, .. } => self.select_has_changed(c, a, b),
            Op::Cast { a, .. } => self.is_changed(a),
            Op::Freeze { a, .. } => self.is_changed(a),
            Op::Two { a, b, .. } => self.some_changed(a, b),
            Op::One { a, .. } => self.is_changed(a),
            Op::Over { a, b, .. } => self.some_changed(a, b),
            Op::Part { pair, .. } => self.is_changed(Operand::Value(pair)),
            Op::Assume { c } => self.is_changed(c),
            Op::Call { call, .. } => self.call_has_changed(call),
        }
    }

    /// An operation with what takes the place of its operands, by whether some walk comes to it.
    fn with_operands(&self, reached: bool, op: &Op) -> Op
        ensures { result ≡ narrowed.with_operands (put_for self.now.f.now (mask_in self.now.masks.now) reached) op.now }
    {
        match *op {
            Op::Bin {
                bin,
                flags,
                width,
                a,
                b,
            } => Op::Bin {
                bin,
                flags,
                width,
                a: self.put(reached, a),
                b: self.put(reached, b),
            },
            Op::Icmp {
                pred,
                samesign,
                width,
                a,
                b,
            } => Op::Icmp {
                pred,
                samesign,
                width,
                a: self.put(reached, a),
                b: self.put(reached, b),
            },
            Op::Select { width, c, a, b } => Op::Select {
                width,
                c: self.put(reached, c),
                a: self.put(reached, a),
                b: self.put(reached, b),
            },
            Op::Cast {
                cast,
                flags,
                from,
                to,
                a,
            } => Op::Cast {
                cast,
                flags,
                from,
                to,
                a: self.put(reached, a),
            },
            Op::Freeze { width, a } => Op::Freeze {
                width,
                a: self.put(reached, a),
            },
            Op::Two { fun, width, a, b } => Op::Two {
                fun,
                width,
                a: self.put(reached, a),
                b: self.put(reached, b),
            },
            Op::One {
                fun,
                width,
                a,
                strict,
            } => Op::One {
                fun,
                width,
                a: self.put(reached, a),
                strict,
            },
            Op::Over { over, width, a, b } => Op::Over {
                over,
                width,
                a: self.put(reached, a),
                b: self.put(reached, b),
            },
            Op::Assume { c } => Op::Assume {
                c: self.put(reached, c),
            },
            op => op,
        }
    }

    /// The mask of the result of an instruction; 0 where it has none.
    fn result_mask(&self, inst: &Inst) -> u128
        ensures { result ≡ demanded.result_mask (mask_in self.now.masks.now) inst.now }
    {
        match inst.result {
            Some(value) => mask_of(self.masks, value),
            None => 0,
        }
    }

    /// The operation of an instruction of the block of a number, as it is written anew.
    fn operation(&self, number: usize, inst: &Inst) -> Op
        ensures { result ≡ new_operation self.now.f.now (mask_in self.now.masks.now) (choices_in self.now.reached.now self.now.changed.now) number inst.now }
    {
        let op = narrowed_cast(&inst.op, self.result_mask(inst));
        let op = lost_flags(self.has_changed(&inst.op), &op);
        self.with_operands(self.is_reached(number), &op)
    }

    /// The instructions of the block of a number.
    fn lines(&self, alloc: Global, number: usize, insts: &[Inst]) -> Result<Items<Inst>, AllocError>
        ensures { IfOk result (λ all. all ≡
            map (new_line self.now.f.now (mask_in self.now.masks.now) (choices_in self.now.reached.now self.now.changed.now) number) insts.now) }
    {
        let mut all = Vec::with_capacity(alloc, insts.len())?;
        'each: for inst in insts {
            all.push(Inst {
                result: inst.result,
                op: self.operation(number, inst),
            })?;
        }
        Ok(Items(all))
    }

    /// The operands of a phi, each of which is used at the end of its predecessor.
    fn entries(
        &self,
        alloc: Global,
        entries: &[(Operand, BlockId)],
    ) -> Result<Few<(Operand, BlockId)>, AllocError>
        ensures { IfOk result (λ all. all ≡
            map (new_entry self.now.f.now (mask_in self.now.masks.now) (choices_in self.now.reached.now self.now.changed.now)) entries.now) }
    {
        let mut all: SmallVec<(Operand, BlockId), 4> = SmallVec::new(alloc);
        'each: for entry in entries {
            let reached = self.is_reached(entry.1.0 as usize);
            all.push((self.put(reached, entry.0), entry.1))?;
        }
        Ok(Few(all))
    }

    fn phis(&self, alloc: Global, phis: &[Phi]) -> Result<Items<Phi>, AllocError>
        ensures { IfOk result (λ all. all ≡
            map (new_phi self.now.f.now (mask_in self.now.masks.now) (choices_in self.now.reached.now self.now.changed.now)) phis.now) }
    {
        let mut all = Vec::with_capacity(alloc, phis.len())?;
        'each: for phi in phis {
            let entries = self.entries(alloc, phi.entries.as_slice())?;
            all.push(Phi {
                result: phi.result,
                width: phi.width,
                entries,
            })?;
        }
        Ok(Items(all))
    }

    /// A terminator with what takes the place of its operand, by whether some walk comes to it.
    fn term(&self, alloc: Global, reached: bool, term: &Term) -> Result<Term, AllocError>
        ensures { IfOk result (λ t. t ≡ with_operand (put_for self.now.f.now (mask_in self.now.masks.now) reached) term.now) }
    {
        Ok(match term {
            Term::Ret { width, a } => Term::Ret {
                width: *width,
                a: self.put(reached, *a),
            },
            Term::Br(to) => Term::Br(*to),
            Term::CondBr { c, yes, no } => Term::CondBr {
                c: self.put(reached, *c),
                yes: *yes,
                no: *no,
            },
            Term::Switch {
                width,
                on,
                other,
                cases,
            } => Term::Switch {
                width: *width,
                on: self.put(reached, *on),
                other: *other,
                cases: copied_cases(alloc, cases.as_slice())?,
            },
            Term::Unreachable => Term::Unreachable,
        })
    }

    /// The block of a number.
    fn block(&self, alloc: Global, number: usize, block: &Block) -> Result<Block, AllocError>
        ensures { IfOk result (λ b. b ≡
            new_block self.now.f.now (mask_in self.now.masks.now) (choices_in self.now.reached.now self.now.changed.now) number block.now) }
    {
        Ok(Block {
            name: copied_name(alloc, &block.name)?,
            phis: self.phis(alloc, block.phis.as_slice())?,
            insts: self.lines(alloc, number, block.insts.as_slice())?,
            term: self.term(alloc, self.is_reached(number), &block.term)?,
        })
    }

    fn blocks(&self, alloc: Global, blocks: &[Block]) -> Result<Items<Block>, AllocError>
        ensures { IfOk result (λ all. all ≡
            new_blocks self.now.f.now (mask_in self.now.masks.now) (choices_in self.now.reached.now self.now.changed.now) 0 blocks.now) }
    {
        let mut all = Vec::with_capacity(alloc, blocks.len())?;
        let mut number: usize = 0;
        'each: for block in blocks {
            all.push(self.block(alloc, number, block)?)?;
            number += 1;
        }
        Ok(Items(all))
    }

    fn arguments(
        &self,
        alloc: Global,
        reached: bool,
        arguments: &[CallArg],
    ) -> Result<Items<CallArg>, AllocError>
        ensures { IfOk result (λ all. all ≡
            map (new_argument (put_for self.now.f.now (mask_in self.now.masks.now) reached)) arguments.now) }
    {
        let mut all = Vec::with_capacity(alloc, arguments.len())?;
        'each: for argument in arguments {
            let words = copied_words(alloc, &argument.words)?;
            all.push(CallArg {
                width: argument.width,
                words,
                value: self.put(reached, argument.value),
            })?;
        }
        Ok(Items(all))
    }

    /// The call of a place.
    fn call(&self, alloc: Global, place: usize, call: &CallOp) -> Result<CallOp, AllocError>
        requires { place < length self.now.f.now.calls }
        ensures { IfOk result (λ c. c ≡
            new_call self.now.f.now (mask_in self.now.masks.now) (choices_in self.now.reached.now self.now.changed.now) place call.now) }
    {
        let reached = self.called.get(place).copied().unwrap_or(false);
        Ok(CallOp {
            callee: call.callee.copied(alloc)?,
            words: copied_words(alloc, &call.words)?,
            args: self.arguments(alloc, reached, call.args.as_slice())?,
        })
    }

    fn calls(&self, alloc: Global, calls: &[CallOp]) -> Result<Items<CallOp>, AllocError>
        requires { length calls.now ≤ length self.now.f.now.calls }
        ensures { IfOk result (λ all. all ≡
            new_calls self.now.f.now (mask_in self.now.masks.now) (choices_in self.now.reached.now self.now.changed.now) 0 calls.now) }
    {
        let mut all = Vec::with_capacity(alloc, calls.len())?;
        let mut place: usize = 0;
        'each: for call in calls {
            all.push(self.call(alloc, place, call)?)?;
            place += 1;
        }
        Ok(Items(all))
    }

    /// The function with all its lines.
    pub(crate) fn function(&self, alloc: Global) -> Result<Function, AllocError>
        ensures { IfOk result (λ g. g ≡
            rewritten self.now.f.now (mask_in self.now.masks.now) (choices_in self.now.reached.now self.now.changed.now)) }
    {
        let params = copied_params(alloc, self.f.params.as_slice())?;
        let values = copied_values(alloc, self.f.values.as_slice())?;
        let blocks = self.blocks(alloc, self.f.blocks.as_slice())?;
        let calls = self.calls(alloc, self.f.calls.as_slice())?;
        Ok(Function {
            name: self.f.name.copied(alloc)?,
            lead: copied_words(alloc, &self.f.lead)?,
            width: self.f.width,
            params,
            tail: self.f.tail.copied(alloc)?,
            values,
            blocks,
            calls,
        })
    }
}
