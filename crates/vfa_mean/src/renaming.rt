//! Parts of a function with other numbers, by an order of its values, blocks and calls.

ghost use Rattle.std.specs.Prelude.{◌≡◌, IfOk, map};
ghost use Rattle.std.specs.Option.{option_map};
ghost use Rattle.vfa_mean.specs.Renaming.{renamed_argument, renamed_block, renamed_call, renamed_case, renamed_entry, renamed_inst, renamed_op, renamed_operand, renamed_param, renamed_phi, renamed_target, renamed_term, renamed_value};

use crate::copies::{copied_name, copied_words};
use crate::places::Places;
use smallvec::SmallVec;
use std::alloc::{AllocError, Global};
use std::marker::Model;
use vfa_ir::{
    Block, BlockId, CallArg, CallOp, Few, Inst, Items, Op, Operand, Param, Phi, Term, ValueId,
};

/// The order of a function's values, blocks and calls.
#[derive(Drop)]
pub(crate) struct Renaming {
    pub(crate) values: Places,
    pub(crate) blocks: Places,
    pub(crate) calls: Places,
}

impl Model for Renaming {
    ghost use Rattle.vfa_mean.specs.Renaming.{Order};

    ghost Value = { Order };

    ghost view = { λ r. record { values = r.values; blocks = r.blocks; calls = r.calls } };
}

impl Renaming {
    fn value(&self, v: ValueId) -> ValueId
        ensures { result ≡ renamed_value self.now v }
    {
        ValueId(self.values.place(v.0))
    }

    fn target(&self, b: BlockId) -> BlockId
        ensures { result ≡ renamed_target self.now b }
    {
        BlockId(self.blocks.place(b.0))
    }

    fn operand(&self, a: Operand) -> Operand
        ensures { result ≡ renamed_operand self.now a }
    {
        match a {
            Operand::Value(v) => Operand::Value(self.value(v)),
            other => other,
        }
    }

    fn op(&self, op: &Op) -> Op
        ensures { result ≡ renamed_op self.now op.now }
    {
        match *op {
            Op::Bin {
                bin,
                flags,
                width,
                a,
                b,
            } => Op::Bin {
                bin,
                flags,
                width,
                a: self.operand(a),
                b: self.operand(b),
            },
            Op::Icmp {
                pred,
                samesign,
                width,
                a,
                b,
            } => Op::Icmp {
                pred,
                samesign,
                width,
                a: self.operand(a),
                b: self.operand(b),
            },
            Op::Select { width, c, a, b } => Op::Select {
                width,
                c: self.operand(c),
                a: self.operand(a),
                b: self.operand(b),
            },
            Op::Cast {
                cast,
                flags,
                from,
                to,
                a,
            } => Op::Cast {
                cast,
                flags,
                from,
                to,
                a: self.operand(a),
            },
            Op::Freeze { width, a } => Op::Freeze {
                width,
                a: self.operand(a),
            },
            Op::Two { fun, width, a, b } => Op::Two {
                fun,
                width,
                a: self.operand(a),
                b: self.operand(b),
            },
            Op::One {
                fun,
                width,
                a,
                strict,
            } => Op::One {
                fun,
                width,
                a: self.operand(a),
                strict,
            },
            Op::Over { over, width, a, b } => Op::Over {
                over,
                width,
                a: self.operand(a),
                b: self.operand(b),
            },
            Op::Part { width, pair, index } => Op::Part {
                width,
                pair: self.value(pair),
                index,
            },
            Op::Assume { c } => Op::Assume { c: self.operand(c) },
            Op::Call { width, call } => Op::Call {
                width,
                call: self.calls.place(call),
            },
        }
    }

    fn defined(&self, value: Option<ValueId>) -> Option<ValueId>
        ensures { result ≡ option_map (renamed_value self.now) value }
    {
        match value {
            Some(v) => Some(self.value(v)),
            None => None,
        }
    }

    fn inst(&self, inst: &Inst) -> Inst
        ensures { result ≡ renamed_inst self.now inst.now }
    {
        Inst {
            result: self.defined(inst.result),
            op: self.op(&inst.op),
        }
    }

    fn insts(&self, alloc: Global, insts: &[Inst]) -> Result<Items<Inst>, AllocError>
        ensures { IfOk result (λ all. all ≡ map (renamed_inst self.now) insts.now) }
    {
        let mut all = Vec::new(alloc);
        'each: for inst in insts {
            all.push(self.inst(inst))?;
        }
        Ok(Items(all))
    }

    fn entries(
        &self,
        alloc: Global,
        entries: &[(Operand, BlockId)],
    ) -> Result<Few<(Operand, BlockId)>, AllocError>
        ensures { IfOk result (λ all. all ≡ map (renamed_entry self.now) entries.now) }
    {
        let mut all: SmallVec<(Operand, BlockId), 4> = SmallVec::new(alloc);
        'each: for entry in entries {
            all.push((self.operand(entry.0), self.target(entry.1)))?;
        }
        Ok(Few(all))
    }

    fn phis(&self, alloc: Global, phis: &[Phi]) -> Result<Items<Phi>, AllocError>
        ensures { IfOk result (λ all. all ≡ map (renamed_phi self.now) phis.now) }
    {
        let mut all = Vec::new(alloc);
        'each: for phi in phis {
            let entries = self.entries(alloc, phi.entries.as_slice())?;
            all.push(Phi {
                result: self.value(phi.result),
                width: phi.width,
                entries,
            })?;
        }
        Ok(Items(all))
    }

    fn cases(
        &self,
        alloc: Global,
        cases: &[(u128, BlockId)],
    ) -> Result<Few<(u128, BlockId)>, AllocError>
        ensures { IfOk result (λ all. all ≡ map (renamed_case self.now) cases.now) }
    {
        let mut all: SmallVec<(u128, BlockId), 4> = SmallVec::new(alloc);
        'each: for case in cases {
            all.push((case.0, self.target(case.1)))?;
        }
        Ok(Few(all))
    }

    fn term(&self, alloc: Global, term: &Term) -> Result<Term, AllocError>
        ensures { IfOk result (λ t. t ≡ renamed_term self.now term.now) }
    {
        Ok(match term {
            Term::Ret { width, a } => Term::Ret {
                width: *width,
                a: self.operand(*a),
            },
            Term::Br(to) => Term::Br(self.target(*to)),
            Term::CondBr { c, yes, no } => Term::CondBr {
                c: self.operand(*c),
                yes: self.target(*yes),
                no: self.target(*no),
            },
            Term::Switch {
                width,
                on,
                other,
                cases,
            } => Term::Switch {
                width: *width,
                on: self.operand(*on),
                other: self.target(*other),
                cases: self.cases(alloc, cases.as_slice())?,
            },
            Term::Unreachable => Term::Unreachable,
        })
    }

    /// A block with its new numbers.
    pub(crate) fn block(&self, alloc: Global, block: &Block) -> Result<Block, AllocError>
        ensures { IfOk result (λ b. b ≡ renamed_block self.now block.now) }
    {
        Ok(Block {
            name: copied_name(alloc, &block.name)?,
            phis: self.phis(alloc, block.phis.as_slice())?,
            insts: self.insts(alloc, block.insts.as_slice())?,
            term: self.term(alloc, &block.term)?,
        })
    }

    /// Parameters with their new numbers.
    pub(crate) fn params(&self, alloc: Global, params: &[Param]) -> Result<Items<Param>, AllocError>
        ensures { IfOk result (λ all. all ≡ map (renamed_param self.now) params.now) }
    {
        let mut all = Vec::new(alloc);
        'each: for param in params {
            let words = copied_words(alloc, &param.words)?;
            all.push(Param {
                value: self.value(param.value),
                words,
            })?;
        }
        Ok(Items(all))
    }

    fn args(&self, alloc: Global, args: &[CallArg]) -> Result<Items<CallArg>, AllocError>
        ensures { IfOk result (λ all. all ≡ map (renamed_argument self.now) args.now) }
    {
        let mut all = Vec::new(alloc);
        'each: for arg in args {
            let words = copied_words(alloc, &arg.words)?;
            all.push(CallArg {
                width: arg.width,
                words,
                value: self.operand(arg.value),
            })?;
        }
        Ok(Items(all))
    }

    /// A call with the new numbers of its arguments.
    pub(crate) fn call(&self, alloc: Global, call: &CallOp) -> Result<CallOp, AllocError>
        ensures { IfOk result (λ c. c ≡ renamed_call self.now call.now) }
    {
        Ok(CallOp {
            callee: call.callee.copied(alloc)?,
            words: copied_words(alloc, &call.words)?,
            args: self.args(alloc, call.args.as_slice())?,
        })
    }
}
