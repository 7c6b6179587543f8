//! The names that a block uses.

ghost use Rattle.std.specs.Prelude.{◌≡◌, ◌++◌, [], ◌∷◌, false, List, map, flat_map, slice_index_or, slice_get, IfOk, OnOk, Option, None, Some};
ghost use Rattle.vfa_ir.specs.Defined.{operand_names, op_names, term_names};
ghost use Rattle.vfa_ir.specs.Printable.{block_ids, inst_ids};
ghost use Rattle.vfa_report.specs.Met.{Met, MarksMore, HasMet};
ghost use Rattle.vfa_report.specs.Uses.{names_in as names_used_in};

use std::alloc::{AllocError, Global};
use std::marker::Model;
use vfa_ir::{Block, CallArg, Function, Inst, Op, Operand, Phi, Term, ValueId};

/// Names as they are met: a mark for each that was met, and those that were met for the first time, in order.
#[derive(Drop)]
struct Uses {
    marks: Vec<bool>,
    names: Vec<ValueId>,
}

impl Model for Uses {
    ghost Value = { Met };

    ghost view = { λ u. record { marks = u.marks.items; names = map (λ v. v.0) u.names.items } };
}

#[tactic(auto, using(crate::proofs::FirstUses::met_none, crate::proofs::FirstUses::marks_none))]
impl Uses {
    fn new(alloc: Global) -> Uses
        ensures { result ≡ record { marks = []; names = [] } }
    {
        Uses {
            marks: Vec::new(alloc),
            names: Vec::new(alloc),
        }
    }

    fn into_names(self) -> Vec<ValueId>
        ensures { map (λ v. v.0) result.items ≡ self.names }
    {
        self.names
    }

    fn is_marked(&self, v: ValueId) -> bool
        ensures { result ≡ slice_index_or self.now.marks v.0 false }
    {
        match self.marks.get(v.0 as usize) {
            Some(marked) => *marked,
            None => false,
        }
    }

    /// Marks a name.
    fn mark(&mut self, v: ValueId) -> Result<(), AllocError>
        ensures marks { OnOk result (MarksMore self.old.marks self.new.marks (v.0 ∷ [])) }
        ensures names { OnOk result (self.new.names ≡ self.old.names) }
    {
        let place = v.0 as usize;
        if place >= self.marks.len() {
            self.marks.resize(place + 1, false)?;
        }
        self.marks[place] = true;
        Ok(())
    }

    /// Puts a name last.
    fn put(&mut self, v: ValueId) -> Result<(), AllocError>
        ensures marks { OnOk result (self.new.marks ≡ self.old.marks) }
        ensures names { OnOk result (self.new.names ≡ self.old.names ++ v.0 ∷ []) }
    {
        self.names.push(v)?;
        Ok(())
    }

    /// Meets a name.
    fn name(&mut self, v: ValueId) -> Result<(), AllocError>
        ensures { OnOk result (HasMet self.old self.new (v.0 ∷ [])) }
    {
        if self.is_marked(v) {
            return Ok(());
        }
        self.mark(v)?;
        self.put(v)?;
        Ok(())
    }

    fn operand(&mut self, x: Operand) -> Result<(), AllocError>
        ensures { OnOk result (HasMet self.old self.new (operand_names x)) }
    {
        match x {
            Operand::Value(v) => self.name(v),
            Operand::Literal(_) => Ok(()),
            Operand::Poison => Ok(()),
        }
    }

    fn both(&mut self, a: Operand, b: Operand) -> Result<(), AllocError>
        ensures { OnOk result (HasMet self.old self.new (operand_names a ++ operand_names b)) }
    {
        self.operand(a)?;
        self.operand(b)?;
        Ok(())
    }

    fn three(&mut self, c: Operand, a: Operand, b: Operand) -> Result<(), AllocError>
        ensures { OnOk result (HasMet self.old self.new (operand_names c ++ (operand_names a ++ operand_names b))) }
    {
        self.operand(c)?;
        self.both(a, b)?;
        Ok(())
    }

    fn arguments(&mut self, arguments: &[CallArg]) -> Result<(), AllocError>
        ensures { OnOk result (HasMet self.old self.new (flat_map (λ a. operand_names a.value) arguments.now)) }
    {
        'arguments: for argument in arguments {
            self.operand(argument.value)?;
        }
        Ok(())
    }

    fn call(&mut self, f: &Function, call: u32) -> Result<(), AllocError>
        ensures { OnOk result (HasMet self.old self.new
            (elim (slice_get f.now.calls call) [ None ↦ [] | Some c ↦ flat_map (λ a. operand_names a.value) c.args ])) }
    {
        match f.calls.as_slice().get(call as usize) {
            Some(call) => self.arguments(call.args.as_slice()),
            None => Ok(()),
        }
    }

    fn operation(&mut self, f: &Function, op: &Op) -> Result<(), AllocError>
        ensures { OnOk result (HasMet self.old self.new (op_names f.now op.now)) }
    {
        match *op {
            Op::Bin { a, b, .. } => self.both(a, b),
            Op::Icmp { a, b, .. } => self.both(a, b),
            Op::Select { c, a, b, .. } => self.three(c, a, b),
            Op::Cast { a, .. } => self.operand(a),
            Op::Freeze { a, .. } => self.operand(a),
            Op::Two { a, b, .. } => self.both(a, b),
            Op::One { a, .. } => self.operand(a),
            Op::Over { a, b, .. } => self.both(a, b),
            Op::Part { pair, .. } => self.name(pair),
            Op::Assume { c } => self.operand(c),
            Op::Call { call, .. } => self.call(f, call),
        }
    }

    fn operations(&mut self, f: &Function, insts: &[Inst]) -> Result<(), AllocError>
        ensures { OnOk result (HasMet self.old self.new (flat_map (λ i. op_names f.now i.op) insts.now)) }
    {
        'insts: for inst in insts {
            self.operation(f, &inst.op)?;
        }
        Ok(())
    }

    fn terminator(&mut self, term: &Term) -> Result<(), AllocError>
        ensures { OnOk result (HasMet self.old self.new (term_names term.now)) }
    {
        match term {
            Term::Ret { a, .. } => self.operand(*a),
            Term::Br(_) => Ok(()),
            Term::CondBr { c, .. } => self.operand(*c),
            Term::Switch { on, .. } => self.operand(*on),
            Term::Unreachable => Ok(()),
        }
    }

    /// Marks the results of phis.
    fn mark_phis(&mut self, phis: &[Phi]) -> Result<(), AllocError>
        ensures marks { OnOk result (MarksMore self.old.marks self.new.marks (map (λ p. p.result.0) phis.now)) }
        ensures names { OnOk result (self.new.names ≡ self.old.names) }
    {
        'phis: for phi in phis {
            self.mark(phi.result)?;
        }
        Ok(())
    }

    /// Marks the result of an instruction, if it has one.
    fn mark_result(&mut self, inst: &Inst) -> Result<(), AllocError>
        ensures marks { OnOk result (MarksMore self.old.marks self.new.marks (inst_ids (inst.now ∷ []))) }
        ensures names { OnOk result (self.new.names ≡ self.old.names) }
    {
        match inst.result {
            Some(v) => self.mark(v),
            None => Ok(()),
        }
    }

    /// Marks the results of instructions.
    fn mark_results(&mut self, insts: &[Inst]) -> Result<(), AllocError>
        ensures marks { OnOk result (MarksMore self.old.marks self.new.marks (inst_ids insts.now)) }
        ensures names { OnOk result (self.new.names ≡ self.old.names) }
    {
        'insts: for inst in insts {
            self.mark_result(inst)?;
        }
        Ok(())
    }
}

/// The names that the instructions of a block, its phis aside, and its terminator use and the block does not define, each once,
/// in the order of their first use.
///
/// Of a block with `%a = add i8 %x, %y`, `%b = add i8 %a, %x` and `ret i8 %b` they are `%x` and `%y`.
pub fn names_in(alloc: Global, f: &Function, block: &Block) -> Result<Vec<ValueId>, AllocError>
    ensures { IfOk result (λ names. map (λ v. v.0) names.items ≡ names_used_in f.now block.now) }
{
    let mut uses = Uses::new(alloc);
    uses.mark_phis(block.phis.as_slice())?;
    uses.mark_results(block.insts.as_slice())?;
    uses.operations(f, block.insts.as_slice())?;
    uses.terminator(&block.term)?;
    Ok(uses.into_names())
}
