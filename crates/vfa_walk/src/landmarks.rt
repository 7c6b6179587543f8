//! The landmarks of a width.

ghost use Rattle.std.specs.Prelude.{◌≡◌, ◌++◌, IfOk, [], ◌∷◌, map, flat_map, nat_eq, if◌then◌else◌, slice_get};
ghost use Rattle.std.specs.Option.{option_map};
ghost use Rattle.vfa_ir.specs.declared.operations.Operand.{Operand};
ghost use Rattle.vfa_ir.specs.declared.operations.Ty.{Ty};
ghost use Rattle.vfa_ir.specs.Operands.{arguments_of, pair_of_width};
ghost use Rattle.vfa_ir.specs.Printable.{IsPrintable};
ghost use Rattle.vfa_word.specs.Numbers.{IsWidth};
ghost use Rattle.vfa_walk.specs.Landmarks.{literal_of, typed_literal, phi_literals, op_literals, term_literals, block_literals, literals, ends_of, landmarks};

use std::alloc::{AllocError, Global};
use vfa_ir::{Block, BlockId, CallOp, Function, Inst, Op, Operand, Phi, Term};

/// Adds an operand of the width `own`, where it is a literal of the width.
fn add_operand(
    marks: &mut Vec<u128>,
    width: u32,
    own: u32,
    operand: Operand,
) -> Result<(), AllocError>
    ensures { IfOk result (λ _. marks.new.items ≡ marks.old.items ++ literal_of width own operand) }
{
    if own != width {
        return Ok(());
    }
    if let Operand::Literal(bits) = operand {
        marks.push(bits)?;
    }
    Ok(())
}

fn add_phi(marks: &mut Vec<u128>, width: u32, phi: &Phi) -> Result<(), AllocError>
    ensures { IfOk result (λ _. marks.new.items ≡ marks.old.items ++ phi_literals width phi.now) }
{
    'entries: for entry in phi.entries.as_slice() {
        add_operand(marks, width, phi.width, entry.0)?;
    }
    Ok(())
}

fn add_phis(marks: &mut Vec<u128>, width: u32, phis: &[Phi]) -> Result<(), AllocError>
    ensures { IfOk result (λ _. marks.new.items ≡ marks.old.items ++ flat_map (phi_literals width) phis.now) }
{
    'phis: for phi in phis {
        add_phi(marks, width, phi)?;
    }
    Ok(())
}

fn add_arguments(marks: &mut Vec<u128>, width: u32, call: &CallOp) -> Result<(), AllocError>
    ensures { IfOk result (λ _. marks.new.items ≡ marks.old.items ++ flat_map (λ a. literal_of width a.width a.value) call.now.args) }
{
    'arguments: for argument in call.args.as_slice() {
        add_operand(marks, width, argument.width, argument.value)?;
    }
    Ok(())
}

/// The call of this place.
fn find_call(f: &Function, call: u32) -> Option<&CallOp>
    ensures { option_map (λ c. c.now) result ≡ slice_get f.now.calls call }
{
    f.calls.as_slice().get(call as usize)
}

#[tactic(auto, using(crate::proofs::Marking::arguments_same, crate::proofs::Marking::append_none))]
fn add_found(marks: &mut Vec<u128>, width: u32, call: Option<&CallOp>) -> Result<(), AllocError>
    ensures { IfOk result (λ _. marks.new.items ≡ marks.old.items ++ flat_map (typed_literal width) (arguments_of (option_map (λ c. c.now) call.entry))) }
{
    let Some(call) = call else {
        return Ok(());
    };
    add_arguments(marks, width, call)?;
    Ok(())
}

fn add_call(marks: &mut Vec<u128>, f: &Function, width: u32, call: u32) -> Result<(), AllocError>
    ensures { IfOk result (λ _. marks.new.items ≡ marks.old.items ++ flat_map (typed_literal width) (arguments_of (slice_get f.now.calls call))) }
{
    let found = find_call(f, call);
    add_found(marks, width, found)?;
    Ok(())
}

fn add_one(marks: &mut Vec<u128>, width: u32, own: u32, a: Operand) -> Result<(), AllocError>
    ensures { IfOk result (λ _. marks.new.items ≡ marks.old.items ++ flat_map (typed_literal width) ((Ty.Int own, a) ∷ [])) }
{
    add_operand(marks, width, own, a)
}

fn add_two(
    marks: &mut Vec<u128>,
    width: u32,
    own: u32,
    a: Operand,
    b: Operand,
) -> Result<(), AllocError>
    ensures { IfOk result (λ _. marks.new.items ≡ marks.old.items ++ flat_map (typed_literal width) (pair_of_width own a b)) }
{
    add_operand(marks, width, own, a)?;
    add_operand(marks, width, own, b)
}

fn add_chosen(
    marks: &mut Vec<u128>,
    width: u32,
    own: u32,
    c: Operand,
    a: Operand,
    b: Operand,
) -> Result<(), AllocError>
    ensures { IfOk result (λ _. marks.new.items ≡ marks.old.items ++ flat_map (typed_literal width) ((Ty.Int 1, c) ∷ pair_of_width own a b)) }
{
    add_operand(marks, width, 1, c)?;
    add_two(marks, width, own, a, b)
}

fn add_op(marks: &mut Vec<u128>, f: &Function, width: u32, op: &Op) -> Result<(), AllocError>
    ensures { IfOk result (λ _. marks.new.items ≡ marks.old.items ++ op_literals f.now width op.now) }
{
    match *op {
        Op::Bin {
            width: own,
            a,
            b,
            ..
        } => add_two(marks, width, own, a, b),
        Op::Icmp {
            width: own,
            a,
            b,
            ..
        } => add_two(marks, width, own, a, b),
        Op::Select {
            width: own,
            c,
            a,
            b,
        } => add_chosen(marks, width, own, c, a, b),
        Op::Cast { from, a, .. } => add_one(marks, width, from, a),
        Op::Freeze { width: own, a } => add_one(marks, width, own, a),
        Op::Two {
            width: own,
            a,
            b,
            ..
        } => add_two(marks, width, own, a, b),
        Op::One { width: own, a, .. } => add_one(marks, width, own, a),
        Op::Over {
            width: own,
            a,
            b,
            ..
        } => add_two(marks, width, own, a, b),
        Op::Part { .. } => Ok(()),
        Op::Assume { c } => add_one(marks, width, 1, c),
        Op::Call { call, .. } => add_call(marks, f, width, call),
    }
}

fn add_insts(
    marks: &mut Vec<u128>,
    f: &Function,
    width: u32,
    insts: &[Inst],
) -> Result<(), AllocError>
    ensures { IfOk result (λ _. marks.new.items ≡ marks.old.items ++ flat_map (λ i. op_literals f.now width i.op) insts.now) }
{
    'insts: for inst in insts {
        add_op(marks, f, width, &inst.op)?;
    }
    Ok(())
}

fn add_cases(
    marks: &mut Vec<u128>,
    width: u32,
    own: u32,
    cases: &[(u128, BlockId)],
) -> Result<(), AllocError>
    ensures { IfOk result (λ _. marks.new.items ≡ marks.old.items ++ flat_map (λ c. literal_of width own (Operand.Literal c.0)) cases.now) }
{
    'cases: for case in cases {
        add_operand(marks, width, own, Operand::Literal(case.0))?;
    }
    Ok(())
}

fn add_switch(
    marks: &mut Vec<u128>,
    width: u32,
    own: u32,
    on: Operand,
    cases: &[(u128, BlockId)],
) -> Result<(), AllocError>
    ensures { IfOk result (λ _. marks.new.items ≡ marks.old.items ++ (literal_of width own on ++ (if nat_eq own width then map (λ c. c.0) cases.now else []))) }
{
    add_operand(marks, width, own, on)?;
    add_cases(marks, width, own, cases)?;
    Ok(())
}

fn add_term(marks: &mut Vec<u128>, width: u32, term: &Term) -> Result<(), AllocError>
    ensures { IfOk result (λ _. marks.new.items ≡ marks.old.items ++ term_literals width term.now) }
{
    match term {
        Term::Ret { width: own, a } => add_operand(marks, width, *own, *a),
        Term::Br(_) | Term::Unreachable => Ok(()),
        Term::CondBr { c, .. } => add_operand(marks, width, 1, *c),
        Term::Switch {
            width: own,
            on,
            cases,
            ..
        } => add_switch(marks, width, *own, *on, cases.as_slice()),
    }
}

fn add_block(
    marks: &mut Vec<u128>,
    f: &Function,
    width: u32,
    block: &Block,
) -> Result<(), AllocError>
    ensures { IfOk result (λ _. marks.new.items ≡ marks.old.items ++ block_literals f.now width block.now) }
{
    add_phis(marks, width, block.phis.as_slice())?;
    add_insts(marks, f, width, block.insts.as_slice())?;
    add_term(marks, width, &block.term)?;
    Ok(())
}

/// Adds the literals of the width in the function, in text order.
pub(crate) fn add_literals(
    marks: &mut Vec<u128>,
    f: &Function,
    width: u32,
) -> Result<(), AllocError>
    ensures { IfOk result (λ _. marks.new.items ≡ marks.old.items ++ literals f.now width) }
{
    'each: for block in f.blocks.as_slice() {
        add_block(marks, f, width, block)?;
    }
    Ok(())
}
