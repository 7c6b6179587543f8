//! What a state of facts knows of operands, and what the rules make of an instruction by it.

ghost use Rattle.std.specs.Prelude.{◌≡◌, ◌-◌, ◌^◌, Some, true};
ghost use Rattle.vfa_ir.specs.Printable.{PrintableOp};
ghost use Rattle.vfa_ir.specs.Typed.{TypedOp};
ghost use Rattle.vfa_ir.specs.declared.operations.Ty.TheVariants.{Int};
ghost use Rattle.vfa_ir.specs.declared.operations.Operand.TheVariants.{Literal, Value};
ghost use Rattle.vfa_word.specs.Numbers.{IsWidth};
ghost use Rattle.vfa_values.specs.Conditions.{IsOf, width_of};
ghost use Rattle.vfa_cond.specs.Conditions.{AreFacts, IsNumberOperand};
ghost use Rattle.vfa_cond.specs.States.{known};
ghost use Rattle.vfa_walk.specs.Ready.{IsOperandOf, IsReady, IsReadyInst};
ghost use Rattle.vfa_walk.specs.Stepping.{fact_of, is_division};
ghost use Rattle.vfa_xfer.specs.AnyFacts.{fact_type, IsAnyFact};
ghost use Rattle.vfa_xfer.specs.Transfers.{fact_answers};
ghost use Rattle.vfa_rules.specs.Facts.{number_cell};
ghost use Rattle.vfa_rewrite.specs.Uses.{AreUses};
ghost use Rattle.vfa_rewrite.specs.ByFacts.{change_in, is_signed_division, may_be_undefined_in, may_divide_by_zero, may_overflow, undefined_by};

use crate::asked::operands_asked;
use crate::uses::is_result_used;
use vfa_cond::State;
use vfa_fact::{Cell, Parts};
use vfa_ir::{Bin, Function, Inst, Op, Operand, Ty, ValueId};
use vfa_rules::{Change, rule_with};
use vfa_values::Values;
use vfa_xfer::AnyFact;

/// What a state knows of a name of the type.
fn name_fact(f: &Function, state: &State<AnyFact>, of_type: Ty, v: ValueId) -> AnyFact
    requires operand { IsOperandOf f.now of_type (Value v) }
    requires facts { AreFacts fact_type IsAnyFact f.now (known state.now) }
    ensures fact { result ≡ fact_of fact_answers (known state.now) of_type (Value v) }
    ensures of_type { IsOf fact_type IsAnyFact of_type result }
{
    let _ = f;
    match state.fact(v) {
        Some(fact) => fact,
        None => AnyFact::any(of_type, false),
    }
}

/// What is known of a literal of the type.
fn literal_fact(f: &Function, of_type: Ty, bits: u128) -> AnyFact
    requires { IsOperandOf f.now of_type (Literal bits) }
    ensures fact { result ≡ fact_answers.literal (width_of of_type) bits }
    ensures of_type { IsOf fact_type IsAnyFact of_type result }
{
    let _ = f;
    match of_type {
        Ty::Int(width) => AnyFact::literal(width, bits),
        Ty::Pair(_) => unreachable!(),
    }
}

/// What a state knows of an operand of the type.
pub(crate) fn fact_of(
    f: &Function,
    state: &State<AnyFact>,
    of_type: Ty,
    operand: Operand,
) -> AnyFact
    requires operand { IsOperandOf f.now of_type operand }
    requires facts { AreFacts fact_type IsAnyFact f.now (known state.now) }
    ensures fact { result ≡ fact_of fact_answers (known state.now) of_type operand }
    ensures of_type { IsOf fact_type IsAnyFact of_type result }
{
    match operand {
        Operand::Value(v) => name_fact(f, state, of_type, v),
        Operand::Literal(bits) => literal_fact(f, of_type, bits),
        Operand::Poison => AnyFact::poison(of_type),
    }
}

/// What the rules make of an instruction by the state before it, where the names that are used are marked.
pub(crate) fn change_by(f: &Function, used: &[bool], state: &State<AnyFact>, inst: &Inst) -> Change
    requires used { AreUses f.now used.now }
    requires ready { IsReady f.now }
    requires inst { IsReadyInst f.now inst.now }
    requires facts { AreFacts fact_type IsAnyFact f.now (known state.now) }
    ensures { result ≡ change_in f.now (Some (known state.now)) inst.now }
{
    let asked = operands_asked(f, &inst.op);
    let a = fact_of(f, state, asked.sides, asked.a);
    let b = fact_of(f, state, asked.sides, asked.b);
    let c = fact_of(f, state, asked.third, asked.c);
    let is_used = is_result_used(used, inst);
    rule_with(&inst.op, asked.call, is_used, &a.parts, &b.parts, &c.parts)
}

/// The cell of a number; of a pair that of its number.
pub(crate) fn number_cell(parts: &Parts) -> &Cell
    ensures { result.now ≡ number_cell parts.now }
{
    match parts {
        Parts::One(cell) | Parts::Two(cell, _) => cell,
    }
}

/// The greatest number of the width.
fn most_of(width: u32) -> u128
    requires { IsWidth width }
    ensures { result ≡ 2 ^ width - 1 }
{
    u128::MAX >> (128 - width)
}

/// Whether the divisor may be poison or 0.
fn may_divide_by_zero(divisor: &Cell) -> bool
    ensures { result ≡ may_divide_by_zero divisor.now }
{
    if !divisor.never_poison {
        return true;
    }
    divisor.has(0)
}

/// Whether the divisor may be -1, and the dividend poison or the least signed value.
fn may_overflow(width: u32, dividend: &Cell, divisor: &Cell) -> bool
    requires { IsWidth width }
    ensures { result ≡ may_overflow width dividend.now divisor.now }
{
    if !divisor.has(most_of(width)) {
        return false;
    }
    if !dividend.never_poison {
        return true;
    }
    dividend.has(1 << (width - 1))
}

fn is_division(bin: Bin) -> bool
    ensures { result ≡ is_division bin }
{
    match bin {
        Bin::Udiv | Bin::Sdiv | Bin::Urem | Bin::Srem => true,
        _ => false,
    }
}

fn is_signed_division(bin: Bin) -> bool
    ensures { result ≡ is_signed_division bin }
{
    match bin {
        Bin::Sdiv | Bin::Srem => true,
        _ => false,
    }
}

/// Whether a division of these numbers may be undefined.
fn division_by(bin: Bin, width: u32, dividend: &Cell, divisor: &Cell) -> bool
    requires width { IsWidth width }
    requires division { is_division bin ≡ true }
    ensures { result ≡ undefined_by bin width dividend.now divisor.now }
{
    if may_divide_by_zero(divisor) {
        return true;
    }
    if !is_signed_division(bin) {
        return false;
    }
    may_overflow(width, dividend, divisor)
}

/// Whether a binary operation may be undefined.
fn binary_by(
    f: &Function,
    state: &State<AnyFact>,
    bin: Bin,
    width: u32,
    a: Operand,
    b: Operand,
) -> bool
    requires first { IsNumberOperand f.now width a }
    requires second { IsNumberOperand f.now width b }
    requires facts { AreFacts fact_type IsAnyFact f.now (known state.now) }
    ensures { result ≡ undefined_by bin width
        (number_cell (fact_of fact_answers (known state.now) (Int width) a).parts)
        (number_cell (fact_of fact_answers (known state.now) (Int width) b).parts) }
{
    if !is_division(bin) {
        return false;
    }
    let dividend = fact_of(f, state, Ty::Int(width), a);
    let divisor = fact_of(f, state, Ty::Int(width), b);
    division_by(
        bin,
        width,
        number_cell(&dividend.parts),
        number_cell(&divisor.parts),
    )
}

/// Whether an operation, a division or remainder, may be undefined by the state before it.
pub(crate) fn may_be_undefined(f: &Function, state: &State<AnyFact>, op: &Op) -> bool
    requires ranges { PrintableOp f.now op.now }
    requires operands { TypedOp f.now op.now }
    requires facts { AreFacts fact_type IsAnyFact f.now (known state.now) }
    ensures { result ≡ may_be_undefined_in (Some (known state.now)) op.now }
{
    match *op {
        Op::Bin {
            bin,
            width,
            a,
            b,
            ..
        } => binary_by(f, state, bin, width, a, b),
        _ => false,
    }
}
