//! What a state knows of operands, and what operations make of it.

ghost use Rattle.std.specs.Prelude.{◌≡◌};
ghost use Rattle.vfa_ir.specs.Printable.{op_type, PrintableOp};
ghost use Rattle.vfa_ir.specs.Typed.{TypedOp};
ghost use Rattle.vfa_ir.specs.declared.operations.Operand.TheVariants.{Literal, Value};
ghost use Rattle.vfa_mean.specs.Meaning.{operand_a, operand_b, operand_c};
ghost use Rattle.vfa_mean.specs.Operands.{IsOperation};
ghost use Rattle.vfa_values.specs.Conditions.{IsOf, width_of};
ghost use Rattle.vfa_cond.specs.Conditions.{AreFacts};
ghost use Rattle.vfa_cond.specs.States.{known};
ghost use Rattle.vfa_walk.specs.Ready.{IsOperandOf};
ghost use Rattle.vfa_walk.specs.Stepping.{fact_of, sides_type, third_type, transferred};

use vfa_cond::State;
use vfa_ir::{Function, Op, Operand, Ty, ValueId};
use vfa_values::Values;

/// The type of the operands a and b of an operation; `i1` for one that has none.
fn sides_type(op: &Op) -> Ty
    ensures { result ≡ sides_type op.now }
{
    match *op {
        Op::Bin { width, .. } => Ty::Int(width),
        Op::Icmp { width, .. } => Ty::Int(width),
        Op::Select { width, .. } => Ty::Int(width),
        Op::Cast { from, .. } => Ty::Int(from),
        Op::Freeze { width, .. } => Ty::Int(width),
        Op::Two { width, .. } => Ty::Int(width),
        Op::One { width, .. } => Ty::Int(width),
        Op::Over { width, .. } => Ty::Int(width),
        Op::Part { .. } => Ty::Int(1),
        Op::Assume { .. } => Ty::Int(1),
        Op::Call { .. } => Ty::Int(1),
    }
}

/// The type of the operand c.
fn third_type(op: &Op) -> Ty
    ensures { result ≡ third_type op.now }
{
    match *op {
        Op::Part { width, .. } => Ty::Pair(width),
        _ => Ty::Int(1),
    }
}

/// The operand a; `poison` where there is none.
fn operand_a(op: &Op) -> Operand
    ensures { result ≡ operand_a op.now }
{
    match *op {
        Op::Bin { a, .. } => a,
        Op::Icmp { a, .. } => a,
        Op::Select { a, .. } => a,
        Op::Cast { a, .. } => a,
        Op::Freeze { a, .. } => a,
        Op::Two { a, .. } => a,
        Op::One { a, .. } => a,
        Op::Over { a, .. } => a,
        Op::Part { .. } => Operand::Poison,
        Op::Assume { .. } => Operand::Poison,
        Op::Call { .. } => Operand::Poison,
    }
}

/// The operand b; `poison` where there is none.
fn operand_b(op: &Op) -> Operand
    ensures { result ≡ operand_b op.now }
{
    match *op {
        Op::Bin { b, .. } => b,
        Op::Icmp { b, .. } => b,
        Op::Select { b, .. } => b,
        Op::Two { b, .. } => b,
        Op::Over { b, .. } => b,
        Op::Cast { .. } => Operand::Poison,
        Op::Freeze { .. } => Operand::Poison,
        Op::One { .. } => Operand::Poison,
        Op::Part { .. } => Operand::Poison,
        Op::Assume { .. } => Operand::Poison,
        Op::Call { .. } => Operand::Poison,
    }
}

/// The operand c, a condition or a pair; `poison` where there is none.
fn operand_c(op: &Op) -> Operand
    ensures { result ≡ operand_c op.now }
{
    match *op {
        Op::Select { c, .. } => c,
        Op::Part { pair, .. } => Operand::Value(pair),
        Op::Assume { c } => c,
        _ => Operand::Poison,
    }
}

/// What a state knows of a name of the type.
fn name_fact<V: Values>(f: &Function, state: &State<V>, of_type: Ty, v: ValueId) -> V
    requires operand { IsOperandOf f.now of_type (Value v) }
    requires facts { AreFacts V.ty V.proper f.now (known state.now) }
    ensures fact { result ≡ fact_of V.answers (known state.now) of_type (Value v) }
    ensures of_type { IsOf V.ty V.proper of_type result }
{
    match state.fact(v) {
        Some(fact) => fact,
        None => V::any(of_type, false),
    }
}

/// What is known of a literal of the type.
fn literal_fact<V: Values>(f: &Function, of_type: Ty, bits: u128) -> V
    requires { IsOperandOf f.now of_type (Literal bits) }
    ensures fact { result ≡ V.answers.literal (width_of of_type) bits }
    ensures of_type { IsOf V.ty V.proper of_type result }
{
    let _ = f;
    match of_type {
        Ty::Int(width) => V::literal(width, bits),
        Ty::Pair(_) => unreachable!(),
    }
}

/// What a state knows of an operand of the type.
pub(crate) fn fact_of<V: Values>(f: &Function, state: &State<V>, of_type: Ty, operand: Operand) -> V
    requires operand { IsOperandOf f.now of_type operand }
    requires facts { AreFacts V.ty V.proper f.now (known state.now) }
    ensures fact { result ≡ fact_of V.answers (known state.now) of_type operand }
    ensures of_type { IsOf V.ty V.proper of_type result }
{
    match operand {
        Operand::Value(v) => name_fact(f, state, of_type, v),
        Operand::Literal(bits) => literal_fact(f, of_type, bits),
        Operand::Poison => V::poison(of_type),
    }
}

/// What an operation, no call, makes of what a state knows of its operands.
pub(crate) fn transfer<V: Values>(f: &Function, state: &State<V>, op: &Op) -> V
    requires operation { IsOperation op.now }
    requires ranges { PrintableOp f.now op.now }
    requires operands { TypedOp f.now op.now }
    requires facts { AreFacts V.ty V.proper f.now (known state.now) }
    ensures fact { result ≡ transferred V.answers op.now (known state.now) }
    ensures of_type { IsOf V.ty V.proper (op_type op.now) result }
{
    let sides = sides_type(op);
    let a = fact_of(f, state, sides, operand_a(op));
    let b = fact_of(f, state, sides, operand_b(op));
    let c = fact_of(f, state, third_type(op), operand_c(op));
    V::transfer(op, &a, &b, &c)
}
