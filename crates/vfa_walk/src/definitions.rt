//! Names that get new values, and the equations that end then.

ghost use Rattle.std.specs.Prelude.{◌≡◌, ◌&&◌, ◌++◌, [], ◌∷◌, ℕ, false, true, not, nat_eq};
ghost use Rattle.std.specs.List.{list_any};
ghost use Rattle.vfa_ir.specs.Defined.{op_names, operand_names};
ghost use Rattle.vfa_ir.specs.Printable.{op_type, PrintableOp};
ghost use Rattle.vfa_ir.specs.Typed.{TypedOp};
ghost use Rattle.vfa_ir.specs.Words.{is_in};
ghost use Rattle.vfa_ir.specs.declared.operations.Op.{Op};
ghost use Rattle.vfa_mean.specs.Moments.{is_call};
ghost use Rattle.vfa_mean.specs.Outcomes.{has_noundef};
ghost use Rattle.vfa_values.specs.Conditions.{IsOf, IsType};
ghost use Rattle.vfa_cond.specs.Conditions.{AreFacts, name_type};
ghost use Rattle.vfa_cond.specs.States.{known, KeepsRoom};
ghost use Rattle.vfa_walk.specs.Kept.{IsStateOf};
ghost use Rattle.vfa_walk.specs.Ready.{IsNameOf};
ghost use Rattle.vfa_walk.specs.Stepping.{defines_by, ended, promises, redefined, result_fact, with_result};

use crate::operands::transfer;
use vfa_cond::State;
use vfa_ir::{Block, Function, Inst, Name, Op, Operand, Ty, ValueId};
use vfa_values::Values;

fn is_name(x: Operand, v: ValueId) -> bool
    ensures { result ≡ is_in v.0 (operand_names x) }
{
    match x {
        Operand::Value(name) => v == name,
        Operand::Literal(_) => false,
        Operand::Poison => false,
    }
}

fn is_either(a: Operand, b: Operand, v: ValueId) -> bool
    ensures { result ≡ is_in v.0 (operand_names a ++ operand_names b) }
{
    if is_name(a, v) {
        return true;
    }
    is_name(b, v)
}

fn is_one_of_three(c: Operand, a: Operand, b: Operand, v: ValueId) -> bool
    ensures { result ≡ is_in v.0 (operand_names c ++ (operand_names a ++ operand_names b)) }
{
    if is_name(c, v) {
        return true;
    }
    is_either(a, b, v)
}

/// Whether an operation, no call, uses the name.
fn uses(f: &Function, op: &Op, v: ValueId) -> bool
    requires { is_call op.now ≡ false }
    ensures { result ≡ is_in v.0 (op_names f.now op.now) }
{
    let _ = f;
    match *op {
        Op::Bin { a, b, .. } => is_either(a, b, v),
        Op::Icmp { a, b, .. } => is_either(a, b, v),
        Op::Select { c, a, b, .. } => is_one_of_three(c, a, b, v),
        Op::Cast { a, .. } => is_name(a, v),
        Op::Freeze { a, .. } => is_name(a, v),
        Op::Two { a, b, .. } => is_either(a, b, v),
        Op::One { a, .. } => is_name(a, v),
        Op::Over { a, b, .. } => is_either(a, b, v),
        Op::Part { pair, .. } => v == pair,
        Op::Assume { c } => is_name(c, v),
        Op::Call { .. } => unreachable!(),
    }
}

fn is_call(op: &Op) -> bool
    ensures { result ≡ is_call op.now }
{
    match *op {
        Op::Call { .. } => true,
        _ => false,
    }
}

/// Ends the equation of a name, if it is live.
fn end_equation<V: Values>(state: &mut State<V>, u: ValueId)
    ensures live { (w : ℕ) → (known state.new).live w ≡ ((known state.old).live w && not (nat_eq u.0 w)) }
    ensures facts { (known state.new).fact ≡ (known state.old).fact }
    ensures room { KeepsRoom state.old state.new }
{
    if state.live(u) {
        state.set_live(u, false);
    }
}

/// Ends the equation that the instruction gives, if it mentions the name.
fn end_by<V: Values>(state: &mut State<V>, f: &Function, inst: &Inst, v: ValueId)
    ensures live { (u : ℕ) → (known state.new).live u ≡ ((known state.old).live u && not (defines_by f.now u v.0 inst.now)) }
    ensures facts { (known state.new).fact ≡ (known state.old).fact }
    ensures room { KeepsRoom state.old state.new }
{
    if is_call(&inst.op) {
        return;
    }
    let Some(u) = inst.result else {
        return;
    };
    if uses(f, &inst.op, v) {
        end_equation(state, u);
    }
}

/// Ends the equations that these instructions give and that mention the name.
fn end_among<V: Values>(state: &mut State<V>, f: &Function, insts: &[Inst], v: ValueId)
    ensures live { (u : ℕ) → (known state.new).live u ≡ ((known state.old).live u && not (list_any (defines_by f.now u v.0) insts.now)) }
    ensures facts { (known state.new).fact ≡ (known state.old).fact }
    ensures room { KeepsRoom state.old state.new }
{
    'insts: for inst in insts {
        end_by(state, f, inst, v);
    }
}

/// Ends the equations that the instructions of a block give and that mention the name.
fn end_in_block<V: Values>(state: &mut State<V>, f: &Function, block: &Block, v: ValueId)
    ensures live { (u : ℕ) → (known state.new).live u ≡ ((known state.old).live u && not (list_any (defines_by f.now u v.0) block.now.insts)) }
    ensures facts { (known state.new).fact ≡ (known state.old).fact }
    ensures room { KeepsRoom state.old state.new }
{
    end_among(state, f, block.insts.as_slice(), v);
}

/// Ends the equations that mention the name.
fn end_mentions<V: Values>(state: &mut State<V>, f: &Function, v: ValueId)
    ensures ended { known state.new ≡ ended f.now v.0 (known state.old) }
    ensures room { KeepsRoom state.old state.new }
{
    'all: for block in f.blocks.as_slice() {
        end_in_block(state, f, block, v);
    }
}

/// Gives a name of the function another value, of which this fact holds.
pub(crate) fn redefine<V: Values>(state: &mut State<V>, f: &Function, v: ValueId, fact: V)
    requires state { IsStateOf V.ty V.proper f.now state.old }
    requires name { IsNameOf f.now (V.ty fact) v }
    requires fact { V.proper fact }
    ensures change { known state.new ≡ redefined f.now v.0 fact (known state.old) }
    ensures state { IsStateOf V.ty V.proper f.now state.new }
{
    end_mentions(state, f, v);
    state.put(v, Some(fact));
}

/// Whether the word `noundef` is among the words.
pub(crate) fn has_noundef(words: &[Name]) -> bool
    ensures { result ≡ has_noundef words.now }
{
    'words: for word in words {
        if word.bytes() == b"noundef".as_slice() {
            return true;
        }
    }
    false
}

/// Whether the words of a call say that its result is never poison.
fn promises(f: &Function, place: u32) -> bool
    ensures { result ≡ promises f.now place }
{
    match f.calls.as_slice().get(place as usize) {
        Some(call) => has_noundef(call.words.as_slice()),
        None => false,
    }
}

/// What is known of the result of an operation.
fn result_fact<V: Values>(state: &State<V>, f: &Function, op: &Op) -> V
    requires ranges { PrintableOp f.now op.now }
    requires operands { TypedOp f.now op.now }
    requires width { IsType (op_type op.now) }
    requires facts { AreFacts V.ty V.proper f.now (known state.now) }
    ensures fact { result ≡ result_fact V.answers f.now op.now (known state.now) }
    ensures of_type { IsOf V.ty V.proper (op_type op.now) result }
{
    match *op {
        Op::Call { width, call } => V::any(Ty::Int(width.unwrap_or(1)), promises(f, call)),
        _ => transfer(f, state, op),
    }
}

/// Gives the result of an operation its value.
pub(crate) fn define<V: Values>(state: &mut State<V>, f: &Function, op: &Op, v: ValueId)
    requires state { IsStateOf V.ty V.proper f.now state.old }
    requires ranges { PrintableOp f.now op.now }
    requires operands { TypedOp f.now op.now }
    requires name { IsNameOf f.now (op_type op.now) v }
    ensures change { known state.new ≡ with_result V.answers f.now op.now (Some v) (known state.old) }
    ensures state { IsStateOf V.ty V.proper f.now state.new }
{
    let fact = result_fact(state, f, op);
    redefine(state, f, v, fact);
    if !is_call(op) {
        state.set_live(v, true);
    }
}
