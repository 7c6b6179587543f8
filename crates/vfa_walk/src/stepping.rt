//! What instructions make of states.

ghost use Rattle.std.specs.Prelude.{◌≡◌, All, IsTrue};
ghost use Rattle.vfa_ir.specs.Printable.{PrintableOp};
ghost use Rattle.vfa_ir.specs.Typed.{TypedOp};
ghost use Rattle.vfa_ir.specs.declared.operations.Op.{Op};
ghost use Rattle.vfa_ir.specs.declared.operations.Flags.{Flags};
ghost use Rattle.vfa_ir.specs.declared.operations.Operand.{Operand};
ghost use Rattle.vfa_cond.specs.Conditions.{IsNumberOperand};
ghost use Rattle.vfa_cond.specs.Narrowing.{Becomes};
ghost use Rattle.vfa_cond.specs.States.{known};
ghost use Rattle.vfa_walk.specs.Kept.{IsStateOf};
ghost use Rattle.vfa_walk.specs.Ready.{IsNarrowable, IsReadyInst};
ghost use Rattle.vfa_walk.specs.Stepping.{after_inst, after_insts, is_division, survived, with_result};

use crate::definitions::define;
use crate::telling::tell;
use vfa_cond::State;
use vfa_ir::{Bin, Function, Inst, Op, Operand, Pred};
use vfa_values::Values;

fn is_division(bin: Bin) -> bool
    ensures { result ≡ is_division bin }
{
    match bin {
        Bin::Udiv | Bin::Sdiv | Bin::Urem | Bin::Srem => true,
        _ => false,
    }
}

/// Tells that the divisor of a division is not 0.
fn survive_binary<V: Values>(
    state: &mut State<V>,
    f: &Function,
    bin: Bin,
    width: u32,
    b: Operand,
) -> bool
    requires function { IsNarrowable f.now }
    requires operand { IsNumberOperand f.now width b }
    requires state { IsStateOf V.ty V.proper f.now state.old }
    ensures becomes { (flags : Flags) (a : Operand) → Becomes (survived V.answers f.now (Op.Bin bin flags width a b) (known state.old)) result (known state.new) }
    ensures state { IsTrue result → IsStateOf V.ty V.proper f.now state.new }
{
    if !is_division(bin) {
        return true;
    }
    tell(state, f, b, width, Pred::Ne, 0)
}

/// Tells what a run that goes on behind the operation tells of its operands; a no means that none goes on.
fn survive<V: Values>(state: &mut State<V>, f: &Function, op: &Op) -> bool
    requires function { IsNarrowable f.now }
    requires ranges { PrintableOp f.now op.now }
    requires operands { TypedOp f.now op.now }
    requires state { IsStateOf V.ty V.proper f.now state.old }
    ensures becomes { Becomes (survived V.answers f.now op.now (known state.old)) result (known state.new) }
    ensures state { IsTrue result → IsStateOf V.ty V.proper f.now state.new }
{
    match *op {
        Op::Bin { bin, width, b, .. } => survive_binary(state, f, bin, width, b),
        Op::Assume { c } => tell(state, f, c, 1, Pred::Eq, 1),
        _ => true,
    }
}

/// Gives the result of an instruction its value, if it has one.
fn define_result<V: Values>(state: &mut State<V>, f: &Function, inst: &Inst)
    requires inst { IsReadyInst f.now inst.now }
    requires state { IsStateOf V.ty V.proper f.now state.old }
    ensures change { known state.new ≡ with_result V.answers f.now inst.now.op inst.now.result (known state.old) }
    ensures state { IsStateOf V.ty V.proper f.now state.new }
{
    match inst.result {
        Some(v) => define(state, f, &inst.op, v),
        None => {}
    }
}

/// Does an instruction; a no means that no run goes on behind it.
pub(crate) fn step<V: Values>(state: &mut State<V>, f: &Function, inst: &Inst) -> bool
    requires function { IsNarrowable f.now }
    requires inst { IsReadyInst f.now inst.now }
    requires state { IsStateOf V.ty V.proper f.now state.old }
    ensures becomes { Becomes (after_inst V.answers f.now inst.now (known state.old)) result (known state.new) }
    ensures state { IsTrue result → IsStateOf V.ty V.proper f.now state.new }
{
    if !survive(state, f, &inst.op) {
        return false;
    }
    define_result(state, f, inst);
    true
}

/// Does instructions one after another; a no means that no run goes on behind them.
pub(crate) fn step_all<V: Values>(state: &mut State<V>, f: &Function, insts: &[Inst]) -> bool
    requires function { IsNarrowable f.now }
    requires insts { All (IsReadyInst f.now) insts.now }
    requires state { IsStateOf V.ty V.proper f.now state.old }
    ensures becomes { Becomes (after_insts V.answers f.now insts.now (known state.old)) result (known state.new) }
    ensures state { IsTrue result → IsStateOf V.ty V.proper f.now state.new }
{
    'insts: for inst in insts {
        if !step(state, f, inst) {
            return false;
        }
    }
    true
}
