//! What conditions tell of operands.

ghost use Rattle.std.specs.Prelude.{◌≡◌, ◌<◌, ◌^◌, IsTrue};
ghost use Rattle.vfa_ir.specs.declared.operations.Operand.TheVariants.{Value};
ghost use Rattle.vfa_ir.specs.declared.operations.Ty.TheVariants.{Int};
ghost use Rattle.vfa_values.specs.Conditions.{IsOf};
ghost use Rattle.vfa_cond.specs.declared.want.Want.TheVariants.{Compare};
ghost use Rattle.vfa_cond.specs.Conditions.{IsNumberOperand};
ghost use Rattle.vfa_cond.specs.Narrowing.{Becomes};
ghost use Rattle.vfa_cond.specs.States.{known};
ghost use Rattle.vfa_walk.specs.Kept.{IsStateOf};
ghost use Rattle.vfa_walk.specs.Ready.{IsNarrowable};
ghost use Rattle.vfa_walk.specs.Stepping.{told};

use vfa_cond::{State, Want};
use vfa_ir::{Function, Operand, Pred, ValueId};
use vfa_values::Values;

/// Narrows a name of the width to the numbers that some wanted number compares with; a no means that there are none.
fn tell_name<V: Values>(
    state: &mut State<V>,
    f: &Function,
    v: ValueId,
    width: u32,
    pred: Pred,
    wanted: V,
) -> bool
    requires function { IsNarrowable f.now }
    requires operand { IsNumberOperand f.now width (Value v) }
    requires wanted { IsOf V.ty V.proper (Int width) wanted }
    requires state { IsStateOf V.ty V.proper f.now state.old }
    ensures becomes { Becomes (told V.answers f.now (Value v) width (Compare pred wanted) (known state.old)) result (known state.new) }
    ensures state { IsTrue result → IsStateOf V.ty V.proper f.now state.new }
{
    state.narrow(f, v, &Want::Compare(pred, wanted))
}

/// Narrows an operand of the width to the numbers that compare so with this one; a no means that there are none.
pub(crate) fn tell<V: Values>(
    state: &mut State<V>,
    f: &Function,
    operand: Operand,
    width: u32,
    pred: Pred,
    number: u128,
) -> bool
    requires function { IsNarrowable f.now }
    requires operand { IsNumberOperand f.now width operand }
    requires number { number < 2 ^ width }
    requires state { IsStateOf V.ty V.proper f.now state.old }
    ensures becomes { Becomes (told V.answers f.now operand width (Compare pred (V.answers.literal width number)) (known state.old)) result (known state.new) }
    ensures state { IsTrue result → IsStateOf V.ty V.proper f.now state.new }
{
    let wanted = V::literal(width, number);
    match operand {
        Operand::Value(v) => tell_name(state, f, v, width, pred, wanted),
        Operand::Literal(bits) => V::literal(width, bits).compare(pred, &wanted).is_some(),
        Operand::Poison => false,
    }
}
