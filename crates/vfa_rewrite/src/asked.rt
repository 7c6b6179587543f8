//! The operands whose facts the rules ask for.

ghost use Rattle.std.specs.Prelude.{◌≡◌, None};
ghost use Rattle.vfa_ir.specs.declared.operations.Ty.TheVariants.{Int, Pair};
ghost use Rattle.vfa_ir.specs.declared.operations.Op.TheVariants.{Part};
ghost use Rattle.vfa_ir.specs.declared.operations.Operand.TheVariants.{Poison, Value};
ghost use Rattle.vfa_rewrite.specs.Asked.{asked_of};

use vfa_ir::{Function, Op, Operand, Ty, ValueId};
use vfa_rules::{OverflowCall, overflow_call};

/// The operands that the rules on an operation ask for, each with its type.
#[derive(Clone, Copy)]
pub(crate) struct Asked {
    /// The type of the operands a and b.
    pub(crate) sides: Ty,
    /// The operand a; of a part of an overflow intrinsic's pair that of the intrinsic.
    pub(crate) a: Operand,
    /// The operand b, likewise.
    pub(crate) b: Operand,
    /// The type of the operand c.
    pub(crate) third: Ty,
    /// The operand c, a condition or a pair.
    pub(crate) c: Operand,
    /// The overflow intrinsic that gives the pair, of which the operation is a part.
    pub(crate) call: Option<OverflowCall>,
}

/// Two operands of one width.
fn two(width: u32, a: Operand, b: Operand) -> Asked
    ensures { result ≡ record { sides = Int width; a = a; b = b; third = Int 1; c = Poison; call = None } }
{
    Asked {
        sides: Ty::Int(width),
        a,
        b,
        third: Ty::Int(1),
        c: Operand::Poison,
        call: None,
    }
}

/// A condition, and two operands of one width.
fn three(width: u32, c: Operand, a: Operand, b: Operand) -> Asked
    ensures { result ≡ record { sides = Int width; a = a; b = b; third = Int 1; c = c; call = None } }
{
    Asked {
        sides: Ty::Int(width),
        a,
        b,
        third: Ty::Int(1),
        c,
        call: None,
    }
}

/// A pair, and the operands of the overflow intrinsic that gives it.
fn part(f: &Function, width: u32, pair: ValueId, index: u32) -> Asked
    ensures { result ≡ asked_of f.now (Part width pair index) }
{
    let mut asked = Asked {
        sides: Ty::Int(width),
        a: Operand::Poison,
        b: Operand::Poison,
        third: Ty::Pair(width),
        c: Operand::Value(pair),
        call: overflow_call(f, &Op::Part { width, pair, index }),
    };
    if let Some(call) = asked.call {
        asked.a = call.a;
        asked.b = call.b;
    }
    asked
}

/// The operands that the rules on an operation of the function ask for.
pub(crate) fn operands_asked(f: &Function, op: &Op) -> Asked
    ensures { result ≡ asked_of f.now op.now }
{
    match *op {
        Op::Bin { width, a, b, .. } => two(width, a, b),
        Op::Icmp { width, a, b, .. } => two(width, a, b),
        Op::Select { width, c, a, b } => three(width, c, a, b),
        Op::Cast { from, a, .. } => two(from, a, Operand::Poison),
        Op::Freeze { width, a } => two(width, a, Operand::Poison),
        Op::Two { width, a, b, .. } => two(width, a, b),
        Op::One { width, a, .. } => two(width, a, Operand::Poison),
        Op::Over { width, a, b, .. } => two(width, a, b),
        Op::Part { width, pair, index } => part(f, width, pair, index),
        Op::Assume { c } => three(1, c, Operand::Poison, Operand::Poison),
        Op::Call { .. } => two(1, Operand::Poison, Operand::Poison),
    }
}
