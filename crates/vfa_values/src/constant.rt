//! A small domain that meets the laws.

ghost use Rattle.std.specs.Prelude.{◌≡◌, ◌&&◌, IsTrue, ◌↔◌};
ghost use Rattle.vfa_ir.specs.Printable.{op_type};

use crate::values::Values;
use vfa_ir::{Op, Pred, Ty};

/// The domain of constants: one number, poison, or any value of a type. It is the least domain that tells numbers apart,
/// and serves tests of code that is generic over domains. It follows constants through joins and restrictions, and
/// computes nothing: but for `freeze`, which keeps a number, an operation gives any value.
///
/// The join of 3 and 3 is 3, and that of 3 and 5 is any number of the width, never poison.
#[derive(Clone, Copy, Debug, PartialEq, Eq)]
pub enum Constant {
    /// The number `bits` of the width alone.
    Only {
        /// The width, 1 to 128.
        width: u32,
        /// The number, below 2 to the width.
        bits: u128,
    },
    /// Poison alone.
    Poison(Ty),
    /// Every value of the type, but for poison where the second part says that it is never poison.
    Any(Ty, bool),
}

impl Constant {
    ghost use Rattle.vfa_values.specs.Constants.{constant_type, is_never_poison, is_only, is_poison, agree, frozen, numbers_of, number_of};

    fn of_type(&self) -> Ty
        ensures { result ≡ constant_type self.now }
    {
        match *self {
            Constant::Only { width, .. } => Ty::Int(width),
            Constant::Poison(ty) => ty,
            Constant::Any(ty, _) => ty,
        }
    }

    fn is_never_poison(&self) -> bool
        ensures { result ≡ is_never_poison self.now }
    {
        match *self {
            Constant::Only { .. } => true,
            Constant::Poison(_) => false,
            Constant::Any(_, never_poison) => never_poison,
        }
    }

    fn is_only(&self, x: u128) -> bool
        ensures { result ≡ is_only x self.now }
    {
        match *self {
            Constant::Only { bits, .. } => x == bits,
            Constant::Poison(_) => false,
            Constant::Any(..) => false,
        }
    }

    fn is_poison(&self) -> bool
        ensures { result ≡ is_poison self.now }
    {
        match *self {
            Constant::Only { .. } => false,
            Constant::Poison(_) => true,
            Constant::Any(..) => false,
        }
    }

    /// Whether both hold of one value alone, and of the same one.
    fn agrees(&self, other: &Constant) -> bool
        ensures { result ≡ agree self.now other.now }
    {
        match *self {
            Constant::Only { bits, .. } => other.is_only(bits),
            Constant::Poison(_) => other.is_poison(),
            Constant::Any(..) => false,
        }
    }

    /// What is left of it where it is frozen at the width: a number.
    fn frozen(&self, width: u32) -> Constant
        ensures { result ≡ frozen width self.now }
    {
        match *self {
            Constant::Only { bits, .. } => Constant::Only { width, bits },
            Constant::Poison(_) => Constant::Any(Ty::Int(width), true),
            Constant::Any(..) => Constant::Any(Ty::Int(width), true),
        }
    }

    /// The numbers that it holds of.
    fn numbers(&self) -> Option<Constant>
        ensures { result ≡ numbers_of self.now }
    {
        match *self {
            Constant::Only { .. } => Some(*self),
            Constant::Poison(_) => None,
            Constant::Any(ty, _) => Some(Constant::Any(ty, true)),
        }
    }

    /// The number of the width, where it holds of it.
    fn number(&self, width: u32, bits: u128) -> Option<Constant>
        ensures { result ≡ number_of width bits self.now }
    {
        match *self {
            Constant::Only { bits: own, .. } => {
                if bits == own {
                    return Some(Constant::Only { width, bits });
                }
                None
            }
            Constant::Poison(_) => None,
            Constant::Any(..) => Some(Constant::Only { width, bits }),
        }
    }
}

/// The type of the operation's result; that of an `assume`, which has none, is `i1`.
fn result_type(op: &Op) -> Ty
    ensures { result ≡ op_type op.now }
{
    match *op {
        Op::Bin { width, .. } => Ty::Int(width),
        Op::Icmp { .. } => Ty::Int(1),
        Op::Select { width, .. } => Ty::Int(width),
        Op::Cast { to, .. } => Ty::Int(to),
        Op::Freeze { width, .. } => Ty::Int(width),
        Op::Two { width, .. } => Ty::Int(width),
        Op::One { width, .. } => Ty::Int(width),
        Op::Over { width, .. } => Ty::Pair(width),
        Op::Part { width, index, .. } => {
            if index == 0 {
                return Ty::Int(width);
            }
            Ty::Int(1)
        }
        Op::Assume { .. } => Ty::Int(1),
        Op::Call { width, .. } => Ty::Int(width.unwrap_or(1)),
    }
}

impl Values for Constant {
    ghost use Rattle.vfa_values.specs.Constants.{constant_type, IsConstant, HoldsOf, constant_answers, numbers_of, agreeing};
    ghost use Rattle.vfa_values.specs.ConstantLaws.{constant_laws};

    ghost holds = { HoldsOf };

    ghost ty = { constant_type };

    ghost proper = { IsConstant };

    ghost answers = { constant_answers };

    ghost lawful = { constant_laws };

    fn literal(width: u32, bits: u128) -> Constant {
        Constant::Only { width, bits }
    }

    fn any(of_type: Ty, never_poison: bool) -> Constant {
        Constant::Any(of_type, never_poison)
    }

    fn poison(of_type: Ty) -> Constant {
        Constant::Poison(of_type)
    }

    fn transfer(op: &Op, a: &Constant, _b: &Constant, _c: &Constant) -> Constant {
        if let Op::Freeze { width, .. } = *op {
            return a.frozen(width);
        }
        Constant::Any(result_type(op), false)
    }

    fn join(&self, other: &Constant) -> Constant {
        if self.agrees(other) {
            return *self;
        }
        let never_poison = self.is_never_poison() && other.is_never_poison();
        Constant::Any(self.of_type(), never_poison)
    }

    fn includes(&self, other: &Constant) -> bool {
        match *self {
            Constant::Only { bits, .. } => other.is_only(bits),
            Constant::Poison(_) => other.is_poison(),
            Constant::Any(_, never_poison) => !never_poison || other.is_never_poison(),
        }
    }

    fn widen(&self, new: &Constant, _round: u32, _marks: &[u128]) -> Constant {
        self.join(new)
    }

    fn compare(&self, pred: Pred, other: &Constant) -> Option<Constant> {
        if let (Pred::Eq, Constant::Only { width, bits }) = (pred, *other) {
            return self.number(width, bits);
        }
        self.numbers()
    }

    fn with_bits(&self, mask: u128, value: u128) -> Option<Constant> {
        if let Constant::Only { bits, .. } = *self
            && bits & mask != value & mask
        {
            return None;
        }
        self.numbers()
    }

    fn moved_from(&self, _sum: &Constant, _c: u128) -> Option<Constant> {
        self.numbers()
    }

    fn same(&self, other: &Constant) -> bool {
        *self == *other
    }

    fn single(&self) -> Option<u128> {
        match *self {
            Constant::Only { bits, .. } => Some(bits),
            Constant::Poison(_) => None,
            Constant::Any(..) => None,
        }
    }

    fn rank(&self) -> u32 {
        match *self {
            Constant::Only { .. } => 2,
            Constant::Poison(_) => 2,
            Constant::Any(_, never_poison) => u32::from(never_poison),
        }
    }
}
