//! Predicates that go with a predicate.

ghost use Rattle.std.specs.Prelude.{◌≡◌};
ghost use Rattle.vfa_cond.specs.Opposites.{negated, exchanged};

use vfa_ir::Pred;

/// The predicate that holds exactly where the other does not: `uge` for `ult`.
pub fn negated(pred: Pred) -> Pred
    ensures { result ≡ negated pred }
{
    match pred {
        Pred::Eq => Pred::Ne,
        Pred::Ne => Pred::Eq,
        Pred::Ugt => Pred::Ule,
        Pred::Uge => Pred::Ult,
        Pred::Ult => Pred::Uge,
        Pred::Ule => Pred::Ugt,
        Pred::Sgt => Pred::Sle,
        Pred::Sge => Pred::Slt,
        Pred::Slt => Pred::Sge,
        Pred::Sle => Pred::Sgt,
    }
}

/// The predicate that holds of y and x exactly where the other holds of x and y: `ugt` for `ult`.
pub fn exchanged(pred: Pred) -> Pred
    ensures { result ≡ exchanged pred }
{
    match pred {
        Pred::Eq => Pred::Eq,
        Pred::Ne => Pred::Ne,
        Pred::Ugt => Pred::Ult,
        Pred::Uge => Pred::Ule,
        Pred::Ult => Pred::Ugt,
        Pred::Ule => Pred::Uge,
        Pred::Sgt => Pred::Slt,
        Pred::Sge => Pred::Sle,
        Pred::Slt => Pred::Sgt,
        Pred::Sle => Pred::Sge,
    }
}
