//! Laws of the rules, each with its proof and no work to do.

ghost use Rattle.std.specs.Prelude.{◌≡◌, ℕ, Some, false};
ghost use Rattle.vfa_ir.specs.declared.functions.Function.{Function};
ghost use Rattle.vfa_ir.specs.declared.operations.Op.{Op};
ghost use Rattle.vfa_ir.specs.declared.operations.ValueId.{ValueId};
ghost use Rattle.vfa_mean.specs.Moments.{is_call};
ghost use Rattle.vfa_mean.specs.Operands.{IsOperation};
ghost use Rattle.vfa_rules.specs.Order.{Known, changed};
ghost use Rattle.vfa_rules.specs.Results.{AreFactsFor, IsSound};
ghost use Rattle.vfa_rules.specs.Shapes.{FitsChange, IsFitting};
ghost use Rattle.vfa_rules.specs.Sources.{IsGivenBy};
ghost use Rattle.vfa_rules.specs.Uses.{overflow_call};
ghost use Rattle.vfa_rules.specs.declared.change.OverflowCall.{OverflowCall};

/// What an instruction gives after the rules is allowed by what it gave before, wherever the facts hold of the values of its
/// operands, poison included.
pub fn changes_are_sound()
    ensures { (k : Known) (op : Op) → AreFactsFor k op → (is_call op ≡ false → IsOperation op) → IsSound k op (changed k op) }
{}

/// A changed instruction is printable and well typed again, of the same type, on operands that it had.
pub fn changes_fit()
    ensures { (f : Function) (k : Known) (op : Op) → IsFitting f k op → FitsChange f k op (changed k op) }
{}

/// The overflow intrinsic that is found for a part of a pair is an instruction of the function, of the part's width, and its
/// result is the pair.
pub fn parts_have_sources()
    ensures { (f : Function) (w index : ℕ) (pair : ValueId) (call : OverflowCall) →
        overflow_call f (Op.Part w pair index) ≡ Some call → IsGivenBy f w pair.0 call }
{}
