//! That the operands of an operation are fresh wherever its result may be used, as a law.

ghost use Rattle.std.specs.Prelude.{◌≡◌, length};
ghost use Rattle.std.specs.List.{range_with_len};
ghost use Rattle.vfa_ir.specs.declared.functions.Function.{Function};
ghost use Rattle.vfa_ir.specs.Defined.{Defined};
ghost use Rattle.vfa_ir.specs.Printable.{ids_of};
ghost use Rattle.vfa_mean.specs.FreshOperands.{DefinesOnce, HasFreshOperands, HasPresentResults};

/// In a function that defines each name once and uses it only where it is defined on every walk, take an operation other
/// than a call, and a moment at a place where its result is defined on every walk. The result was given at a moment before
/// the operation, of operands that have the same values now; so it is one that the operation gives of their present values
/// (LLVM Language Reference, "Well-Formedness"). After `%n = add i8 %i, 1` in a loop, `%n` is 1 more than `%i` in each turn.
/// A function whose ids stand in text order, as in each that is read, defines each name once.
pub fn operands_are_fresh()
    ensures once { (f : Function) → ids_of f ≡ range_with_len 0 (length f.values) → DefinesOnce f }
    ensures given { (f : Function) → DefinesOnce f → Defined f → HasFreshOperands f }
    ensures present { (f : Function) → DefinesOnce f → Defined f → HasPresentResults f }
{}
