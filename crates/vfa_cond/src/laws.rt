//! Laws of states, each with its proof and no work to do.

ghost use Rattle.vfa_ir.specs.declared.functions.Function.{Function};
ghost use Rattle.vfa_ir.specs.Printable.{IsPrintable};
ghost use Rattle.vfa_ir.specs.Typed.{Typed};
ghost use Rattle.vfa_cond.specs.Conditions.{HasTypedEquations};

/// The equations of a function that some text reads as, and whose names have the types that are written, are typed: what
/// `narrow` and `hold` ask of a function.
pub fn typed_functions_have_typed_equations()
    ensures { (f : Function) → IsPrintable f → Typed f → HasTypedEquations f }
{}
