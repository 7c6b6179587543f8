//! Laws of the functions that are checked.

ghost use Rattle.std.specs.Prelude.{◌≡◌, ◌⊎◌, ℕ, List, length, nat_eq};
ghost use Rattle.std.specs.List.{IsDistinct, range_with_len};
ghost use Rattle.vfa_check.specs.Checked.{IsWellFormed, MayBeChecked};
ghost use Rattle.vfa_check.specs.Refusals.{IsRefusal};
ghost use Rattle.vfa_check.specs.Within.{IsWithin};
ghost use Rattle.vfa_ir.specs.Printable.{ids_of};
ghost use Rattle.vfa_ir.specs.Reads.{Fit, IsAccepted};
ghost use Rattle.vfa_ir.specs.Tokens.{tokens_of};
ghost use Rattle.vfa_ir.specs.declared.functions.Function.{Function};
ghost use Rattle.vfa_ir.specs.declared.functions.Lines.{Lines};
ghost use Rattle.vfa_ir.specs.declared.reasons.Outside.{Outside};

/// A function that some text reads as has an entry, its edges lead to its blocks, and its parameters and results are
/// among its values.
pub fn fit_is_within()
    ensures { (f : Function) → Fit f → IsWithin f }
{}

/// Its values are defined once, in the order of the values.
pub fn fit_defines_once()
    ensures once { (f : Function) → Fit f → IsDistinct nat_eq (ids_of f) }
    ensures in_order { (f : Function) → Fit f → ids_of f ≡ range_with_len 0 (length f.values) }
{}

/// The function and the lines that a text within the limits reads as may be checked.
pub fn accepted_may_be_checked()
    ensures { (text : List ℕ) (f : Function) (lines : Lines) → IsAccepted text (tokens_of text) f lines → MayBeChecked f lines }
{}

/// At most one refusal holds of a function.
pub fn one_refusal()
    ensures { (f : Function) (lines : Lines) (a b : Outside) → IsRefusal f lines a → IsRefusal f lines b → a ≡ b }
{}

/// None holds of a function that is well formed.
pub fn refused_is_ill_formed()
    ensures { (f : Function) (lines : Lines) (reason : Outside) → IsRefusal f lines reason → IsWellFormed f → ⊥ }
{}

/// Each function that may be checked is well formed, or has a refusal.
pub fn well_formed_or_refused()
    ensures { (f : Function) (lines : Lines) → MayBeChecked f lines → IsWellFormed f ⊎ ((reason : Outside) × IsRefusal f lines reason) }
{}
