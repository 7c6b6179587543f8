//! Laws of the reasons why a text reads as no function, which hold of every text.

ghost use Rattle.std.specs.Prelude.{◌≡◌, ◌⊎◌, ℕ, List};
ghost use Rattle.vfa_ir.specs.Reads.{IsAccepted, IsReason};
ghost use Rattle.vfa_ir.specs.Tokens.{tokens_of};
ghost use Rattle.vfa_ir.specs.declared.functions.Function.{Function};
ghost use Rattle.vfa_ir.specs.declared.functions.Lines.{Lines};
ghost use Rattle.vfa_ir.specs.declared.reasons.Outside.{Outside};

/// At most one reason holds of a text.
pub fn one_reason()
    ensures { (text : List ℕ) (a b : Outside) → IsReason text (tokens_of text) a → IsReason text (tokens_of text) b → a ≡ b }
{}

/// No reason holds of a text that is accepted.
pub fn accepted_has_no_reason()
    ensures { (text : List ℕ) (f : Function) (lines : Lines) (reason : Outside) →
        IsAccepted text (tokens_of text) f lines → IsReason text (tokens_of text) reason → ⊥ }
{}

/// Each text is accepted, or a reason holds of it.
pub fn accepted_or_reason()
    ensures { (text : List ℕ) → ((f : Function) × (lines : Lines) × IsAccepted text (tokens_of text) f lines)
        ⊎ ((reason : Outside) × IsReason text (tokens_of text) reason) }
{}
