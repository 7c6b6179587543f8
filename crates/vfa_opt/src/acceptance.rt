//! Which defines are functions of the profile.

ghost use Rattle.std.specs.Prelude.{◌≡◌, ◌≤◌, ◌⊎◌, ℕ, List, IfOk, IfErr, OnOk, length};
ghost use Rattle.vfa_check.specs.Checked.{IsChecked};
ghost use Rattle.vfa_ir.specs.Limits.{most_names};
ghost use Rattle.vfa_ir.specs.Tokens.{tokens_of};
ghost use Rattle.vfa_ir.specs.declared.functions.Function.{Function};
ghost use Rattle.vfa_ir.specs.declared.reasons.Outside.{Outside};
ghost use Rattle.vfa_ir.specs.declared.reasons.Outside.TheVariants.{Memory};
ghost use Rattle.vfa_opt.specs.Acceptance.{IsInside, IsOutside};

use std::alloc::Global;
use vfa_check::{
    Checked, accepted_may_be_checked, check, fit_defines_once, fit_is_within, one_refusal,
    refused_is_ill_formed, well_formed_or_refused,
};
use vfa_ir::{Outside, Token};
use vfa_read::{
    accepted_has_no_reason, accepted_or_reason, one_reading, one_reason, read_function,
};

/// Reads a text that has these tokens, and checks its function.
fn checked(alloc: Global, text: &[u8], tokens: &[Token]) -> Result<Checked, Outside>
    requires { tokens.now ≡ tokens_of text.now }
    ensures inside { IfOk result (IsInside text.now) }
    ensures outside { IfErr result (λ e. (e ≡ Memory) ⊎ IsOutside text.now e) }
{
    accepted_may_be_checked();
    match read_function(alloc, text, tokens) {
        Ok(read) => check(alloc, read.function, &read.lines),
        Err(reason) => Err(reason),
    }
}

/// The function of the profile that a text is, which has these tokens; or the first reason why it is none.
///
/// `Shape`, `TooMany`, `Duplicate` and `Unknown` come, in this order, exactly where the reader gives them; then `Types`, `Phi`
/// and `Undefined`, in this order, exactly where the checker does. Lines count from 1 within the text.
///
/// `define i8 @f(i8 %x) { ret i8 %x }` is a function; with `%y` returned it is none, for `Unknown` of `y`.
pub fn accept(alloc: Global, text: &[u8], tokens: &[Token]) -> Result<Checked, Outside>
    requires { tokens.now ≡ tokens_of text.now }
    ensures inside { IfOk result (IsInside text.now) }
    ensures outside { IfErr result (λ e. (e ≡ Memory) ⊎ IsOutside text.now e) }
    ensures accepts { (f : Function) → IsInside text.now f → IfOk result (λ g. g ≡ f) × IfErr result (λ e. e ≡ Memory) }
    ensures refuses { (reason : Outside) → IsOutside text.now reason →
        OnOk result ⊥ × IfErr result (λ e. (e ≡ reason) ⊎ (e ≡ Memory)) }
{
    one_answer();
    checked(alloc, text, tokens)
}

/// A law: each text is a function of the profile, or there is a reason why it is none.
pub fn inside_or_outside()
    ensures { (text : List ℕ) → ((f : Function) × IsInside text f) ⊎ ((reason : Outside) × IsOutside text reason) }
{
    accepted_or_reason();
    accepted_may_be_checked();
    well_formed_or_refused();
}

/// A law: a text is at most one function, there is at most one reason why it is none, and none where it is one.
pub fn one_answer()
    ensures function { (text : List ℕ) (f g : Function) → IsInside text f → IsInside text g → f ≡ g }
    ensures reason { (text : List ℕ) (a b : Outside) → IsOutside text a → IsOutside text b → a ≡ b }
    ensures either { (text : List ℕ) (f : Function) (reason : Outside) → IsInside text f → IsOutside text reason → ⊥ }
{
    one_reading();
    one_reason();
    accepted_has_no_reason();
    one_refusal();
    refused_is_ill_formed();
}

/// A law: a function of the profile is one that was checked, and it has as many names as the profile allows at most.
pub fn inside_is_checked()
    ensures checked { (text : List ℕ) (f : Function) → IsInside text f → IsChecked f }
    ensures few { (text : List ℕ) (f : Function) → IsInside text f → length f.values ≤ most_names }
{
    accepted_may_be_checked();
    fit_is_within();
    fit_defines_once();
}
