//! Laws of questions.

ghost use Rattle.std.specs.Prelude.{◌≡◌, ℕ};
ghost use Rattle.vfa_ir.specs.declared.functions.Function.{Function};
ghost use Rattle.vfa_lazy.specs.declared.questions.Answer.{Answer};
ghost use Rattle.vfa_lazy.specs.declared.questions.Place.{Place};
ghost use Rattle.vfa_lazy.specs.Questions.{IsAnswer};

use vfa_values::Values;

/// A question has at most one answer.
pub fn one_answer<V: Values>()
    ensures { (f : Function) (place : Place) (v : ℕ) (a b : Answer V) → IsAnswer V.answers f place v a → IsAnswer V.answers f place v b → a ≡ b }
{}
