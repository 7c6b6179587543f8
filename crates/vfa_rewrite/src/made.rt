//! Marks as a program makes them.

ghost use Rattle.std.specs.Prelude.{ℕ, ◌≡◌, ◌↔◌, Bool, Some, true};
ghost use Rattle.vfa_ir.specs.declared.functions.Function.{Function};
ghost use Rattle.vfa_ir.specs.declared.functions.Inst.{Inst};
ghost use Rattle.vfa_ir.specs.Printable.{IsPrintable};
ghost use Rattle.vfa_check.specs.Checked.{IsChecked};
ghost use Rattle.vfa_demand.specs.Used.{AreUsed};
ghost use Rattle.vfa_walk.specs.TruthLaws.{HasTypedFacts};
ghost use Rattle.vfa_xfer.specs.AnyFacts.{IsAnyFact, fact_type};
ghost use Rattle.vfa_rewrite.specs.ByFacts.{FactTable, findings_of};
ghost use Rattle.vfa_rewrite.specs.Making.{first_marks, line_at, made_marks, must_stay_at};
ghost use Rattle.vfa_rewrite.specs.Marks.{AreMarks, Reached};
ghost use Rattle.vfa_rewrite.specs.Rewritten.{rewritten};

/// The marks that are made of what a table of facts finds out are its marks, where `reached` says which blocks are left, and
/// `used` which names something hangs on in the function of the first step.
///
/// Of what has to stay it is enough to know the instructions that a run may come to.
pub(crate) fn made_marks_are_marks()
    ensures made { (f : Function) (t : FactTable) (reached used : ℕ → Bool) → IsChecked f → IsPrintable f →
        HasTypedFacts fact_type IsAnyFact f t → ((b : ℕ) → (reached b ≡ true) ↔ Reached f (findings_of f t) b) →
        AreUsed (rewritten f (first_marks f (findings_of f t) reached)) (must_stay_at f (findings_of f t)) used →
        AreMarks f (findings_of f t) (made_marks f (findings_of f t) reached used) }
    ensures met { (f : Function) (t : FactTable) (reached used : ℕ → Bool) (must : ℕ → ℕ → Bool) → IsChecked f → IsPrintable f →
        HasTypedFacts fact_type IsAnyFact f t → ((b : ℕ) → (reached b ≡ true) ↔ Reached f (findings_of f t) b) →
        ((b i : ℕ) (inst : Inst) → line_at f b i ≡ Some inst → (findings_of f t).met b i ≡ true → must b i ≡ must_stay_at f (findings_of f t) b i) →
        AreUsed (rewritten f (first_marks f (findings_of f t) reached)) must used →
        AreMarks f (findings_of f t) (made_marks f (findings_of f t) reached used) }
{}
