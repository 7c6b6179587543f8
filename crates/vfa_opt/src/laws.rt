//! Laws of modules, which hold of every job and every input.

ghost use Rattle.std.specs.Prelude.{◌≡◌, ◌≤◌, ◌⊎◌, ◌^◌, ℕ, Bool, List, length};
ghost use Rattle.vfa_ir.specs.declared.functions.Function.{Function};
ghost use Rattle.vfa_xfer.specs.Transfers.{fact_answers};
ghost use Rattle.vfa_xfer.specs.declared.any_fact.AnyFact.{AnyFact};
ghost use Rattle.vfa_lazy.specs.declared.questions.Answer.{Answer};
ghost use Rattle.vfa_lazy.specs.declared.questions.Place.{Place};
ghost use Rattle.vfa_lazy.specs.Questions.{IsAnswer};
ghost use Rattle.vfa_opt.specs.declared.jobs.Job.{Job};
ghost use Rattle.vfa_opt.specs.declared.refusals.Refused.{Refused};
ghost use Rattle.vfa_opt.specs.Module.{Piece, Splits, IsModule, IsModuleText};
ghost use Rattle.vfa_opt.specs.Generated.{generated_text};
ghost use Rattle.vfa_opt.specs.Refusals.{IsAnswerable, IsRefusal};

use crate::acceptance::{inside_is_checked, inside_or_outside, one_answer};
use crate::optimised::one_optimised;
use vfa_report::one_report;
use vfa_xfer::AnyFact;

/// An input has at most one list of pieces.
pub fn one_list_of_pieces()
    ensures { (input : List ℕ) (pieces others : List Piece) → Splits input pieces → Splits input others → pieces ≡ others }
{
    one_answer();
}

/// Each input is a module on which the job can be done, or a reason to refuse the job on it holds.
pub fn module_or_refusal()
    ensures { (job : Job) (strict : Bool) (input : List ℕ) →
        ((pieces : List Piece) × IsModule strict input pieces × IsAnswerable job pieces) ⊎ ((reason : Refused) × IsRefusal job strict input reason) }
{
    inside_or_outside();
}

/// At most one reason to refuse a job on an input holds, and none of a module on which it can be done.
pub fn one_refusal()
    ensures one { (job : Job) (strict : Bool) (input : List ℕ) (a b : Refused) → IsRefusal job strict input a → IsRefusal job strict input b → a ≡ b }
    ensures none { (job : Job) (strict : Bool) (input : List ℕ) (pieces : List Piece) (reason : Refused) →
        IsModule strict input pieces → IsAnswerable job pieces → IsRefusal job strict input reason → ⊥ }
{
    one_list_of_pieces();
}

/// An input has at most one text for a job, and at most one list of notes.
pub fn one_text()
    ensures { (job : Job) (strict : Bool) (input text other notes others : List ℕ) → IsModuleText job strict input text notes →
        IsModuleText job strict input other others → (text ≡ other) × (notes ≡ others) }
{
    inside_is_checked();
    one_list_of_pieces();
    one_optimised();
    one_report();
    one_answer_of_facts();
}

/// A question about a function has at most one answer by facts.
fn one_answer_of_facts()
    ensures { (f : Function) (place : Place) (v : ℕ) (a b : Answer AnyFact) → IsAnswer fact_answers f place v a → IsAnswer fact_answers f place v b → a ≡ b }
{
    vfa_lazy::one_answer::<AnyFact>();
}

/// The text that is generated from a seed may be read.
pub fn generated_is_within()
    ensures { (seed : ℕ) → length (generated_text seed) ≤ 2 ^ 24 }
{}
