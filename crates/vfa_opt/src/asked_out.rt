//! Questions about a function of a module.

ghost use Rattle.std.specs.Prelude.{◌≡◌, ◌≤◌, ◌⊎◌, ◌^◌, ℕ, List, Option, length, Some, IfOk, IfErr, OnOk, IfSome, IsSomeAnd};
ghost use Rattle.vfa_ir.specs.declared.functions.Function.{Function};
ghost use Rattle.vfa_opt.specs.Asked.{IsAnswerText, IsTrueAnswer};
ghost use Rattle.vfa_opt.specs.Module.{Piece, IsModule, IsModuleText, IsPiece, accepted};
ghost use Rattle.vfa_opt.specs.Refusals.{IsRefusal, IsUnansweredBy};
ghost use Rattle.vfa_opt.specs.Sound.{IsSoundFor};
ghost use Rattle.vfa_opt.specs.Works.{IsItemOf, IsPlaced, item_bytes, item_named};
ghost use Rattle.vfa_opt.specs.declared.jobs.Job.TheVariants.{Ask};
ghost use Rattle.vfa_opt.specs.declared.refusals.Refused.TheVariants.{Memory};

use crate::acceptance::accept;
use crate::asked::answered;
use crate::joined::Text;
use crate::portions::Accepted;
use crate::questions::Question;
use crate::refusals::Refused;
use crate::writings::Writing;
use crate::written::worked_out;
use std::alloc::{AllocError, AllocGlobal, Global};
use std::thread::Threads;
use vfa_check::Checked;
use vfa_lex::tokens;
use vfa_module::Item;
use vfa_par::Gate;

/// The item of the first function of the name.
fn item_named(all: &[Accepted], name: &[u8]) -> Option<Item>
    ensures { result ≡ item_named name.now all.now }
{
    'functions: for function in all {
        if name == function.name.bytes() {
            return Some(function.item);
        }
    }
    None
}

/// The bytes of an item.
fn bytes_of(bytes: &[u8], item: Item) -> &[u8]
    requires { IsPlaced bytes.now item }
    ensures bytes { result.now ≡ item_bytes bytes.now item }
    ensures length { length result.now ≤ length bytes.now }
{
    match item {
        Item::Lines { start, end } => &bytes[start..end],
        Item::Define { start, end, .. } => &bytes[start..end],
    }
}

/// The accepted function that an item is.
fn function_at(alloc: Global, bytes: &[u8], item: Item) -> Result<Checked, AllocError>
    requires place { IsPlaced bytes.now item }
    requires limit { length bytes.now ≤ 16777216 }
    ensures { (f : Function) → IsPiece bytes.now item (accepted f) → IfOk result (λ g. g ≡ f) }
{
    let text = bytes_of(bytes, item);
    let all = tokens(alloc, text)?;
    match accept(alloc, text, &all) {
        Ok(f) => Ok(f),
        Err(_) => Err(AllocError),
    }
}

/// The answer to a question about the function that an item is, or about none.
fn answer_in(
    alloc: Global,
    question: &Question,
    bytes: &[u8],
    item: Option<Item>,
) -> Result<Vec<u8>, Refused>
    requires place { IfSome item (IsPlaced bytes.now) }
    requires limit { length bytes.now ≤ 16777216 }
    ensures text { (f : Option Function) → IsItemOf bytes.now item f → IfOk result (λ text. IsSomeAnd f (λ g. IsAnswerText g question.now text.items)) }
    ensures sound { (f : Function) → IsItemOf bytes.now item (Some f) →
        OnOk result ((text : List ℕ) → IsAnswerText f question.now text → IsTrueAnswer f question.now text) }
    ensures refused { (f : Option Function) → IsItemOf bytes.now item f → IfErr result (λ e. (e ≡ Memory) ⊎ IsUnansweredBy question.now f e) }
{
    match item {
        Some(item) => {
            let f = function_at(alloc, bytes, item)?;
            answered(alloc, &f, question)
        }
        None => Err(Refused::NoFunction(question.function.copied(alloc)?)),
    }
}

/// The answer to a question about a module, and the notes on it; or why it is refused.
pub fn asked_out<R: AllocGlobal + Threads + Sync, G: Gate>(
    rt: &R,
    question: &Question,
    workers: u32,
    strict: bool,
    bytes: &[u8],
    gate: &G,
) -> Result<Text, Refused>
    requires limit { length bytes.now ≤ 2 ^ 24 }
    requires workers { (1 ≤ workers) × (workers ≤ 64) }
    ensures text { IfOk result (λ text. IsModuleText (Ask question.now) strict bytes.now text.out.items text.notes.items) }
    ensures sound { OnOk result ((pieces : List Piece) × IsModule strict bytes.now pieces × IsSoundFor (Ask question.now) pieces) }
    ensures refused { IfErr result (λ e. (e ≡ Memory) ⊎ IsRefusal (Ask question.now) strict bytes.now e) }
{
    let whole = worked_out(rt, Writing::Nothing, workers, strict, bytes, gate)?;
    let item = item_named(&whole.accepted, question.function.bytes());
    let out = answer_in(rt.alloc(), question, bytes, item)?;
    Ok(Text {
        out,
        notes: whole.notes,
    })
}
