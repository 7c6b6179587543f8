//! Questions about a function.

ghost use Rattle.std.specs.Prelude.{◌≡◌, ◌≤◌, ◌⊎◌, ◌^◌, List, ℕ, Some, IfOk, IfErr, OnOk, length, option_map};
ghost use Rattle.vfa_cfg.specs.Sizes.{HasFewBlocks};
ghost use Rattle.vfa_check.specs.Checked.{IsSmall};
ghost use Rattle.vfa_ir.specs.Printable.{IsPrintable};
ghost use Rattle.vfa_ir.specs.Walks.{is_in, successors};
ghost use Rattle.vfa_print.specs.Trees.{shown_scope};
ghost use Rattle.vfa_lazy.specs.declared.questions.Answer.TheVariants.{NotDefined as IsNotDefined};
ghost use Rattle.vfa_opt.specs.Asked.{Concerns, HasNoPlace, IsAnswerText, IsPlaceNamed, IsQuestionRefusal, IsTrueAnswer, answer_text, block_named, place_in};
ghost use Rattle.vfa_opt.specs.declared.refusals.Refused.TheVariants.{Memory, NoBlock, NotDefined};

use crate::questions::Question;
use crate::refusals::Refused;
use std::alloc::Global;
use vfa_cfg::successor;
use vfa_check::Checked;
use vfa_ir::{BlockId, Function, Name, ValueId};
use vfa_lazy::{Answer, Place, ask, one_answer};
use vfa_print::fit_is_printable;
use vfa_report::{ShownNames, fact_line, shown_names};
use vfa_xfer::AnyFact;

/// What a question is about.
#[derive(Clone, Copy, Debug, PartialEq, Eq)]
struct Subject {
    /// The value.
    value: ValueId,
    /// The place.
    place: Place,
}

/// The value of a name.
fn value_of(names: &ShownNames, name: &[u8]) -> Option<ValueId>
    requires { length names.now.values ≤ 2 ^ 28 }
    ensures { option_map (λ v. v.0) result ≡ place_in name.now names.now.values }
{
    let place = names.value_named(name)?;
    Some(ValueId(place as u32))
}

/// The block of a name.
fn block_of(names: &ShownNames, name: &[u8]) -> Option<BlockId>
    requires { length names.now.blocks ≤ 2 ^ 28 }
    ensures { option_map (λ b. b.0) result ≡ place_in name.now names.now.blocks }
{
    let place = names.block_named(name)?;
    Some(BlockId(place as u32))
}

/// Whether an edge leads from a block to another.
fn leads(f: &Function, from: BlockId, to: BlockId) -> bool
    requires { HasFewBlocks f.now }
    ensures { result ≡ is_in to.0 (successors f.now from.0) }
{
    let mut k: usize = 0;
    'edges: while let Some(target) = successor(f, from, k) {
        if target == to {
            return true;
        }
        k += 1;
    }
    false
}

/// The place before the phis of the question's block, where it is entered from the block of this name.
fn place_from(
    alloc: Global,
    f: &Function,
    names: &ShownNames,
    question: &Question,
    from: &Name,
    to: BlockId,
) -> Result<Place, Refused>
    requires names { names.now ≡ shown_scope f.now }
    requires small { IsSmall f.now }
    requires from { question.now.from ≡ Some from.now }
    requires to { block_named f.now question.now.block ≡ Some to.0 }
    ensures named { IfOk result (IsPlaceNamed f.now question.now) }
    ensures refused { IfErr result (λ e. (e ≡ Memory) ⊎ ((name : List ℕ) × (e ≡ NoBlock name) × HasNoPlace f.now question.now name)) }
{
    let Some(block) = block_of(names, from.bytes()) else {
        return Err(Refused::NoBlock(from.copied(alloc)?));
    };
    if leads(f, block, to) {
        return Ok(Place::Pair(block, to));
    }
    Err(Refused::NoBlock(from.copied(alloc)?))
}

/// The place of a question.
fn place_of(
    alloc: Global,
    f: &Function,
    names: &ShownNames,
    question: &Question,
) -> Result<Place, Refused>
    requires names { names.now ≡ shown_scope f.now }
    requires small { IsSmall f.now }
    ensures named { IfOk result (IsPlaceNamed f.now question.now) }
    ensures refused { IfErr result (λ e. (e ≡ Memory) ⊎ ((name : List ℕ) × (e ≡ NoBlock name) × HasNoPlace f.now question.now name)) }
{
    let Some(block) = block_of(names, question.block.bytes()) else {
        return Err(Refused::NoBlock(question.block.copied(alloc)?));
    };
    match &question.from {
        None => Ok(Place::Entry(block)),
        Some(from) => place_from(alloc, f, names, question, from, block),
    }
}

/// What a question is about.
fn subject_of(alloc: Global, f: &Function, question: &Question) -> Result<Subject, Refused>
    requires printable { IsPrintable f.now }
    requires small { IsSmall f.now }
    ensures concerns { IfOk result (λ subject. Concerns f.now question.now subject.value.0 subject.place) }
    ensures refused { IfErr result (λ e. (e ≡ Memory) ⊎ IsQuestionRefusal f.now question.now e) }
{
    let names = shown_names(alloc, f)?;
    let Some(value) = value_of(&names, question.value.bytes()) else {
        return Err(Refused::NoValue(question.value.copied(alloc)?));
    };
    let place = place_of(alloc, f, &names, question)?;
    Ok(Subject { value, place })
}

/// What is written for the answer to a question.
fn answer_line(
    alloc: Global,
    question: &Question,
    answer: &Answer<AnyFact>,
) -> Result<Vec<u8>, Refused>
    ensures text { IfOk result (λ text. text.items ≡ answer_text question.now.value answer.now) }
    ensures told { OnOk result (answer.now ≡ IsNotDefined → ⊥) }
    ensures refused { IfErr result (λ e. (e ≡ Memory) ⊎ ((answer.now ≡ IsNotDefined) × (e ≡ NotDefined question.now.value question.now.block))) }
{
    match answer {
        Answer::Fact(fact) => {
            let mut text = fact_line(alloc, &question.value, fact)?;
            text.push(b'\n')?;
            Ok(text)
        }
        Answer::NeverReached => Ok(Vec::from_slice(alloc, b"never-reached\n")?),
        Answer::NotDefined => Err(Refused::NotDefined(
            question.value.copied(alloc)?,
            question.block.copied(alloc)?,
        )),
    }
}

/// What is written for the answer about a value at a place of its function, those of the question.
fn told(
    alloc: Global,
    f: &Checked,
    question: &Question,
    value: ValueId,
    place: Place,
) -> Result<Vec<u8>, Refused>
    requires { Concerns f.now question.now value.0 place }
    ensures text { IfOk result (λ text. IsAnswerText f.now question.now text.items) }
    ensures sound { OnOk result ((text : List ℕ) → IsAnswerText f.now question.now text → IsTrueAnswer f.now question.now text) }
    ensures refused { IfErr result (λ e. (e ≡ Memory) ⊎ IsQuestionRefusal f.now question.now e) }
{
    one_answer::<AnyFact>();
    match ask::<AnyFact>(alloc, f, value, place) {
        Ok(answer) => answer_line(alloc, question, &answer),
        Err(_) => Err(Refused::Memory),
    }
}

/// The answer to a question about this function, a line, or two for a pair; or why there is none, which is, in this order, `NoValue`,
/// `NoBlock`, or `NotDefined`.
///
/// For the value `x` at the block `a` of `define i8 @f(i8 %x) { entry: %c = icmp ult i8 %x, 5 br i1 %c, label %a, label %b ..` it is
/// `%x i8 00000??? [0,5) never-poison`.
pub fn answered(alloc: Global, f: &Checked, question: &Question) -> Result<Vec<u8>, Refused>
    ensures text { IfOk result (λ text. IsAnswerText f.now question.now text.items) }
    ensures sound { OnOk result ((text : List ℕ) → IsAnswerText f.now question.now text → IsTrueAnswer f.now question.now text) }
    ensures refused { IfErr result (λ e. (e ≡ Memory) ⊎ IsQuestionRefusal f.now question.now e) }
{
    fit_is_printable();
    let function = f.function();
    let subject = subject_of(alloc, function, question)?;
    told(alloc, f, question, subject.value, subject.place)
}
