//! The words of a command.

ghost use Rattle.std.specs.Prelude.{◌≡◌, ℕ, List, Option, Some, None, true, false, IfOk, IfSome, option_map};
ghost use Rattle.vfa_opt.specs.declared.jobs.Job.{Job as JobOf};
ghost use Rattle.vfa_opt.specs.declared.questions.Question.{Question as QuestionOf};
ghost use Rattle.clap.specs.Words.{found_of, first_value};
ghost use Rattle.vfa.specs.declared.command.Command.{Command as Whole};
ghost use Rattle.vfa.specs.Command.{Written, texts, job_word, IsNumber, IsWorkers, IsSeed, IsName, IsNameOrNone, AreWorkers, AreSeed, AreDetails, AreCommand};
ghost use Rattle.vfa.specs.Form.{value_list, question_ids, question_of as the_question, AreNotFound, AreOptionsOf, AreTextsOf, HasNoDetails, IsJobOf};

use crate::form::{BLOCK, FROM, FUNCTION, JOB, SEED, STRICT, VALUE, WORKERS, texts_of};
use clap::ArgMatches;
use std::alloc::{AllocError, Global};
use vfa_ir::Name;
use vfa_opt::{Job, Question};

/// The most digits that a number is written with.
const MOST_DIGITS: usize = 10;

/// The most workers.
const MOST_WORKERS: u64 = 64;

/// The greatest seed.
const MOST_SEED: u64 = 4294967295;

/// A command.
#[derive(Debug, Drop)]
pub struct Command {
    /// What it is to do.
    pub job: Job,
    /// Whether it refuses a module with a function that stays as it is.
    pub strict: bool,
    /// How many workers do the work on functions, 1 to 64.
    pub workers: u32,
}

/// The number, from the first to the last, that one to ten digits stand for; None for another text.
fn number_of(digits: &str, first: u64, last: u64) -> Option<u64>
    ensures number { IfSome result (IsNumber first last digits.now) }
    ensures only { (n : ℕ) → IsNumber first last digits.now n → result ≡ Some n }
{
    if digits.len() > MOST_DIGITS {
        return None;
    }
    if digits.as_bytes().first() == Some(&b'+') {
        return None;
    }
    let Ok(number) = digits.parse::<u64>() else {
        return None;
    };
    if number < first {
        return None;
    }
    if number > last {
        return None;
    }
    Some(number)
}

/// The number of workers, 1 to 64, that one to ten digits stand for.
fn workers_of(digits: &str) -> Option<u32>
    ensures number { IfSome result (IsWorkers digits.now) }
    ensures only { (n : ℕ) → IsWorkers digits.now n → result ≡ Some n }
{
    let number = number_of(digits, 1, MOST_WORKERS)?;
    Some(number as u32)
}

/// The seed that one to ten digits stand for.
fn seed_of(digits: &str) -> Option<u32>
    ensures number { IfSome result (IsSeed digits.now) }
    ensures only { (n : ℕ) → IsSeed digits.now n → result ≡ Some n }
{
    let number = number_of(digits, 0, MOST_SEED)?;
    Some(number as u32)
}

/// The number of workers by the text that was given, 1 where none was.
fn workers_given(digits: Option<&str>) -> Option<u32>
    ensures number { IfSome result (AreWorkers (value_list (option_map (λ s. s.now) digits.entry))) }
    ensures only { (n : ℕ) → AreWorkers (value_list (option_map (λ s. s.now) digits.entry)) n → result ≡ Some n }
{
    match digits {
        None => Some(1),
        Some(digits) => workers_of(digits),
    }
}

/// The seed by the text that was given.
fn seed_by(digits: Option<&str>) -> Option<u32>
    ensures number { IfSome result (AreSeed (value_list (option_map (λ s. s.now) digits.entry))) }
    ensures only { (n : ℕ) → AreSeed (value_list (option_map (λ s. s.now) digits.entry)) n → result ≡ Some n }
{
    match digits {
        None => None,
        Some(digits) => seed_of(digits),
    }
}

/// The name that was given; None where none was, or a text of no bytes.
fn name_given<'a>(text: Option<&'a str>) -> Option<&'a str>
    ensures name { IfSome result (λ name. IsName (value_list (option_map (λ s. s.now) text.entry)) name.now) }
    ensures only { (name : List ℕ) → IsName (value_list (option_map (λ s. s.now) text.entry)) name → option_map (λ s. s.now) result ≡ Some name }
{
    match text {
        None => None,
        Some(name) => {
            if name.is_empty() {
                return None;
            }
            Some(name)
        }
    }
}

/// The question of these names.
fn question_of(
    alloc: Global,
    function: &str,
    value: &str,
    block: &str,
    from: Option<&str>,
) -> Result<Question, AllocError>
    ensures { IfOk result (λ question. question ≡ the_question function.now value.now block.now (option_map (λ s. s.now) from.entry)) }
{
    let function = Name::of(alloc, function.as_bytes())?;
    let value = Name::of(alloc, value.as_bytes())?;
    let block = Name::of(alloc, block.as_bytes())?;
    let from = match from {
        None => None,
        Some(name) => Some(Name::of(alloc, name.as_bytes())?),
    };
    Ok(Question {
        function,
        value,
        block,
        from,
    })
}

/// Whether a text of no bytes was given for a name.
fn is_unnamed(text: Option<&str>) -> bool
    ensures named { result ≡ false → IsNameOrNone (value_list (option_map (λ s. s.now) text.entry)) (option_map (λ s. s.now) text.entry) }
    ensures unnamed { result ≡ true → (name : Option (List ℕ)) → IsNameOrNone (value_list (option_map (λ s. s.now) text.entry)) name → ⊥ }
{
    match text {
        None => false,
        Some(name) => name.is_empty(),
    }
}

/// Whether nothing of a question is given.
fn is_no_question(matches: &ArgMatches<'_>) -> bool
    ensures none { result ≡ true → AreNotFound question_ids (found_of matches.now) }
    ensures some { result ≡ false → AreNotFound question_ids (found_of matches.now) → ⊥ }
{
    if matches.get_str(FUNCTION).is_some() {
        return false;
    }
    if matches.get_str(VALUE).is_some() {
        return false;
    }
    if matches.get_str(BLOCK).is_some() {
        return false;
    }
    matches.get_str(FROM).is_none()
}

/// The question of `ask`; None where a name is wanting or has no bytes, or where a seed is given.
fn question_given(alloc: Global, matches: &ArgMatches<'_>) -> Result<Option<Question>, AllocError>
    ensures given { IfOk result (λ given. (written : List Written) → AreOptionsOf written (found_of matches.now) →
        IfSome given (λ question. AreDetails (JobOf.Ask question) written)) }
    ensures only { IfOk result (λ given. (written : List Written) → AreOptionsOf written (found_of matches.now) →
        (question : QuestionOf) → AreDetails (JobOf.Ask question) written → given ≡ Some question) }
{
    if matches.get_str(SEED).is_some() {
        return Ok(None);
    }
    let Some(function) = name_given(matches.get_str(FUNCTION)) else {
        return Ok(None);
    };
    let Some(value) = name_given(matches.get_str(VALUE)) else {
        return Ok(None);
    };
    let Some(block) = name_given(matches.get_str(BLOCK)) else {
        return Ok(None);
    };
    let from = matches.get_str(FROM);
    if is_unnamed(from) {
        return Ok(None);
    }
    Ok(Some(question_of(alloc, function, value, block, from)?))
}

/// The seed of `self`; None where it is none, or where `--strict` or anything of a question is given.
fn seed_given(matches: &ArgMatches<'_>) -> Option<u32>
    ensures given { (written : List Written) → AreOptionsOf written (found_of matches.now) → IfSome result (λ seed. AreDetails (JobOf.SelfRun seed) written) }
    ensures only { (written : List Written) → AreOptionsOf written (found_of matches.now) →
        (seed : ℕ) → AreDetails (JobOf.SelfRun seed) written → result ≡ Some seed }
{
    if matches.get_flag(STRICT) {
        return None;
    }
    if !is_no_question(matches) {
        return None;
    }
    seed_by(matches.get_str(SEED))
}

/// The job of this name, of those that have no options of their own.
fn job_of(word: &str) -> Option<Job>
    ensures named { IfSome result (λ job. (word.now ≡ job_word job) × HasNoDetails job) }
    ensures only { (job : JobOf) → HasNoDetails job → word.now ≡ job_word job → result ≡ Some job }
{
    if word == "opt" {
        return Some(Job::Opt);
    }
    if word == "facts" {
        return Some(Job::Facts);
    }
    None
}

/// The job of this name, with what is given for it; None where that is wanting, or anything is given that is not for it.
fn job_given(alloc: Global, word: &str, matches: &ArgMatches<'_>) -> Result<Option<Job>, AllocError>
    ensures given { IfOk result (λ given. (written : List Written) → AreOptionsOf written (found_of matches.now) → IfSome given (IsJobOf word.now written)) }
    ensures only { IfOk result (λ given. (written : List Written) → AreOptionsOf written (found_of matches.now) →
        (job : JobOf) → IsJobOf word.now written job → given ≡ Some job) }
{
    if word == "ask" {
        let Some(question) = question_given(alloc, matches)? else {
            return Ok(None);
        };
        return Ok(Some(Job::Ask(question)));
    }
    if word == "self" {
        let Some(seed) = seed_given(matches) else {
            return Ok(None);
        };
        return Ok(Some(Job::SelfRun { seed }));
    }
    if matches.get_str(SEED).is_some() {
        return Ok(None);
    }
    if !is_no_question(matches) {
        return Ok(None);
    }
    Ok(job_of(word))
}

/// The command that the texts of the words stand for.
fn command_given(alloc: Global, matches: &ArgMatches<'_>) -> Result<Option<Command>, AllocError>
    ensures given { IfOk result (λ given. (words : List (List ℕ)) → AreTextsOf words (found_of matches.now) → IfSome given (AreCommand words)) }
    ensures only { IfOk result (λ given. (words : List (List ℕ)) → AreTextsOf words (found_of matches.now) →
        (command : Whole) → AreCommand words command → given ≡ Some command) }
{
    let Some(word) = matches.get_str(JOB) else {
        return Ok(None);
    };
    let Some(workers) = workers_given(matches.get_str(WORKERS)) else {
        return Ok(None);
    };
    let strict = matches.get_flag(STRICT);
    let Some(job) = job_given(alloc, word, matches)? else {
        return Ok(None);
    };
    Ok(Some(Command {
        job,
        strict,
        workers,
    }))
}

/// The command that these words ask for, the words after the name of the program; None where they ask for none.
///
/// A job, `opt`, `facts`, `ask` or `self`, stands alone among the words that are no options. Each option stands at most once, and its
/// value is the next word or stands after `=`. `--workers`, with a number from 1 to 64, is for each job, and `--strict` for each but `self`;
/// `ask` needs `--function`, `--value` and `--block`, with names, and may have `--from`; `self` needs `--seed`. Behind `--` no word is an
/// option.
pub fn command_of(alloc: Global, words: &[String]) -> Result<Option<Command>, AllocError>
    ensures asked { IfOk result (λ asked. IfSome asked (AreCommand (texts words.now))) }
    ensures only { IfOk result (λ asked. (command : Whole) → AreCommand (texts words.now) command → asked ≡ Some command) }
{
    match texts_of(alloc, words)? {
        None => Ok(None),
        Some(matches) => command_given(alloc, &matches),
    }
}
