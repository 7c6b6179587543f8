//! The form in which the words of a command are read.

ghost use Rattle.std.specs.Prelude.{◌≡◌, IfOk};
ghost use Rattle.clap.specs.Words.{app_of, with_rule};
ghost use Rattle.vfa.specs.Command.{texts};
ghost use Rattle.vfa.specs.Form.{bare, job_rule, strict_rule, value_rule, form as the_form, IsReadIn};

use clap::error::ErrorKind;
use clap::{Arg, ArgAction, ArgMatches};
use std::alloc::{AllocError, Global};

/// The name of the job among the words.
pub const JOB: &str = "job";

/// The name of the flag that refuses a module with a function that stays as it is.
pub const STRICT: &str = "strict";

/// The name of the option that tells the number of workers.
pub const WORKERS: &str = "workers";

/// The name of the option that tells the function of a question.
pub const FUNCTION: &str = "function";

/// The name of the option that tells what value of the function is asked for.
pub const VALUE: &str = "value";

/// The name of the option that tells the block at which it is asked for.
pub const BLOCK: &str = "block";

/// The name of the option that tells from which block it is asked for.
pub const FROM: &str = "from";

/// The name of the option that tells the seed of a generated module.
pub const SEED: &str = "seed";

/// The form with one more option, which has a value.
fn with_value<'a>(
    form: clap::Command<'a>,
    alloc: Global,
    name: &'a str,
) -> Result<clap::Command<'a>, AllocError>
    ensures { IfOk result (λ form'. app_of form' ≡ with_rule (app_of form.entry) (value_rule name.entry.now)) }
{
    form.arg(Arg::new(alloc, name).long(name).action(ArgAction::Set))
}

/// The form with a job and `--strict` alone.
fn job_form<'a>(alloc: Global) -> Result<clap::Command<'a>, AllocError>
    ensures { IfOk result (λ form. app_of form ≡ with_rule (with_rule bare job_rule) strict_rule) }
{
    let job = Arg::new(alloc, JOB).action(ArgAction::Set);
    let strict = Arg::new(alloc, STRICT)
        .long(STRICT)
        .action(ArgAction::SetTrue);
    clap::Command::new(alloc, "vfa")
        .no_binary_name(true)
        .disable_help_flag(true)
        .arg(job)?
        .arg(strict)
}

/// The form: a job, `--strict`, and the options that have a value, which is a text.
pub fn form<'a>(alloc: Global) -> Result<clap::Command<'a>, AllocError>
    ensures { IfOk result (λ form. app_of form ≡ the_form) }
{
    let form = with_value(job_form(alloc)?, alloc, WORKERS)?;
    let form = with_value(form, alloc, FUNCTION)?;
    let form = with_value(form, alloc, VALUE)?;
    let form = with_value(form, alloc, BLOCK)?;
    let form = with_value(form, alloc, FROM)?;
    with_value(form, alloc, SEED)
}

/// The texts of the words in the form; None where the words do not fit it.
pub fn texts_of<'a>(
    alloc: Global,
    words: &'a [String],
) -> Result<Option<ArgMatches<'a>>, AllocError>
    ensures { IfOk result (IsReadIn (texts words.entry.now)) }
{
    let form = form(alloc)?;
    match form.try_get_matches_from(words) {
        Ok(matches) => Ok(Some(matches)),
        Err(error) if error.kind() == ErrorKind::OutOfMemory => Err(AllocError),
        Err(_) => Ok(None),
    }
}
