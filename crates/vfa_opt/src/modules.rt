//! Whole modules: what a job makes of them.

ghost use Rattle.std.specs.Prelude.{◌≡◌, ◌≤◌, ◌⊎◌, ◌^◌, List, length, OnOk, IfOk, IfErr};
ghost use Rattle.vfa_opt.specs.Module.{Piece, IsModule, IsModuleText, input_of};
ghost use Rattle.vfa_opt.specs.Sound.{IsSoundFor};
ghost use Rattle.vfa_opt.specs.Refusals.{IsAnswerable, IsRefusal};
ghost use Rattle.vfa_opt.specs.declared.refusals.Refused.{Refused};
ghost use Rattle.vfa_opt.specs.declared.refusals.Refused.TheVariants.{Memory};

use crate::asked_out::asked_out;
use crate::jobs::Job;
use crate::joined::Text;
use crate::laws::{one_list_of_pieces, one_refusal};
use crate::refusals::Refused;
use crate::self_run::self_out;
use crate::writings::Writing;
use crate::written::worked_out;
use std::alloc::AllocGlobal;
use std::thread::Threads;
use vfa_par::Gate;

/// The text and the notes, or why the job is refused.
fn job_out<R: AllocGlobal + Threads + Sync, G: Gate>(
    rt: &R,
    job: &Job,
    workers: u32,
    strict: bool,
    bytes: &[u8],
    gate: &G,
) -> Result<Text, Refused>
    requires limit { length bytes.now ≤ 2 ^ 24 }
    requires workers { (1 ≤ workers) × (workers ≤ 64) }
    ensures text { IfOk result (λ text. IsModuleText job.now strict (input_of job.now bytes.now) text.out.items text.notes.items) }
    ensures sound { OnOk result ((pieces : List Piece) × IsModule strict (input_of job.now bytes.now) pieces × IsSoundFor job.now pieces) }
    ensures refused { IfErr result (λ e. (e ≡ Memory) ⊎ IsRefusal job.now strict (input_of job.now bytes.now) e) }
{
    match job {
        Job::Opt => {
            let written = worked_out(rt, Writing::Optimised, workers, strict, bytes, gate)?;
            Ok(written.text())
        }
        Job::Facts => {
            let written = worked_out(rt, Writing::Reports, workers, strict, bytes, gate)?;
            Ok(written.text())
        }
        Job::Ask(question) => asked_out(rt, question, workers, strict, bytes, gate),
        Job::SelfRun { seed } => self_out(rt, *seed, workers, strict, gate),
    }
}

/// The job's text of a module and the notes on its functions that stay as they are; or why the job is refused.
///
/// `Job::Opt`: each define that is a function of the profile is optimised and printed; what is printed reads as a function that refines
/// it. Every other define stays as it is, with a note, and so do all bytes between defines.
///
/// `Job::Facts`: for each define that is a function of the profile the report by its table, each line of which holds whenever a
/// run comes to its place. Every other define has a note. All else is left out.
///
/// `Job::Ask`: what the table of the function of the question says of the value at the place, which holds whenever a run comes there; or that
/// none does. The notes are as with the other jobs.
///
/// `Job::SelfRun`: how long the text is that is generated from the seed and how long its optimised text, and how many functions stay as
/// they are. The bytes are not read: all that is said of the input is said of the generated text.
///
/// A module is refused, in this order, with `Unclosed` or `BadLine` exactly where it does not split, with
/// `DuplicateFunction` exactly where two functions of the profile have one name, and with `Strict` exactly where `strict`
/// holds and a function stays as it is, the first one. A question about a module is refused, in this order, with `NoFunction` exactly where no
/// function of the profile has its name; with `NoValue` and `NoBlock` exactly where it has no such value, and no such block or no edge
/// between the two blocks; and with `NotDefined` exactly where some walk comes to the place without a definition of the value.
///
/// The work on the items of the module is done by 1 to 64 workers, in contiguous pieces, each of which passes the gate first.
/// The answer is the same for every number of them.
pub fn module_out<R: AllocGlobal + Threads + Sync, G: Gate>(
    rt: &R,
    job: &Job,
    workers: u32,
    strict: bool,
    bytes: &[u8],
    gate: &G,
) -> Result<Text, Refused>
    requires limit { length bytes.now ≤ 2 ^ 24 }
    requires workers { (1 ≤ workers) × (workers ≤ 64) }
    ensures text { IfOk result (λ text. IsModuleText job.now strict (input_of job.now bytes.now) text.out.items text.notes.items) }
    ensures sound { OnOk result ((pieces : List Piece) → IsModule strict (input_of job.now bytes.now) pieces → IsSoundFor job.now pieces) }
    ensures refused { IfErr result (λ e. (e ≡ Memory) ⊎ IsRefusal job.now strict (input_of job.now bytes.now) e) }
    ensures answers { (pieces : List Piece) → IsModule strict (input_of job.now bytes.now) pieces → IsAnswerable job.now pieces →
        IfErr result (λ e. e ≡ Memory) }
    ensures refuses { (reason : Refused) → IsRefusal job.now strict (input_of job.now bytes.now) reason →
        OnOk result ⊥ × IfErr result (λ e. (e ≡ reason) ⊎ (e ≡ Memory)) }
{
    one_list_of_pieces();
    one_refusal();
    job_out(rt, job, workers, strict, bytes, gate)
}
