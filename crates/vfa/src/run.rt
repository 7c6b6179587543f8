//! The run of the program, from words and a source to a status.

ghost use Rattle.std.specs.Prelude.{◌≡◌, ℕ, ◌≤◌, ◌⊎◌, ◌↔◌, List, IfOk, IfErr, IsTrue, OnOk, OnErr, length};
ghost use Rattle.vfa_io.specs.States.{change, SourceFailed, GaveAtMost, GaveMore, SinkFailed, Got, GotNothing};
ghost use Rattle.vfa_opt.specs.Module.{input_of};
ghost use Rattle.vfa.specs.declared.command.Command.{Command};
ghost use Rattle.vfa.specs.declared.refusals.Refusal.{Refusal};
ghost use Rattle.vfa.specs.declared.refusals.Refusal.TheVariants.{TooLong};
ghost use Rattle.vfa.specs.declared.run.Stop.TheVariants.{Memory as OutOfMemory};
ghost use Rattle.vfa.specs.Command.{texts, HasWorkers, AreCommand, Asks, FailsFor, IsInputOf, IsReadBy, ReadsSource};
ghost use Rattle.vfa.specs.Refusals.{most, IsRefusal, refusal_text};
ghost use Rattle.vfa.specs.Run.{usage_line, fault_read, Reports, IsAnswer, IsDone, IsRefused, StoppedInText, StoppedInNotes, IsWriteFault};
ghost use Rattle.vfa.specs.Stops.{IsInputStop, IsStop, IsStopOf, IsReadStop};

use crate::command::{Command, command_of};
use crate::refusals::{Refusal, message_of};
use crate::status::Status;
use std::alloc::{AllocGlobal, Global};
use std::thread::Threads;
use vfa_io::{Failed, ReadFault, Sink, Source, read_all, write_all};
use vfa_opt::{Job, Refused, Text, generated_is_within, module_out};
use vfa_par::Gate;

/// The most bytes that an input may have.
const MOST: usize = 1 << 24;

const USAGE: &[u8] =
    b"usage: vfa opt|facts|ask|self [--workers N] [--strict] [--function F --value V --block B [--from P]] [--seed N]\n";

/// Why there is no text to write.
#[derive(Debug, Drop)]
pub enum Stop {
    /// The source failed.
    Read,
    /// The input is refused, with this message.
    Refused(Vec<u8>),
    /// Memory ran out.
    Memory,
}

// The stop of a refusal.
fn stop_of(alloc: Global, refusal: &Refusal) -> Stop
    ensures { IsStopOf refusal.now result }
{
    if let Refusal::Module(Refused::Memory) = refusal {
        return Stop::Memory;
    }
    match message_of(alloc, refusal) {
        Ok(message) => Stop::Refused(message),
        Err(_) => Stop::Memory,
    }
}

// The command's text of its input, and the notes on it; the input are these bytes, or the generated text.
fn answer<R: AllocGlobal + Threads + Sync, G: Gate>(
    rt: &R,
    command: &Command,
    bytes: &[u8],
    gate: &G,
) -> Result<Text, Stop>
    requires limit { length bytes.now ≤ most }
    requires workers { HasWorkers command.now }
    ensures answer { IfOk result (λ text. IsAnswer command.now (input_of command.now.job bytes.now) text.out.items text.notes.items) }
    ensures stop { IfErr result (IsInputStop command.now (input_of command.now.job bytes.now)) }
    ensures read { IfErr result (λ stop. IsReadStop stop → ⊥) }
    ensures refuses { (reason : Refusal) → IsRefusal command.now (input_of command.now.job bytes.now) reason →
        OnOk result ⊥ × IfErr result (IsStopOf reason) }
{
    generated_is_within();
    match module_out(
        rt,
        &command.job,
        command.workers,
        command.strict,
        bytes,
        gate,
    ) {
        Ok(text) => Ok(text),
        Err(refused) => Err(stop_of(rt.alloc(), &Refusal::Module(refused))),
    }
}

// The text and the notes for all that the source has left.
fn answer_source<R: AllocGlobal + Threads + Sync, S: Source, G: Gate>(
    rt: &R,
    command: &Command,
    source: &mut S,
    gate: &G,
) -> Result<Text, Stop>
    requires workers { HasWorkers command.now }
    requires reads { ReadsSource command.now.job }
    ensures answer { (input : List ℕ) → IsInputOf command.now.job (S.state source.old) input →
        IfOk result (λ text. IsAnswer command.now input text.out.items text.notes.items) }
    ensures end { (input : List ℕ) → IsInputOf command.now.job (S.state source.old) input →
        OnOk result (IsReadBy command.now.job (change S.state source.old source.new)) }
    ensures read { IfErr result (λ stop. IsReadStop stop →
        SourceFailed (change S.state source.old source.new) × GaveAtMost (change S.state source.old source.new) most) }
    ensures stop { (input : List ℕ) → IsInputOf command.now.job (S.state source.old) input →
        IfErr result (IsStop command.now input (change S.state source.old source.new)) }
    ensures refuses { (input : List ℕ) → IsInputOf command.now.job (S.state source.old) input →
        (SourceFailed (change S.state source.old source.new) → ⊥) →
        (reason : Refusal) → IsRefusal command.now input reason → OnOk result ⊥ × IfErr result (IsStopOf reason) }
    ensures too_long { (input : List ℕ) → IsInputOf command.now.job (S.state source.old) input →
        GaveMore (change S.state source.old source.new) most → OnOk result ⊥ × IfErr result (IsStopOf TooLong) }
    ensures later { (S.state source.old).faults ≤ (S.state source.new).faults }
{
    let input = match read_all(rt.alloc(), source, MOST) {
        Ok(input) => input,
        Err(ReadFault::Read) => return Err(Stop::Read),
        Err(ReadFault::TooLong) => return Err(stop_of(rt.alloc(), &Refusal::TooLong)),
        Err(ReadFault::Memory) => return Err(Stop::Memory),
    };
    answer(rt, command, &input, gate)
}

// Whether a job reads the source.
fn reads_source(job: &Job) -> bool
    ensures { IsTrue result ↔ ReadsSource job.now }
{
    !matches!(job, Job::SelfRun { .. })
}

// The text and the notes for the command's input.
fn answer_command<R: AllocGlobal + Threads + Sync, S: Source, G: Gate>(
    rt: &R,
    command: &Command,
    source: &mut S,
    gate: &G,
) -> Result<Text, Stop>
    requires { HasWorkers command.now }
    ensures answer { (input : List ℕ) → IsInputOf command.now.job (S.state source.old) input →
        IfOk result (λ text. IsAnswer command.now input text.out.items text.notes.items) }
    ensures end { (input : List ℕ) → IsInputOf command.now.job (S.state source.old) input →
        OnOk result (IsReadBy command.now.job (change S.state source.old source.new)) }
    ensures read { IfErr result (λ stop. IsReadStop stop →
        FailsFor command.now.job (change S.state source.old source.new) × GaveAtMost (change S.state source.old source.new) most) }
    ensures stop { (input : List ℕ) → IsInputOf command.now.job (S.state source.old) input →
        IfErr result (IsStop command.now input (change S.state source.old source.new)) }
    ensures refuses { (input : List ℕ) → IsInputOf command.now.job (S.state source.old) input →
        (FailsFor command.now.job (change S.state source.old source.new) → ⊥) →
        (reason : Refusal) → IsRefusal command.now input reason → OnOk result ⊥ × IfErr result (IsStopOf reason) }
    ensures too_long { ReadsSource command.now.job → (input : List ℕ) → IsInputOf command.now.job (S.state source.old) input →
        GaveMore (change S.state source.old source.new) most → OnOk result ⊥ × IfErr result (IsStopOf TooLong) }
    ensures unread { (ReadsSource command.now.job → ⊥) → source.new ≡ source.old }
    ensures later { (S.state source.old).faults ≤ (S.state source.new).faults }
{
    generated_is_within();
    if reads_source(&command.job) {
        return answer_source(rt, command, source, gate);
    }
    answer(rt, command, &[], gate)
}

// Writes a message. A fault of the sink is let go: it changes no status.
fn say<E: Sink>(err: &mut E, message: &[u8])
    ensures message { Reports (change E.state err.old err.new) message.now }
    ensures later { (E.state err.old).faults ≤ (E.state err.new).faults }
{
    let _ = write_all(err, message);
}

// Writes the text to out, and then the notes to err.
fn write_answer<O: Sink, E: Sink>(out: &mut O, err: &mut E, text: &Text) -> Result<(), Failed>
    ensures text { OnOk result (Got (change O.state out.old out.new) text.now.out.items) }
    ensures notes { OnOk result (Got (change E.state err.old err.new) text.now.notes.items) }
    ensures failed { OnErr result
        (StoppedInText (change O.state out.old out.new) (change E.state err.old err.new) text.now.out.items
        ⊎ StoppedInNotes (change O.state out.old out.new) (change E.state err.old err.new) text.now.out.items text.now.notes.items) }
    ensures later { ((O.state out.old).faults ≤ (O.state out.new).faults) × ((E.state err.old).faults ≤ (E.state err.new).faults) }
{
    write_all(out, &text.out)?;
    write_all(err, &text.notes)
}

// Runs a command.
fn run_command<R: AllocGlobal + Threads + Sync, S: Source, O: Sink, E: Sink, G: Gate>(
    rt: &R,
    command: &Command,
    source: &mut S,
    out: &mut O,
    err: &mut E,
    gate: &G,
) -> Status
    requires { HasWorkers command.now }
    ensures not_usage { result ≡ Status.Usage → ⊥ }
    ensures done { (input : List ℕ) → IsInputOf command.now.job (S.state source.old) input → result ≡ Status.Done →
        IsDone command.now input (change O.state out.old out.new) (change E.state err.old err.new) }
    ensures done_reads { (input : List ℕ) → IsInputOf command.now.job (S.state source.old) input → result ≡ Status.Done →
        IsReadBy command.now.job (change S.state source.old source.new) }
    ensures refused { (input : List ℕ) → IsInputOf command.now.job (S.state source.old) input → result ≡ Status.Refused →
        IsRefused command.now input (change S.state source.old source.new) (change E.state err.old err.new) }
    ensures refused_writes_nothing { result ≡ Status.Refused → GotNothing (change O.state out.old out.new) }
    ensures read_fault { result ≡ Status.ReadFault → FailsFor command.now.job (change S.state source.old source.new) }
    ensures read_fault_within { result ≡ Status.ReadFault → GaveAtMost (change S.state source.old source.new) most }
    ensures read_fault_says { result ≡ Status.ReadFault → Reports (change E.state err.old err.new) fault_read }
    ensures read_fault_writes_nothing { result ≡ Status.ReadFault → GotNothing (change O.state out.old out.new) }
    ensures write_fault { result ≡ Status.WriteFault →
        SinkFailed (change O.state out.old out.new) ⊎ SinkFailed (change E.state err.old err.new) }
    ensures write_fault_writes { (input : List ℕ) → IsInputOf command.now.job (S.state source.old) input → result ≡ Status.WriteFault →
        IsWriteFault command.now input (change O.state out.old out.new) (change E.state err.old err.new) }
    ensures memory { result ≡ Status.Memory →
        GotNothing (change O.state out.old out.new) × GotNothing (change E.state err.old err.new) }
    ensures completes { (input : List ℕ) → IsInputOf command.now.job (S.state source.old) input →
        (FailsFor command.now.job (change S.state source.old source.new) → ⊥) → (SinkFailed (change O.state out.old out.new) → ⊥) →
        (SinkFailed (change E.state err.old err.new) → ⊥) → ((reason : Refusal) → IsRefusal command.now input reason → ⊥) →
        (result ≡ Status.Done) ⊎ (result ≡ Status.Memory) }
    ensures refuses { (input : List ℕ) → IsInputOf command.now.job (S.state source.old) input →
        (FailsFor command.now.job (change S.state source.old source.new) → ⊥) → (reason : Refusal) → IsRefusal command.now input reason →
        (result ≡ Status.Memory) ⊎ ((result ≡ Status.Refused) × Reports (change E.state err.old err.new) (refusal_text reason)) }
    ensures too_long { ReadsSource command.now.job → (input : List ℕ) → IsInputOf command.now.job (S.state source.old) input →
        GaveMore (change S.state source.old source.new) most →
        (result ≡ Status.Memory) ⊎ ((result ≡ Status.Refused) × Reports (change E.state err.old err.new) (refusal_text TooLong)) }
    ensures unread { (ReadsSource command.now.job → ⊥) → source.new ≡ source.old }
    ensures later { ((S.state source.old).faults ≤ (S.state source.new).faults)
        × ((O.state out.old).faults ≤ (O.state out.new).faults) × ((E.state err.old).faults ≤ (E.state err.new).faults) }
{
    match answer_command(rt, command, source, gate) {
        Ok(text) => match write_answer(out, err, &text) {
            Ok(()) => Status::Done,
            Err(Failed) => Status::WriteFault,
        },
        Err(Stop::Read) => {
            say(err, b"fault: read\n");
            Status::ReadFault
        }
        Err(Stop::Refused(message)) => {
            say(err, &message);
            Status::Refused
        }
        Err(Stop::Memory) => Status::Memory,
    }
}

/// Runs a command: reads the words, then all of the source, and writes the answer to out and the notes, or a message, to
/// err.
///
/// `opt` reads a module (`docs/LANGUAGE.md`) and writes it with its functions optimised (`docs/REWRITING.md`). `facts` writes a report on
/// each of its functions in place of it: what is known of each name, where it is defined and where it is used. `ask` writes what is
/// known of one value of one function, at the entry of a block or where that is entered from another one. `self` reads no source: it
/// does `opt` on the text that is generated from its seed, and writes five lines on it. The work on functions is done by as many workers
/// as the command asks for, each piece of it after the gate; what is written is the same for every number of them.
pub fn vfa_run<R: AllocGlobal + Threads + Sync, S: Source, O: Sink, E: Sink, G: Gate>(
    rt: &R,
    words: &[String],
    source: &mut S,
    out: &mut O,
    err: &mut E,
    gate: &G,
) -> Status
    // Done: out has the command's text of the input's module, and err has the notes. Each function that `opt` prints reads as
    // one that refines the function that was read, and each operand of this one that its table knows to be one number is printed as
    // that number, wherever its line is still printed; each report of `facts` is the one by the function's table, and each of its
    // lines holds whenever a run comes to its place; and so does the answer of `ask`. The input was read to its end, but by `self`
    // nothing.
    ensures done { (command : Command) (input : List ℕ) → Asks (texts words.now) (S.state source.old) command input →
        result ≡ Status.Done → IsDone command input (change O.state out.old out.new) (change E.state err.old err.new) }
    ensures done_reads { (command : Command) (input : List ℕ) → Asks (texts words.now) (S.state source.old) command input →
        result ≡ Status.Done → IsReadBy command.job (change S.state source.old source.new) }

    // Refused: the input is too long, or no module, or has no answer to the question. Out has nothing, and err has the message.
    ensures refused { (command : Command) (input : List ℕ) → Asks (texts words.now) (S.state source.old) command input →
        result ≡ Status.Refused →
        IsRefused command input (change S.state source.old source.new) (change E.state err.old err.new) }
    ensures refused_writes_nothing { result ≡ Status.Refused → GotNothing (change O.state out.old out.new) }

    // Usage: only where the words ask for no command, and always there but for want of memory. Nothing is read, out has
    // nothing, and err has the usage line.
    ensures usage { result ≡ Status.Usage → (command : Command) → AreCommand (texts words.now) command → ⊥ }
    ensures no_command { ((command : Command) → AreCommand (texts words.now) command → ⊥) →
        (result ≡ Status.Usage) ⊎ (result ≡ Status.Memory) }
    ensures usage_says { result ≡ Status.Usage → Reports (change E.state err.old err.new) usage_line }
    ensures usage_reads_nothing { result ≡ Status.Usage → source.new ≡ source.old }
    ensures usage_writes_nothing { result ≡ Status.Usage → GotNothing (change O.state out.old out.new) }

    // ReadFault: only where the source's count of faults rose, after at most as many bytes as are allowed, and in no job
    // that reads no source. Out has nothing, and err has the message.
    ensures read_fault { result ≡ Status.ReadFault → SourceFailed (change S.state source.old source.new) }
    ensures read_fault_reads { (command : Command) → AreCommand (texts words.now) command → result ≡ Status.ReadFault → ReadsSource command.job }
    ensures read_fault_within { result ≡ Status.ReadFault → GaveAtMost (change S.state source.old source.new) most }
    ensures read_fault_says { result ≡ Status.ReadFault → Reports (change E.state err.old err.new) fault_read }
    ensures read_fault_writes_nothing { result ≡ Status.ReadFault → GotNothing (change O.state out.old out.new) }

    // WriteFault: either out's count of faults rose, and out has a prefix of the text and err nothing; or err's count rose
    // while the notes were written, and out has the text and err a prefix of the notes.
    ensures write_fault { result ≡ Status.WriteFault →
        SinkFailed (change O.state out.old out.new) ⊎ SinkFailed (change E.state err.old err.new) }
    ensures write_fault_writes { (command : Command) (input : List ℕ) → Asks (texts words.now) (S.state source.old) command input →
        result ≡ Status.WriteFault → IsWriteFault command input (change O.state out.old out.new) (change E.state err.old err.new) }

    // Memory comes at any time. Nothing is written then.
    ensures memory { result ≡ Status.Memory →
        GotNothing (change O.state out.old out.new) × GotNothing (change E.state err.old err.new) }

    // The other directions. Where no count rises and the input is not refused, all is done. Where the source's count does
    // not rise, the input is refused for each reason that holds; and where it gave too many bytes, it is refused for that,
    // whether its count rose or not. The source's count is no matter of a job that reads no source, which leaves it as it is.
    ensures completes { (command : Command) (input : List ℕ) → Asks (texts words.now) (S.state source.old) command input →
        (FailsFor command.job (change S.state source.old source.new) → ⊥) → (SinkFailed (change O.state out.old out.new) → ⊥) →
        (SinkFailed (change E.state err.old err.new) → ⊥) → ((reason : Refusal) → IsRefusal command input reason → ⊥) →
        (result ≡ Status.Done) ⊎ (result ≡ Status.Memory) }
    ensures refuses { (command : Command) (input : List ℕ) → Asks (texts words.now) (S.state source.old) command input →
        (FailsFor command.job (change S.state source.old source.new) → ⊥) → (reason : Refusal) → IsRefusal command input reason →
        (result ≡ Status.Memory) ⊎ ((result ≡ Status.Refused) × Reports (change E.state err.old err.new) (refusal_text reason)) }
    ensures too_long { (command : Command) (input : List ℕ) → Asks (texts words.now) (S.state source.old) command input →
        ReadsSource command.job → GaveMore (change S.state source.old source.new) most →
        (result ≡ Status.Memory) ⊎ ((result ≡ Status.Refused) × Reports (change E.state err.old err.new) (refusal_text TooLong)) }
    ensures unread { (command : Command) → AreCommand (texts words.now) command → (ReadsSource command.job → ⊥) → source.new ≡ source.old }

    // Counts never fall.
    ensures later { ((S.state source.old).faults ≤ (S.state source.new).faults)
        × ((O.state out.old).faults ≤ (O.state out.new).faults) × ((E.state err.old).faults ≤ (E.state err.new).faults) }
{
    match command_of(rt.alloc(), words) {
        Ok(Some(command)) => run_command(rt, &command, source, out, err, gate),
        Ok(None) => {
            say(err, USAGE);
            Status::Usage
        }
        Err(_) => Status::Memory,
    }
}
