//! An analyser and optimiser for the integer part of LLVM's textual IR.
#![tactic(auto)]

mod command;
mod form;
mod laws;
mod refusals;
mod run;
mod status;
#[cfg(test)]
mod tests;

use run::vfa_run;
use status::Status;
use std::process::ExitCode;
use std::{env, io};
use vfa_io::{StdSink, StdSource, Stream};
use vfa_par::OpenGate;

fn main(rt: HostRuntime) -> ExitCode {
    let words = match words_of(&rt) {
        Ok(words) => words,
        Err(error) if error.kind() == io::ErrorKind::OutOfMemory => {
            return ExitCode::from(Status::Memory.exit_number());
        }
        // A word that is not UTF-8 is in no command, and neither are no words.
        Err(_) => Vec::new(rt.alloc()),
    };
    let mut source = StdSource::new(rt.stdin());
    let mut out = StdSink::new(Stream::Output(rt.stdout()));
    let mut err = StdSink::new(Stream::Error(rt.stderr()));
    let status = vfa_run(&rt, &words, &mut source, &mut out, &mut err, &OpenGate);
    ExitCode::from(status.exit_number())
}

// The words after the name of the program.
fn words_of(rt: &HostRuntime) -> io::Result<Vec<String>> {
    let mut words = Vec::new(rt.alloc());
    for word in env::args(rt)?.skip(1) {
        words.push(word)?;
    }
    Ok(words)
}
