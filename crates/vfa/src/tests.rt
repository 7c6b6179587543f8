//! Whole runs over sources and sinks in memory.

mod carried;
mod checked;
mod faults;
mod generated;
mod hostile;
mod limits;
mod optimised;
mod printed;
mod questions;
mod refused;
mod reports;
mod self_runs;
mod strict;
mod words;
mod workers;

use crate::run::vfa_run;
use crate::status::Status;
use std::process::Abort;
use std::test::Fail;
use std::thread::Threads;
use vfa_io::{MemSink, MemSource};
use vfa_par::OpenGate;

/// A function whose result is always 0: the low bits of `%a` and the high ones of the mask have none in common.
const MASK: &[u8] = b"define i8 @f(i8 %x) {
entry:
  %a = and i8 %x, 15
  %b = and i8 %a, -16
  ret i8 %b
}
";

const MASKED: &[u8] = b"define i8 @f(i8 %x) {
entry:
  ret i8 0
}
";

/// A function outside the profile, and the note on it.
const POINTER: &[u8] = b"define ptr @f(ptr %p) {
  ret ptr %p
}
";

const POINTER_NOTE: &[u8] = b"note: @f carried: Shape at line 1\n";

const USAGE_LINE: &[u8] =
    b"usage: vfa opt|facts|ask|self [--workers N] [--strict] [--function F --value V --block B [--from P]] [--seed N]\n";

/// How a run ends, and what out and err got.
#[derive(Clone, Copy)]
struct End<'a> {
    status: Status,
    out: &'a [u8],
    err: &'a [u8],
}

/// Where a run reads and writes.
#[derive(Drop)]
struct Ends {
    source: MemSource,
    out: MemSink,
    err: MemSink,
}

/// Runs a command of these words.
fn check_words<R: AllocGlobal + Abort + Threads + Sync>(
    rt: &R,
    words: &[&str],
    mut ends: Ends,
    want: End,
) -> Result<(), Fail> {
    let mut all = Vec::new(rt.alloc());
    for word in words {
        all.push(String::from_str(rt.alloc(), word)?)?;
    }
    assert_eq!(rt;
        vfa_run(
            rt,
            &all,
            &mut ends.source,
            &mut ends.out,
            &mut ends.err,
            &OpenGate
        ),
        want.status
    );
    assert_eq!(rt; ends.out.bytes(), want.out);
    assert_eq!(rt; ends.err.bytes(), want.err);
    Ok(())
}

/// Runs a command of one word.
fn check_run<R: AllocGlobal + Abort + Threads + Sync>(
    rt: &R,
    word: &str,
    ends: Ends,
    want: End,
) -> Result<(), Fail> {
    check_words(rt, &[word], ends, want)
}

/// A source over the input in pieces of 8 bytes, of whose calls the one of this number fails, and sinks with much room.
fn failing_source<R: AllocGlobal>(rt: &R, input: &[u8], call: u32) -> Result<Ends, Fail> {
    Ok(Ends {
        source: MemSource::new(input.to_vec(rt.alloc())?, 8, [call].to_vec(rt.alloc())?),
        out: MemSink::new(rt.alloc(), 4096, Vec::new(rt.alloc()))?,
        err: MemSink::new(rt.alloc(), 4096, Vec::new(rt.alloc()))?,
    })
}

/// A source over the input, and sinks with room for as many bytes, in which nothing fails.
fn roomy<R: AllocGlobal>(rt: &R, input: &[u8], room: usize) -> Result<Ends, Fail> {
    Ok(Ends {
        source: MemSource::new(input.to_vec(rt.alloc())?, 65536, Vec::new(rt.alloc())),
        out: MemSink::new(rt.alloc(), room, Vec::new(rt.alloc()))?,
        err: MemSink::new(rt.alloc(), 4096, Vec::new(rt.alloc()))?,
    })
}

/// Runs `opt` over the input, in which nothing fails.
fn check_opt<R: AllocGlobal + Abort + Threads + Sync>(
    rt: &R,
    input: &[u8],
    want: End,
) -> Result<(), Fail> {
    check_run(rt, "opt", roomy(rt, input, 1 << 20)?, want)
}

/// Runs `opt` over the input, which prints this and has no note.
fn check_prints<R: AllocGlobal + Abort + Threads + Sync>(
    rt: &R,
    input: &[u8],
    out: &[u8],
) -> Result<(), Fail> {
    let status = Status::Done;
    check_opt(
        rt,
        input,
        End {
            status,
            out,
            err: b"",
        },
    )
}

/// Runs `opt` over the input, which prints it again, with this note.
fn check_carried<R: AllocGlobal + Abort + Threads + Sync>(
    rt: &R,
    input: &[u8],
    note: &[u8],
) -> Result<(), Fail> {
    let status = Status::Done;
    check_opt(
        rt,
        input,
        End {
            status,
            out: input,
            err: note,
        },
    )
}

/// Runs `opt` over the input, which is refused with this message.
fn check_refused<R: AllocGlobal + Abort + Threads + Sync>(
    rt: &R,
    input: &[u8],
    message: &[u8],
) -> Result<(), Fail> {
    let status = Status::Refused;
    check_opt(
        rt,
        input,
        End {
            status,
            out: b"",
            err: message,
        },
    )
}
