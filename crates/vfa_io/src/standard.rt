//! Standard input, output and error. They tell no bytes.
ghost use Rattle.std.specs.Prelude.{◌≡◌, ◌+◌, ◌^◌, ◌<◌, ◌≤◌, ℕ, List, length, Option, None};

use super::{Failed, Sink, Source};
use std::io::{Read, Write};
use std::marker::Model;
use std::rt::{Stderr, Stdin, Stdout};

/// Standard input as a source.
#[derive(Drop)]
pub struct StdSource {
    stdin: Stdin,
    faults: u64,
}

impl Model for StdSource {
    ghost Value = { ℕ };

    ghost view = { λ s. s.faults };

    ghost invariant = { λ s. s.faults < 2 ^ 64 };
}

impl StdSource {
    /// Standard input, with no fault so far.
    pub fn new(stdin: Stdin) -> StdSource
        ensures { result ≡ 0 }
    {
        StdSource { stdin, faults: 0 }
    }
}

impl Source for StdSource {
    ghost state = { λ s. record { left = None; faults = s } };

    fn read(&mut self, buf: &mut [u8]) -> Result<usize, Failed> {
        match self.stdin.read(buf) {
            Ok(count) => Ok(count),
            Err(_) => {
                self.faults = self.faults.saturating_add(1);
                Err(Failed)
            }
        }
    }
}

/// A standard stream that takes bytes.
#[derive(Clone, Copy)]
pub enum Stream {
    /// Standard output.
    Output(Stdout),
    /// Standard error.
    Error(Stderr),
}

/// Standard output or standard error as a sink.
#[derive(Drop)]
pub struct StdSink {
    stream: Stream,
    faults: u64,
}

impl Model for StdSink {
    ghost Value = { ℕ };

    ghost view = { λ s. s.faults };

    ghost invariant = { λ s. s.faults < 2 ^ 64 };
}

impl StdSink {
    /// The stream, with no fault so far.
    pub fn new(stream: Stream) -> StdSink
        ensures { result ≡ 0 }
    {
        StdSink { stream, faults: 0 }
    }
}

impl Sink for StdSink {
    ghost state = { λ s. record { written = None; faults = s } };

    fn write(&mut self, bytes: &[u8]) -> Result<usize, Failed> {
        let written = match &mut self.stream {
            Stream::Output(stdout) => stdout.write(bytes),
            Stream::Error(stderr) => stderr.write(bytes),
        };
        match written {
            Ok(count) if count > 0 => Ok(count),
            // A write of no byte is a fault too.
            _ => {
                self.faults = self.faults.saturating_add(1);
                Err(Failed)
            }
        }
    }
}
