//! A source and a sink in memory, which tell their bytes and fail at chosen calls.
ghost use Rattle.std.specs.Prelude.{◌≡◌, ◌+◌, ◌-◌, ◌^◌, ◌<◌, ◌≤◌, ◌↔◌, ℕ, List, [], ◌++◌, length, take, drop, Option, Some, Result, IfOk, OnOk, OnErr, IfSome, IsErr, IsTrue, ◌⊎◌, Contains, vec_capacity};
ghost use Rattle.std.specs.Io.KnownBytes.{Consumes, Appends, Keeps};
ghost use Rattle.vfa_io.specs.Count.{raised, HasCause};
ghost use Rattle.vfa_io.specs.Memory.{Reading, piece_of, after_read, after_failed_read, Writing, part_of, after_write, after_failed_write};

use super::{Failed, Sink, Source};
use std::alloc::{AllocError, Global};
use std::marker::Model;

/// A source over bytes in memory, which gives them in pieces.
#[derive(Drop)]
pub struct MemSource {
    bytes: Vec<u8>,
    // The bytes before this index are given.
    at: usize,
    piece: usize,
    failing: Vec<u32>,
    calls: u64,
    faults: u64,
}

impl Model for MemSource {
    ghost Value = { Reading };

    ghost view = { λ s. record { left = drop s.at s.bytes.items; piece = s.piece; failing = s.failing.items; calls = s.calls; faults = s.faults } };

    ghost invariant = { λ s. (s.at ≤ length s.bytes.items) × (0 < s.piece) };
}

impl MemSource {
    /// A source with these bytes left, which gives at most `piece` bytes in one call.
    /// A call fails exactly where its number, from 1, is one of `failing`.
    pub fn new(bytes: Vec<u8>, piece: usize, failing: Vec<u32>) -> MemSource
        requires { 0 < piece }
        ensures { result ≡ record { left = bytes.items; piece = piece; failing = failing.items; calls = 0; faults = 0 } }
    {
        MemSource {
            bytes,
            at: 0,
            piece,
            failing,
            calls: 0,
            faults: 0,
        }
    }
}

impl Source for MemSource {
    ghost state = { λ s. record { left = Some s.left; faults = s.faults } };

    fn read(&mut self, buf: &mut [u8]) -> Result<usize, Failed>
        requires { 0 < length buf.old }

        // As any source.
        ensures fits { IfOk result (λ n. n ≤ length buf.new) }
        ensures given { IfOk result (λ n. Consumes (Some self.old.left) (Some self.new.left) (take n buf.new)) }
        ensures end { IfOk result (λ n. n ≡ 0 ↔ self.old.left ≡ []) }
        ensures unchanged { OnErr result (Keeps (Some self.old.left) (Some self.new.left)) }
        ensures cause { HasCause self.old.faults self.new.faults result }
        ensures count { self.new.faults < 2 ^ 64 }

        // Exactly.
        ensures failing { IsErr result ↔ Contains self.old.failing (raised self.old.calls) }
        ensures failed { OnErr result (self.new ≡ after_failed_read self.old) }
        ensures amount { IfOk result (λ n. n ≡ piece_of self.old (length buf.old)) }
        ensures read { IfOk result (λ n. self.new ≡ after_read self.old n) }
        ensures buffer { IfOk result (λ n. buf.new ≡ take n self.old.left ++ drop n buf.old) }
    {
        self.calls = self.calls.saturating_add(1);
        if is_among(&self.failing, self.calls) {
            self.faults = self.faults.saturating_add(1);
            return Err(Failed);
        }
        let left = &self.bytes[self.at..];
        let count = self.piece.min(buf.len()).min(left.len());
        buf[..count].copy_from_slice(&left[..count]);
        self.at += count;
        Ok(count)
    }
}

/// A sink that keeps what is written in memory, up to some number of bytes.
#[derive(Drop)]
pub struct MemSink {
    bytes: Vec<u8>,
    room: usize,
    failing: Vec<u32>,
    calls: u64,
    faults: u64,
}

impl Model for MemSink {
    ghost Value = { Writing };

    ghost view = { λ s. record { written = s.bytes.items; room = s.room; failing = s.failing.items; calls = s.calls; faults = s.faults } };

    ghost invariant = { λ s. (length s.bytes.items ≤ s.room) × (s.room ≤ vec_capacity s.bytes) };
}

impl MemSink {
    /// An empty sink with room for `room` bytes. A write fails exactly where its number, from 1, is one of
    /// `failing` or no room is left.
    pub fn new(alloc: Global, room: usize, failing: Vec<u32>) -> Result<MemSink, AllocError>
        ensures { IfOk result (λ sink. sink ≡ record { written = []; room = room; failing = failing.items; calls = 0; faults = 0 }) }
    {
        Ok(MemSink {
            bytes: Vec::with_capacity(alloc, room)?,
            room,
            failing,
            calls: 0,
            faults: 0,
        })
    }

    /// What was written.
    pub fn bytes(&self) -> &[u8]
        ensures { result.now ≡ self.now.written }
    {
        self.bytes.as_slice()
    }
}

impl Sink for MemSink {
    ghost state = { λ s. record { written = Some s.written; faults = s.faults } };

    fn write(&mut self, bytes: &[u8]) -> Result<usize, Failed>
        requires { 0 < length bytes.now }

        // As any sink.
        ensures some { IfOk result (λ n. (0 < n) × (n ≤ length bytes.now)) }
        ensures appended { IfOk result (λ n. Appends (Some self.old.written) (Some self.new.written) (take n bytes.now)) }
        ensures unchanged { OnErr result (Keeps (Some self.old.written) (Some self.new.written)) }
        ensures cause { HasCause self.old.faults self.new.faults result }
        ensures count { self.new.faults < 2 ^ 64 }

        // Exactly.
        ensures failing { IsErr result ↔
            Contains self.old.failing (raised self.old.calls) ⊎ (self.old.room ≤ length self.old.written) }
        ensures failed { OnErr result (self.new ≡ after_failed_write self.old) }
        ensures amount { IfOk result (λ n. n ≡ length (part_of self.old bytes.now)) }
        ensures wrote { OnOk result (self.new ≡ after_write self.old (part_of self.old bytes.now)) }
    {
        self.calls = self.calls.saturating_add(1);
        if self.bytes.len() >= self.room || is_among(&self.failing, self.calls) {
            self.faults = self.faults.saturating_add(1);
            return Err(Failed);
        }
        let count = bytes.len().min(self.room - self.bytes.len());
        self.bytes.extend_from_slice(&bytes[..count]).unwrap();
        Ok(count)
    }
}

// Whether the call of this number is to fail.
fn is_among(failing: &[u32], call: u64) -> bool
    ensures { IsTrue result ↔ Contains failing.now call }
{
    failing.iter().any(|&number| u64::from(number) == call)
}
