//! Sources of bytes.
ghost use Rattle.std.specs.Prelude.{◌≡◌, ◌+◌, ◌-◌, ◌^◌, ◌<◌, ◌≤◌, ◌↔◌, ℕ, List, [], ◌++◌, length, take, vec_len, Option, Result, IfOk, OnOk, OnErr, IfSome, IsErrOf, Some};
ghost use Rattle.std.specs.Io.KnownBytes.{Consumes, Keeps};
ghost use Rattle.vfa_io.specs.Count.{Rose, HasCause};
ghost use Rattle.vfa_io.specs.Bytes.{Gave};
ghost use Rattle.vfa_io.specs.States.{SourceState};

use super::Failed;
use std::alloc::Global;
use thiserror::Error;

/// Where bytes come from.
pub trait Source {
    // The bytes that are left, where the source tells them, and the faults so far, up to the greatest number of 64 bits.
    ghost state: { Self → SourceState };

    /// Puts the next bytes at the beginning of the buffer and returns how many they are.
    /// 0 is the end of the input. After `Failed` nothing is known of the buffer.
    fn read(&mut self, buf: &mut [u8]) -> Result<usize, Failed>
        requires { 0 < length buf.old }
        ensures fits { IfOk result (λ n. n ≤ length buf.new) }
        ensures given { IfOk result (λ n. Consumes (state self.old).left (state self.new).left (take n buf.new)) }
        ensures end { IfOk result (λ n. IfSome (state self.old).left (λ all. n ≡ 0 ↔ all ≡ [])) }
        ensures unchanged { OnErr result (Keeps (state self.old).left (state self.new).left) }
        ensures cause { HasCause (state self.old).faults (state self.new).faults result }
        ensures count { (state self.new).faults < 2 ^ 64 };
}

/// Why the input could not be read whole.
#[derive(Clone, Copy, Debug, PartialEq, Eq, Error)]
pub enum ReadFault {
    /// The source failed.
    #[error("the source failed")]
    Read,
    /// The source gave more bytes than were allowed.
    #[error("the input is too long")]
    TooLong,
    /// Memory ran out.
    #[error("out of memory")]
    Memory,
}

// Room for the bytes of one read.
const CHUNK: usize = 4096;

/// All the bytes that the source has left, which are at most `most`. After an error some of them may be read.
///
/// `Read` is the source's first fault, and `TooLong` a byte past `most` before any fault.
pub fn read_all<S: Source>(alloc: Global, source: &mut S, most: usize) -> Result<Vec<u8>, ReadFault>
    requires { most ≤ 2 ^ 24 }

    ensures all { IfOk result (λ bytes. IfSome (S.state source.old).left
        (λ all. (bytes.items ≡ all) × ((S.state source.new).left ≡ Some []))) }
    ensures within { IfOk result (λ bytes. length bytes.items ≤ most) }

    ensures read { IsErrOf result ReadFault.Read → Rose (S.state source.old).faults (S.state source.new).faults }
    ensures read_within { IsErrOf result ReadFault.Read →
        Gave (S.state source.old).left (S.state source.new).left (λ given. length given ≤ most) }
    ensures too_long { IsErrOf result ReadFault.TooLong →
        Gave (S.state source.old).left (S.state source.new).left (λ given. most < length given) }

    // After any error.
    ensures some { (given : List ℕ) × Consumes (S.state source.old).left (S.state source.new).left given }
    ensures later { (S.state source.old).faults ≤ (S.state source.new).faults }
{
    let mut bytes = Vec::new(alloc);
    'pieces: loop {
        if read_more(source, &mut bytes, most)? == 0 {
            return Ok(bytes);
        }
    }
}

// Reads once, puts the bytes at the end, and returns how many they are: 0 at the end of the input.
fn read_more<S: Source>(
    source: &mut S,
    bytes: &mut Vec<u8>,
    most: usize,
) -> Result<usize, ReadFault>
    requires room { vec_len bytes.old ≤ most }
    requires small { most ≤ 2 ^ 24 }

    ensures more { IfOk result (λ n. (vec_len bytes.new ≡ vec_len bytes.old + n) × (vec_len bytes.new ≤ most)) }
    ensures given { OnOk result (Gave (S.state source.old).left (S.state source.new).left
        (λ given. bytes.new.items ≡ bytes.old.items ++ given)) }
    ensures end { IfOk result (λ n. IfSome (S.state source.old).left (λ all. n ≡ 0 → all ≡ [])) }

    ensures read { IsErrOf result ReadFault.Read → Rose (S.state source.old).faults (S.state source.new).faults }
    ensures unchanged { IsErrOf result ReadFault.Read → Keeps (S.state source.old).left (S.state source.new).left }
    ensures too_long { IsErrOf result ReadFault.TooLong → Gave (S.state source.old).left (S.state source.new).left
        (λ given. most < vec_len bytes.old + length given) }
    ensures some { (given : List ℕ) × Consumes (S.state source.old).left (S.state source.new).left given }
    ensures later { (S.state source.old).faults ≤ (S.state source.new).faults }
{
    let mut chunk = [0; CHUNK];
    let Ok(count) = source.read(&mut chunk) else {
        return Err(ReadFault::Read);
    };
    if count > most - bytes.len() {
        return Err(ReadFault::TooLong);
    }
    match bytes.extend_from_slice(&chunk[..count]) {
        Ok(()) => Ok(count),
        Err(_) => Err(ReadFault::Memory),
    }
}
