//! Sinks for bytes.
ghost use Rattle.std.specs.Prelude.{◌≡◌, ◌+◌, ◌-◌, ◌^◌, ◌<◌, ◌≤◌, ℕ, List, ◌++◌, length, take, Option, Result, IfOk, OnOk, OnErr};
ghost use Rattle.std.specs.Io.KnownBytes.{Appends, Keeps};
ghost use Rattle.vfa_io.specs.Count.{Rose, HasCause};
ghost use Rattle.vfa_io.specs.Bytes.{GotPrefix};
ghost use Rattle.vfa_io.specs.States.{SinkState};

use super::Failed;

/// Where bytes go.
pub trait Sink {
    // The bytes that were written, where the sink tells them, and the faults so far, up to the greatest number of 64 bits.
    ghost state: { Self → SinkState };

    /// Writes the first bytes of the piece, at least one, and returns how many they are.
    /// `Failed` has written nothing.
    fn write(&mut self, bytes: &[u8]) -> Result<usize, Failed>
        requires { 0 < length bytes.now }
        ensures some { IfOk result (λ n. (0 < n) × (n ≤ length bytes.now)) }
        ensures appended { IfOk result (λ n. Appends (state self.old).written (state self.new).written (take n bytes.now)) }
        ensures unchanged { OnErr result (Keeps (state self.old).written (state self.new).written) }
        ensures cause { HasCause (state self.old).faults (state self.new).faults result }
        ensures count { (state self.new).faults < 2 ^ 64 };
}

/// Writes all the bytes, in as many writes as it takes. After `Failed` some prefix of them was written.
pub fn write_all<O: Sink>(sink: &mut O, bytes: &[u8]) -> Result<(), Failed>
    ensures all { OnOk result (Appends (O.state sink.old).written (O.state sink.new).written bytes.now) }
    ensures some { GotPrefix (O.state sink.old).written (O.state sink.new).written bytes.now }
    ensures cause { HasCause (O.state sink.old).faults (O.state sink.new).faults result }
{
    let mut at = 0;
    'pieces: while at < bytes.len() {
        at += sink.write(&bytes[at..])?;
    }
    Ok(())
}
