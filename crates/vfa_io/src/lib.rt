//! The outside of the program: a source of bytes, sinks for bytes, and what reads and writes to the end.
#![tactic(auto)]

mod memory;
mod reading;
mod standard;
mod writing;

pub use memory::{MemSink, MemSource};
pub use reading::{ReadFault, Source, read_all};
pub use standard::{StdSink, StdSource, Stream};
pub use writing::{Sink, write_all};

/// A read or a write failed, and the count of faults of its source or sink rose.
#[derive(Clone, Copy, Debug, PartialEq, Eq)]
pub struct Failed;

#[cfg(test)]
mod tests;
