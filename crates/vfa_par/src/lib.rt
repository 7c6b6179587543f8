//! The parallel phase: one piece of work, done on each of a list of inputs by several workers.
#![tactic(auto)]

mod gate;
mod phase;
mod pieces;
#[cfg(test)]
mod tests;
mod work;

pub use gate::{Gate, OpenGate};
pub use phase::each;
pub use work::Work;
