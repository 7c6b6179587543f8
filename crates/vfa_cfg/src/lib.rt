//! The control flow graph of a function: its edges, the order of its blocks, and the heads of its loops.
#![tactic(auto)]

mod laws;
mod listing;
mod loops;
mod ordering;
mod search;
mod targets;
#[cfg(test)]
mod tests;

pub use listing::{Edge, Way, edges};
pub use loops::heads;
pub use ordering::order;
pub use targets::successor;
