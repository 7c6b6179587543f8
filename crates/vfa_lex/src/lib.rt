//! The tokens of a module's text: runs, strings, names after a sigil, labels, numbers, words and marks.
#![tactic(auto)]

mod bytes;
mod pieces;
mod reading;
#[cfg(test)]
mod tests;

pub use reading::{line_after, token_at, tokens};
