//! What facts about operands make of one instruction: a simpler operation, an operation with more words, a division at a
//! lesser width, one of its operands in its place, or nothing.
#![tactic(auto)]

mod bits;
mod change;
mod ends;
mod gained;
mod laws;
mod narrowed;
mod order;
mod parts;
mod plain;
mod replaced;
mod spans;
mod unsigned;
mod uses;

pub use change::{Change, OverflowCall};
pub use laws::{changes_are_sound, changes_fit, parts_have_sources};
pub use order::{rule, rule_with};
pub use uses::{is_used, overflow_call};

#[cfg(test)]
mod tests;
