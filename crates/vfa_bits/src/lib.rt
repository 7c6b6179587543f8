//! Narrowing of functions by the bits that are asked for.
#![tactic(auto)]

mod by_masks;
mod changes;
mod copies;
mod laws;
mod leaving;
mod lines;
mod operands;
mod reached;
mod replacements;
mod rewriting;
#[cfg(test)]
mod tests;

pub use by_masks::narrow_by_masks;
pub use laws::{narrowed_is_checked, narrowing_refines, one_narrowed};
pub use lines::{lost_flags, narrowed_cast};
pub use operands::{same_bits_operand, standing, zeroed};
