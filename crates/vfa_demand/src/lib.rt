//! Demanded bits: which bits of each value of a function something hangs on, and which values.
#![tactic(auto)]

mod all_names;
mod behind;
mod definitions;
mod growing;
mod least;
mod operand_names;
mod reach;
mod rows;
#[cfg(test)]
mod tests;
mod used;

pub use all_names::names_used;
pub use behind::names_behind;
pub use growing::number_width;
pub use least::masks;
pub use reach::led_to;
pub use rows::{all_bits, asked, needs_all};
pub use used::used_names;
