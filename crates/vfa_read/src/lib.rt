//! The reader of functions: from the tokens of a define to its function.
#![tactic(auto)]

mod acceptance;
mod blocks;
mod calls;
mod definedness;
mod forms;
mod headers;
mod intrinsics;
mod laws;
mod leaves;
mod lines;
mod names;
mod numbers;
mod operations;
mod parts;
mod phis;
mod reading;
mod resolution;
mod sentences;
mod source;
mod stops;
mod tails;
mod terminators;
#[cfg(test)]
mod tests;

pub use acceptance::{accepted_has_no_reason, accepted_or_reason, one_reason};
pub use definedness::{defined_once, first_defined_again, first_undefined, used_defined};
pub use laws::{one_reading, one_tree, sentence_or_shape};
pub use names::token_name;
pub use reading::{ReadFunction, read_function};
pub use resolution::Symbols;
