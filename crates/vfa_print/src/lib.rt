//! The printer of functions: from a function to its text.
#![tactic(auto)]

mod blocks;
mod calls;
mod headers;
mod laws;
mod lines;
mod names;
mod numbers;
mod operands;
mod operations;
mod printing;
mod shown;
mod terminators;
#[cfg(test)]
mod tests;
mod writer;

pub use laws::{fit_is_printable, printable_is_fit, printed_reads_again};
pub use names::push_name;
pub use printing::print_function;
