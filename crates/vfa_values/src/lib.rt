//! Domains of values: types each of whose values stands for a set of values of one type of the IR, by what their calls
//! answer and by their laws. States, tables and whatever works on them know a domain by this trait alone.
#![tactic(auto)]

mod constant;
#[cfg(test)]
mod tests;
mod values;

pub use constant::Constant;
pub use values::Values;
