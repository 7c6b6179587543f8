//! From the tree of a function to the function: limits, names and ids.

mod blocks;
mod definitions;
mod functions;
mod limits;
mod literals;
mod operands;
mod operations;
mod phis;
mod symbols;
mod table;
mod terminators;
mod values;

pub use functions::function_of;
pub use limits::too_many;
pub use symbols::Symbols;
