//! Arcs of numbers of a width, as LLVM's ConstantRange has them: the numbers from a first one up to a last one, going
//! on at 0 after the greatest number. An arc here is never empty, and both its ends are members.
#![tactic(auto)]

mod arc;
mod by_ends;
mod domain;
mod ends;
mod ends_op;
mod hull;
mod pieces;
mod places;
mod reading;
mod rounding;
mod rows;
pub mod spans;
mod sums;

pub use arc::Wrapped;
pub use ends::Ends;
pub use ends_op::EndsOp;
pub use pieces::Pieces;
pub use reading::Reading;

#[cfg(test)]
mod tests;
