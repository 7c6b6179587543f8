//! Numbers of a width of 1 to 128 bits, as LLVM's `iN` has them.
#![tactic(auto)]

mod arith;
mod division;
mod overflow;
mod shift;
mod sum;
mod word;

pub use arith::Arith;
pub use word::{Word, most};

#[cfg(test)]
mod tests;
