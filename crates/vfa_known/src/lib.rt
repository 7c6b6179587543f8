//! Known bits of numbers of a width of 1 to 128 bits, after LLVM's KnownBits.
#![tactic(auto)]

mod agree;
mod bitwise;
mod cast;
mod domain;
mod known;
mod member;
mod product;
mod runs;
mod shift;
mod sum;

pub use known::Known;

#[cfg(test)]
mod tests;
