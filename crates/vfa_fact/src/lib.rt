//! Facts on numbers of a width of 1 to 128 bits: known bits and an arc together, each sharpened by the other.
#![tactic(auto)]

mod amount_masks;
mod cell;
mod cell_calls;
mod cell_values;
mod cuts;
mod decide;
mod domain;
mod ends;
mod fact;
mod numbers;
mod order;
mod partners;
mod restrict;
mod sharp;
mod test;
mod widths;

pub use cell::{Cell, CellAmounts, CellEnds, Parts};
pub use cuts::Amounts;
pub use fact::Fact;
pub use numbers::Numbers;
pub use test::Test;

#[cfg(test)]
mod tests;
