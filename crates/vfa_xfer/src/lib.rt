//! What operations make of facts: of numbers, of poison and of flags.
#![tactic(auto)]

mod any_fact;
mod binary;
mod binary_rows;
mod bounds;
mod casts;
mod comparisons;
mod constants;
mod counts;
mod extremes;
mod fact_calls;
mod inclusion;
mod number_arcs;
mod overflows;
mod ranks;
mod restrictions;
mod rows;
mod same;
mod selects;
mod transfers;
mod values;
mod widening;

pub use any_fact::AnyFact;

#[cfg(test)]
mod tests;
