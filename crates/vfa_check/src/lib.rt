//! The check of functions: operands are of the types that are written, phis fit the edges, and on every walk names are
//! defined before they are used.
#![tactic(auto)]

mod checking;
mod flow;
mod head_marks;
mod laws;
mod missed_names;
mod name_rows;
mod narrowing;
mod phis;
mod predecessors;
mod results;
mod scopes;
mod scoping;
mod search;
mod tallies;
#[cfg(test)]
mod tests;
mod types;
mod uses;

pub use checking::{Checked, check};
pub use laws::{
    accepted_may_be_checked, fit_defines_once, fit_is_within, one_refusal, refused_is_ill_formed,
    well_formed_or_refused,
};
