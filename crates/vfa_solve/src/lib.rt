//! The table of a function, which is true.
#![tactic(auto)]

mod solving;

pub use solving::solve;
