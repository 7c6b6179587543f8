//! Sets of numbers of a width, and the traits of domains: types each of whose values stands for such a set.
#![tactic(auto)]

mod domain;

pub use domain::{Domain, SetOf};
