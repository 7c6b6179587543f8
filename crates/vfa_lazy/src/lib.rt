//! Questions about one value at one place of a function.
#![tactic(auto)]

mod asking;
mod defined;
mod laws;
mod questions;

pub use asking::ask;
pub use laws::one_answer;
pub use questions::{Answer, Place};
