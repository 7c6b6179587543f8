//! States and tables of facts against values that were found apart from the program. This crate has tests alone.
#![tactic(auto)]

#[cfg(test)]
mod tests;
