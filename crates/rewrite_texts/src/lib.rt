//! Texts of functions that were rewritten by their tables of facts, against texts that were found apart from the program. This
//! crate has tests alone.
#![tactic(auto)]

#[cfg(test)]
mod tests;
