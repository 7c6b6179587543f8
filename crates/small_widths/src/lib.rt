//! Facts and rules against the meaning of operations, at all facts of widths 1 to 3. This crate has tests alone.
#![tactic(auto)]

#[cfg(test)]
mod tests;
