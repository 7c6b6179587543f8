//! What a module is read for.

use crate::questions::Question;

/// What is made of a module.
#[derive(Debug, Drop)]
pub enum Job {
    /// The module with its functions optimised.
    Opt,
    /// What is known of the names of its functions: a report on each.
    Facts,
    /// What is known of one value at one place: a line, or two for a pair.
    Ask(Question),
    /// How `Opt` does on the text that is generated from the seed, which is read in place of any other.
    SelfRun {
        /// The seed.
        seed: u32,
    },
}
