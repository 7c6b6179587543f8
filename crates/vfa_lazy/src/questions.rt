//! Questions and their answers.

use vfa_ir::BlockId;

/// A place of a function that a question is about.
#[derive(Clone, Copy, Debug, PartialEq, Eq)]
pub enum Place {
    /// The entry of the block, its phis done.
    Entry(BlockId),
    /// Before the phis of the second block, where it is entered from the first, along whichever edge.
    Pair(BlockId, BlockId),
}

/// What is known of a value at a place.
#[derive(Clone, Copy, Debug, PartialEq, Eq)]
pub enum Answer<V> {
    /// This holds of the value whenever a run comes to the place.
    Fact(V),
    /// No run comes to the place.
    NeverReached,
    /// Some walk from the entry comes to the place without a definition of the value.
    NotDefined,
}
