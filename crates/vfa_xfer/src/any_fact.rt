//! Facts of values of any type.

use vfa_fact::Parts;

/// What is known of a value of any type: the cell of a number, or the cells of a pair's number and of its bit, which is a
/// number of width 1.
#[derive(Clone, Copy)]
pub struct AnyFact {
    /// The cells of the value's parts.
    pub parts: Parts,
}
