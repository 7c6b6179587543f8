//! Questions about a value of a function.

use vfa_ir::Name;

/// What is known of a value at a place of a function? Names are the bytes that values and blocks are shown by, without sigil, quotes or
/// escapes.
#[derive(Debug, Drop)]
pub struct Question {
    /// The name of the function.
    pub function: Name,
    /// The value.
    pub value: Name,
    /// The block of the place: its entry, its phis done.
    pub block: Name,
    /// A block with an edge to it. Where it is given, the place is before the phis, where the block is entered from this one.
    pub from: Option<Name>,
}
