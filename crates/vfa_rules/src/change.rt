//! What becomes of an instruction.

use vfa_ir::{Op, Operand, Over};

/// What becomes of an instruction.
#[derive(Clone, Copy, Debug, PartialEq, Eq)]
pub enum Change {
    /// It stays, with this operation.
    Keep(Op),
    /// It is this operation, done at this lesser width: each operand is truncated, and the result is extended by zeros.
    Narrow(Op, u32),
    /// The uses of its result take this operand.
    Uses(Operand),
    /// It goes: an `llvm.assume` of what is true.
    Gone,
}

/// An intrinsic with overflow, whose pair an `extractvalue` takes a part of.
#[derive(Clone, Copy, Debug, PartialEq, Eq)]
pub struct OverflowCall {
    /// The intrinsic.
    pub over: Over,
    /// The first operand.
    pub a: Operand,
    /// The second operand.
    pub b: Operand,
}
