//! Values, and what an operation gives.

/// A value (Language Reference, "Poison Values" and "Integer Type").
#[derive(Clone, Copy, Debug, PartialEq, Eq)]
pub enum Val {
    /// Poison, of any type.
    Poison,
    /// A number of a width that the context gives.
    Number(u128),
    /// A number, and whether the operation that gave it overflowed.
    Pair(u128, bool),
}

/// What an operation gives.
#[derive(Clone, Copy, Debug, PartialEq, Eq)]
pub enum Done {
    /// It has undefined behaviour.
    Ub,
    /// It gives this value.
    Is(Val),
    /// It gives any number of this width.
    AnyOf(u32),
}
