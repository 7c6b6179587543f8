//! The cells of a fact.

ghost use Rattle.std.specs.Prelude.{◌≡◌};
ghost use Rattle.vfa_rules.specs.Facts.{number_cell, bit_cell};

use vfa_fact::{Cell, Parts};

/// The cell of a number; of a pair that of its number.
pub(crate) fn number_cell(parts: &Parts) -> &Cell
    ensures { result.now ≡ number_cell parts.now }
{
    match parts {
        Parts::One(cell) => cell,
        Parts::Two(cell, _) => cell,
    }
}

/// The cell of a pair's overflow bit.
pub(crate) fn bit_cell(parts: &Parts) -> &Cell
    ensures { result.now ≡ bit_cell parts.now }
{
    match parts {
        Parts::One(cell) => cell,
        Parts::Two(_, cell) => cell,
    }
}
