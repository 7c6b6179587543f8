//! Whether a cell holds of all that another one holds of.

ghost use Rattle.std.specs.Prelude.{◌≡◌};
ghost use Rattle.vfa_dom.specs.Sets.{includes};
ghost use Rattle.vfa_fact.specs.Cells.{in_cell};
ghost use Rattle.vfa_xfer.specs.FactAnswers.{includes_cell};

use vfa_dom::Domain;
use vfa_fact::{Cell, at_width};

/// Whether each number of `other` is one of `cell`, both of width `W`.
fn includes_at<const W: u32>(cell: &Cell, other: &Cell) -> bool
    requires cell { cell.now.width ≡ W }
    requires other { other.now.width ≡ W }
    ensures { result ≡ includes cell.now.width (in_cell cell.now) (in_cell other.now) }
{
    let Some(two) = other.typed::<W>() else {
        return true;
    };
    let Some(one) = cell.typed::<W>() else {
        return false;
    };
    one.includes(&two)
}

/// Whether each number of `other` is one of `cell`, of the same width.
fn includes_numbers(cell: &Cell, other: &Cell) -> bool
    requires { cell.now.width ≡ other.now.width }
    ensures { result ≡ includes cell.now.width (in_cell cell.now) (in_cell other.now) }
{
    at_width!(cell.width, includes_at, (cell, other))
}

/// Whether each number of `other` is one of `cell`, of the same width, and `other` is never poison where `cell` is.
pub(crate) fn includes(cell: &Cell, other: &Cell) -> bool
    requires { cell.now.width ≡ other.now.width }
    ensures { result ≡ includes_cell cell.now other.now }
{
    includes_numbers(cell, other) && (!cell.never_poison || other.never_poison)
}
