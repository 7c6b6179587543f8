//! Whether two cells or facts are the same.

ghost use Rattle.std.specs.Prelude.{◌≡◌, ◌↔◌, IsTrue};
ghost use Rattle.vfa_fact.specs.Cells.{IsCell};

use vfa_fact::Cell;

/// Whether the two cells have the same numbers, in the same form.
pub(crate) fn same_numbers(a: &Cell, b: &Cell) -> bool
    ensures same { IsTrue result ↔ (a.now.numbers ≡ b.now.numbers) }
    ensures cell { IsCell a.now }
{
    a.numbers == b.numbers
}

/// Whether the two are the same cell.
pub(crate) fn same_cell(a: &Cell, b: &Cell) -> bool
    ensures { IsTrue result ↔ (a.now ≡ b.now) }
{
    a.width == b.width && a.never_poison == b.never_poison && same_numbers(a, b)
}
