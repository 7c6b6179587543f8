//! What an operation gives of operands that are one number each.

ghost use Rattle.std.specs.Prelude.{◌≡◌, ℕ, ◌<◌, ◌^◌};
ghost use Rattle.vfa_fact.specs.Cells.{cell_of};
ghost use Rattle.vfa_mean.specs.declared.value.Done.{Done};
ghost use Rattle.vfa_mean.specs.declared.value.Val.{Val};
ghost use Rattle.vfa_word.specs.Numbers.{IsWidth};
ghost use Rattle.vfa_xfer.specs.Constants.{number_given, constant_numbers};

use vfa_fact::Cell;
use vfa_mean::{Done, Val};

/// The number that an operation gives; None where it gives none.
pub(crate) fn number_given(done: Done) -> Option<u128>
    ensures { result ≡ number_given done }
{
    match done {
        Done::Is(value) => match value {
            Val::Number(bits) => Some(bits),
            _ => None,
        },
        _ => None,
    }
}

/// The cell of the number that an operation gives, never poison where it is marked; that of poison alone where it gives no
/// number.
pub(crate) fn constant_cell(width: u32, done: Done, mark: bool) -> Cell
    requires width { IsWidth width }
    requires fits { (x : ℕ) → done ≡ Done.Is (Val.Number x) → x < 2 ^ width }
    ensures { result ≡ cell_of width (constant_numbers width done) mark }
{
    match number_given(done) {
        Some(bits) => Cell::literal(width, bits).with_mark(mark),
        None => Cell::none(width),
    }
}
