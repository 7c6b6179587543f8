//! What a transfer knows of the numbers that an operation gives.

ghost use Rattle.std.specs.Prelude.{◌≡◌};
ghost use Rattle.std.specs.Option.{option_map};
ghost use Rattle.vfa_fact.specs.Cells.{cell_of, IsCell};
ghost use Rattle.vfa_fact.specs.Views.{numbers_of};
ghost use Rattle.vfa_word.specs.Numbers.{IsWidth};
ghost use Rattle.vfa_xfer.specs.Rows.{shown_row, row_fact, full_row};
ghost use Rattle.std.specs.Bool.{OnTrue};

use vfa_dom::Domain;
use vfa_fact::{Cell, Fact, Test};
use vfa_known::Known;
use vfa_wrap::Wrapped;

/// The numbers that an operation may give: those of a cube that lie in an arc and within two bounds. A bound of all numbers
/// asks for nothing.
#[derive(Clone, Copy)]
pub(crate) struct Row<const W: u32> {
    /// The known bits.
    pub cube: Known<W>,
    /// The arc, from whose first number the numbers are looked for.
    pub arc: Wrapped<W>,
    /// A bound.
    pub one: Wrapped<W>,
    /// Another one.
    pub two: Wrapped<W>,
}

impl<const W: u32> Row<W> {
    /// Whether the row asks for nothing, so that it has all numbers.
    fn asks_nothing(&self) -> bool
        ensures { OnTrue result (shown_row self.now ≡ full_row W) }
    {
        self.cube.zeros() == 0
            && self.cube.ones() == 0
            && self.arc.full()
            && self.one.full()
            && self.two.full()
    }

    /// The fact of the row's numbers; None exactly where there is none.
    pub(crate) fn fact(&self) -> Option<Fact<W>>
        ensures { option_map numbers_of result ≡ row_fact W (shown_row self.now) }
    {
        if self.asks_nothing() {
            return Some(Fact::any());
        }
        let test = Test {
            cube: self.cube,
            one: self.one,
            two: self.two,
        };
        Fact::sharp(self.cube, self.arc, &test)
    }
}

/// The cell of a fact's numbers, never poison where it is marked; that of poison alone where there is no fact.
pub(crate) fn cell_with<const W: u32>(fact: Option<Fact<W>>, mark: bool) -> Cell
    requires { IsWidth W }
    ensures { result ≡ cell_of W (option_map numbers_of fact.entry) mark }
{
    match &fact {
        Some(known) => Cell::of(known, mark),
        None => Cell::none(W),
    }
}
