//! Conditions on the bits that numbers of cells may have.

ghost use Rattle.std.specs.Prelude.{◌≡◌};
ghost use Rattle.vfa_rules.specs.Conditions.{numbers_pass, ones_are_apart, ones_are_covered};

use crate::ends::most_of;
use vfa_fact::Cell;

/// Whether each place where some number of the first has a one is a one of each number of the second.
pub(crate) fn ones_are_covered(a: &Cell, b: &Cell) -> bool
    requires { a.now.width ≡ b.now.width }
    ensures { result ≡ numbers_pass ones_are_covered a.now b.now }
{
    let Some(one) = &a.numbers else {
        return false;
    };
    let Some(two) = &b.numbers else {
        return false;
    };
    one.zeros | two.ones == most_of(a.width)
}

/// Whether nowhere a number of the first and one of the second may both have a one.
pub(crate) fn ones_are_apart(a: &Cell, b: &Cell) -> bool
    requires { a.now.width ≡ b.now.width }
    ensures { result ≡ numbers_pass ones_are_apart a.now b.now }
{
    let Some(one) = &a.numbers else {
        return false;
    };
    let Some(two) = &b.numbers else {
        return false;
    };
    one.zeros | two.zeros == most_of(a.width)
}
