ghost use Rattle.std.specs.Prelude.{◌≡◌, ℕ, ◌<◌, ◌^◌, true};
ghost use Rattle.vfa_word.specs.Numbers.{IsWidth};

use vfa_dom::Domain;
use vfa_known::Known;
use vfa_wrap::Wrapped;

/// A condition on numbers of width `W`: to lie in a cube and in two arcs. An arc of all numbers asks for nothing.
#[derive(Clone, Copy)]
pub struct Test<const W: u32> {
    /// The known bits that a number has to agree with.
    pub cube: Known<W>,
    /// An arc that it has to be in.
    pub one: Wrapped<W>,
    /// Another one.
    pub two: Wrapped<W>,
}

impl<const W: u32> Test<W> {
    ghost use Rattle.vfa_fact.specs.Views.{in_test};
    ghost use Rattle.vfa_wrap.specs.Wrapped.{in_arc};

    /// The condition that each number meets.
    pub fn any() -> Test<W>
        requires { IsWidth W }
        ensures { (x : ℕ) → x < 2 ^ W → in_test W result x ≡ true }
    {
        Test {
            cube: Known::any(),
            one: Wrapped::any(),
            two: Wrapped::any(),
        }
    }

    /// The condition to lie in the arc.
    pub fn inside(arc: Wrapped<W>) -> Test<W>
        ensures { (x : ℕ) → x < 2 ^ W → in_test W result x ≡ in_arc W arc.entry x }
    {
        Test {
            cube: Known::any(),
            one: arc,
            two: Wrapped::any(),
        }
    }
}
