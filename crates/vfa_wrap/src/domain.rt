ghost use Rattle.std.specs.Prelude.{◌≡◌, ℕ, ◌<◌, ◌^◌, ◌↔◌, IsTrue, Some};
ghost use Rattle.std.specs.Bool.{OnTrue};
ghost use Rattle.vfa_word.specs.Numbers.{IsWidth};

use crate::arc::{Wrapped, steps_up};
use vfa_dom::{Domain, SetOf};
use vfa_word::{Word, most};

impl<const W: u32> SetOf<Word<W>> for Wrapped<W> {
    ghost use Rattle.vfa_wrap.specs.Wrapped.{span_of, in_arc};

    ghost holds = { λ a x. IsTrue (in_arc W a x) };

    /// The arc of `x` alone.
    fn only(x: Word<W>) -> Wrapped<W>
        ensures alone { (y : ℕ) → IsTrue (in_arc W result y) ↔ (y ≡ x.entry) }
        ensures span { span_of result ≡ record { first = x.entry; last = x.entry } }
    {
        Wrapped::between(x.bits(), x.bits())
    }

    /// Whether `x` is a number of the arc.
    fn has(&self, x: Word<W>) -> bool
        ensures member { IsTrue result ↔ IsTrue (in_arc W self.now x.entry) }
        ensures value { result ≡ in_arc W self.now x.entry }
    {
        steps_up::<W>(self.first, x.bits()) <= self.extent()
    }
}

impl<const W: u32> Domain<W> for Wrapped<W> {
    ghost use Rattle.vfa_dom.specs.Sets.{includes, single_of};
    ghost use Rattle.vfa_wrap.specs.Arc.{full_span, hull_of, in_span_fits};
    ghost use Rattle.vfa_wrap.specs.Wrapped.{span_of, in_arc};

    ghost within = { λ a x member. in_span_fits W (span_of a) x member };

    /// The arc of all numbers.
    fn any() -> Wrapped<W>
        requires { IsWidth W }
        ensures all { (x : ℕ) → x < 2 ^ W → IsTrue (in_arc W result x) }
        ensures span { span_of result ≡ full_span W }
    {
        Wrapped::everything()
    }

    /// The arc of the fewest numbers that holds both, the hull.
    fn join(&self, other: &Wrapped<W>) -> Wrapped<W>
        ensures covers_self { (x : ℕ) → IsTrue (in_arc W self.now x) → IsTrue (in_arc W result x) }
        ensures covers_other { (x : ℕ) → IsTrue (in_arc W other.now x) → IsTrue (in_arc W result x) }
        ensures span { span_of result ≡ hull_of W (in_arc W self.now) (in_arc W other.now) }
    {
        self.hull(other)
    }

    /// Whether each number of `other` is in the arc: at width 8, 255 to 1 is in 250 to 5.
    fn includes(&self, other: &Wrapped<W>) -> bool
        ensures yes { OnTrue result ((x : ℕ) → IsTrue (in_arc W other.now x) → IsTrue (in_arc W self.now x)) }
        ensures exact { result ≡ includes W (in_arc W self.now) (in_arc W other.now) }
    {
        let own = self.extent();
        if own == most::<W>() {
            return true;
        }
        let gap = steps_up::<W>(self.first, other.first);
        if own < gap {
            return false;
        }
        other.extent() <= own - gap
    }

    /// The only number of the arc; None exactly where it has several.
    fn single(&self) -> Option<Word<W>>
        ensures only { (x : ℕ) → (result ≡ Some x) ↔ ((y : ℕ) → IsTrue (in_arc W self.now y) ↔ (y ≡ x)) }
        ensures value { result ≡ single_of W (in_arc W self.now) }
    {
        if self.first == self.last {
            return Some(self.first());
        }
        None
    }
}
