ghost use Rattle.std.specs.Prelude.{◌≡◌, ℕ, ◌-◌, ◌<◌, ◌^◌, ◌↔◌, IsTrue, Some};
ghost use Rattle.std.specs.Bool.{OnTrue};
ghost use Rattle.vfa_dom.specs.Sets.{includes, single_of};
ghost use Rattle.vfa_fact.specs.Join.{join_of};
ghost use Rattle.vfa_word.specs.Numbers.{IsWidth};

use crate::fact::Fact;
use crate::sharp::sharpened;
use crate::test::Test;
use vfa_dom::{Domain, SetOf};
use vfa_known::Known;
use vfa_word::Word;
use vfa_wrap::Wrapped;

impl<const W: u32> SetOf<Word<W>> for Fact<W> {
    ghost use Rattle.vfa_fact.specs.Views.{numbers_of, in_fact};

    ghost holds = { λ f x. IsTrue (in_fact W f x) };

    /// The fact of the number `x` alone.
    fn only(x: Word<W>) -> Fact<W>
        ensures alone { (y : ℕ) → IsTrue (in_fact W result y) ↔ (y ≡ x.entry) }
        ensures numbers { numbers_of result ≡ record { zeros = 2 ^ W - 1 - x.entry; ones = x.entry; first = x.entry; last = x.entry } }
    {
        Fact {
            known: Known::only(x),
            arc: Wrapped::only(x),
        }
    }

    /// Whether `x` agrees with the known bits and lies in the arc.
    fn has(&self, x: Word<W>) -> bool
        ensures member { IsTrue result ↔ IsTrue (in_fact W self.now x.entry) }
        ensures exact { result ≡ in_fact W self.now x.entry }
    {
        if !self.known.has(x) {
            return false;
        }
        self.arc.has(x)
    }
}

impl<const W: u32> Domain<W> for Fact<W> {
    ghost use Rattle.vfa_fact.specs.Views.{numbers_of, in_fact};
    ghost use Rattle.vfa_fact.specs.Fact.{in_numbers_fits};

    ghost within = { λ f x member. in_numbers_fits W (numbers_of f) x member };

    /// The fact of all numbers of the width.
    fn any() -> Fact<W>
        requires { IsWidth W }
        ensures all { (x : ℕ) → x < 2 ^ W → IsTrue (in_fact W result x) }
        ensures numbers { numbers_of result ≡ record { zeros = 0; ones = 0; first = 0; last = 2 ^ W - 1 } }
    {
        Fact {
            known: Known::any(),
            arc: Wrapped::any(),
        }
    }

    /// The fact of the numbers that agree with the bits known alike in both, and lie in the hull of the two arcs: at width
    /// 8, 4 and 12 join to `0000?100` from 4 to 12.
    fn join(&self, other: &Fact<W>) -> Fact<W>
        ensures covers_self { (x : ℕ) → IsTrue (in_fact W self.now x) → IsTrue (in_fact W result x) }
        ensures covers_other { (x : ℕ) → IsTrue (in_fact W other.now x) → IsTrue (in_fact W result x) }
        ensures exact { Some (numbers_of result) ≡ join_of W (numbers_of self.now) (numbers_of other.now) }
    {
        let alike = self.known.join(&other.known);
        let hull = self.arc.hull(&other.arc);
        let Some(joined) = sharpened(&alike, &hull) else {
            unreachable!()
        };
        joined
    }

    /// Yes exactly where each number of `other` is in `self`: at width 8, the even numbers from 0 to 8 include 2 and 6.
    fn includes(&self, other: &Fact<W>) -> bool
        ensures yes { OnTrue result ((x : ℕ) → IsTrue (in_fact W other.now x) → IsTrue (in_fact W self.now x)) }
        ensures exact { result ≡ includes W (in_fact W self.now) (in_fact W other.now) }
    {
        if !self.known.includes(&other.known) {
            return false;
        }
        if self.arc.full() {
            return true;
        }
        let one = Word::cut(1);
        let outside = Wrapped::new(self.arc.last().add(one), self.arc.first().sub(one));
        Fact::sharp(other.known, other.arc, &Test::inside(outside)).is_none()
    }

    /// The only number; None exactly where the fact has several.
    fn single(&self) -> Option<Word<W>>
        ensures only { (x : ℕ) → (result ≡ Some x) ↔ ((y : ℕ) → IsTrue (in_fact W self.now y) ↔ (y ≡ x)) }
        ensures exact { result ≡ single_of W (in_fact W self.now) }
    {
        self.arc.single()
    }
}
