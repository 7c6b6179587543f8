ghost use Rattle.std.specs.Prelude.{◌≡◌, ℕ, ◌<◌, ◌-◌, ◌^◌, ◌↔◌, bit_and, IsTrue};
ghost use Rattle.std.specs.Bool.{OnTrue};
ghost use Rattle.vfa_dom.specs.Best.{best_of};
ghost use Rattle.vfa_dom.specs.Results.{UnknownMembersVary};
ghost use Rattle.vfa_dom.specs.Sets.{union, includes, single_of};
ghost use Rattle.vfa_word.specs.Numbers.{IsWidth};

use crate::known::Known;
use vfa_dom::{Domain, SetOf};
use vfa_word::{Word, most};

impl<const W: u32> SetOf<Word<W>> for Known<W> {
    ghost use Rattle.vfa_known.specs.Known.{masks_of, in_known};

    ghost holds = { λ k x. IsTrue (in_known W k x) };

    /// The number `x` alone: all bits known.
    fn only(x: Word<W>) -> Known<W>
        ensures alone { (y : ℕ) → IsTrue (in_known W result y) ↔ (y ≡ x.entry) }
        ensures masks { masks_of result ≡ record { zeros = 2 ^ W - 1 - x.entry; ones = x.entry } }
    {
        let bits = x.bits();
        Known {
            zeros: most::<W>() ^ bits,
            ones: bits,
        }
    }

    /// Whether `x` agrees with both masks: `1??0` has 10 and not 11.
    fn has(&self, x: Word<W>) -> bool
        ensures member { IsTrue result ↔ IsTrue (in_known W self.now x.entry) }
        ensures exact { result ≡ in_known W self.now x.entry }
    {
        let bits = x.bits();
        if bits & self.zeros != 0 {
            return false;
        }
        bits & self.ones == self.ones
    }
}

impl<const W: u32> Domain<W> for Known<W> {
    ghost use Rattle.vfa_known.specs.Known.{masks_of, in_known};
    ghost use Rattle.vfa_known.specs.Cube.{in_masks_fits};

    ghost within = { λ k x member. in_masks_fits W (masks_of k) x member };

    /// All numbers of the width: no bit known.
    fn any() -> Known<W>
        requires { IsWidth W }
        ensures all { (x : ℕ) → x < 2 ^ W → IsTrue (in_known W result x) }
        ensures masks { masks_of result ≡ record { zeros = 0; ones = 0 } }
    {
        Known { zeros: 0, ones: 0 }
    }

    /// The bits known alike in both, which are the best known bits of the numbers of either: `0101` and `0111` join to
    /// `01?1`.
    fn join(&self, other: &Known<W>) -> Known<W>
        ensures covers_self { (x : ℕ) → IsTrue (in_known W self.now x) → IsTrue (in_known W result x) }
        ensures covers_other { (x : ℕ) → IsTrue (in_known W other.now x) → IsTrue (in_known W result x) }
        ensures alike { let one = masks_of self.now in
            let two = masks_of other.now in
            masks_of result ≡ record { zeros = bit_and one.zeros two.zeros; ones = bit_and one.ones two.ones } }
        ensures best { masks_of result ≡ best_of W (union (in_known W self.now) (in_known W other.now)) }
        ensures unknown { UnknownMembersVary W (union (in_known W self.now) (in_known W other.now)) (masks_of result) }
    {
        Known {
            zeros: self.zeros & other.zeros,
            ones: self.ones & other.ones,
        }
    }

    /// Yes exactly where each number of `other` is in `self`: `01??` includes `011?`.
    fn includes(&self, other: &Known<W>) -> bool
        ensures yes { OnTrue result ((x : ℕ) → IsTrue (in_known W other.now x) → IsTrue (in_known W self.now x)) }
        ensures exact { result ≡ includes W (in_known W self.now) (in_known W other.now) }
    {
        if self.zeros & other.zeros != self.zeros {
            return false;
        }
        self.ones & other.ones == self.ones
    }

    /// The only number; None exactly where some bit is not known.
    fn single(&self) -> Option<Word<W>>
        ensures only { (x : ℕ) → (result ≡ Some x) ↔ ((y : ℕ) → IsTrue (in_known W self.now y) ↔ (y ≡ x)) }
        ensures exact { result ≡ single_of W (in_known W self.now) }
    {
        if self.zeros | self.ones == most::<W>() {
            Some(Word::cut(self.ones))
        } else {
            None
        }
    }
}
