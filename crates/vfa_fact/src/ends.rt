ghost use Rattle.std.specs.Prelude.{◌≡◌, ℕ, ◌<◌, ◌-◌, ◌^◌, IsTrue};
ghost use Rattle.vfa_dom.specs.Search.{least_below, greatest_below};
ghost use Rattle.vfa_fact.specs.Sharp.{first_from, last_from};
ghost use Rattle.vfa_wrap.specs.Places.{in_signed_order, reading_at};

use crate::fact::Fact;
use vfa_known::Known;
use vfa_word::{Word, most};
use vfa_wrap::Ends;

impl<const W: u32> Fact<W> {
    ghost use Rattle.vfa_known.specs.Known.{in_known};
    ghost use Rattle.vfa_wrap.specs.Between.{AreEnds, Between};
    ghost use Rattle.vfa_wrap.specs.Ends.{ends_of, shown_ends};
    ghost use Rattle.vfa_fact.specs.Views.{numbers_of, in_fact};

    /// The least member.
    pub(crate) fn least(&self) -> u128
        ensures { result ≡ least_below (2 ^ W) (in_fact W self.now) }
    {
        let first = self.arc.first().bits();
        if first <= self.arc.last().bits() {
            return first;
        }
        self.known.ones()
    }

    /// The greatest member.
    pub(crate) fn greatest(&self) -> u128
        ensures { result ≡ greatest_below (2 ^ W) (in_fact W self.now) }
    {
        let last = self.arc.last().bits();
        if self.arc.first().bits() <= last {
            return last;
        }
        most::<W>() ^ self.known.zeros()
    }

    /// The least number of the cube in the signed order.
    fn signed_first(known: &Known<W>) -> Word<W>
        ensures { result ≡ first_from W (2 ^ (W - 1)) (in_known W known.now) }
    {
        let Some(first) = known.first_at_or_after(1 << (W - 1)) else {
            return Word::cut(known.ones());
        };
        Word::cut(first)
    }

    /// The greatest number of the cube in the signed order.
    fn signed_last(known: &Known<W>) -> Word<W>
        ensures { result ≡ last_from W (2 ^ (W - 1)) (in_known W known.now) }
    {
        let Some(last) = known.last_at_or_before((1 << (W - 1)) - 1) else {
            return Word::cut(most::<W>() ^ known.zeros());
        };
        Word::cut(last)
    }

    /// The least signed reading of a member.
    pub(crate) fn least_signed(&self) -> i128
        ensures { result ≡ reading_at W (least_below (2 ^ W) (λ k. in_fact W self.now (in_signed_order W k))) }
    {
        let first = self.arc.first().signed();
        if first <= self.arc.last().signed() {
            return first;
        }
        Fact::signed_first(&self.known).signed()
    }

    /// The greatest signed reading of a member.
    pub(crate) fn greatest_signed(&self) -> i128
        ensures { result ≡ reading_at W (greatest_below (2 ^ W) (λ k. in_fact W self.now (in_signed_order W k))) }
    {
        let last = self.arc.last().signed();
        if self.arc.first().signed() <= last {
            return last;
        }
        Fact::signed_last(&self.known).signed()
    }

    /// The least and greatest members, and the least and greatest signed readings of members: each member lies between
    /// them in both readings.
    ///
    /// At width 8, the even numbers in the arc from 250 to 4 have the ends 0 and 254, and -6 and 4.
    pub fn ends(&self) -> Ends<W>
        ensures value { shown_ends result ≡ ends_of W (in_fact W self.now) }
        ensures reached { AreEnds W (shown_ends result) }
        ensures between { (x : ℕ) → IsTrue (in_fact W self.now x) → Between W (shown_ends result) x }
    {
        let lo = self.least();
        let hi = self.greatest();
        let slo = self.least_signed();
        let shi = self.greatest_signed();
        Ends { lo, hi, slo, shi }
    }
}
