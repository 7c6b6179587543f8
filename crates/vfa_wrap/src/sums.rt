ghost use Rattle.std.specs.Prelude.{◌≡◌, ℕ, ◌+◌, ◌^◌, ◌<◌, ◌≤◌, MatchOption};
ghost use Rattle.vfa_word.specs.Operations.{sum_of, difference_of};

use crate::arc::{Wrapped, number_ahead, steps_up};
use vfa_word::most;

impl<const W: u32> Wrapped<W> {
    ghost use Rattle.vfa_dom.specs.Results.{results};
    ghost use Rattle.vfa_wrap.specs.Wrapped.{span_of, in_arc};
    ghost use Rattle.vfa_wrap.specs.Arc.{steps, sum_span, difference_span};

    /// One less than how many numbers the sums or differences of the two arcs are; None where they are all.
    fn joint_extent(&self, other: &Wrapped<W>) -> Option<u128>
        ensures { let own = steps W (span_of self.now).first (span_of self.now).last in
            let more = steps W (span_of other.now).first (span_of other.now).last in
            MatchOption result (2 ^ W < own + 1 + (more + 1)) (λ n. (own + 1 + (more + 1) ≤ 2 ^ W) × (n ≡ own + more)) }
    {
        let own = self.extent();
        let more = other.extent();
        if more >= most::<W>() - own {
            return None;
        }
        Some(own + more)
    }

    /// The arc of the sums modulo 2^W of a number of each, which has just these; full where the two arcs have more than
    /// 2^W numbers together.
    ///
    /// As ConstantRange::add: at width 8, 200 to 210 and 100 to 105 give 44 to 59.
    pub fn add(&self, other: &Wrapped<W>) -> Wrapped<W>
        ensures span { span_of result ≡ sum_span W (span_of self.now) (span_of other.now) }
        ensures sums { (r : ℕ) → in_arc W result r ≡ results W (sum_of W) (in_arc W self.now) (in_arc W other.now) r }
    {
        match self.joint_extent(other) {
            None => Wrapped::everything(),
            Some(extent) => Wrapped::reaching(number_ahead::<W>(self.first, other.first), extent),
        }
    }

    /// The arc of the differences modulo 2^W of a number of `self` and one of `other`, which has just these; full where
    /// the two arcs have more than 2^W numbers together.
    ///
    /// As ConstantRange::sub: at width 8, 10 to 20 less 15 to 16 gives 250 to 5.
    pub fn sub(&self, other: &Wrapped<W>) -> Wrapped<W>
        ensures span { span_of result ≡ difference_span W (span_of self.now) (span_of other.now) }
        ensures differences { (r : ℕ) → in_arc W result r ≡ results W (difference_of W) (in_arc W self.now) (in_arc W other.now) r }
    {
        match self.joint_extent(other) {
            None => Wrapped::everything(),
            Some(extent) => Wrapped::reaching(steps_up::<W>(other.last, self.first), extent),
        }
    }
}
