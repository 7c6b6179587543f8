ghost use Rattle.std.specs.Prelude.{◌≡◌, IsTrue};
ghost use Rattle.vfa_dom.specs.Best.{best_of};
ghost use Rattle.vfa_fact.specs.Fact.{IsFact, masks_in, span_in};

use vfa_known::Known;
use vfa_wrap::Wrapped;

/// What is known of a number of width `W`, with `W` from 1 to 128: known bits and an arc. It stands for the set of the
/// numbers that agree with both. The set has a member; the known bits are the best ones of it, and both ends of the arc
/// are members.
#[derive(Clone, Copy)]
pub struct Fact<const W: u32> {
    pub(crate) known: Known<W>,
    pub(crate) arc: Wrapped<W>,
    pub ghost sharp: { IsFact W (record { zeros = known.zeros; ones = known.ones; first = arc.first; last = arc.last }) },
}

impl<const W: u32> Fact<W> {
    ghost use Rattle.vfa_known.specs.Known.{masks_of};
    ghost use Rattle.vfa_wrap.specs.Wrapped.{span_of};
    ghost use Rattle.vfa_fact.specs.Views.{numbers_of, in_fact};

    /// The known bits, which are the best ones of the members: a bit is known zero exactly where no member has it, known
    /// one exactly where all members have it.
    pub fn known(&self) -> Known<W>
        ensures masks { masks_of result ≡ masks_in (numbers_of self.now) }
        ensures best { masks_of result ≡ best_of W (in_fact W self.now) }
    {
        self.known
    }

    /// The arc, whose ends are both members.
    pub fn arc(&self) -> Wrapped<W>
        ensures span { span_of result ≡ span_in (numbers_of self.now) }
        ensures first { IsTrue (in_fact W self.now (span_of result).first) }
        ensures last { IsTrue (in_fact W self.now (span_of result).last) }
    {
        self.arc
    }
}
