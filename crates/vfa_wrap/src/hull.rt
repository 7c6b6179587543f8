ghost use Rattle.std.specs.Prelude.{◌≡◌, ◌<◌, ◌^◌};

use crate::arc::{Wrapped, steps_up};
use vfa_word::most;

impl<const W: u32> Wrapped<W> {
    ghost use Rattle.vfa_wrap.specs.Wrapped.{span_of, in_arc};
    ghost use Rattle.vfa_wrap.specs.Arc.{reach_of, hull_of};

    /// How many steps up from its first number an arc has to go that begins there and holds both.
    fn reach(&self, other: &Wrapped<W>) -> u128
        ensures value { result ≡ reach_of W (span_of self.now) (span_of other.now) }
        ensures fits { result < 2 ^ W }
    {
        let gap = steps_up::<W>(self.first, other.first);
        let size = other.extent();
        if size > most::<W>() - gap {
            return most::<W>();
        }
        self.extent().max(gap + size)
    }

    /// The arc of the fewest numbers that holds both arcs; of two with equally many the one with the lesser first number.
    ///
    /// As ConstantRange::unionWith: at width 8 the hull of 250 to 5 and 10 to 20 is 250 to 20, that of 0 to 0 and
    /// 128 to 128 is 0 to 128.
    pub fn hull(&self, other: &Wrapped<W>) -> Wrapped<W>
        ensures { span_of result ≡ hull_of W (in_arc W self.now) (in_arc W other.now) }
    {
        let from_self = self.reach(other);
        let from_other = other.reach(self);
        if from_self < from_other {
            return Wrapped::reaching(self.first, from_self);
        }
        if from_other < from_self {
            return Wrapped::reaching(other.first, from_other);
        }
        Wrapped::reaching(self.first.min(other.first), from_self)
    }
}
