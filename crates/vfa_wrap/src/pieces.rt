ghost use Rattle.std.specs.Prelude.{◌≡◌, ◌≢◌, ℕ, ◌+◌, ◌^◌};
ghost use Rattle.std.specs.Option.{option_map};
ghost use Rattle.vfa_dom.specs.Sets.{meet};
ghost use Rattle.vfa_wrap.specs.Pieces.{pieces_of, in_spans, run_at};

use crate::arc::{Wrapped, steps_up};

/// At most two arcs of numbers of width `W`; `two` is there only where `one` is.
#[derive(Clone, Copy)]
pub struct Pieces<const W: u32> {
    /// The only arc, or the one with the lesser first number.
    pub one: Option<Wrapped<W>>,
    /// The one with the greater first number, where there are two.
    pub two: Option<Wrapped<W>>,
}

impl<const W: u32> Wrapped<W> {
    ghost use Rattle.vfa_wrap.specs.Arc.{full_span};
    ghost use Rattle.vfa_wrap.specs.Wrapped.{span_of, in_arc, shown_pieces};

    /// The longest arc of common numbers that begins with the first number of `other`; None where that is not common.
    fn common_from(&self, other: &Wrapped<W>) -> Option<Wrapped<W>>
        requires own { span_of self.now ≢ full_span W }
        requires more { span_of other.now ≢ full_span W }
        ensures { option_map span_of result ≡ run_at W (meet (in_arc W self.now) (in_arc W other.now)) (span_of other.now).first }
    {
        let own = self.extent();
        let gap = steps_up::<W>(self.first, other.first);
        if own < gap {
            return None;
        }
        let room = own - gap;
        Some(Wrapped::reaching(other.first, room.min(other.extent())))
    }

    /// The longest arcs of numbers that both have: none, one or two, the one with the lesser first number as `one`.
    ///
    /// ConstantRange::intersectWith has to take one arc that holds them all. At width 8 the pieces of 200 to 50 and
    /// 40 to 220 are 40 to 50 and 200 to 220.
    pub fn pieces(&self, other: &Wrapped<W>) -> Pieces<W>
        ensures pieces { shown_pieces result ≡ pieces_of W (in_arc W self.now) (in_arc W other.now) }
        ensures common { (x : ℕ) → in_spans W (shown_pieces result) x ≡ meet (in_arc W self.now) (in_arc W other.now) x }
    {
        if self.full() {
            return Pieces {
                one: Some(*other),
                two: None,
            };
        }
        if other.full() {
            return Pieces {
                one: Some(*self),
                two: None,
            };
        }
        let from_other = self.common_from(other);
        if self.first == other.first {
            return Pieces {
                one: from_other,
                two: None,
            };
        }
        let from_self = other.common_from(self);
        if self.first < other.first {
            return Pieces {
                one: from_self.or(from_other),
                two: from_self.and(from_other),
            };
        }
        Pieces {
            one: from_other.or(from_self),
            two: from_other.and(from_self),
        }
    }
}
