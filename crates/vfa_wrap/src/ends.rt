ghost use Rattle.std.specs.Prelude.{◌≡◌, ℕ, ◌-◌, ◌^◌, ◌<◌, IsTrue};
ghost use Rattle.vfa_word.specs.Numbers.{IsWidth};
ghost use Rattle.vfa_dom.specs.Search.{least_below, greatest_below};
ghost use Rattle.vfa_wrap.specs.Arc.{Span, in_span};
ghost use Rattle.vfa_wrap.specs.Places.{reading_at};

use crate::arc::{Wrapped, number_ahead};
use vfa_word::most;

/// The least and greatest numbers of a set of numbers of width `W`, and its least and greatest signed readings.
#[derive(Clone, Copy)]
pub struct Ends<const W: u32> {
    /// The least number.
    pub lo: u128,
    /// The greatest number.
    pub hi: u128,
    /// The least signed reading.
    pub slo: i128,
    /// The greatest signed reading.
    pub shi: i128,
}

/// The least number of the arc from `first` up to `last`.
fn least_in<const W: u32>(first: u128, last: u128) -> u128
    requires first_fits { first < 2 ^ W }
    requires last_fits { last < 2 ^ W }
    ensures value { result ≡ least_below (2 ^ W) (in_span W (record { first = first; last = last })) }
    ensures fits { result < 2 ^ W }
{
    if first <= last {
        return first;
    }
    0
}

/// The greatest number of the arc from `first` up to `last`.
fn greatest_in<const W: u32>(first: u128, last: u128) -> u128
    requires width { IsWidth W }
    requires first_fits { first < 2 ^ W }
    requires last_fits { last < 2 ^ W }
    ensures value { result ≡ greatest_below (2 ^ W) (in_span W (record { first = first; last = last })) }
    ensures fits { result < 2 ^ W }
{
    if first <= last {
        return last;
    }
    most::<W>()
}

/// The least signed value as a number, 2^(W - 1).
fn half<const W: u32>() -> u128
    requires { IsWidth W }
    ensures value { result ≡ 2 ^ (W - 1) }
    ensures fits { result < 2 ^ W }
{
    1 << (W - 1)
}

/// The signed reading that stands `place` places above the least one.
fn reading<const W: u32>(place: u128) -> i128
    requires width { IsWidth W }
    requires fits { place < 2 ^ W }
    ensures { result ≡ reading_at W place }
{
    let half = half::<W>();
    if half <= place {
        return (place - half) as i128;
    }
    let below = half - place - 1;
    -1 - below as i128
}

impl<const W: u32> Wrapped<W> {
    ghost use Rattle.vfa_wrap.specs.Between.{Between, AreEnds};
    ghost use Rattle.vfa_wrap.specs.Ends.{ends_of, shown_ends};
    ghost use Rattle.vfa_wrap.specs.Wrapped.{in_arc};

    /// The least and greatest numbers of the arc, and its least and greatest signed readings.
    ///
    /// As ConstantRange's getUnsignedMin, getUnsignedMax, getSignedMin and getSignedMax: at width 8 the arc from 250 to 5
    /// has the ends 0 and 255, and -6 and 5.
    pub fn ends(&self) -> Ends<W>
        ensures value { shown_ends result ≡ ends_of W (in_arc W self.now) }
        ensures reached { AreEnds W (shown_ends result) }
        ensures between { (x : ℕ) → IsTrue (in_arc W self.now x) → Between W (shown_ends result) x }
    {
        let lo = least_in::<W>(self.first, self.last);
        let hi = greatest_in::<W>(self.first, self.last);
        let first = number_ahead::<W>(self.first, half::<W>());
        let last = number_ahead::<W>(self.last, half::<W>());
        let slo = reading::<W>(least_in::<W>(first, last));
        let shi = reading::<W>(greatest_in::<W>(first, last));
        Ends { lo, hi, slo, shi }
    }
}
