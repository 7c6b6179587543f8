ghost use Rattle.std.specs.Prelude.{◌≡◌, ◌+◌, ◌-◌, ◌%◌, ◌^◌, ◌<◌, ◌≤◌, ◌↔◌, IsTrue};
ghost use Rattle.vfa_wrap.specs.Arc.{Span, IsArc, steps};
ghost use Rattle.vfa_word.specs.Numbers.{IsWidth};

use vfa_word::{Word, most};

/// An arc of numbers of width `W`, with `W` from 1 to 128: the numbers from the first one up to the last one, which go on
/// at 0 after 2^W - 1. It is never empty, and an arc of all numbers is written from 0 to 2^W - 1.
#[derive(Clone, Copy)]
pub struct Wrapped<const W: u32> {
    pub(crate) first: u128,
    pub(crate) last: u128,
    pub ghost arc: { IsArc W (record { first = first; last = last }) },
    pub ghost width: { IsWidth W },
}

/// How many steps up lead from `from` to `to`.
#[tactic(auto, using(crate::proofs::Circle::steps_is))]
pub(crate) fn steps_up<const W: u32>(from: u128, to: u128) -> u128
    requires width { IsWidth W }
    requires from_fits { from < 2 ^ W }
    requires to_fits { to < 2 ^ W }
    ensures value { result ≡ steps W from to }
    ensures fits { result < 2 ^ W }
{
    if from <= to {
        return to - from;
    }
    let beyond = most::<W>() - from;
    beyond + to + 1
}

/// The number `count` steps up from `from`.
#[tactic(auto, using(crate::proofs::Circle::wrapped_sum))]
pub(crate) fn number_ahead<const W: u32>(from: u128, count: u128) -> u128
    requires width { IsWidth W }
    requires from_fits { from < 2 ^ W }
    requires count_fits { count < 2 ^ W }
    ensures value { result ≡ (from + count) % 2 ^ W }
    ensures fits { result < 2 ^ W }
{
    let beyond = most::<W>() - from;
    if count <= beyond {
        return from + count;
    }
    count - beyond - 1
}

impl<const W: u32> Wrapped<W> {
    ghost use Rattle.vfa_wrap.specs.Wrapped.{span_of};
    ghost use Rattle.vfa_wrap.specs.Arc.{arc_from, full_span, steps};

    /// The arc from `first` up to `last`, which goes on at 0 after the greatest number; an arc of all numbers is
    /// written from 0 to 2^W - 1.
    ///
    /// At width 8 the arc from 250 to 5 has twelve numbers, and the arc from 6 to 5 is the one from 0 to 255.
    pub fn new(first: Word<W>, last: Word<W>) -> Wrapped<W>
        ensures { span_of result ≡ arc_from W first.entry last.entry }
    {
        Wrapped::between(first.bits(), last.bits())
    }

    /// The arc from `first` up to `last`, two numbers of the width.
    pub(crate) fn between(first: u128, last: u128) -> Wrapped<W>
        requires width { IsWidth W }
        requires first_fits { first < 2 ^ W }
        requires last_fits { last < 2 ^ W }
        ensures { span_of result ≡ arc_from W first last }
    {
        if number_ahead::<W>(last, 1) == first {
            return Wrapped::everything();
        }
        Wrapped { first, last }
    }

    /// The first number of the arc, 0 where it is full.
    pub fn first(&self) -> Word<W>
        ensures { result ≡ (span_of self.now).first }
    {
        Word::cut(self.first)
    }

    /// The last number of the arc, 2^W - 1 where it is full.
    pub fn last(&self) -> Word<W>
        ensures { result ≡ (span_of self.now).last }
    {
        Word::cut(self.last)
    }

    /// Whether the arc has all numbers of the width.
    pub fn full(&self) -> bool
        ensures { IsTrue result ↔ (span_of self.now ≡ full_span W) }
    {
        self.first == 0 && self.last == most::<W>()
    }

    /// The arc of `count` more numbers from `first` on.
    pub(crate) fn reaching(first: u128, count: u128) -> Wrapped<W>
        requires width { IsWidth W }
        requires first_fits { first < 2 ^ W }
        requires count_fits { count < 2 ^ W }
        ensures { span_of result ≡ arc_from W first (first + count) }
    {
        if count == most::<W>() {
            return Wrapped {
                first: 0,
                last: count,
            };
        }
        Wrapped {
            first,
            last: number_ahead::<W>(first, count),
        }
    }

    /// The arc of all numbers.
    pub(crate) fn everything() -> Wrapped<W>
        requires { IsWidth W }
        ensures { span_of result ≡ full_span W }
    {
        Wrapped {
            first: 0,
            last: most::<W>(),
        }
    }

    /// How many steps up lead from the first number to the last, one less than the arc has numbers.
    pub(crate) fn extent(&self) -> u128
        ensures value { result ≡ steps W (span_of self.now).first (span_of self.now).last }
        ensures fits { result < 2 ^ W }
    {
        steps_up::<W>(self.first, self.last)
    }
}
