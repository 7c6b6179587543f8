ghost use Rattle.std.specs.Prelude.{◌≡◌, ℕ, ◌+◌, ◌^◌, ◌<◌, ◌≤◌, IsTrue, length, slice_index};
ghost use Rattle.std.specs.List.{All};
ghost use Rattle.std.specs.List.Sorted.{IsNonDecreasing};
ghost use Rattle.vfa_word.specs.Numbers.{IsWidth};
ghost use Rattle.vfa_wrap.specs.Rounding.{steps_to_mark, steps_down_to_mark, fall_of, rise_of, rounded_out};

use crate::arc::{Wrapped, steps_up};
use vfa_word::most;

/// How many of the marks are below `x`.
fn marks_below(marks: &[u128], x: u128) -> usize
    requires { IsNonDecreasing marks.now }
    ensures bound { result ≤ length marks.now }
    ensures below { (k : ℕ) → k < result → slice_index marks.now k < x }
    ensures others { (k : ℕ) → result ≤ k → k < length marks.now → x ≤ slice_index marks.now k }
{
    marks.partition_point(|mark| *mark < x)
}

/// How many of the marks are at most `x`.
fn marks_up_to(marks: &[u128], x: u128) -> usize
    requires { IsNonDecreasing marks.now }
    ensures bound { result ≤ length marks.now }
    ensures up_to { (k : ℕ) → k < result → slice_index marks.now k ≤ x }
    ensures others { (k : ℕ) → result ≤ k → k < length marks.now → x < slice_index marks.now k }
{
    marks.partition_point(|mark| *mark <= x)
}

/// How many steps up lead from `x` to the nearest mark at or above it.
fn rise<const W: u32>(marks: &[u128], x: u128) -> u128
    requires width { IsWidth W }
    requires sorted { IsNonDecreasing marks.now }
    requires marks_fit { All (λ m. m < 2 ^ W) marks.now }
    requires some { 0 < length marks.now }
    requires fits { x < 2 ^ W }
    ensures value { result ≡ steps_to_mark W marks.now x }
    ensures bound { result < 2 ^ W }
{
    let place = marks_below(marks, x);
    if place < marks.len() {
        return steps_up::<W>(x, marks[place]);
    }
    steps_up::<W>(x, marks[0])
}

/// How many steps down lead from `x` to the nearest mark at or below it.
fn fall<const W: u32>(marks: &[u128], x: u128) -> u128
    requires width { IsWidth W }
    requires sorted { IsNonDecreasing marks.now }
    requires marks_fit { All (λ m. m < 2 ^ W) marks.now }
    requires some { 0 < length marks.now }
    requires fits { x < 2 ^ W }
    ensures value { result ≡ steps_down_to_mark W marks.now x }
    ensures bound { result < 2 ^ W }
{
    let place = marks_up_to(marks, x);
    if place > 0 {
        return steps_up::<W>(marks[place - 1], x);
    }
    steps_up::<W>(marks[marks.len() - 1], x)
}

impl<const W: u32> Wrapped<W> {
    ghost use Rattle.vfa_wrap.specs.Wrapped.{span_of, in_arc};

    /// How far the first number goes down to a mark, where it is not the old one.
    fn first_fall(&self, old: &Wrapped<W>, marks: &[u128]) -> u128
        requires sorted { IsNonDecreasing marks.now }
        requires marks_fit { All (λ m. m < 2 ^ W) marks.now }
        requires some { 0 < length marks.now }
        ensures value { result ≡ fall_of W (span_of self.now) (span_of old.now) marks.now }
        ensures bound { result < 2 ^ W }
    {
        if self.first == old.first {
            return 0;
        }
        fall::<W>(marks, self.first)
    }

    /// How far the last number goes up to a mark, where it is not the old one.
    fn last_rise(&self, old: &Wrapped<W>, marks: &[u128]) -> u128
        requires sorted { IsNonDecreasing marks.now }
        requires marks_fit { All (λ m. m < 2 ^ W) marks.now }
        requires some { 0 < length marks.now }
        ensures value { result ≡ rise_of W (span_of self.now) (span_of old.now) marks.now }
        ensures bound { result < 2 ^ W }
    {
        if self.last == old.last {
            return 0;
        }
        rise::<W>(marks, self.last)
    }

    /// The arc whose ends go on to the nearest marks, the first one downwards and the last one upwards, where they are not
    /// those of `old`; full where the arc and these steps together have all numbers. The marks are numbers of the width in
    /// order, and there is at least one. They are searched by halves.
    ///
    /// This project's own, for widening: at width 8, with the marks 10, 100 and 200, the arc from 20 to 60 becomes 20 to
    /// 100 where the old one went from 20 to 50, and 10 to 60 where it went from 30 to 60.
    pub fn round_out(&self, old: &Wrapped<W>, marks: &[u128]) -> Wrapped<W>
        requires sorted { IsNonDecreasing marks.now }
        requires marks_fit { All (λ m. m < 2 ^ W) marks.now }
        requires some { 0 < length marks.now }
        ensures span { span_of result ≡ rounded_out W (span_of self.now) (span_of old.now) marks.now }
        ensures covers { (x : ℕ) → IsTrue (in_arc W self.now x) → IsTrue (in_arc W result x) }
    {
        let own = self.extent();
        let down = self.first_fall(old, marks);
        let up = self.last_rise(old, marks);
        let room = most::<W>() - own;
        if down >= room {
            return Wrapped::everything();
        }
        if up >= room - down {
            return Wrapped::everything();
        }
        Wrapped::reaching(steps_up::<W>(down, self.first), own + down + up)
    }
}
