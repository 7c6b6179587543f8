ghost use Rattle.std.specs.Prelude.{◌≡◌, ℕ, ◌<◌, ◌^◌, IsTrue, IsSomeAnd};
ghost use Rattle.std.specs.Option.{option_map};
ghost use Rattle.vfa_dom.specs.Sets.{meet};
ghost use Rattle.vfa_fact.specs.Fact.{IsFact};
ghost use Rattle.vfa_fact.specs.Interval.{part_of, joined};
ghost use Rattle.vfa_fact.specs.Sharp.{sharp_in};
ghost use Rattle.vfa_fact.specs.Views.{numbers_of};
ghost use Rattle.vfa_known.specs.Known.{in_known};
ghost use Rattle.vfa_word.specs.Numbers.{IsWidth};
ghost use Rattle.vfa_wrap.specs.Wrapped.{span_of, in_arc};

use crate::fact::Fact;
use crate::numbers::Numbers;
use crate::test::Test;
use vfa_known::Known;
use vfa_word::{Word, most};
use vfa_wrap::Wrapped;

/// The numbers of a set in two parts, the first of which comes before the second.
fn both_parts(one: Option<Numbers>, two: Option<Numbers>) -> Option<Numbers>
    ensures { result ≡ joined one two }
{
    let Some(low) = one else {
        return two;
    };
    let Some(high) = two else {
        return one;
    };
    Some(Numbers {
        zeros: low.zeros & high.zeros,
        ones: low.ones & high.ones,
        first: low.first,
        last: high.last,
    })
}

/// The sharp numbers from `low` up to `high` that agree with the known bits.
fn between<const W: u32>(cube: &Known<W>, low: u128, high: u128) -> Option<Numbers>
    requires low_fits { low < 2 ^ W }
    requires high_fits { high < 2 ^ W }
    requires width { IsWidth W }
    ensures { result ≡ part_of W low high (in_known W cube.now) }
{
    let first = cube.first_at_or_after(low)?;
    let last = cube.last_at_or_before(high)?;
    if last < first {
        return None;
    }
    // what lies between has the bits of both ends above the highest place where they differ, and any below
    let turn = ((first ^ last) | 1).ilog2();
    Some(Numbers {
        zeros: cube.zeros() | (((most::<W>() ^ last) >> turn) << turn),
        ones: cube.ones() | ((first >> turn) << turn),
        first,
        last,
    })
}

/// The sharp numbers of the arc's numbers that agree with the known bits.
fn numbers_within<const W: u32>(cube: &Known<W>, arc: &Wrapped<W>) -> Option<Numbers>
    ensures { result ≡ sharp_in W (span_of arc.now) (in_known W cube.now) }
{
    let first = arc.first().bits();
    let last = arc.last().bits();
    if first <= last {
        return between(cube, first, last);
    }
    both_parts(between(cube, first, most::<W>()), between(cube, 0, last))
}

/// The fact of the arc's numbers that agree with the known bits.
pub(crate) fn sharpened<const W: u32>(cube: &Known<W>, arc: &Wrapped<W>) -> Option<Fact<W>>
    ensures { option_map numbers_of result ≡ sharp_in W (span_of arc.now) (in_known W cube.now) }
{
    let numbers = numbers_within(cube, arc)?;
    Some(Fact::from_numbers(&numbers))
}

/// The sharp numbers from `low` up to `high` that agree with the known bits and lie in the arc.
pub(crate) fn between_in<const W: u32>(
    cube: &Known<W>,
    arc: &Wrapped<W>,
    low: u128,
    high: u128,
) -> Option<Numbers>
    requires low_fits { low < 2 ^ W }
    requires high_fits { high < 2 ^ W }
    requires width { IsWidth W }
    ensures { result ≡ part_of W low high (meet (in_arc W arc.now) (in_known W cube.now)) }
{
    let first = arc.first().bits();
    let last = arc.last().bits();
    let from = low.max(first);
    let upto = high.min(last);
    if first <= last {
        return between(cube, from, upto);
    }
    both_parts(between(cube, low, upto), between(cube, from, high))
}

/// The sharp numbers of the arc `within` that agree with the known bits and lie in the other arc.
pub(crate) fn numbers_in_both<const W: u32>(
    cube: &Known<W>,
    arc: &Wrapped<W>,
    within: &Wrapped<W>,
) -> Option<Numbers>
    ensures { result ≡ sharp_in W (span_of within.now) (meet (in_arc W arc.now) (in_known W cube.now)) }
{
    let first = within.first().bits();
    let last = within.last().bits();
    if first <= last {
        return between_in(cube, arc, first, last);
    }
    both_parts(
        between_in(cube, arc, first, most::<W>()),
        between_in(cube, arc, 0, last),
    )
}

impl<const W: u32> Test<W> {
    ghost use Rattle.vfa_known.specs.Known.{in_known};
    ghost use Rattle.vfa_wrap.specs.Wrapped.{span_of, in_arc};

    /// The sharp numbers from `low` up to `high` that pass the test.
    fn in_two(&self, low: u128, high: u128) -> Option<Numbers>
        requires low_fits { low < 2 ^ W }
        requires high_fits { high < 2 ^ W }
        requires width { IsWidth W }
        ensures { result ≡ part_of W low high
            (meet (in_arc W self.now.two) (meet (in_arc W self.now.one) (in_known W self.now.cube))) }
    {
        let first = self.two.first().bits();
        let last = self.two.last().bits();
        let from = low.max(first);
        let upto = high.min(last);
        if first <= last {
            return between_in(&self.cube, &self.one, from, upto);
        }
        both_parts(
            between_in(&self.cube, &self.one, low, upto),
            between_in(&self.cube, &self.one, from, high),
        )
    }

    /// The sharp numbers of the arc's numbers that pass the test.
    fn within(&self, arc: &Wrapped<W>) -> Option<Numbers>
        ensures { result ≡ sharp_in W (span_of arc.now)
            (meet (in_arc W self.now.two) (meet (in_arc W self.now.one) (in_known W self.now.cube))) }
    {
        let first = arc.first().bits();
        let last = arc.last().bits();
        if first <= last {
            return self.in_two(first, last);
        }
        both_parts(self.in_two(first, most::<W>()), self.in_two(0, last))
    }
}

impl<const W: u32> Fact<W> {
    ghost use Rattle.vfa_known.specs.Known.{in_known};
    ghost use Rattle.vfa_wrap.specs.Wrapped.{span_of, in_arc};
    ghost use Rattle.vfa_fact.specs.Views.{numbers_of, in_fact, in_test};

    /// The fact with these numbers, which are those of a fact.
    pub(crate) fn from_numbers(numbers: &Numbers) -> Fact<W>
        requires width { IsWidth W }
        requires fact { IsFact W numbers.now }
        ensures { numbers_of result ≡ numbers.now }
    {
        let Some(known) = Known::new(numbers.zeros, numbers.ones) else {
            unreachable!()
        };
        let arc = Wrapped::new(Word::cut(numbers.first), Word::cut(numbers.last));
        Fact { known, arc }
    }

    /// The fact of the numbers that agree with `known`, lie in `arc` and pass `test`: their best known bits, and the part
    /// of `arc` from the first of them to the last, going up from the arc's first number. None exactly where there is none.
    ///
    /// At width 8, the multiples of 4 in the arc from 5 to 17, with no test, are the numbers of the fact `000???00` from 8
    /// to 16.
    pub fn sharp(known: Known<W>, arc: Wrapped<W>, test: &Test<W>) -> Option<Fact<W>>
        ensures exact { option_map numbers_of result
            ≡ sharp_in W (span_of arc.entry) (meet (in_known W known.entry) (in_test W test.now)) }
        ensures covers { (x : ℕ) → IsTrue (in_known W known.entry x) → IsTrue (in_arc W arc.entry x) →
            IsTrue (in_test W test.now x) → IsSomeAnd result (λ fact. IsTrue (in_fact W fact x)) }
    {
        let cube = known.agree(&test.cube)?;
        let one = test.one;
        let two = test.two;
        let numbers = Test { cube, one, two }.within(&arc)?;
        Some(Fact::from_numbers(&numbers))
    }
}
