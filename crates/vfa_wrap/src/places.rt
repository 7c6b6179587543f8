ghost use Rattle.std.specs.Prelude.{◌≡◌, ℤ, ◌<◌, ◌%◌, ◌^◌, false, pos, int_lt};
ghost use Rattle.std.specs.Int.{int_min, int_max};
ghost use Rattle.vfa_word.specs.Numbers.{IsWidth, wrap, signed_of, fits_signed};
ghost use Rattle.vfa_word.specs.Operations.{whole_unsigned, whole_signed};
ghost use Rattle.vfa_wrap.specs.WholeSpans.{WholeSpan, range_of, whole_read, fits_read, clamped_read, lies_in_range, misses_range, overflow_of, number_of};
ghost use Rattle.vfa_wrap.specs.WholePlaces.{place_of, places_of};

use crate::reading::Reading;
use crate::rows::signed::most_signed;
use vfa_word::{Arith, Word, most};

/// Where a whole number stands to the range of a width, in one of the two readings.
#[derive(Clone, Copy)]
pub(crate) enum Place {
    /// Below each number of the range.
    Below,
    /// In the range, with the number of the width whose reading it is.
    Within(u128),
    /// Above each number of the range.
    Above,
}

/// The places of the least and the greatest number of a span.
#[derive(Clone, Copy)]
pub(crate) struct Places {
    pub least: Place,
    pub most: Place,
}

/// The number that the operation gives.
fn number<const W: u32>(op: Arith, x: Word<W>, y: Word<W>) -> Word<W>
    requires { op ≡ Arith.Shl → y < W }
    ensures number { result ≡ number_of op W x.entry y.entry }
    ensures left { x.entry < 2 ^ W }
    ensures right { y.entry < 2 ^ W }
{
    // the prover knows the bounds of the numbers once their bits are read
    let _left = x.bits();
    let right = y.bits();
    match op {
        Arith::Add => x.add(y),
        Arith::Sub => x.sub(y),
        Arith::Mul => x.mul(y),
        Arith::Shl => x.shl(right as u32),
    }
}

/// Whether the whole result of two numbers is negative.
fn is_negative<const W: u32>(op: Arith, x: Word<W>, y: Word<W>) -> bool
    ensures { result ≡ int_lt (whole_unsigned op x.entry y.entry) (pos 0) }
{
    match op {
        Arith::Sub => x.bits() < y.bits(),
        Arith::Add | Arith::Mul | Arith::Shl => false,
    }
}

/// The place of the whole result of two numbers.
fn unsigned_place<const W: u32>(op: Arith, x: Word<W>, y: Word<W>) -> Place
    requires { op ≡ Arith.Shl → y < W }
    ensures { result ≡ place_of Reading.Unsigned W (whole_unsigned op x.entry y.entry) }
{
    if !x.overflows_u(op, y) {
        return Place::Within(number(op, x, y).bits());
    }
    if is_negative(op, x, y) {
        return Place::Below;
    }
    Place::Above
}

/// Whether the whole result of the signed readings of two numbers is negative, where it leaves the range.
fn leaves_below<const W: u32>(op: Arith, x: Word<W>, y: Word<W>) -> bool
    requires { fits_signed W (whole_signed W op x y) ≡ false }
    ensures { result ≡ int_lt (whole_signed W op x.entry y.entry) (pos 0) }
{
    let negative = x.signed() < 0;
    match op {
        Arith::Mul => negative != (y.signed() < 0),
        Arith::Add | Arith::Sub | Arith::Shl => negative,
    }
}

/// The place of the whole result of the signed readings of two numbers.
fn signed_place<const W: u32>(op: Arith, x: Word<W>, y: Word<W>) -> Place
    requires { op ≡ Arith.Shl → y < W }
    ensures { result ≡ place_of Reading.Signed W (whole_signed W op x.entry y.entry) }
{
    if !x.overflows_s(op, y) {
        return Place::Within(number(op, x, y).bits());
    }
    if leaves_below(op, x, y) {
        return Place::Below;
    }
    Place::Above
}

/// The place of the whole result of two numbers in the reading.
pub(crate) fn result_place<const W: u32>(
    reading: Reading,
    op: Arith,
    x: Word<W>,
    y: Word<W>,
) -> Place
    requires { op ≡ Arith.Shl → y < W }
    ensures { result ≡ place_of reading W (whole_read reading W op x.entry y.entry) }
{
    match reading {
        Reading::Unsigned => unsigned_place(op, x, y),
        Reading::Signed => signed_place(op, x, y),
    }
}

/// Whether the signed reading of `x` is below that of `y`.
fn reads_below<const W: u32>(x: u128, y: u128) -> bool
    requires { IsWidth W }
    ensures { result ≡ int_lt (signed_of W (x % 2 ^ W)) (signed_of W (y % 2 ^ W)) }
{
    Word::<W>::cut(x).signed() < Word::<W>::cut(y).signed()
}

impl Place {
    /// The lower of two places of signed readings.
    pub(crate) fn lower<const W: u32>(self, other: Place) -> Place
        requires { IsWidth W }
        ensures { (y z : ℤ) → self ≡ place_of Reading.Signed W y → other ≡ place_of Reading.Signed W z → result ≡ place_of Reading.Signed W (int_min y z) }
    {
        match self {
            Place::Below => self,
            Place::Above => other,
            Place::Within(x) => match other {
                Place::Below => other,
                Place::Above => self,
                Place::Within(y) => {
                    if reads_below::<W>(y, x) {
                        return other;
                    }
                    self
                }
            },
        }
    }

    /// The higher of two places of signed readings.
    pub(crate) fn higher<const W: u32>(self, other: Place) -> Place
        requires { IsWidth W }
        ensures { (y z : ℤ) → self ≡ place_of Reading.Signed W y → other ≡ place_of Reading.Signed W z → result ≡ place_of Reading.Signed W (int_max y z) }
    {
        match self {
            Place::Below => other,
            Place::Above => self,
            Place::Within(x) => match other {
                Place::Below => self,
                Place::Above => other,
                Place::Within(y) => {
                    if reads_below::<W>(y, x) {
                        return self;
                    }
                    other
                }
            },
        }
    }

    /// Whether a whole number at the place is in the range.
    pub(crate) fn is_within<const W: u32>(self, reading: Reading) -> bool
        ensures { (z : ℤ) → self ≡ place_of reading W z → result ≡ fits_read reading W z }
    {
        match self {
            Place::Within(_) => true,
            _ => false,
        }
    }

    /// The number of the width that a whole number at the place is clamped to.
    pub(crate) fn clamped<const W: u32>(self, reading: Reading) -> u128
        requires { IsWidth W }
        ensures { (z : ℤ) → self ≡ place_of reading W z → result ≡ clamped_read reading W z }
    {
        match self {
            Place::Within(number) => number,
            Place::Below => least_number::<W>(reading),
            Place::Above => greatest_number::<W>(reading),
        }
    }
}

/// The number of the width whose reading is the least.
fn least_number<const W: u32>(reading: Reading) -> u128
    requires { IsWidth W }
    ensures { result ≡ wrap W (range_of reading W).least }
{
    match reading {
        Reading::Unsigned => 0,
        Reading::Signed => most_signed::<W>() + 1,
    }
}

/// The number of the width whose reading is the greatest.
fn greatest_number<const W: u32>(reading: Reading) -> u128
    requires { IsWidth W }
    ensures { result ≡ wrap W (range_of reading W).most }
{
    match reading {
        Reading::Unsigned => most::<W>(),
        Reading::Signed => most_signed::<W>(),
    }
}

impl Places {
    /// Whether a span with these places lies in the range.
    pub(crate) fn lies<const W: u32>(self, reading: Reading) -> bool
        ensures { (span : WholeSpan) → self ≡ places_of reading W span → result ≡ lies_in_range reading W span }
    {
        if !self.least.is_within::<W>(reading) {
            return false;
        }
        self.most.is_within::<W>(reading)
    }

    /// Whether an operation whose span has these places overflows, where the span tells it.
    pub(crate) fn overflow<const W: u32>(self, reading: Reading) -> Option<bool>
        ensures { (span : WholeSpan) → self ≡ places_of reading W span → result ≡ overflow_of reading W span }
    {
        if self.lies::<W>(reading) {
            return Some(false);
        }
        if self.misses::<W>(reading) {
            return Some(true);
        }
        None
    }

    /// Whether each number of a span with these places misses the range.
    pub(crate) fn misses<const W: u32>(self, reading: Reading) -> bool
        ensures { (span : WholeSpan) → self ≡ places_of reading W span → result ≡ misses_range reading W span }
    {
        match self.most {
            Place::Below => true,
            _ => match self.least {
                Place::Above => true,
                _ => false,
            },
        }
    }
}
