//! Spans of whole results, which may be too large for 128 bits: whether a sum, difference, product or shift of numbers
//! between ends leaves the range of the width, and the arc of the results that do not.
ghost use Rattle.std.specs.Prelude.{◌≡◌, ◌<◌, ◌↔◌, ℕ, int_lt, pos, IsTrue, IsNone, IfSome};
ghost use Rattle.std.specs.Option.{option_map};
ghost use Rattle.vfa_word.specs.Numbers.{IsWidth};
ghost use Rattle.vfa_wrap.specs.Between.{Between, AreEnds};
ghost use Rattle.vfa_wrap.specs.Ends.{shown_ends};
ghost use Rattle.vfa_wrap.specs.WholeSpans.{WholeSpan, read_ends, shifted_whole, span_of_results, whole_read, fits_read, lies_in_range, overflow_of, clamped_span, bound_of, AreOperandEnds, HoldsFitting, Overflows, NoneFits};
ghost use Rattle.vfa_wrap.specs.WholePlaces.{place_of, places_of, read_of};
ghost use Rattle.vfa_wrap.specs.Wrapped.{span_of};

use crate::arc::Wrapped;
use crate::ends::Ends;
use crate::places::{Place, Places, result_place};
use crate::reading::Reading;
use vfa_word::{Arith, Word};

/// The number whose reading is the least.
fn least_of<const W: u32>(reading: Reading, e: &Ends<W>) -> Word<W>
    requires width { IsWidth W }
    requires ends { AreEnds W (shown_ends e.now) }
    ensures { read_of reading W result ≡ (read_ends reading (shown_ends e.now)).least }
{
    match reading {
        Reading::Unsigned => Word::cut(e.lo),
        Reading::Signed => Word::wrapped(e.slo),
    }
}

/// The number whose reading is the greatest.
fn most_of<const W: u32>(reading: Reading, e: &Ends<W>) -> Word<W>
    requires width { IsWidth W }
    requires ends { AreEnds W (shown_ends e.now) }
    ensures { read_of reading W result ≡ (read_ends reading (shown_ends e.now)).most }
{
    match reading {
        Reading::Unsigned => Word::cut(e.hi),
        Reading::Signed => Word::wrapped(e.shi),
    }
}

/// The places of the span of sums.
fn sum_places<const W: u32>(reading: Reading, a: &Ends<W>, b: &Ends<W>) -> Places
    requires width { IsWidth W }
    requires left { AreEnds W (shown_ends a.now) }
    requires right { AreEnds W (shown_ends b.now) }
    ensures { result ≡ places_of reading W (span_of_results Arith.Add reading (shown_ends a.now) (shown_ends b.now)) }
{
    Places {
        least: result_place(
            reading,
            Arith::Add,
            least_of(reading, a),
            least_of(reading, b),
        ),
        most: result_place(
            reading,
            Arith::Add,
            most_of(reading, a),
            most_of(reading, b),
        ),
    }
}

/// The places of the span of differences.
fn difference_places<const W: u32>(reading: Reading, a: &Ends<W>, b: &Ends<W>) -> Places
    requires width { IsWidth W }
    requires left { AreEnds W (shown_ends a.now) }
    requires right { AreEnds W (shown_ends b.now) }
    ensures { result ≡ places_of reading W (span_of_results Arith.Sub reading (shown_ends a.now) (shown_ends b.now)) }
{
    Places {
        least: result_place(
            reading,
            Arith::Sub,
            least_of(reading, a),
            most_of(reading, b),
        ),
        most: result_place(
            reading,
            Arith::Sub,
            most_of(reading, a),
            least_of(reading, b),
        ),
    }
}

/// The places of the span of products of numbers.
fn unsigned_product_places<const W: u32>(a: &Ends<W>, b: &Ends<W>) -> Places
    requires width { IsWidth W }
    requires left { AreEnds W (shown_ends a.now) }
    requires right { AreEnds W (shown_ends b.now) }
    ensures { result ≡ places_of Reading.Unsigned W (span_of_results Arith.Mul Reading.Unsigned (shown_ends a.now) (shown_ends b.now)) }
{
    let reading = Reading::Unsigned;
    Places {
        least: result_place(
            reading,
            Arith::Mul,
            least_of(reading, a),
            least_of(reading, b),
        ),
        most: result_place(
            reading,
            Arith::Mul,
            most_of(reading, a),
            most_of(reading, b),
        ),
    }
}

/// The places of the span of products of signed readings: of the four products of ends the lowest and the highest.
fn signed_product_places<const W: u32>(a: &Ends<W>, b: &Ends<W>) -> Places
    requires width { IsWidth W }
    requires left { AreEnds W (shown_ends a.now) }
    requires right { AreEnds W (shown_ends b.now) }
    ensures { result ≡ places_of Reading.Signed W (span_of_results Arith.Mul Reading.Signed (shown_ends a.now) (shown_ends b.now)) }
{
    let reading = Reading::Signed;
    let (p, q) = (least_of(reading, a), most_of(reading, a));
    let (r, s) = (least_of(reading, b), most_of(reading, b));
    let first = result_place(reading, Arith::Mul, p, r);
    let second = result_place(reading, Arith::Mul, p, s);
    let third = result_place(reading, Arith::Mul, q, r);
    let fourth = result_place(reading, Arith::Mul, q, s);
    Places {
        least: first
            .lower::<W>(second)
            .lower::<W>(third.lower::<W>(fourth)),
        most: first
            .higher::<W>(second)
            .higher::<W>(third.higher::<W>(fourth)),
    }
}

/// Whether the number is negative in the reading.
fn is_negative<const W: u32>(reading: Reading, x: Word<W>) -> bool
    ensures { result ≡ int_lt (read_of reading W x.entry) (pos 0) }
{
    match reading {
        Reading::Unsigned => false,
        Reading::Signed => x.signed() < 0,
    }
}

/// The place of a number, shifted by one amount where it is negative and by another elsewhere.
fn shifted_place<const W: u32>(reading: Reading, x: Word<W>, negative: u128, other: u128) -> Place
    requires width { IsWidth W }
    requires negative { negative < W }
    requires other { other < W }
    ensures { result ≡ place_of reading W (shifted_whole (read_of reading W x.entry) negative other) }
{
    if is_negative(reading, x) {
        return result_place(reading, Arith::Shl, x, Word::cut(negative));
    }
    result_place(reading, Arith::Shl, x, Word::cut(other))
}

/// The places of the span of shifts.
fn shift_places<const W: u32>(reading: Reading, a: &Ends<W>, b: &Ends<W>) -> Places
    requires width { IsWidth W }
    requires left { AreEnds W (shown_ends a.now) }
    requires right { AreEnds W (shown_ends b.now) }
    requires amounts { b.now.hi < W }
    ensures { result ≡ places_of reading W (span_of_results Arith.Shl reading (shown_ends a.now) (shown_ends b.now)) }
{
    Places {
        least: shifted_place(reading, least_of(reading, a), b.hi, b.lo),
        most: shifted_place(reading, most_of(reading, a), b.lo, b.hi),
    }
}

/// The places of the span of the operation's whole results.
fn places<const W: u32>(op: Arith, reading: Reading, a: &Ends<W>, b: &Ends<W>) -> Places
    requires width { IsWidth W }
    requires left { AreEnds W (shown_ends a.now) }
    requires right { AreOperandEnds op W (shown_ends b.now) }
    ensures { result ≡ places_of reading W (span_of_results op reading (shown_ends a.now) (shown_ends b.now)) }
{
    match op {
        Arith::Add => sum_places(reading, a, b),
        Arith::Sub => difference_places(reading, a, b),
        Arith::Mul => match reading {
            Reading::Unsigned => unsigned_product_places(a, b),
            Reading::Signed => signed_product_places(a, b),
        },
        Arith::Shl => shift_places(reading, a, b),
    }
}

/// Whether the whole span of the operation's results lies in the range of the width, so that the operation does not
/// overflow on any two numbers between the ends `a` and `b`; for a shift `b` has the ends of the amounts, below `W`.
///
/// At `W` = 8 the sums of 200 to 210 and 10 to 45 lie in the unsigned range, and those of 10 to 46 do not.
pub fn fits<const W: u32>(op: Arith, reading: Reading, a: &Ends<W>, b: &Ends<W>) -> bool
    requires width { IsWidth W }
    requires left { AreEnds W (shown_ends a.now) }
    requires right { AreOperandEnds op W (shown_ends b.now) }
    ensures exact { result ≡ lies_in_range reading W (span_of_results op reading (shown_ends a.now) (shown_ends b.now)) }
    ensures each { IsTrue result ↔ ((x y : ℕ) → Between W (shown_ends a.now) x → Between W (shown_ends b.now) y → IsTrue (fits_read reading W (whole_read reading W op x y))) }
{
    places(op, reading, a, b).lies::<W>(reading)
}

/// Whether the operation overflows on numbers between the ends `a` and `b`: no where the span of the whole results lies in
/// the range of the width, yes where no number of it does, and None elsewhere. For a shift `b` has the ends of the amounts,
/// below `W`. As ConstantRange::unsignedAddMayOverflow and its kind.
///
/// At `W` = 8 the unsigned sums of 200 to 210 and 100 to 105, which are 300 to 315, give yes.
pub fn overflow<const W: u32>(op: Arith, reading: Reading, a: &Ends<W>, b: &Ends<W>) -> Option<bool>
    requires width { IsWidth W }
    requires left { AreEnds W (shown_ends a.now) }
    requires right { AreOperandEnds op W (shown_ends b.now) }
    ensures exact { result ≡ overflow_of reading W (span_of_results op reading (shown_ends a.now) (shown_ends b.now)) }
    ensures each { IfSome result (λ answer. Overflows op reading W (shown_ends a.now) (shown_ends b.now) answer) }
{
    places(op, reading, a, b).overflow::<W>(reading)
}

/// The arc of the numbers of the operation's span that lie in the range of the width; None exactly where there is none. It
/// holds the number of each two operands between the ends `a` and `b` on which the operation does not overflow. For a
/// shift `b` has the ends of the amounts, below `W`. As ConstantRange::addWithNoWrap and its kind.
///
/// At `W` = 8 the signed sums of 100 to 120 and 20 to 30, which are 120 to 150, have the bound 120 to 127.
pub fn bound<const W: u32>(
    op: Arith,
    reading: Reading,
    a: &Ends<W>,
    b: &Ends<W>,
) -> Option<Wrapped<W>>
    requires width { IsWidth W }
    requires left { AreEnds W (shown_ends a.now) }
    requires right { AreOperandEnds op W (shown_ends b.now) }
    ensures exact { option_map span_of result ≡ bound_of reading W (span_of_results op reading (shown_ends a.now) (shown_ends b.now)) }
    ensures holds { HoldsFitting op reading W (shown_ends a.now) (shown_ends b.now) (option_map span_of result) }
    ensures none { IsNone result ↔ NoneFits reading W (span_of_results op reading (shown_ends a.now) (shown_ends b.now)) }
{
    cut(reading, places(op, reading, a, b))
}

/// The arc of the numbers of a span that lie in the range of the width.
fn cut<const W: u32>(reading: Reading, span: Places) -> Option<Wrapped<W>>
    requires { IsWidth W }
    ensures { (whole : WholeSpan) → span ≡ places_of reading W whole → option_map span_of result ≡ bound_of reading W whole }
{
    if span.misses::<W>(reading) {
        return None;
    }
    Some(clamped(reading, span))
}

/// The arc of a span whose ends are clamped to the range of the width.
fn clamped<const W: u32>(reading: Reading, span: Places) -> Wrapped<W>
    requires { IsWidth W }
    ensures { (whole : WholeSpan) → span ≡ places_of reading W whole → span_of result ≡ clamped_span reading W whole }
{
    Wrapped::new(
        Word::cut(span.least.clamped::<W>(reading)),
        Word::cut(span.most.clamped::<W>(reading)),
    )
}

/// The arc of the results of a saturating operation: the span of the whole results, clamped to the range of the width.
pub(crate) fn saturated<const W: u32>(
    op: Arith,
    reading: Reading,
    a: &Ends<W>,
    b: &Ends<W>,
) -> Wrapped<W>
    requires width { IsWidth W }
    requires left { AreEnds W (shown_ends a.now) }
    requires right { AreOperandEnds op W (shown_ends b.now) }
    ensures { span_of result ≡ clamped_span reading W (span_of_results op reading (shown_ends a.now) (shown_ends b.now)) }
{
    clamped(reading, places(op, reading, a, b))
}

#[cfg(test)]
mod tests;
