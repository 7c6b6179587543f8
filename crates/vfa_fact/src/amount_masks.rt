//! The numbers of a set below the width as a mask, in which bit t says that t is one: the amounts of a shift.

ghost use Rattle.std.specs.Prelude.{◌≡◌, ◌<◌, nat_eq, nat_le};
ghost use Rattle.std.specs.Int.{bit_at};
ghost use Rattle.vfa_dom.specs.Search.{bits_below};
ghost use Rattle.vfa_known.specs.Cube.{agrees_at};
ghost use Rattle.vfa_known.specs.Known.{masks_of, in_known};
ghost use Rattle.vfa_word.specs.Numbers.{IsWidth};
ghost use Rattle.vfa_wrap.specs.Wrapped.{in_arc};

use vfa_known::Known;
use vfa_word::most;
use vfa_wrap::Wrapped;

/// How many bits a number below 128 has, the greatest width.
const AMOUNT_BITS: u32 = 7;

/// The amounts from `low` on.
fn amounts_from<const W: u32>(low: u128) -> u128
    requires { IsWidth W }
    ensures { result ≡ bits_below W (λ t. nat_le low t) }
{
    if low >= u128::from(W) {
        return 0;
    }
    let below = (1 << low as u32) - 1;
    most::<W>() - below
}

/// The amounts up to `high`.
fn amounts_up_to<const W: u32>(high: u128) -> u128
    requires { IsWidth W }
    ensures { result ≡ bits_below W (λ t. nat_le t high) }
{
    let last = high.min(u128::from(W - 1)) as u32;
    most::<W>() >> (W - 1 - last)
}

/// The amounts in the arc.
pub(crate) fn amounts_in_arc<const W: u32>(arc: &Wrapped<W>) -> u128
    ensures { result ≡ bits_below W (in_arc W arc.now) }
{
    let first = arc.first().bits();
    let last = arc.last().bits();
    let from = amounts_from::<W>(first);
    let up_to = amounts_up_to::<W>(last);
    if first <= last {
        return from & up_to;
    }
    from | up_to
}

/// The numbers below 128 whose bit at the place is set.
fn numbers_with(place: u32) -> u128
    requires { place < 7 }
    ensures { result ≡ bits_below 128 (λ t. nat_eq (bit_at t place) 1) }
{
    match place {
        0 => 0xaaaa_aaaa_aaaa_aaaa_aaaa_aaaa_aaaa_aaaa,
        1 => 0xcccc_cccc_cccc_cccc_cccc_cccc_cccc_cccc,
        2 => 0xf0f0_f0f0_f0f0_f0f0_f0f0_f0f0_f0f0_f0f0,
        3 => 0xff00_ff00_ff00_ff00_ff00_ff00_ff00_ff00,
        4 => 0xffff_0000_ffff_0000_ffff_0000_ffff_0000,
        5 => 0xffff_ffff_0000_0000_ffff_ffff_0000_0000,
        _ => 0xffff_ffff_ffff_ffff_0000_0000_0000_0000,
    }
}

/// The numbers below 128 that agree with the known bits at the place.
fn numbers_agreeing<const W: u32>(known: &Known<W>, place: u32) -> u128
    requires { place < 7 }
    ensures { result ≡ bits_below 128 (λ t. agrees_at (masks_of known.now) t place) }
{
    let bit = 1 << place;
    if known.zeros() & bit != 0 {
        return u128::MAX - numbers_with(place);
    }
    if known.ones() & bit != 0 {
        return numbers_with(place);
    }
    u128::MAX
}

/// The amounts that agree with the known bits.
pub(crate) fn amounts_in_cube<const W: u32>(known: &Known<W>) -> u128
    ensures { result ≡ bits_below W (in_known W known.now) }
{
    if known.ones() >> AMOUNT_BITS != 0 {
        return 0;
    }
    let mut mask = most::<W>();
    for place in 0..AMOUNT_BITS {
        mask &= numbers_agreeing(known, place);
    }
    mask
}
