//! Conversions between widths.

ghost use Rattle.std.specs.Prelude.{◌≡◌, ◌<◌, ◌^◌, not, ◌&&◌, ◌||◌, pos};
ghost use Rattle.vfa_word.specs.Numbers.{IsWidth, fits_unsigned, fits_signed, signed_of};
ghost use Rattle.vfa_mean.specs.Meaning.{of_one};
ghost use Rattle.vfa_mean.specs.Rows.{convert};
ghost use Rattle.vfa_mean.specs.Values.{IsInt};

use crate::numbers::{
    POISON, cut, is_in_signed_range, most, number, number_unless, signed, wrapped,
};
use crate::{Done, Val};
use vfa_ir::{Cast, CastFlags};

/// Whether a number leaves a range of the width that the flags promise.
fn breaks_flags(flags: CastFlags, from: u32, to: u32, x: u128) -> bool
    requires from { IsWidth from }
    requires to { IsWidth to }
    requires number { x < 2 ^ from }
    ensures { result ≡ (flags.nuw && not (fits_unsigned to (pos x)) || flags.nsw && not (fits_signed to (signed_of from x))) }
{
    if flags.nuw && most(to) < x {
        return true;
    }
    flags.nsw && !is_in_signed_range(to, signed(from, x))
}

/// The conversions of a number.
pub fn convert(cast: Cast, flags: CastFlags, from: u32, to: u32, a: Val) -> Done
    requires from { IsWidth from }
    requires to { IsWidth to }
    requires operand { IsInt from a }
    ensures { result ≡ of_one (convert cast flags from to) a }
{
    let Some(x) = number(from, a) else {
        return POISON;
    };
    match cast {
        Cast::Zext => number_unless(flags.nneg && signed(from, x) < 0, x),
        Cast::Sext => Done::Is(Val::Number(wrapped(to, signed(from, x)))),
        Cast::Trunc => number_unless(breaks_flags(flags, from, to, x), cut(to, x)),
    }
}
