ghost use Rattle.std.specs.Prelude.{◌≡◌, ◌+◌, ◌-◌, ◌^◌, ◌<◌, ◌≤◌, neg_ℤ, pos};
ghost use Rattle.vfa_word.specs.Numbers.{IsWidth, wrap, fits_signed};
ghost use Rattle.vfa_wrap.specs.Arc.{sarc};
ghost use Rattle.vfa_wrap.specs.Wrapped.{span_of};

use crate::arc::Wrapped;
use vfa_word::most;

/// The greatest signed number of the width.
pub(crate) fn most_signed<const W: u32>() -> u128
    requires { IsWidth W }
    ensures value { result + 1 ≡ 2 ^ (W - 1) }
    ensures bound { result < 2 ^ 127 }
{
    most::<W>() >> 1
}

/// The number of the width that a signed number wraps to.
pub(crate) fn wrapped<const W: u32>(z: i128) -> u128
    requires { IsWidth W }
    ensures value { result ≡ wrap W z }
    ensures fits { result < 2 ^ W }
{
    z.cast_unsigned() & most::<W>()
}

/// Whether the number is in the signed range of the width.
pub(crate) fn fits<const W: u32>(z: i128) -> bool
    requires { IsWidth W }
    ensures { result ≡ fits_signed W z }
{
    let top = most_signed::<W>();
    if z < 0 {
        return z.unsigned_abs() - 1 <= top;
    }
    z.unsigned_abs() <= top
}

/// The arc from `first` up to `last`.
pub(crate) fn signed_between<const W: u32>(first: i128, last: i128) -> Wrapped<W>
    requires { IsWidth W }
    ensures { span_of result ≡ sarc W first last }
{
    Wrapped::between(wrapped::<W>(first), wrapped::<W>(last))
}

/// The number as far below 0 as `size` is above it.
pub(crate) fn negated(size: u128) -> i128
    requires { size ≤ 2 ^ 127 }
    ensures { result ≡ neg_ℤ (pos size) }
{
    0_i128.saturating_sub_unsigned(size)
}
