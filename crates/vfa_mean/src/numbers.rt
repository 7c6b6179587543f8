//! Numbers of a width that is known when the program runs: the numbers that values are, readings and ranges.

ghost use Rattle.std.specs.Prelude.{◌≡◌, ◌<◌, ◌+◌, ◌-◌, ◌%◌, ◌^◌, ◌↔◌, ◌&&◌, ℕ, pos, negsuc, int_le, IfSome, IsTrue, MatchOption};
ghost use Rattle.vfa_word.specs.Numbers.{IsWidth, fits_signed, signed_of, wrap};
ghost use Rattle.vfa_mean.specs.Meaning.{of_two};
ghost use Rattle.vfa_mean.specs.Rows.{number_unless};
ghost use Rattle.vfa_mean.specs.Values.{AreOfWidth, IsInt};
ghost use Rattle.vfa_mean.specs.declared.value.Done.{Done};
ghost use Rattle.vfa_mean.specs.declared.value.Val.{Val};

use crate::{Done, Val};

/// What an operation gives of poison.
pub const POISON: Done = Done::Is(Val::Poison);

/// A number; poison where a word of the operation is broken.
pub fn number_unless(broken: bool, x: u128) -> Done
    ensures { result ≡ number_unless broken x }
{
    if broken {
        return Done::Is(Val::Poison);
    }
    Done::Is(Val::Number(x))
}

/// The number of a width that a value is, if it is not poison.
pub fn number(width: u32, a: Val) -> Option<u128>
    requires width { IsWidth width }
    requires operand { IsInt width a }
    ensures { MatchOption result (a ≡ Val.Poison) (λ x. (a ≡ Val.Number x) × (x < 2 ^ width)) }
{
    match a {
        Val::Poison => None,
        Val::Number(x) => Some(x),
        Val::Pair(_, _) => unreachable!(),
    }
}

/// Two numbers.
#[derive(Clone, Copy)]
pub struct Numbers {
    /// The first one.
    pub x: u128,
    /// The second one.
    pub y: u128,
}

/// The numbers of a width that two values are, if neither is poison.
pub fn both_numbers(width: u32, a: Val, b: Val) -> Option<Numbers>
    requires width { IsWidth width }
    requires operands { AreOfWidth width a b }
    ensures row { MatchOption result
        ((row : ℕ → ℕ → Done) → of_two row a b ≡ Done.Is Val.Poison)
        (λ p. (row : ℕ → ℕ → Done) → of_two row a b ≡ row p.x p.y) }
    ensures fit { IfSome result (λ p. (p.x < 2 ^ width) × (p.y < 2 ^ width)) }
{
    let x = number(width, a)?;
    let y = number(width, b)?;
    Some(Numbers { x, y })
}

/// The greatest number of a width, whose bits are all set.
pub fn most(width: u32) -> u128
    requires { IsWidth width }
    ensures { result + 1 ≡ 2 ^ width }
{
    u128::MAX >> (128 - width)
}

/// The number modulo 2^width.
pub fn cut(width: u32, bits: u128) -> u128
    requires { IsWidth width }
    ensures { result ≡ bits % 2 ^ width }
{
    bits & most(width)
}

/// The number of a width that a whole number wraps to.
pub fn wrapped(width: u32, whole: i128) -> u128
    requires { IsWidth width }
    ensures { result ≡ wrap width whole }
{
    cut(width, whole.cast_unsigned())
}

/// The two's complement reading of a number.
pub fn signed(width: u32, x: u128) -> i128
    requires width { IsWidth width }
    requires number { x < 2 ^ width }
    ensures { result ≡ signed_of width x }
{
    let most = most(width);
    if x <= most >> 1 {
        x as i128
    } else {
        !((most - x) as i128)
    }
}

/// Whether a whole number is in -greatest - 1 to greatest.
pub fn is_within(whole: i128, greatest: u128) -> bool
    requires { greatest < 2 ^ 127 }
    ensures { result ≡ (int_le (negsuc greatest) whole && int_le whole (pos greatest)) }
{
    let greatest = greatest as i128;
    !greatest <= whole && whole <= greatest
}

/// Whether a whole number is in the signed range of a width.
pub fn is_in_signed_range(width: u32, whole: i128) -> bool
    requires { IsWidth width }
    ensures { result ≡ fits_signed width whole }
{
    is_within(whole, most(width) >> 1)
}

/// Whether a number is the least signed value, -2^(width - 1).
pub fn is_least(width: u32, x: u128) -> bool
    requires { IsWidth width }
    ensures { IsTrue result ↔ (x ≡ 2 ^ (width - 1)) }
{
    x == (most(width) >> 1) + 1
}
