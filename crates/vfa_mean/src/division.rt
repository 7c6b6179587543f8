//! Divisions and remainders.

ghost use Rattle.std.specs.Prelude.{◌≡◌, ◌≢◌, ◌<◌, ℕ, ◌-◌, ◌^◌, IfOk, MatchResult};
ghost use Rattle.vfa_word.specs.Numbers.{IsWidth};
ghost use Rattle.vfa_word.specs.Operations.{signed_quotient, signed_remainder};
ghost use Rattle.vfa_mean.specs.Meaning.{unsigned_division, signed_division};
ghost use Rattle.vfa_mean.specs.Rows.{divide, divide_signed, remainder, remainder_signed};
ghost use Rattle.vfa_mean.specs.Values.{AreOfWidth};
ghost use Rattle.vfa_mean.specs.declared.value.Done.{Done};

use crate::numbers::{Numbers, POISON, is_least, most, number, number_unless, signed, wrapped};
use crate::{Done, Val};
use vfa_ir::Flags;

/// The numbers that an unsigned division divides, or what it gives without them.
fn unsigned_operands(width: u32, a: Val, b: Val) -> Result<Numbers, Done>
    requires width { IsWidth width }
    requires operands { AreOfWidth width a b }
    ensures row { MatchResult result
        (λ pair. (row : ℕ → ℕ → Done) → unsigned_division row a b ≡ row pair.x pair.y)
        (λ done. (row : ℕ → ℕ → Done) → unsigned_division row a b ≡ done) }
    ensures nonzero { IfOk result (λ pair. pair.y ≢ 0) }
{
    let divisor = number(width, b).ok_or(Done::Ub)?;
    if divisor == 0 {
        return Err(Done::Ub);
    }
    let x = number(width, a).ok_or(POISON)?;
    Ok(Numbers { x, y: divisor })
}

/// `udiv`.
pub fn divide(width: u32, flags: Flags, a: Val, b: Val) -> Done
    requires width { IsWidth width }
    requires operands { AreOfWidth width a b }
    ensures { result ≡ unsigned_division (divide flags) a b }
{
    match unsigned_operands(width, a, b) {
        Ok(Numbers { x, y }) => number_unless(flags.exact && x % y != 0, x / y),
        Err(done) => done,
    }
}

/// `urem`.
pub fn remainder(width: u32, a: Val, b: Val) -> Done
    requires width { IsWidth width }
    requires operands { AreOfWidth width a b }
    ensures { result ≡ unsigned_division remainder a b }
{
    match unsigned_operands(width, a, b) {
        Ok(Numbers { x, y }) => Done::Is(Val::Number(x % y)),
        Err(done) => done,
    }
}

/// The numbers that a signed division divides, or what it gives without them.
fn signed_operands(width: u32, a: Val, b: Val) -> Result<Numbers, Done>
    requires width { IsWidth width }
    requires operands { AreOfWidth width a b }
    ensures row { MatchResult result
        (λ pair. (row : ℕ → ℕ → Done) → signed_division width row a b ≡ row pair.x pair.y)
        (λ done. (row : ℕ → ℕ → Done) → signed_division width row a b ≡ done) }
    ensures nonzero { IfOk result (λ pair. pair.y ≢ 0) }
    ensures fit { IfOk result (λ pair. (pair.x < 2 ^ width) × (pair.y < 2 ^ width)) }
    ensures no_overflow { IfOk result (λ pair. pair.y ≡ 2 ^ width - 1 → pair.x ≢ 2 ^ (width - 1)) }
{
    let y = number(width, b).ok_or(Done::Ub)?;
    if y == 0 {
        return Err(Done::Ub);
    }
    let by_minus_one = y == most(width);
    let Some(x) = number(width, a) else {
        if by_minus_one {
            return Err(Done::Ub);
        }
        return Err(POISON);
    };
    if by_minus_one && is_least(width, x) {
        return Err(Done::Ub);
    }
    Ok(Numbers { x, y })
}

/// The quotient of the readings, rounded toward 0, modulo 2^width.
fn signed_quotient(width: u32, x: u128, y: u128) -> u128
    requires width { IsWidth width }
    requires left { x < 2 ^ width }
    requires right { y < 2 ^ width }
    requires nonzero { y ≢ 0 }
    requires no_overflow { y ≡ 2 ^ width - 1 → x ≢ 2 ^ (width - 1) }
    ensures { result ≡ signed_quotient width x y }
{
    wrapped(width, signed(width, x) / signed(width, y))
}

/// What that quotient leaves, modulo 2^width.
fn signed_remainder(width: u32, x: u128, y: u128) -> u128
    requires width { IsWidth width }
    requires left { x < 2 ^ width }
    requires right { y < 2 ^ width }
    requires nonzero { y ≢ 0 }
    requires no_overflow { y ≡ 2 ^ width - 1 → x ≢ 2 ^ (width - 1) }
    ensures { result ≡ signed_remainder width x y }
{
    wrapped(width, signed(width, x) % signed(width, y))
}

/// `sdiv`.
pub fn divide_signed(width: u32, flags: Flags, a: Val, b: Val) -> Done
    requires width { IsWidth width }
    requires operands { AreOfWidth width a b }
    ensures { result ≡ signed_division width (divide_signed flags width) a b }
{
    match signed_operands(width, a, b) {
        Ok(Numbers { x, y }) => {
            let broken = flags.exact && signed_remainder(width, x, y) != 0;
            number_unless(broken, signed_quotient(width, x, y))
        }
        Err(done) => done,
    }
}

/// `srem`.
pub fn remainder_signed(width: u32, a: Val, b: Val) -> Done
    requires width { IsWidth width }
    requires operands { AreOfWidth width a b }
    ensures { result ≡ signed_division width (remainder_signed width) a b }
{
    match signed_operands(width, a, b) {
        Ok(Numbers { x, y }) => Done::Is(Val::Number(signed_remainder(width, x, y))),
        Err(done) => done,
    }
}
