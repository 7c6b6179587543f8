//! Numbers as written.

ghost use Rattle.std.specs.Prelude.{◌≡◌, ◌≤◌, ◌^◌, ◌⊎◌, true, false, MatchOption, IfSome};
ghost use Rattle.std.specs.Str.Parse.{digits_value};
ghost use Rattle.vfa_ir.specs.Words.{is_digits as are_digits};
ghost use Rattle.vfa_read.specs.Tables.{fits_number as number_fits, type_width as width_of_type};

use crate::source::first;

/// The number that digits stand for; none for another text, and from 2^128 on.
pub fn magnitude(text: &[u8]) -> Option<u128>
    ensures { MatchOption result ((are_digits text.now ≡ false) ⊎ (2 ^ 128 ≤ digits_value 10 text.now))
        (λ n. (are_digits text.now ≡ true) × (n ≡ digits_value 10 text.now)) }
{
    if text.is_empty() {
        return None;
    }
    let mut value: u128 = 0;
    'digits: for byte in text {
        if !byte.is_ascii_digit() {
            return None;
        }
        let digit = u128::from(*byte - b'0');
        if value > (u128::MAX - digit) / 10 {
            return None;
        }
        value = value * 10 + digit;
    }
    Some(value)
}

/// Whether the text is digits, perhaps after a `-`, and their number is of the range of the width.
pub fn fits_number(text: &[u8], width: u32) -> bool
    requires least { 1 ≤ width }
    requires most { width ≤ 128 }
    ensures { result ≡ number_fits width text.now }
{
    let Some((first, after)) = first(text) else {
        return false;
    };
    if first == b'-' {
        let Some(number) = magnitude(after) else {
            return false;
        };
        return number <= 1 << (width - 1);
    }
    let Some(number) = magnitude(text) else {
        return false;
    };
    if width == 128 {
        return true;
    }
    number < 1 << width
}

/// The width N of a text `iN`; none for another text.
pub fn type_width(text: &[u8]) -> Option<u32>
    ensures gives { result ≡ width_of_type text.now }
    ensures in_range { IfSome result (λ w. (1 ≤ w) × (w ≤ 128)) }
{
    let (letter, digits) = first(text)?;
    let (digit, _) = first(digits)?;
    if letter != b'i' {
        return None;
    }
    if digit == b'0' {
        return None;
    }
    let number = magnitude(digits)?;
    if number == 0 {
        return None;
    }
    if number > 128 {
        return None;
    }
    Some(number as u32)
}
