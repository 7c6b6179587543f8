//! Conditions on the least and greatest numbers of cells.

ghost use Rattle.std.specs.Prelude.{◌≡◌, ◌+◌, ◌^◌};
ghost use Rattle.vfa_rules.specs.Conditions.{is_only, all_less, all_at_most, all_at_most_signed, is_natural, is_negative, have_one_sign, fits_width, fits_width_signed};
ghost use Rattle.vfa_word.specs.Numbers.{IsWidth, fits_signed};

use vfa_fact::Cell;

/// The greatest number of a width.
pub(crate) fn most_of(width: u32) -> u128
    requires { IsWidth width }
    ensures { result + 1 ≡ 2 ^ width }
{
    u128::MAX >> (128 - width)
}

/// Whether the number is the only one of the cell.
pub(crate) fn is_only(c: &Cell, bits: u128) -> bool
    ensures { result ≡ is_only c.now bits }
{
    match c.single() {
        Some(number) => number == bits,
        None => false,
    }
}

/// Whether each number of the first is less than each of the second.
pub(crate) fn all_less(a: &Cell, b: &Cell) -> bool
    ensures { result ≡ all_less a.now b.now }
{
    let Some(x) = a.ends() else {
        return false;
    };
    let Some(y) = b.ends() else {
        return false;
    };
    x.hi < y.lo
}

/// Whether each number of the first is at most each of the second.
pub(crate) fn all_at_most(a: &Cell, b: &Cell) -> bool
    ensures { result ≡ all_at_most a.now b.now }
{
    let Some(x) = a.ends() else {
        return false;
    };
    let Some(y) = b.ends() else {
        return false;
    };
    x.hi <= y.lo
}

/// Whether each signed reading of the first is at most each of the second.
pub(crate) fn all_at_most_signed(a: &Cell, b: &Cell) -> bool
    ensures { result ≡ all_at_most_signed a.now b.now }
{
    let Some(x) = a.ends() else {
        return false;
    };
    let Some(y) = b.ends() else {
        return false;
    };
    x.shi <= y.slo
}

/// Whether the cell has numbers, and none is negative.
pub(crate) fn is_natural(c: &Cell) -> bool
    ensures { result ≡ is_natural c.now }
{
    match c.ends() {
        Some(ends) => ends.slo >= 0,
        None => false,
    }
}

/// Whether the cell has numbers, and each is negative.
fn is_negative(c: &Cell) -> bool
    ensures { result ≡ is_negative c.now }
{
    match c.ends() {
        Some(ends) => ends.shi < 0,
        None => false,
    }
}

/// Whether no number of either is negative, or each number of both is.
pub(crate) fn have_one_sign(a: &Cell, b: &Cell) -> bool
    ensures { result ≡ have_one_sign a.now b.now }
{
    if is_natural(a) && is_natural(b) {
        return true;
    }
    is_negative(a) && is_negative(b)
}

/// Whether the cell has numbers, and each is one of the width.
pub(crate) fn fits_width(width: u32, c: &Cell) -> bool
    requires { IsWidth width }
    ensures { result ≡ fits_width width c.now }
{
    match c.ends() {
        Some(ends) => ends.hi <= most_of(width),
        None => false,
    }
}

/// Whether a whole number is in the signed range of the width.
fn is_in_signed_range(width: u32, whole: i128) -> bool
    requires { IsWidth width }
    ensures { result ≡ fits_signed width whole }
{
    let greatest = (most_of(width) >> 1) as i128;
    !greatest <= whole && whole <= greatest
}

/// Whether the cell has numbers, and the signed reading of each is in the signed range of the width.
pub(crate) fn fits_width_signed(width: u32, c: &Cell) -> bool
    requires { IsWidth width }
    ensures { result ≡ fits_width_signed width c.now }
{
    let Some(ends) = c.ends() else {
        return false;
    };
    if !is_in_signed_range(width, ends.slo) {
        return false;
    }
    is_in_signed_range(width, ends.shi)
}
