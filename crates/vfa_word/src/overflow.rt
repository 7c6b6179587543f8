ghost use Rattle.std.specs.Prelude.{◌≡◌, ◌-◌, ◌^◌, ◌<◌, ◌≤◌, ◌+◌, ◌/◌, not, ◌&&◌, int_le, pos, negsuc, ◌+ℤ◌, ◌-ℤ◌, ◌*ℤ◌};
ghost use Rattle.vfa_word.specs.Numbers.{IsWidth, fits_unsigned, fits_signed, signed_of};
ghost use Rattle.vfa_word.specs.Operations.{whole_unsigned, whole_signed};

use crate::word::most;
use crate::{Arith, Word};

/// Whether a whole number is in -most - 1 to most.
fn is_within(whole: i128, most: u128) -> bool
    requires { most < 2 ^ 127 }
    ensures { result ≡ (int_le (negsuc most) whole && int_le whole (pos most)) }
{
    let most = most as i128;
    !most <= whole && whole <= most
}

/// Whether a whole number is in the signed range of the width, -2^(W-1) to 2^(W-1) - 1.
fn is_in_signed_range<const W: u32>(whole: i128) -> bool
    requires { IsWidth W }
    ensures { result ≡ fits_signed W whole }
{
    is_within(whole, most::<W>() >> 1)
}

impl<const W: u32> Word<W> {
    /// Whether the result over whole numbers, of the numbers themselves, is outside 0 to 2^W - 1. For `Shl` the other
    /// number is the amount.
    pub fn overflows_u(self, op: Arith, other: Word<W>) -> bool
        requires { op ≡ Arith.Shl → other < W }
        ensures { result ≡ not (fits_unsigned W (whole_unsigned op self.entry other.entry)) }
    {
        match op {
            Arith::Add => self.sum_overflows_u(other),
            Arith::Sub => self.bits() < other.bits(),
            Arith::Mul => self.product_overflows_u(other),
            Arith::Shl => self.shift_overflows_u(other.bits() as u32),
        }
    }

    /// Whether the result over whole numbers, of the signed readings, is outside -2^(W-1) to 2^(W-1) - 1. For `Shl`
    /// the other number is the amount.
    pub fn overflows_s(self, op: Arith, other: Word<W>) -> bool
        requires { op ≡ Arith.Shl → other < W }
        ensures { result ≡ not (fits_signed W (whole_signed W op self.entry other.entry)) }
    {
        match op {
            Arith::Add => self.sum_overflows_s(other),
            Arith::Sub => self.difference_overflows_s(other),
            Arith::Mul => self.product_overflows_s(other),
            Arith::Shl => self.shift_overflows_s(other.bits() as u32),
        }
    }

    fn sum_overflows_u(self, other: Word<W>) -> bool
        ensures { result ≡ not (fits_unsigned W (pos self.entry +ℤ pos other.entry)) }
    {
        match self.bits().checked_add(other.bits()) {
            Some(sum) => most::<W>() < sum,
            None => true,
        }
    }

    fn product_overflows_u(self, other: Word<W>) -> bool
        ensures { result ≡ not (fits_unsigned W (pos self.entry *ℤ pos other.entry)) }
    {
        match self.bits().checked_mul(other.bits()) {
            Some(product) => most::<W>() < product,
            None => true,
        }
    }

    fn shift_overflows_u(self, amount: u32) -> bool
        requires { amount < W }
        ensures { result ≡ not (fits_unsigned W (pos self.entry *ℤ pos (2 ^ amount))) }
    {
        most::<W>() >> amount < self.bits()
    }

    fn sum_overflows_s(self, other: Word<W>) -> bool
        ensures { result ≡ not (fits_signed W (signed_of W self.entry +ℤ signed_of W other.entry)) }
    {
        match self.signed().checked_add(other.signed()) {
            Some(sum) => !is_in_signed_range::<W>(sum),
            None => true,
        }
    }

    fn difference_overflows_s(self, other: Word<W>) -> bool
        ensures { result ≡ not (fits_signed W (signed_of W self.entry -ℤ signed_of W other.entry)) }
    {
        match self.signed().checked_sub(other.signed()) {
            Some(difference) => !is_in_signed_range::<W>(difference),
            None => true,
        }
    }

    fn product_overflows_s(self, other: Word<W>) -> bool
        ensures { result ≡ not (fits_signed W (signed_of W self.entry *ℤ signed_of W other.entry)) }
    {
        match self.signed().checked_mul(other.signed()) {
            Some(product) => !is_in_signed_range::<W>(product),
            None => true,
        }
    }

    /// A shift stays in the range exactly where the reading is in the range that is narrower by the amount.
    fn shift_overflows_s(self, amount: u32) -> bool
        requires { amount < W }
        ensures { result ≡ not (fits_signed W (signed_of W self.entry *ℤ pos (2 ^ amount))) }
    {
        !is_within(self.signed(), (most::<W>() >> 1) >> amount)
    }
}
