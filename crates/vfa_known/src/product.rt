ghost use Rattle.std.specs.Prelude.{◌≡◌, ℕ, ◌*◌, ◌-◌, ◌%◌, ◌^◌, ◌≤◌, min, IsTrue};
ghost use Rattle.vfa_word.specs.Numbers.{IsWidth};
ghost use Rattle.vfa_word.specs.Operations.{product_of};
ghost use Rattle.vfa_known.specs.Product.{product_masks, run_of, is_known, is_known_zero};

use crate::known::Known;
use vfa_word::most;

impl<const W: u32> Known<W> {
    ghost use Rattle.vfa_known.specs.Known.{masks_of, in_known};

    /// Known bits of the product modulo 2^W, LLVM's `mul`. With k the lesser number of bits from bit 0 on that are all
    /// known, the low k bits of the product are known; and as many low bits are zero as both operands have known zeros
    /// from bit 0 on, taken together. No other bit is known.
    ///
    /// At width 4 the bits `??10` and `?100` give `?000`: both know the low two bits, whose product is 00, and three low
    /// bits are zero, one of the first operand and two of the second.
    pub fn mul(&self, other: &Known<W>) -> Known<W>
        ensures low_bits { masks_of result ≡ product_masks W (masks_of self.now) (masks_of other.now) }
        ensures holds { (x y : ℕ) → IsTrue (in_known W self.now x) → IsTrue (in_known W other.now y) → IsTrue (in_known W result (product_of W x y)) }
    {
        let product = self.ones.wrapping_mul(other.ones);
        let known = low_bits::<W>(self.known_run().min(other.known_run()));
        let zero = low_bits::<W>(self.zero_run() + other.zero_run());
        let ones = product & known;
        Known {
            zeros: zero | (known ^ ones),
            ones,
        }
    }

    /// How many bits from bit 0 on are all known.
    fn known_run(&self) -> u32
        ensures run { result ≡ run_of W (is_known (masks_of self.now)) }
        ensures bound { result ≤ W }
    {
        (self.zeros | self.ones).trailing_ones()
    }

    /// How many bits from bit 0 on are all known to be zero.
    fn zero_run(&self) -> u32
        ensures run { result ≡ run_of W (is_known_zero (masks_of self.now)) }
        ensures bound { result ≤ W }
    {
        self.zeros.trailing_ones()
    }
}

/// The mask of the low bits, so many of them, of a number of width `W`.
fn low_bits<const W: u32>(count: u32) -> u128
    requires { IsWidth W }
    ensures { result ≡ 2 ^ (min count W) - 1 }
{
    if count < W {
        (1 << count) - 1
    } else {
        most::<W>()
    }
}

#[cfg(test)]
mod tests {
    use crate::known::Known;
    use std::test::Fail;

    #[test]
    fn the_low_zeros_add_up(rt: HostRuntime) -> Result<(), Fail> {
        let one = Known::<8>::new(1, 2).ok_or("apart")?;
        let two = Known::<8>::new(3, 4).ok_or("apart")?;
        let product = one.mul(&two);
        assert_eq!(rt; product.zeros(), 7);
        assert_eq!(rt; product.ones(), 0);
        Ok(())
    }

    #[test]
    fn low_bits_that_both_know(rt: HostRuntime) -> Result<(), Fail> {
        let one = Known::<8>::new(0, 3).ok_or("apart")?;
        let two = Known::<8>::new(8, 7).ok_or("apart")?;
        let product = one.mul(&two);
        assert_eq!(rt; product.zeros(), 2);
        assert_eq!(rt; product.ones(), 1);
        Ok(())
    }

    #[test]
    fn constants_are_multiplied(rt: HostRuntime) -> Result<(), Fail> {
        let one = Known::<128>::new(0, u128::MAX).ok_or("apart")?;
        assert_eq!(rt; one.mul(&one).ones(), 1);
        assert_eq!(rt; one.mul(&one).zeros(), u128::MAX - 1);
        let bit = Known::<1>::new(1, 0).ok_or("apart")?;
        assert_eq!(rt; bit.mul(&bit).zeros(), 1);
        Ok(())
    }
}
