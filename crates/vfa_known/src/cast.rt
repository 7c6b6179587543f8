ghost use Rattle.std.specs.Prelude.{◌≡◌, ◌<◌, ◌-◌, ◌^◌, bit_or};
ghost use Rattle.vfa_dom.specs.Best.{best_of};
ghost use Rattle.vfa_dom.specs.Results.{images, UnknownImagesVary};
ghost use Rattle.vfa_word.specs.Numbers.{IsWidth};
ghost use Rattle.vfa_word.specs.Operations.{zero_extended, sign_extended, truncated};

use crate::known::Known;
use vfa_word::{Word, most};

/// The bits of a number of width `V` at width `W`, with its highest bit copied to all new places.
fn sign_extended<const V: u32, const W: u32>(bits: u128) -> u128
    requires from { IsWidth V }
    requires to { IsWidth W }
    requires fits { bits < 2 ^ V }
    ensures { result ≡ sign_extended V W bits }
{
    Word::<W>::wrapped(Word::<V>::cut(bits).signed()).bits()
}

impl<const W: u32> Known<W> {
    ghost use Rattle.vfa_known.specs.Known.{masks_of, in_known};

    /// The best known bits of the numbers of `from` at the wider width `W`, LLVM's `zext`: all new bits are known zero.
    ///
    /// The bits `1?` of width 2 give `001?` at width 4.
    pub fn zext_from<const V: u32>(from: &Known<V>) -> Known<W>
        requires width { IsWidth W }
        requires wider { V < W }
        ensures best { masks_of result ≡ best_of W (images V zero_extended (in_known V from.now)) }
        ensures unknown { UnknownImagesVary W V zero_extended (in_known V from.now) (masks_of result) }
        ensures masks { let known = masks_of from.now in
            masks_of result ≡ record { zeros = bit_or known.zeros (2 ^ W - 2 ^ V); ones = known.ones } }
    {
        Known {
            zeros: from.zeros | (most::<W>() - most::<V>()),
            ones: from.ones,
        }
    }

    /// The best known bits of the signed readings of `from` at the wider width `W`, LLVM's `sext`: what is known of the
    /// highest bit is known of all new ones.
    ///
    /// The bits `1?` of width 2 give `111?` at width 4, and `?0` gives `???0`.
    pub fn sext_from<const V: u32>(from: &Known<V>) -> Known<W>
        requires width { IsWidth W }
        requires wider { V < W }
        ensures best { masks_of result ≡ best_of W (images V (sign_extended V W) (in_known V from.now)) }
        ensures unknown { UnknownImagesVary W V (sign_extended V W) (in_known V from.now) (masks_of result) }
        ensures masks { let known = masks_of from.now in
            masks_of result ≡ record { zeros = sign_extended V W known.zeros; ones = sign_extended V W known.ones } }
    {
        Known {
            zeros: sign_extended::<V, W>(from.zeros),
            ones: sign_extended::<V, W>(from.ones),
        }
    }

    /// The best known bits of the numbers of `from` modulo 2^W, LLVM's `trunc`: what is known of the low bits.
    ///
    /// The bits `01?0` of width 4 give `?0` at width 2.
    pub fn trunc_from<const V: u32>(from: &Known<V>) -> Known<W>
        requires width { IsWidth W }
        requires narrower { W < V }
        ensures best { masks_of result ≡ best_of W (images V (truncated W) (in_known V from.now)) }
        ensures unknown { UnknownImagesVary W V (truncated W) (in_known V from.now) (masks_of result) }
        ensures masks { let known = masks_of from.now in
            masks_of result ≡ record { zeros = truncated W known.zeros; ones = truncated W known.ones } }
    {
        let kept = most::<W>();
        Known {
            zeros: from.zeros & kept,
            ones: from.ones & kept,
        }
    }
}

#[cfg(test)]
mod tests {
    use crate::known::Known;
    use std::test::Fail;

    #[test]
    fn zero_extension_knows_the_new_bits(rt: HostRuntime) -> Result<(), Fail> {
        let from = Known::<4>::new(1, 8).ok_or("apart")?;
        let wide = Known::<8>::zext_from(&from);
        assert_eq!(rt; wide.zeros(), 0xf1);
        assert_eq!(rt; wide.ones(), 8);
        let any = Known::<127>::new(0, 0).ok_or("apart")?;
        assert_eq!(rt; Known::<128>::zext_from(&any).zeros(), 1 << 127);
        Ok(())
    }

    #[test]
    fn sign_extension_copies_what_is_known(rt: HostRuntime) -> Result<(), Fail> {
        let from = Known::<4>::new(1, 8).ok_or("apart")?;
        let wide = Known::<8>::sext_from(&from);
        assert_eq!(rt; wide.zeros(), 1);
        assert_eq!(rt; wide.ones(), 0xf8);
        let open = Known::<4>::new(1, 4).ok_or("apart")?;
        assert_eq!(rt; Known::<8>::sext_from(&open).ones(), 4);
        let one = Known::<1>::new(0, 1).ok_or("apart")?;
        assert_eq!(rt; Known::<128>::sext_from(&one).ones(), u128::MAX);
        Ok(())
    }

    #[test]
    fn truncation_keeps_the_low_bits(rt: HostRuntime) -> Result<(), Fail> {
        let from = Known::<64>::new(0xf1, 8).ok_or("apart")?;
        let narrow = Known::<4>::trunc_from(&from);
        assert_eq!(rt; narrow.zeros(), 1);
        assert_eq!(rt; narrow.ones(), 8);
        Ok(())
    }
}
