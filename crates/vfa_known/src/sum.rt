ghost use Rattle.std.specs.Prelude.{◌≡◌, ◌+◌, ◌%◌, ◌^◌, ◌≤◌};
ghost use Rattle.vfa_dom.specs.Best.{best_of, IsBest};
ghost use Rattle.vfa_dom.specs.Results.{results, IsResult, UnknownBitsVary};
ghost use Rattle.vfa_word.specs.Operations.{sum_of, difference_of};

use crate::known::Known;
use vfa_word::most;

impl<const W: u32> Known<W> {
    ghost use Rattle.vfa_known.specs.Known.{masks_of, in_known};

    /// The best known bits of `x + y` modulo 2^W over all x of `self` and y of `other`, LLVM's `add`: `00?1` and `0001`
    /// give `0??0`, since the sums are 2 and 4.
    pub fn add(&self, other: &Known<W>) -> Known<W>
        ensures best { masks_of result
            ≡ best_of W (results W (sum_of W) (in_known W self.now) (in_known W other.now)) }
        ensures unknown { UnknownBitsVary W (sum_of W)
            (in_known W self.now) (in_known W other.now) (masks_of result) }
    {
        self.sum(other, 0)
    }

    /// The best known bits of `x - y` modulo 2^W over all x of `self` and y of `other`, LLVM's `sub`: `00?0` and `0001`
    /// give `???1`, since the differences are 15 and 1.
    pub fn sub(&self, other: &Known<W>) -> Known<W>
        ensures best { masks_of result
            ≡ best_of W (results W (difference_of W) (in_known W self.now) (in_known W other.now)) }
        ensures unknown { UnknownBitsVary W (difference_of W)
            (in_known W self.now) (in_known W other.now) (masks_of result) }
    {
        // x - y is x plus the complement of y plus 1
        self.sum(&other.complement(), 1)
    }

    /// The complements of the numbers of `self`.
    pub(crate) fn complement(&self) -> Known<W>
        ensures { masks_of result ≡ record { zeros = (masks_of self.now).ones; ones = (masks_of self.now).zeros } }
    {
        Known {
            zeros: self.ones,
            ones: self.zeros,
        }
    }

    /// The best known bits of `x + y + carry` modulo 2^W. A bit of the sum is known where both operands' bits are and
    /// the carry into it is. Any carry lies between those of the least and of the greatest numbers, so there the sums
    /// of these agree.
    fn sum(&self, other: &Known<W>, carry: u128) -> Known<W>
        requires { carry ≤ 1 }
        ensures { IsBest W (IsResult W (λ x y. (x + y + carry) % 2 ^ W) (in_known W self.now) (in_known W other.now))
            (masks_of result).zeros (masks_of result).ones }
    {
        let most = most::<W>();
        let least = self.ones.wrapping_add(other.ones).wrapping_add(carry);
        let greatest = (most ^ self.zeros)
            .wrapping_add(most ^ other.zeros)
            .wrapping_add(carry);
        let both = (self.zeros | self.ones) & (other.zeros | other.ones);
        let known = both & !(least ^ greatest);
        Known {
            zeros: known & !least,
            ones: known & least,
        }
    }
}
