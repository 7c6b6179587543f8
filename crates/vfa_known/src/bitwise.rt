ghost use Rattle.std.specs.Prelude.{◌≡◌, bit_and, bit_or, bit_xor};
ghost use Rattle.vfa_dom.specs.Best.{best_of};
ghost use Rattle.vfa_dom.specs.Results.{results, UnknownBitsVary};

use crate::known::Known;

impl<const W: u32> Known<W> {
    ghost use Rattle.vfa_known.specs.Known.{masks_of, in_known};

    /// The best known bits of `x & y` over all x of `self` and y of `other`, LLVM's `and`. With `?` for an unknown bit,
    /// `01??` and `1?10` give `0??0`.
    pub fn and(&self, other: &Known<W>) -> Known<W>
        ensures best { masks_of result ≡ best_of W (results W bit_and (in_known W self.now) (in_known W other.now)) }
        ensures unknown { UnknownBitsVary W bit_and (in_known W self.now) (in_known W other.now) (masks_of result) }
    {
        Known {
            zeros: self.zeros | other.zeros,
            ones: self.ones & other.ones,
        }
    }

    /// The best known bits of `x | y` over all x of `self` and y of `other`, LLVM's `or`: `01??` and `1?10` give `111?`.
    pub fn or(&self, other: &Known<W>) -> Known<W>
        ensures best { masks_of result ≡ best_of W (results W bit_or (in_known W self.now) (in_known W other.now)) }
        ensures unknown { UnknownBitsVary W bit_or (in_known W self.now) (in_known W other.now) (masks_of result) }
    {
        Known {
            zeros: self.zeros & other.zeros,
            ones: self.ones | other.ones,
        }
    }

    /// The best known bits of `x ^ y` over all x of `self` and y of `other`, LLVM's `xor`: `01??` and `1?10` give `1???`.
    pub fn xor(&self, other: &Known<W>) -> Known<W>
        ensures best { masks_of result ≡ best_of W (results W bit_xor (in_known W self.now) (in_known W other.now)) }
        ensures unknown { UnknownBitsVary W bit_xor (in_known W self.now) (in_known W other.now) (masks_of result) }
    {
        Known {
            zeros: (self.zeros & other.zeros) | (self.ones & other.ones),
            ones: (self.zeros & other.ones) | (self.ones & other.zeros),
        }
    }
}
