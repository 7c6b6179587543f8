ghost use Rattle.std.specs.Prelude.{◌≡◌, ◌≢◌, ◌-◌, ◌^◌};
ghost use Rattle.vfa_word.specs.Operations.{unsigned_quotient, unsigned_remainder, signed_quotient, signed_remainder};

use crate::Word;

impl<const W: u32> Word<W> {
    /// The quotient, rounded down: LLVM's `udiv`.
    pub fn udiv(self, other: Word<W>) -> Word<W>
        requires { other ≢ 0 }
        ensures { result ≡ unsigned_quotient self.entry other.entry }
    {
        Word::cut(self.bits() / other.bits())
    }

    /// The remainder of that quotient, LLVM's `urem`.
    pub fn urem(self, other: Word<W>) -> Word<W>
        requires { other ≢ 0 }
        ensures { result ≡ unsigned_remainder self.entry other.entry }
    {
        Word::cut(self.bits() % other.bits())
    }

    /// The quotient of the signed readings, rounded toward zero, modulo 2^W: LLVM's `sdiv`.
    pub fn sdiv(self, other: Word<W>) -> Word<W>
        requires nonzero { other ≢ 0 }
        requires no_overflow { other ≡ 2 ^ W - 1 → self ≢ 2 ^ (W - 1) }
        ensures { result ≡ signed_quotient W self.entry other.entry }
    {
        Word::wrapped(self.signed() / other.signed())
    }

    /// The remainder of that quotient, with the dividend's sign, modulo 2^W: LLVM's `srem`.
    pub fn srem(self, other: Word<W>) -> Word<W>
        requires nonzero { other ≢ 0 }
        requires no_overflow { other ≡ 2 ^ W - 1 → self ≢ 2 ^ (W - 1) }
        ensures { result ≡ signed_remainder W self.entry other.entry }
    {
        Word::wrapped(self.signed() % other.signed())
    }
}
