ghost use Rattle.std.specs.Prelude.{◌≡◌, ◌<◌, ◌≤◌, ◌^◌, ◌%◌, ◌+◌, MatchOption, bit_and, bit_or, bit_xor};
ghost use Rattle.vfa_word.specs.Numbers.{IsWidth, signed_of, wrap};

use std::marker::Model;

/// A number of width `W`, 0 to 2^W - 1, with `W` from 1 to 128.
#[derive(Clone, Copy, PartialEq, Eq)]
pub struct Word<const W: u32> {
    bits: u128,
}

impl<const W: u32> Model for Word<W> {
    ghost use Rattle.std.specs.Prelude.{ℕ, ◌<◌, ◌^◌};

    ghost Value = { ℕ };

    ghost use Rattle.vfa_word.specs.Numbers.{IsWidth};

    ghost view = { λ a. a.bits };

    ghost inverse = { λ n. record { bits = n } };

    ghost invariant = { λ a. (a.bits < 2 ^ W) × IsWidth W };
}

/// The greatest number of width `W`, 2^W - 1, whose bits are all set.
pub fn most<const W: u32>() -> u128
    requires { IsWidth W }
    ensures { result + 1 ≡ 2 ^ W }
{
    u128::MAX >> (128 - W)
}

impl<const W: u32> Word<W> {
    /// The number `bits`; None exactly where it is 2^W or more.
    pub fn new(bits: u128) -> Option<Word<W>>
        requires { IsWidth W }
        ensures { MatchOption result (2 ^ W ≤ bits) (λ x. (x ≡ bits) × (bits < 2 ^ W)) }
    {
        if bits <= most::<W>() {
            Some(Word { bits })
        } else {
            None
        }
    }

    /// The number `bits` modulo 2^W.
    pub fn cut(bits: u128) -> Word<W>
        requires { IsWidth W }
        ensures { result ≡ bits % 2 ^ W }
    {
        Word {
            bits: bits & most::<W>(),
        }
    }

    /// The number that a whole number wraps to, its remainder modulo 2^W.
    pub fn wrapped(whole: i128) -> Word<W>
        requires { IsWidth W }
        ensures { result ≡ wrap W whole }
    {
        Word::cut(whole.cast_unsigned())
    }

    /// The number itself, which is below 2^W.
    pub fn bits(self) -> u128
        ensures value { result ≡ self.entry }
        ensures bound { result < 2 ^ W }
        ensures width { IsWidth W }
    {
        self.bits
    }

    /// The two's complement reading of the number, -2^(W-1) to 2^(W-1) - 1.
    pub fn signed(self) -> i128
        ensures value { result ≡ signed_of W self.entry }
        ensures width { IsWidth W }
    {
        let most = most::<W>();
        if self.bits <= most >> 1 {
            self.bits as i128
        } else {
            !((most - self.bits) as i128)
        }
    }

    /// The number whose bits are set where both have them.
    pub fn and(self, other: Word<W>) -> Word<W>
        ensures { result ≡ bit_and self.entry other.entry }
    {
        Word {
            bits: self.bits & other.bits,
        }
    }

    /// The number whose bits are set where one or both have them.
    pub fn or(self, other: Word<W>) -> Word<W>
        ensures { result ≡ bit_or self.entry other.entry }
    {
        Word {
            bits: self.bits | other.bits,
        }
    }

    /// The number whose bits are set where just one has them.
    pub fn xor(self, other: Word<W>) -> Word<W>
        ensures { result ≡ bit_xor self.entry other.entry }
    {
        Word {
            bits: self.bits ^ other.bits,
        }
    }
}
