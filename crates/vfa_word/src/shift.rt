ghost use Rattle.std.specs.Prelude.{◌≡◌, ◌<◌};
ghost use Rattle.vfa_word.specs.Operations.{shifted_left, shifted_right, shifted_right_signed};

use crate::Word;

impl<const W: u32> Word<W> {
    /// The number times 2^amount modulo 2^W, LLVM's `shl`.
    pub fn shl(self, amount: u32) -> Word<W>
        requires { amount < W }
        ensures { result ≡ shifted_left W self.entry amount }
    {
        Word::cut(self.bits() << amount)
    }

    /// The quotient by 2^amount, LLVM's `lshr`.
    pub fn lshr(self, amount: u32) -> Word<W>
        requires { amount < W }
        ensures { result ≡ shifted_right self.entry amount }
    {
        Word::cut(self.bits() >> amount)
    }

    /// The quotient of the signed reading by 2^amount, rounded down, modulo 2^W: LLVM's `ashr`.
    pub fn ashr(self, amount: u32) -> Word<W>
        requires { amount < W }
        ensures { result ≡ shifted_right_signed W self.entry amount }
    {
        Word::wrapped(self.signed() >> amount)
    }
}
