ghost use Rattle.std.specs.Prelude.{◌≡◌};
ghost use Rattle.vfa_word.specs.Operations.{sum_of, difference_of, product_of};

use crate::Word;

impl<const W: u32> Word<W> {
    /// The sum modulo 2^W, LLVM's `add`.
    pub fn add(self, other: Word<W>) -> Word<W>
        ensures { result ≡ sum_of W self.entry other.entry }
    {
        Word::cut(self.bits().wrapping_add(other.bits()))
    }

    /// The difference modulo 2^W, LLVM's `sub`.
    pub fn sub(self, other: Word<W>) -> Word<W>
        ensures { result ≡ difference_of W self.entry other.entry }
    {
        Word::cut(self.bits().wrapping_sub(other.bits()))
    }

    /// The product modulo 2^W, LLVM's `mul`.
    pub fn mul(self, other: Word<W>) -> Word<W>
        ensures { result ≡ product_of W self.entry other.entry }
    {
        Word::cut(self.bits().wrapping_mul(other.bits()))
    }
}
