ghost use Rattle.std.specs.Prelude.{◌≡◌, ℕ, ◌<◌, ◌^◌, ◌↔◌, IsTrue, Some};
ghost use Rattle.std.specs.Bool.{OnTrue};
ghost use Rattle.vfa_word.specs.Numbers.{IsWidth};

use vfa_word::Word;

/// A type whose values stand for sets of `N`.
pub trait SetOf<N>: Copy {
    /// The members of the set.
    ghost holds: { Self → N → Type 0 };

    /// The set of `x` alone.
    fn only(x: N) -> Self
        ensures { (y : N) → holds result y ↔ (y ≡ x) };

    /// Whether `x` is a member.
    fn has(&self, x: N) -> bool
        ensures { IsTrue result ↔ holds self.now x };
}

/// A type whose values stand for sets of numbers of width `W`, with `W` from 1 to 128.
pub trait Domain<const W: u32>: SetOf<Word<W>> {
    /// The set of all numbers of the width.
    fn any() -> Self
        requires { IsWidth W }
        ensures { (x : ℕ) → x < 2 ^ W → Self.holds result x };

    /// A set that has each number of `self` and each number of `other`.
    fn join(&self, other: &Self) -> Self
        ensures covers_self { (x : ℕ) → Self.holds self.now x → Self.holds result x }
        ensures covers_other { (x : ℕ) → Self.holds other.now x → Self.holds result x };

    /// A yes means that each number of `other` is in `self`.
    fn includes(&self, other: &Self) -> bool
        ensures { OnTrue result ((x : ℕ) → Self.holds other.now x → Self.holds self.now x) };

    /// Some(x) exactly where x is the only number of the set.
    fn single(&self) -> Option<Word<W>>
        ensures { (x : ℕ) → (result ≡ Some x) ↔ ((y : ℕ) → Self.holds self.now y ↔ (y ≡ x)) };

    /// Each member is a number of the width.
    ghost within: { (d : Self) (x : ℕ) → Self.holds d x → x < 2 ^ W };
}
