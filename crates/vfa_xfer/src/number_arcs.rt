//! Arcs between plain numbers.

ghost use Rattle.std.specs.Prelude.{◌≡◌, ◌<◌, ◌^◌};
ghost use Rattle.vfa_known.specs.Cube.{IsCube};
ghost use Rattle.vfa_known.specs.Known.{masks_of};
ghost use Rattle.vfa_word.specs.Numbers.{IsWidth};
ghost use Rattle.vfa_wrap.specs.Arc.{arc_from, sarc};
ghost use Rattle.vfa_wrap.specs.Wrapped.{span_of};

use vfa_known::Known;
use vfa_word::Word;
use vfa_wrap::Wrapped;

/// The arc from `first` up to `last`, both modulo 2^W.
pub(crate) fn arc<const W: u32>(first: u128, last: u128) -> Wrapped<W>
    requires { IsWidth W }
    ensures { span_of result ≡ arc_from W first last }
{
    Wrapped::new(Word::cut(first), Word::cut(last))
}

/// The arc from `first` up to `last`, both read as the numbers that they wrap to.
pub(crate) fn signed_arc<const W: u32>(first: i128, last: i128) -> Wrapped<W>
    requires { IsWidth W }
    ensures { span_of result ≡ sarc W first last }
{
    Wrapped::new(Word::wrapped(first), Word::wrapped(last))
}

/// The known bits with these masks, which share no bit.
pub(crate) fn known_bits<const W: u32>(zeros: u128, ones: u128) -> Known<W>
    requires width { IsWidth W }
    requires cube { IsCube W zeros ones }
    ensures { masks_of result ≡ record { zeros = zeros; ones = ones } }
{
    let Some(known) = Known::new(zeros, ones) else {
        unreachable!()
    };
    known
}
