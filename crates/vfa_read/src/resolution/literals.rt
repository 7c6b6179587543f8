//! The bits of literals.

ghost use Rattle.std.specs.Prelude.{◌≡◌, ◌-◌, ◌^◌};
ghost use Rattle.vfa_ir.specs.Grammar.{FitsLiteral, IsNumberOf, IsWidth, number_value};
ghost use Rattle.vfa_ir.specs.Resolution.{bits_of, literal_bits as bits_of_literal};

use crate::numbers::magnitude;
use crate::source::first;
use vfa_ir::syntax::Literal;

/// The greatest number of a width.
fn greatest(width: u32) -> u128
    requires { IsWidth width }
    ensures { result ≡ 2 ^ width - 1 }
{
    if width == 128 {
        return u128::MAX;
    }
    (1 << width) - 1
}

/// The bits of a number, perhaps after a `-`, of the range of the width.
fn number_bits(text: &[u8], width: u32) -> u128
    requires width { IsWidth width }
    requires fits { IsNumberOf width text.now }
    ensures { result ≡ bits_of width (number_value text.now) }
{
    let Some((byte, after)) = first(text) else {
        return 0;
    };
    if byte == b'-' {
        let Some(number) = magnitude(after) else {
            return 0;
        };
        if number == 0 {
            return 0;
        }
        return greatest(width) - (number - 1);
    }
    let Some(number) = magnitude(text) else {
        return 0;
    };
    number
}

/// The bits of a literal of the width.
pub fn literal_bits(literal: &Literal, width: u32) -> u128
    requires width { IsWidth width }
    requires fits { FitsLiteral width literal.now }
    ensures { result ≡ bits_of_literal width literal.now }
{
    match literal {
        Literal::Boolean(true) => 1,
        Literal::Boolean(false) => 0,
        Literal::Number(text) => number_bits(text.bytes(), width),
    }
}
