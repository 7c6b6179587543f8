//! The lines of generated functions.

ghost use Rattle.std.specs.Prelude.{◌≡◌, ◌<◌, ◌≤◌, ◌+◌, ◌-◌, ◌^◌, ◌%◌, ◌++◌, codes, get_or, nat_lt, OnOk};
ghost use Rattle.vfa_ir.specs.declared.operations.Bin.{Bin};
ghost use Rattle.vfa_ir.specs.Words.{type_word};
ghost use Rattle.vfa_print.specs.Trees.{signed_text};
ghost use Rattle.vfa_opt.specs.Generated.{next_state, state_after, drawn, result_name, operations};
ghost use Rattle.vfa_opt.specs.GeneratedLines.{boolean_bytes, cut_bytes, name_bytes, first_bytes, second_bytes, line_bytes};

use crate::generator::draws::Draws;
use std::alloc::{AllocError, Global};
use vfa_ir::{Bin, Keyword, push_decimal};

/// The operations that are drawn.
const OPERATIONS: u32 = 8;

/// The literals that are drawn lie below this number.
const LITERALS: u32 = 65_536;

/// The operation of this number.
fn operation(number: u32) -> Bin
    ensures { result ≡ get_or operations number Bin.And }
{
    match number {
        1 => Bin::Or,
        2 => Bin::Xor,
        3 => Bin::Add,
        4 => Bin::Sub,
        5 => Bin::Mul,
        6 => Bin::Lshr,
        7 => Bin::Shl,
        _ => Bin::And,
    }
}

/// Puts `iW` last in a text.
pub fn push_type(alloc: Global, text: &mut Vec<u8>, width: u32) -> Result<(), AllocError>
    ensures { OnOk result (text.new.items ≡ text.old.items ++ type_word width) }
{
    text.push(b'i')?;
    push_decimal(alloc, text, u128::from(width))
}

/// Puts `%vj` last.
pub fn push_result(alloc: Global, text: &mut Vec<u8>, place: u32) -> Result<(), AllocError>
    ensures { OnOk result (text.new.items ≡ text.old.items ++ (codes "%" ++ result_name place)) }
{
    text.extend_from_slice(b"%v")?;
    push_decimal(alloc, text, u128::from(place))
}

/// Puts the name of this number last.
fn push_numbered_name(alloc: Global, text: &mut Vec<u8>, number: u32) -> Result<(), AllocError>
    ensures { OnOk result (text.new.items ≡ text.old.items ++ name_bytes number) }
{
    match number {
        0 => text.extend_from_slice(b"%a"),
        1 => text.extend_from_slice(b"%b"),
        _ => push_result(alloc, text, number - 2),
    }
}

/// The number modulo 2^W.
fn cut(width: u32, number: u32) -> u32
    requires { number < 2 ^ 16 }
    ensures number { result ≡ number % 2 ^ width }
    ensures below { result < 2 ^ width }
    ensures small { result < 2 ^ 16 }
{
    if width < 17 {
        number % (1 << width)
    } else {
        number
    }
}

/// Whether the bits of a number of the width say that it is not negative.
fn is_natural(width: u32, bits: u32) -> bool
    requires width { 1 ≤ width }
    requires bits { bits < 2 ^ 16 }
    ensures { result ≡ nat_lt bits (2 ^ (width - 1)) }
{
    if width < 17 {
        bits < 1 << (width - 1)
    } else {
        true
    }
}

/// How far below zero a negative number is.
fn magnitude(width: u32, bits: u32) -> u32
    requires width { 1 ≤ width }
    requires bits { bits < 2 ^ 16 }
    requires negative { 2 ^ (width - 1) ≤ bits }
    requires below { bits < 2 ^ width }
    ensures { result ≡ 2 ^ width - bits }
{
    (1 << width) - bits
}

/// Puts a number of the width, given by its bits, last.
fn push_signed(alloc: Global, text: &mut Vec<u8>, width: u32, bits: u32) -> Result<(), AllocError>
    requires width { 1 ≤ width }
    requires bits { bits < 2 ^ 16 }
    requires below { bits < 2 ^ width }
    ensures { OnOk result (text.new.items ≡ text.old.items ++ signed_text width bits) }
{
    if is_natural(width, bits) {
        return push_decimal(alloc, text, u128::from(bits));
    }
    text.push(b'-')?;
    push_decimal(alloc, text, u128::from(magnitude(width, bits)))
}

fn push_boolean(text: &mut Vec<u8>, bits: u32) -> Result<(), AllocError>
    ensures { OnOk result (text.new.items ≡ text.old.items ++ boolean_bytes bits) }
{
    if bits == 1 {
        return text.extend_from_slice(b"true");
    }
    text.extend_from_slice(b"false")
}

/// Puts the literal of the number modulo 2^W last.
pub fn push_literal(
    alloc: Global,
    text: &mut Vec<u8>,
    width: u32,
    number: u32,
) -> Result<(), AllocError>
    requires width { 1 ≤ width }
    requires number { number < 2 ^ 16 }
    ensures { OnOk result (text.new.items ≡ text.old.items ++ cut_bytes width number) }
{
    let bits = cut(width, number);
    if width == 1 {
        return push_boolean(text, bits);
    }
    push_signed(alloc, text, width, bits)
}

/// Puts the name of a number that is drawn below this one last.
fn push_drawn_name(
    alloc: Global,
    draws: &mut Draws,
    text: &mut Vec<u8>,
    names: u32,
) -> Result<(), AllocError>
    requires { 0 < names }
    ensures text { OnOk result (text.new.items ≡ text.old.items ++ name_bytes (drawn draws.old.state names)) }
    ensures state { OnOk result (draws.new.state ≡ next_state draws.old.state) }
{
    let number = draws.draw(names);
    push_numbered_name(alloc, text, number)
}

/// Puts a literal that is drawn last.
pub fn push_drawn_literal(
    alloc: Global,
    draws: &mut Draws,
    text: &mut Vec<u8>,
    width: u32,
) -> Result<(), AllocError>
    requires { 1 ≤ width }
    ensures text { OnOk result (text.new.items ≡ text.old.items ++ cut_bytes width (drawn draws.old.state 65536)) }
    ensures state { OnOk result (draws.new.state ≡ next_state draws.old.state) }
{
    let number = draws.draw(LITERALS);
    push_literal(alloc, text, width, number)
}

/// Puts a literal last where a draw below 2 is 0, else one of so many names.
fn push_second(
    alloc: Global,
    draws: &mut Draws,
    text: &mut Vec<u8>,
    width: u32,
    names: u32,
) -> Result<(), AllocError>
    requires width { 1 ≤ width }
    requires names { 0 < names }
    ensures text { OnOk result (text.new.items ≡ text.old.items ++ second_bytes width names draws.old.state) }
    ensures state { OnOk result (draws.new.state ≡ next_state (next_state draws.old.state)) }
{
    if draws.draw(2) == 0 {
        return push_drawn_literal(alloc, draws, text, width);
    }
    push_drawn_name(alloc, draws, text, names)
}

/// Puts an operation that is drawn last, with its type and its first operand.
fn push_first(
    alloc: Global,
    draws: &mut Draws,
    text: &mut Vec<u8>,
    width: u32,
    names: u32,
) -> Result<(), AllocError>
    requires { 0 < names }
    ensures text { OnOk result (text.new.items ≡ text.old.items ++ first_bytes width names draws.old.state) }
    ensures state { OnOk result (draws.new.state ≡ next_state (next_state draws.old.state)) }
{
    let bin = operation(draws.draw(OPERATIONS));
    text.extend_from_slice(bin.word())?;
    text.push(b' ')?;
    push_type(alloc, text, width)?;
    text.push(b' ')?;
    push_drawn_name(alloc, draws, text, names)?;
    Ok(())
}

/// Puts line `place` of a function last: `%vj = OP iW FIRST, SECOND`.
pub fn push_line(
    alloc: Global,
    draws: &mut Draws,
    text: &mut Vec<u8>,
    width: u32,
    place: u32,
) -> Result<(), AllocError>
    requires width { 1 ≤ width }
    requires place { place < 40 }
    ensures text { OnOk result (text.new.items ≡ text.old.items ++ line_bytes width place draws.old.state) }
    ensures state { OnOk result (draws.new.state ≡ state_after 4 draws.old.state) }
{
    text.extend_from_slice(b"  ")?;
    push_result(alloc, text, place)?;
    text.extend_from_slice(b" = ")?;
    push_first(alloc, draws, text, width, place + 2)?;
    text.extend_from_slice(b", ")?;
    push_second(alloc, draws, text, width, place + 2)?;
    text.push(b'\n')?;
    Ok(())
}
