//! What the uses of a value ask for.

ghost use Rattle.std.specs.Prelude.{◌≡◌, ◌<◌, ◌%◌, ◌^◌};
ghost use Rattle.vfa_demand.specs.Rows as rows;
ghost use Rattle.vfa_word.specs.Numbers.{IsWidth};

use vfa_ir::{Bin, Cast, Op, Operand};

/// All bits of a width.
pub fn all_bits(width: u32) -> u128
    requires { IsWidth width }
    ensures { result ≡ rows.all_bits width }
{
    u128::MAX >> (128 - width)
}

/// All bits at or below the highest one of a mask, from which carries may come: of 20 it is 31, of 0 it is 0.
fn up_to(mask: u128) -> u128
    ensures { result ≡ rows.up_to mask }
{
    if mask == 0 {
        return 0;
    }
    u128::MAX >> mask.leading_zeros()
}

/// The sign bit of the width, where it is asked for.
fn sign_if(asked: bool, width: u32) -> u128
    requires { IsWidth width }
    ensures { result ≡ rows.sign_if asked width }
{
    if asked { 1 << (width - 1) } else { 0 }
}

/// The bits of a mask in a width.
fn cut(width: u32, mask: u128) -> u128
    requires { IsWidth width }
    ensures { result ≡ mask % 2 ^ width }
{
    mask & all_bits(width)
}

/// What a mask asks of the first operand of `shl`, by the amount.
#[tactic(auto, unfolding(crate::specs::Rows::left_value))]
fn left_value(width: u32, amount: Operand, mask: u128) -> u128
    requires { IsWidth width }
    ensures { result ≡ rows.left_value width amount mask }
{
    match amount {
        Operand::Literal(amount) if amount < width as u128 => mask >> amount as u32,
        Operand::Value(_) => up_to(mask),
        _ => all_bits(width),
    }
}

/// What a mask asks of the first operand of `lshr`, by the amount.
#[tactic(auto, unfolding(crate::specs::Rows::right_value))]
fn right_value(width: u32, amount: Operand, mask: u128) -> u128
    requires { IsWidth width }
    ensures { result ≡ rows.right_value width amount mask }
{
    match amount {
        Operand::Literal(amount) if amount < width as u128 => cut(width, mask << amount as u32),
        _ => all_bits(width),
    }
}

/// What a mask asks of the first operand of `ashr`, by the amount.
#[tactic(auto, unfolding(crate::specs::Rows::right_signed_value))]
fn right_signed_value(width: u32, amount: Operand, mask: u128) -> u128
    requires { IsWidth width }
    ensures { result ≡ rows.right_signed_value width amount mask }
{
    match amount {
        Operand::Literal(amount) if amount < width as u128 => {
            let copies = mask > all_bits(width) >> amount as u32;
            cut(width, mask << amount as u32) | sign_if(copies, width)
        }
        _ => all_bits(width),
    }
}

/// What a mask asks of an operand of `and`, by the other one.
#[tactic(auto, unfolding(crate::specs::Rows::let_through))]
fn let_through(other: Operand, mask: u128) -> u128
    ensures { result ≡ rows.let_through other mask }
{
    match other {
        Operand::Literal(bits) => mask & bits,
        _ => mask,
    }
}

/// What a mask asks of an operand of `or`, by the other one.
#[tactic(auto, unfolding(crate::specs::Rows::left_open))]
fn left_open(other: Operand, mask: u128) -> u128
    ensures { result ≡ rows.left_open other mask }
{
    match other {
        Operand::Literal(bits) => mask & !bits,
        _ => mask,
    }
}

/// What a mask asks of an operand of a cast from this width.
#[tactic(auto, unfolding(crate::specs::Rows::of_cast))]
fn of_cast(cast: Cast, from: u32, mask: u128) -> u128
    requires { IsWidth from }
    ensures { result ≡ rows.of_cast cast from mask }
{
    match cast {
        Cast::Zext => cut(from, mask),
        Cast::Sext => cut(from, mask) | sign_if(mask > all_bits(from) >> 1, from),
        Cast::Trunc => mask,
    }
}

/// What a mask asks of the first operand of a binary operation, by the second one.
#[tactic(auto, unfolding(crate::specs::Rows::first_of_binary))]
fn first_of_binary(bin: Bin, width: u32, other: Operand, mask: u128) -> u128
    requires { IsWidth width }
    ensures { result ≡ rows.first_of_binary bin width other mask }
{
    match bin {
        Bin::Add | Bin::Sub | Bin::Mul => up_to(mask),
        Bin::Shl => left_value(width, other, mask),
        Bin::Lshr => right_value(width, other, mask),
        Bin::Ashr => right_signed_value(width, other, mask),
        Bin::And => let_through(other, mask),
        Bin::Or => left_open(other, mask),
        Bin::Xor => mask,
        Bin::Udiv | Bin::Sdiv | Bin::Urem | Bin::Srem => all_bits(width),
    }
}

/// What a mask asks of the second operand of a binary operation, by the first one.
#[tactic(auto, unfolding(crate::specs::Rows::first_of_binary))]
fn second_of_binary(bin: Bin, width: u32, other: Operand, mask: u128) -> u128
    requires { IsWidth width }
    ensures { result ≡ rows.second_of_binary bin width other mask }
{
    match bin {
        Bin::Shl | Bin::Lshr | Bin::Ashr => all_bits(width),
        _ => first_of_binary(bin, width, other, mask),
    }
}

/// Whether an operation needs all bits of its operands, whatever is asked of its result: divisions and remainders, which may
/// be undefined behaviour, assumptions and calls.
///
/// `udiv i8 %a, %b` does, `add i8 %a, %b` does not.
pub fn needs_all(op: &Op) -> bool
    ensures { result ≡ rows.needs_all op.now }
{
    match op {
        Op::Bin { bin, .. } => matches!(bin, Bin::Udiv | Bin::Sdiv | Bin::Urem | Bin::Srem),
        Op::Assume { .. } | Op::Call { .. } => true,
        _ => false,
    }
}

/// What a mask of the result that is not 0 asks of the operand of this place, which has this width.
#[tactic(auto, unfolding(crate::specs::Rows::of_operand))]
fn of_operand(op: &Op, width: u32, place: usize, mask: u128) -> u128
    requires { IsWidth width }
    ensures { result ≡ rows.of_operand op.now width place mask }
{
    match *op {
        Op::Bin { bin, a, b, .. } => match place {
            0 => first_of_binary(bin, width, b, mask),
            _ => second_of_binary(bin, width, a, mask),
        },
        Op::Select { .. } => match place {
            0 => all_bits(width),
            _ => mask,
        },
        Op::Cast { cast, .. } => of_cast(cast, width, mask),
        Op::Freeze { .. } => mask,
        _ => all_bits(width),
    }
}

/// What a mask of an operation's result asks of the operand of this place, which has this width.
#[tactic(auto, unfolding(crate::specs::Rows::asked))]
pub fn asked(op: &Op, width: u32, place: usize, mask: u128) -> u128
    requires { IsWidth width }
    ensures { result ≡ rows.asked op.now width place mask }
{
    if needs_all(op) {
        return all_bits(width);
    }
    if mask == 0 {
        return 0;
    }
    of_operand(op, width, place, mask)
}
