//! What stands in place of an operand, where only some bits of each name are asked for.

ghost use Rattle.std.specs.Prelude.{◌≡◌, Some, length};
ghost use Rattle.vfa_bits.specs.Standing as standing;
ghost use Rattle.vfa_bits.specs.Standing.{if_leaves};
ghost use Rattle.vfa_bits.specs.Tables as tables;
ghost use Rattle.vfa_bits.specs.Tables.{AreReplacements};
ghost use Rattle.vfa_demand.specs.Masks.{mask_in};
ghost use Rattle.vfa_ir.specs.declared.functions.Function.{Function};

use vfa_ir::{Bin, Op, Operand, ValueId};

/// Whether the operation by this literal leaves each bit of the mask as it is.
fn leaves_bits(bin: Bin, mask: u128, literal: u128) -> bool
    ensures { result ≡ standing.leaves_bits bin mask literal }
{
    match bin {
        Bin::And => mask & literal == mask,
        Bin::Or | Bin::Xor => mask & literal == 0,
        _ => false,
    }
}

/// The operand beside a literal, where it has the same bits as the result.
fn beside(bin: Bin, mask: u128, operand: Operand, literal: u128) -> Option<Operand>
    ensures { result ≡ if_leaves bin mask (Some (record { operand = operand; literal = literal })) }
{
    if leaves_bits(bin, mask, literal) {
        return Some(operand);
    }
    None
}

/// The operand of an operation that has the same bits of this mask as the result: the one beside a literal that changes
/// none of them. The literal may be on either side; of two the second one is meant. None where there is no such operand.
///
/// Where the mask is 255, it is `%x` of `and i32 %x, 65535`, and none of `and i32 %x, 127`. After LLVM's demanded bits
/// simplification of `and`, `or` and `xor`.
pub fn same_bits_operand(op: &Op, mask: u128) -> Option<Operand>
    ensures { result ≡ standing.same_bits_operand op.now mask }
{
    let Op::Bin { bin, a, b, .. } = *op else {
        return None;
    };
    match (a, b) {
        (_, Operand::Literal(literal)) => beside(bin, mask, a, literal),
        (Operand::Literal(literal), _) => beside(bin, mask, b, literal),
        _ => None,
    }
}

/// The mask of a value; 0 where there is none.
pub(crate) fn mask_of(masks: &[u128], value: ValueId) -> u128
    ensures { result ≡ mask_in masks.now value.0 }
{
    masks.get(value.0 as usize).copied().unwrap_or(0)
}

/// The operand, and 0 in place of a name of which nothing is asked.
pub fn zeroed(masks: &[u128], operand: Operand) -> Operand
    ensures { result ≡ standing.zeroed (mask_in masks.now) operand }
{
    match operand {
        Operand::Value(value) => {
            if mask_of(masks, value) == 0 {
                return Operand::Literal(0);
            }
            operand
        }
        other => other,
    }
}

/// The operand that takes the place of another one, where the chain of replaced names goes on.
fn next_operand(
    masks: &[u128],
    replacements: &[Option<Operand>],
    operand: Operand,
) -> Option<Operand>
    ensures { result ≡ tables.next_operand (mask_in masks.now) replacements.now operand }
{
    let Operand::Value(value) = operand else {
        return None;
    };
    if mask_of(masks, value) == 0 {
        return None;
    }
    replacements.get(value.0 as usize).copied().unwrap_or(None)
}

/// What stands in place of an operand at a use that some walk comes to: the end of its chain of replaced names, by a table
/// of the operands that replace them. At most as many names are followed as the table has.
///
/// With `%a = and i32 %x, 65535`, `%b = and i32 %a, 4095` and 255 asked of each, `%x` stands in place of `%b`.
pub fn standing(masks: &[u128], replacements: &[Option<Operand>], operand: Operand) -> Operand
    ensures { (f : Function) → AreReplacements f (mask_in masks.now) replacements.now →
        result ≡ standing.standing f (mask_in masks.now) (length f.values) operand }
{
    let mut last = operand;
    'chain: for _turn in 0..replacements.len() {
        match next_operand(masks, replacements, last) {
            Some(next) => last = next,
            None => return zeroed(masks, last),
        }
    }
    zeroed(masks, last)
}
