//! Divisions at a lesser width.

ghost use Rattle.std.specs.Prelude.{◌≡◌, ◌<◌, ◌+◌, ◌%◌, ◌^◌, ◌++◌, ◌∷◌, [], IfOk};
ghost use Rattle.vfa_ir.specs.Operands.{no_cast_flags};
ghost use Rattle.vfa_ir.specs.declared.operations.Op.{Op};
ghost use Rattle.vfa_rewrite.specs.Rewritten as rewritten;
ghost use Rattle.vfa_rewrite.specs.Rewritten.{line_of, narrowed, truncation};

use std::alloc::AllocError;
use vfa_ir::{Cast, CastFlags, Inst, Op, Operand, ValueId};

/// The low bits of a number.
fn low_bits(x: u128, width: u32) -> u128
    ensures { result ≡ x % 2 ^ width }
{
    if width >= 128 {
        return x;
    }
    x % (1 << width)
}

/// The conversion without words.
fn converted(cast: Cast, from: u32, to: u32, a: Operand) -> Op
    ensures { result ≡ Op.Cast cast no_cast_flags from to a }
{
    Op::Cast {
        cast,
        flags: CastFlags {
            nuw: false,
            nsw: false,
            nneg: false,
        },
        from,
        to,
        a,
    }
}

/// Puts an instruction that gives a name an operation's result behind others.
fn push_line(lines: &mut Vec<Inst>, name: Option<ValueId>, op: Op) -> Result<(), AllocError>
    ensures { IfOk result (λ _. lines.new.items ≡ lines.old.items ++ (line_of name op ∷ [])) }
{
    lines.push(Inst { result: name, op })?;
    Ok(())
}

/// Truncates an operand from the one width to the other under a new name, if it is a name.
fn push_truncation(
    lines: &mut Vec<Inst>,
    width: u32,
    lesser: u32,
    a: Operand,
    name: u32,
) -> Result<(), AllocError>
    ensures { IfOk result (λ _. lines.new.items ≡ lines.old.items ++ truncation width lesser a name) }
{
    let Operand::Value(_) = a else {
        return Ok(());
    };
    push_line(
        lines,
        Some(ValueId(name)),
        converted(Cast::Trunc, width, lesser, a),
    )
}

/// The operand of the narrowed operation: the new name, or a number cut to the width.
fn truncated_operand(width: u32, a: Operand, name: u32) -> Operand
    ensures { result ≡ rewritten.truncated_operand width a name }
{
    match a {
        Operand::Value(_) => Operand::Value(ValueId(name)),
        Operand::Literal(x) => Operand::Literal(low_bits(x, width)),
        Operand::Poison => Operand::Poison,
    }
}

/// Puts the lines of a division at a lesser width behind others: its operands truncated, the division, and its result widened
/// again. The first of its three new names has the number `first`. Any other operation stays as it is.
///
/// Of `%q = udiv i32 %x, 3` at width 8 they are `%0 = trunc i32 %x to i8`, `%1 = udiv i8 %0, 3` and `%q = zext i8 %1 to i32`.
pub(crate) fn push_narrowed(
    lines: &mut Vec<Inst>,
    first: u32,
    lesser: u32,
    name: Option<ValueId>,
    op: &Op,
) -> Result<(), AllocError>
    requires { first + 2 < 2 ^ 32 }
    ensures { IfOk result (λ _. lines.new.items ≡ lines.old.items ++ narrowed (λ k. first + k) lesser name op.now) }
{
    let Op::Bin {
        bin,
        flags,
        width,
        a,
        b,
    } = *op
    else {
        return push_line(lines, name, *op);
    };
    push_truncation(lines, width, lesser, a, first)?;
    push_truncation(lines, width, lesser, b, first + 1)?;
    let quotient = ValueId(first + 2);
    let division = Op::Bin {
        bin,
        flags,
        width: lesser,
        a: truncated_operand(lesser, a, first),
        b: truncated_operand(lesser, b, first + 1),
    };
    push_line(lines, Some(quotient), division)?;
    push_line(
        lines,
        name,
        converted(Cast::Zext, lesser, width, Operand::Value(quotient)),
    )
}
