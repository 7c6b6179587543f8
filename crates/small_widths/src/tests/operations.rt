//! All operations of a width, with all flags.

use std::alloc::{AllocError, Global};
use vfa_ir::{Bin, Cast, CastFlags, Flags, Fun1, Fun2, Op, Operand, Over, Pred, ValueId};

/// The first operand of each operation.
pub const A: Operand = Operand::Value(ValueId(0));

/// The second one.
pub const B: Operand = Operand::Value(ValueId(1));

/// The condition, or the pair.
pub const C: Operand = Operand::Value(PAIR);

/// The name of the pair.
const PAIR: ValueId = ValueId(2);

/// The greatest width that a conversion leads to.
const GREATEST: u32 = 5;

/// Whether the operation has these words.
fn has_words(bin: Bin, flags: Flags) -> bool {
    let wraps = flags.nuw || flags.nsw;
    match bin {
        Bin::Add | Bin::Sub | Bin::Mul | Bin::Shl => !flags.exact && !flags.disjoint,
        Bin::Udiv | Bin::Sdiv | Bin::Lshr | Bin::Ashr => !wraps && !flags.disjoint,
        Bin::Or => !wraps && !flags.exact,
        Bin::Urem | Bin::Srem | Bin::And | Bin::Xor => { !wraps && !flags.exact && !flags.disjoint }
    }
}

/// Adds a binary operation with each choice of its words.
fn add_binary(ops: &mut Vec<Op>, bin: Bin, width: u32) -> Result<(), AllocError> {
    'words: for words in 0..16u32 {
        let flags = Flags {
            nuw: words & 1 != 0,
            nsw: words & 2 != 0,
            exact: words & 4 != 0,
            disjoint: words & 8 != 0,
        };
        if has_words(bin, flags) {
            ops.push(Op::Bin {
                bin,
                flags,
                width,
                a: A,
                b: B,
            })?;
        }
    }
    Ok(())
}

/// The binary operations.
fn add_all_binary(ops: &mut Vec<Op>, width: u32) -> Result<(), AllocError> {
    'all: for bin in Bin::ALL {
        add_binary(ops, bin, width)?;
    }
    Ok(())
}

/// The comparisons.
fn add_comparisons(ops: &mut Vec<Op>, width: u32) -> Result<(), AllocError> {
    'all: for pred in Pred::ALL {
        'words: for samesign in [false, true] {
            ops.push(Op::Icmp {
                pred,
                samesign,
                width,
                a: A,
                b: B,
            })?;
        }
    }
    Ok(())
}

/// The intrinsics of two numbers.
fn add_intrinsics(ops: &mut Vec<Op>, width: u32) -> Result<(), AllocError> {
    'all: for fun in Fun2::ALL {
        ops.push(Op::Two {
            fun,
            width,
            a: A,
            b: B,
        })?;
    }
    Ok(())
}

/// The intrinsics that give a pair.
pub fn overflows(alloc: Global, width: u32) -> Result<Vec<Op>, AllocError> {
    let mut ops = Vec::new(alloc);
    'all: for over in Over::ALL {
        ops.push(Op::Over {
            over,
            width,
            a: A,
            b: B,
        })?;
    }
    Ok(ops)
}

/// The operations of two numbers that give a number.
pub fn of_two_numbers(alloc: Global, width: u32) -> Result<Vec<Op>, AllocError> {
    let mut ops = Vec::new(alloc);
    add_all_binary(&mut ops, width)?;
    add_comparisons(&mut ops, width)?;
    add_intrinsics(&mut ops, width)?;
    Ok(ops)
}

/// Whether the conversion leads from the one width to the other and has these words.
fn converts(cast: Cast, flags: CastFlags, from: u32, to: u32) -> bool {
    let wraps = flags.nuw || flags.nsw;
    match cast {
        Cast::Zext => from < to && !wraps,
        Cast::Sext => from < to && !wraps && !flags.nneg,
        Cast::Trunc => to < from && !flags.nneg,
    }
}

/// Adds the conversions from one width to another.
fn add_conversions(ops: &mut Vec<Op>, cast: Cast, from: u32, to: u32) -> Result<(), AllocError> {
    'words: for words in 0..8u32 {
        let flags = CastFlags {
            nuw: words & 1 != 0,
            nsw: words & 2 != 0,
            nneg: words & 4 != 0,
        };
        if converts(cast, flags, from, to) {
            ops.push(Op::Cast {
                cast,
                flags,
                from,
                to,
                a: A,
            })?;
        }
    }
    Ok(())
}

/// The conversions from a width.
fn add_all_conversions(ops: &mut Vec<Op>, from: u32) -> Result<(), AllocError> {
    'all: for cast in Cast::ALL {
        'widths: for to in 1..=GREATEST {
            add_conversions(ops, cast, from, to)?;
        }
    }
    Ok(())
}

/// The intrinsics of one number.
fn add_counts(ops: &mut Vec<Op>, width: u32) -> Result<(), AllocError> {
    'all: for fun in Fun1::ALL {
        'edges: for strict in [false, true] {
            if !strict || fun != Fun1::Ctpop {
                ops.push(Op::One {
                    fun,
                    width,
                    a: A,
                    strict,
                })?;
            }
        }
    }
    Ok(())
}

/// The operations of one number.
pub fn of_one_number(alloc: Global, width: u32) -> Result<Vec<Op>, AllocError> {
    let mut ops = Vec::new(alloc);
    ops.push(Op::Freeze { width, a: A })?;
    add_all_conversions(&mut ops, width)?;
    add_counts(&mut ops, width)?;
    Ok(ops)
}

/// The choice between two numbers.
pub fn choices(alloc: Global, width: u32) -> Result<Vec<Op>, AllocError> {
    let mut ops = Vec::new(alloc);
    ops.push(Op::Select {
        width,
        c: C,
        a: A,
        b: B,
    })?;
    Ok(ops)
}

/// The parts of a pair.
pub fn parts(alloc: Global, width: u32) -> Result<Vec<Op>, AllocError> {
    let mut ops = Vec::new(alloc);
    'parts: for index in 0..2u32 {
        ops.push(Op::Part {
            width,
            pair: PAIR,
            index,
        })?;
    }
    Ok(ops)
}

/// What is assumed.
pub fn assumptions(alloc: Global) -> Result<Vec<Op>, AllocError> {
    let mut ops = Vec::new(alloc);
    ops.push(Op::Assume { c: C })?;
    Ok(ops)
}
