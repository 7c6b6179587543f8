//! The operations that are measured, with the names of their lines.

use std::alloc::{AllocError, Global};
use vfa_ir::{Bin, Cast, CastFlags, Flags, Fun1, Fun2, Op, Operand, Over, Pred, ValueId};

/// The operand of each field.
const NAME: Operand = Operand::Poison;

/// What the operation goes over.
#[derive(Clone, Copy)]
pub enum Goes {
    /// Two numbers of its width.
    Numbers,
    /// A number, and amounts below its width.
    Amounts,
    /// A number of half of its width.
    Half,
    /// Two numbers, and any bit.
    Choice,
    /// A pair.
    Pair,
}

/// A line.
#[derive(Drop)]
pub struct Line {
    /// The name.
    pub name: &'static str,
    /// What it goes over.
    pub of: Goes,
    /// The operation.
    pub op: Op,
}

fn flags(nuw: bool, nsw: bool, exact: bool, disjoint: bool) -> Flags {
    Flags {
        nuw,
        nsw,
        exact,
        disjoint,
    }
}

fn plain() -> Flags {
    flags(false, false, false, false)
}

fn unsigned() -> Flags {
    flags(true, false, false, false)
}

fn signed() -> Flags {
    flags(false, true, false, false)
}

fn both() -> Flags {
    flags(true, true, false, false)
}

fn exact() -> Flags {
    flags(false, false, true, false)
}

fn binary(name: &'static str, of: Goes, bin: Bin, flags: Flags, width: u32) -> Line {
    Line {
        name,
        of,
        op: Op::Bin {
            bin,
            flags,
            width,
            a: NAME,
            b: NAME,
        },
    }
}

fn add_sums(lines: &mut Vec<Line>, width: u32) -> Result<(), AllocError> {
    let of = Goes::Numbers;
    lines.push(binary("add", of, Bin::Add, plain(), width))?;
    lines.push(binary("add nuw", of, Bin::Add, unsigned(), width))?;
    lines.push(binary("add nsw", of, Bin::Add, signed(), width))?;
    lines.push(binary("add nuw nsw", of, Bin::Add, both(), width))?;
    lines.push(binary("sub", of, Bin::Sub, plain(), width))?;
    lines.push(binary("sub nuw", of, Bin::Sub, unsigned(), width))?;
    lines.push(binary("sub nsw", of, Bin::Sub, signed(), width))?;
    lines.push(binary("sub nuw nsw", of, Bin::Sub, both(), width))?;
    lines.push(binary("mul", of, Bin::Mul, plain(), width))?;
    lines.push(binary("mul nuw", of, Bin::Mul, unsigned(), width))?;
    lines.push(binary("mul nsw", of, Bin::Mul, signed(), width))?;
    lines.push(binary("mul nuw nsw", of, Bin::Mul, both(), width))?;
    Ok(())
}

fn add_shifts(lines: &mut Vec<Line>, width: u32) -> Result<(), AllocError> {
    let (all, of) = (Goes::Numbers, Goes::Amounts);
    lines.push(binary("shl by any", all, Bin::Shl, plain(), width))?;
    lines.push(binary("shl", of, Bin::Shl, plain(), width))?;
    lines.push(binary("shl nuw", of, Bin::Shl, unsigned(), width))?;
    lines.push(binary("shl nsw", of, Bin::Shl, signed(), width))?;
    lines.push(binary("shl nuw nsw", of, Bin::Shl, both(), width))?;
    lines.push(binary("lshr by any", all, Bin::Lshr, plain(), width))?;
    lines.push(binary("lshr", of, Bin::Lshr, plain(), width))?;
    lines.push(binary("lshr exact", of, Bin::Lshr, exact(), width))?;
    lines.push(binary("ashr by any", all, Bin::Ashr, plain(), width))?;
    lines.push(binary("ashr", of, Bin::Ashr, plain(), width))?;
    lines.push(binary("ashr exact", of, Bin::Ashr, exact(), width))?;
    Ok(())
}

fn add_divisions(lines: &mut Vec<Line>, width: u32) -> Result<(), AllocError> {
    let of = Goes::Numbers;
    lines.push(binary("udiv", of, Bin::Udiv, plain(), width))?;
    lines.push(binary("udiv exact", of, Bin::Udiv, exact(), width))?;
    lines.push(binary("sdiv", of, Bin::Sdiv, plain(), width))?;
    lines.push(binary("sdiv exact", of, Bin::Sdiv, exact(), width))?;
    lines.push(binary("urem", of, Bin::Urem, plain(), width))?;
    lines.push(binary("srem", of, Bin::Srem, plain(), width))?;
    Ok(())
}

fn add_bitwise(lines: &mut Vec<Line>, width: u32) -> Result<(), AllocError> {
    let of = Goes::Numbers;
    let disjoint = flags(false, false, false, true);
    lines.push(binary("and", of, Bin::And, plain(), width))?;
    lines.push(binary("or", of, Bin::Or, plain(), width))?;
    lines.push(binary("or disjoint", of, Bin::Or, disjoint, width))?;
    lines.push(binary("xor", of, Bin::Xor, plain(), width))?;
    Ok(())
}

fn comparison(name: &'static str, pred: Pred, samesign: bool, width: u32) -> Line {
    Line {
        name,
        of: Goes::Numbers,
        op: Op::Icmp {
            pred,
            samesign,
            width,
            a: NAME,
            b: NAME,
        },
    }
}

fn add_comparisons(lines: &mut Vec<Line>, width: u32) -> Result<(), AllocError> {
    lines.push(comparison("icmp eq", Pred::Eq, false, width))?;
    lines.push(comparison("icmp ult", Pred::Ult, false, width))?;
    lines.push(comparison("icmp slt", Pred::Slt, false, width))?;
    lines.push(comparison("icmp samesign ult", Pred::Ult, true, width))?;
    Ok(())
}

fn conversion(
    name: &'static str,
    of: Goes,
    cast: Cast,
    words: (bool, bool, bool),
    from: u32,
    to: u32,
) -> Line {
    Line {
        name,
        of,
        op: Op::Cast {
            cast,
            flags: CastFlags {
                nuw: words.0,
                nsw: words.1,
                nneg: words.2,
            },
            from,
            to,
            a: NAME,
        },
    }
}

fn add_conversions(lines: &mut Vec<Line>, width: u32) -> Result<(), AllocError> {
    let (half, of, no) = (width / 2, Goes::Half, (false, false, false));
    lines.push(conversion("zext", of, Cast::Zext, no, half, width))?;
    let nneg = (false, false, true);
    lines.push(conversion("zext nneg", of, Cast::Zext, nneg, half, width))?;
    lines.push(conversion("sext", of, Cast::Sext, no, half, width))?;
    let of = Goes::Numbers;
    lines.push(conversion("trunc", of, Cast::Trunc, no, width, half))?;
    let nuw = (true, false, false);
    lines.push(conversion("trunc nuw", of, Cast::Trunc, nuw, width, half))?;
    let nsw = (false, true, false);
    lines.push(conversion("trunc nsw", of, Cast::Trunc, nsw, width, half))?;
    let both = (true, true, false);
    lines.push(conversion("trunc nuw nsw", of, Cast::Trunc, both, width, half))?;
    Ok(())
}

fn two(name: &'static str, fun: Fun2, width: u32) -> Line {
    Line {
        name,
        of: Goes::Numbers,
        op: Op::Two {
            fun,
            width,
            a: NAME,
            b: NAME,
        },
    }
}

fn add_extremes(lines: &mut Vec<Line>, width: u32) -> Result<(), AllocError> {
    lines.push(two("umin", Fun2::Umin, width))?;
    lines.push(two("umax", Fun2::Umax, width))?;
    lines.push(two("smin", Fun2::Smin, width))?;
    lines.push(two("smax", Fun2::Smax, width))?;
    lines.push(two("uadd.sat", Fun2::UaddSat, width))?;
    lines.push(two("usub.sat", Fun2::UsubSat, width))?;
    lines.push(two("sadd.sat", Fun2::SaddSat, width))?;
    lines.push(two("ssub.sat", Fun2::SsubSat, width))?;
    Ok(())
}

fn one(name: &'static str, fun: Fun1, strict: bool, width: u32) -> Line {
    Line {
        name,
        of: Goes::Numbers,
        op: Op::One {
            fun,
            width,
            a: NAME,
            strict,
        },
    }
}

fn add_counts(lines: &mut Vec<Line>, width: u32) -> Result<(), AllocError> {
    lines.push(one("abs", Fun1::Abs, false, width))?;
    lines.push(one("abs strict", Fun1::Abs, true, width))?;
    lines.push(one("ctlz", Fun1::Ctlz, false, width))?;
    lines.push(one("ctlz strict", Fun1::Ctlz, true, width))?;
    lines.push(one("cttz", Fun1::Cttz, false, width))?;
    lines.push(one("cttz strict", Fun1::Cttz, true, width))?;
    lines.push(one("ctpop", Fun1::Ctpop, false, width))?;
    Ok(())
}

fn overflow(name: &'static str, over: Over, width: u32) -> Line {
    Line {
        name,
        of: Goes::Numbers,
        op: Op::Over {
            over,
            width,
            a: NAME,
            b: NAME,
        },
    }
}

fn add_overflows(lines: &mut Vec<Line>, width: u32) -> Result<(), AllocError> {
    lines.push(overflow("uadd.over", Over::Uadd, width))?;
    lines.push(overflow("sadd.over", Over::Sadd, width))?;
    lines.push(overflow("usub.over", Over::Usub, width))?;
    lines.push(overflow("ssub.over", Over::Ssub, width))?;
    lines.push(overflow("umul.over", Over::Umul, width))?;
    lines.push(overflow("smul.over", Over::Smul, width))?;
    Ok(())
}

fn part(name: &'static str, index: u32, width: u32) -> Line {
    Line {
        name,
        of: Goes::Pair,
        op: Op::Part {
            width,
            pair: ValueId(0),
            index,
        },
    }
}

fn add_others(lines: &mut Vec<Line>, width: u32) -> Result<(), AllocError> {
    lines.push(Line {
        name: "select",
        of: Goes::Choice,
        op: Op::Select {
            width,
            c: NAME,
            a: NAME,
            b: NAME,
        },
    })?;
    lines.push(Line {
        name: "freeze",
        of: Goes::Numbers,
        op: Op::Freeze { width, a: NAME },
    })?;
    lines.push(part("extractvalue 0", 0, width))?;
    lines.push(part("extractvalue 1", 1, width))?;
    Ok(())
}

/// The lines of a width.
pub fn lines(alloc: Global, width: u32) -> Result<Vec<Line>, AllocError> {
    let mut lines = Vec::new(alloc);
    add_sums(&mut lines, width)?;
    add_shifts(&mut lines, width)?;
    add_divisions(&mut lines, width)?;
    add_bitwise(&mut lines, width)?;
    add_comparisons(&mut lines, width)?;
    add_conversions(&mut lines, width)?;
    add_extremes(&mut lines, width)?;
    add_counts(&mut lines, width)?;
    add_overflows(&mut lines, width)?;
    add_others(&mut lines, width)?;
    Ok(lines)
}
