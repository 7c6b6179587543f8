//! `eval` against tables of edge cases, whose results come from whole-number arithmetic elsewhere.

ghost use Rattle.std.specs.Prelude.{◌↔◌, IsTrue};
ghost use Rattle.vfa_word.specs.Numbers.{IsWidth};
ghost use Rattle.vfa_mean.specs.Operands.{IsOperation, AreValuesFor};
ghost use Rattle.vfa_mean.specs.Values.{AreOfWidth, IsInt, IsValueOf};
ghost use Rattle.vfa_ir.specs.Typed.{Converts};
ghost use Rattle.vfa_ir.specs.declared.operations.Ty.{Ty};

mod binary;
mod others;

use self::binary::BINARY;
use self::others::OTHERS;
use super::*;
use crate::numbers::most;
use std::process::Abort;
use std::test::Fail;
use vfa_ir::{Bin, Cast, CastFlags, Flags, Fun1, Fun2, Op, Operand, Over, Pred, ValueId};

/// A line of a table.
#[derive(Drop)]
struct Case<'a> {
    name: &'a str,
    words: &'a str,
    width: u32,
    to: &'a str,
    a: Val,
    b: Val,
    c: Val,
    done: Done,
}

/// The value that a word of a table stands for; poison for `-` too.
fn value_of(word: &str) -> Result<Val, Fail> {
    if word == "poison" || word == "-" {
        return Ok(Val::Poison);
    }
    if let Some(inner) = word.strip_prefix("(") {
        let (number, bit) = inner.split_once(",").ok_or("no pair")?;
        return Ok(Val::Pair(number_of(number)?, bit == "1)"));
    }
    Ok(Val::Number(number_of(word)?))
}

fn number_of(word: &str) -> Result<u128, Fail> {
    if let Some(hex) = word.strip_prefix("0x") {
        return Ok(u128::from_str_radix(hex, 16)?);
    }
    Ok(word.parse::<u128>()?)
}

fn done_of(word: &str, width: u32) -> Result<Done, Fail> {
    if word == "ub" {
        return Ok(Done::Ub);
    }
    if word == "any" {
        return Ok(Done::AnyOf(width));
    }
    Ok(Done::Is(value_of(word)?))
}

fn case_of(line: &str) -> Result<Case<'_>, Fail> {
    let mut words = line.split_whitespace();
    let name = words.next().ok_or("no name")?;
    let flags = words.next().ok_or("no words")?;
    let width = words.next().ok_or("no width")?.parse::<u32>()?;
    let to = words.next().ok_or("no width")?;
    let a = value_of(words.next().ok_or("no operand")?)?;
    let b = value_of(words.next().ok_or("no operand")?)?;
    let c = value_of(words.next().ok_or("no operand")?)?;
    let done = done_of(words.next().ok_or("no result")?, width)?;
    Ok(Case {
        name,
        words: flags,
        width,
        to,
        a,
        b,
        c,
        done,
    })
}

fn bin_of(name: &str) -> Option<Bin> {
    match name {
        "add" => Some(Bin::Add),
        "sub" => Some(Bin::Sub),
        "mul" => Some(Bin::Mul),
        "shl" => Some(Bin::Shl),
        "udiv" => Some(Bin::Udiv),
        "sdiv" => Some(Bin::Sdiv),
        "lshr" => Some(Bin::Lshr),
        "ashr" => Some(Bin::Ashr),
        "urem" => Some(Bin::Urem),
        "srem" => Some(Bin::Srem),
        "and" => Some(Bin::And),
        "or" => Some(Bin::Or),
        "xor" => Some(Bin::Xor),
        _ => None,
    }
}

fn pred_of(name: &str) -> Option<Pred> {
    match name {
        "eq" => Some(Pred::Eq),
        "ne" => Some(Pred::Ne),
        "ugt" => Some(Pred::Ugt),
        "uge" => Some(Pred::Uge),
        "ult" => Some(Pred::Ult),
        "ule" => Some(Pred::Ule),
        "sgt" => Some(Pred::Sgt),
        "sge" => Some(Pred::Sge),
        "slt" => Some(Pred::Slt),
        "sle" => Some(Pred::Sle),
        _ => None,
    }
}

fn cast_of(name: &str) -> Option<Cast> {
    match name {
        "zext" => Some(Cast::Zext),
        "sext" => Some(Cast::Sext),
        "trunc" => Some(Cast::Trunc),
        _ => None,
    }
}

fn fun2_of(name: &str) -> Option<Fun2> {
    match name {
        "umin" => Some(Fun2::Umin),
        "umax" => Some(Fun2::Umax),
        "smin" => Some(Fun2::Smin),
        "smax" => Some(Fun2::Smax),
        "uadd.sat" => Some(Fun2::UaddSat),
        "usub.sat" => Some(Fun2::UsubSat),
        "sadd.sat" => Some(Fun2::SaddSat),
        "ssub.sat" => Some(Fun2::SsubSat),
        _ => None,
    }
}

fn fun1_of(name: &str) -> Option<Fun1> {
    match name {
        "abs" => Some(Fun1::Abs),
        "ctlz" => Some(Fun1::Ctlz),
        "cttz" => Some(Fun1::Cttz),
        "ctpop" => Some(Fun1::Ctpop),
        _ => None,
    }
}

fn over_of(name: &str) -> Option<Over> {
    match name {
        "uadd.over" => Some(Over::Uadd),
        "sadd.over" => Some(Over::Sadd),
        "usub.over" => Some(Over::Usub),
        "ssub.over" => Some(Over::Ssub),
        "umul.over" => Some(Over::Umul),
        "smul.over" => Some(Over::Smul),
        _ => None,
    }
}

/// The operation of a line, where it is an instruction of two numbers.
fn two_numbers_of(case: &Case) -> Option<Op> {
    let width = case.width;
    let a = Operand::Poison;
    let b = Operand::Poison;
    if let Some(bin) = bin_of(case.name) {
        let flags = Flags {
            nuw: case.words.contains("nuw"),
            nsw: case.words.contains("nsw"),
            exact: case.words.contains("exact"),
            disjoint: case.words.contains("disjoint"),
        };
        return Some(Op::Bin {
            bin,
            flags,
            width,
            a,
            b,
        });
    }
    if let Some(pred) = pred_of(case.name) {
        let samesign = case.words.contains("samesign");
        return Some(Op::Icmp {
            pred,
            samesign,
            width,
            a,
            b,
        });
    }
    if let Some(fun) = fun2_of(case.name) {
        return Some(Op::Two { fun, width, a, b });
    }
    let over = over_of(case.name)?;
    Some(Op::Over { over, width, a, b })
}

/// The operation of a line, where it is an instruction of one number.
fn one_number_of(case: &Case) -> Option<Op> {
    let width = case.width;
    let a = Operand::Poison;
    if let Some(cast) = cast_of(case.name) {
        let flags = CastFlags {
            nuw: case.words.contains("nuw"),
            nsw: case.words.contains("nsw"),
            nneg: case.words.contains("nneg"),
        };
        return Some(Op::Cast {
            cast,
            flags,
            from: width,
            to: case.to.parse::<u32>().ok()?,
            a,
        });
    }
    if case.name == "freeze" {
        return Some(Op::Freeze { width, a });
    }
    let fun = fun1_of(case.name)?;
    let strict = case.words.contains("strict");
    Some(Op::One {
        fun,
        width,
        a,
        strict,
    })
}

/// The operation of any other line.
fn other_of(case: &Case) -> Option<Op> {
    let width = case.width;
    let pair = ValueId(0);
    match case.name {
        "select" => Some(Op::Select {
            width,
            c: Operand::Poison,
            a: Operand::Poison,
            b: Operand::Poison,
        }),
        "part.0" => Some(Op::Part {
            width,
            pair,
            index: 0,
        }),
        "part.1" => Some(Op::Part {
            width,
            pair,
            index: 1,
        }),
        "assume" => Some(Op::Assume { c: Operand::Poison }),
        _ => None,
    }
}

fn operation_of(case: &Case) -> Option<Op> {
    two_numbers_of(case)
        .or(one_number_of(case))
        .or(other_of(case))
}

fn is_width(width: u32) -> bool
    ensures { IsTrue result ↔ IsWidth width }
{
    1 <= width && width <= 128
}

fn is_cast(cast: Cast, from: u32, to: u32) -> bool
    ensures { IsTrue result → (IsWidth from × IsWidth to × Converts cast from to) }
{
    if !is_width(from) || !is_width(to) {
        return false;
    }
    match cast {
        Cast::Zext => from < to,
        Cast::Sext => from < to,
        Cast::Trunc => to < from,
    }
}

fn is_operation(op: &Op) -> bool
    ensures { IsTrue result → IsOperation op.now }
{
    match *op {
        Op::Bin { width, .. } => is_width(width),
        Op::Icmp { width, .. } => is_width(width),
        Op::Select { width, .. } => is_width(width),
        Op::Cast { cast, from, to, .. } => is_cast(cast, from, to),
        Op::Freeze { width, .. } => is_width(width),
        Op::Two { width, .. } => is_width(width),
        Op::One { width, .. } => is_width(width),
        Op::Over { width, .. } => is_width(width),
        Op::Part { width, index, .. } => {
            if 1 < index {
                return false;
            }
            is_width(width)
        }
        Op::Assume { .. } => true,
        Op::Call { .. } => false,
    }
}

fn is_int(width: u32, value: Val) -> bool
    requires { IsWidth width }
    ensures { IsTrue result → IsInt width value }
{
    match value {
        Val::Poison => true,
        Val::Number(x) => x <= most(width),
        Val::Pair(_, _) => false,
    }
}

fn is_pair(width: u32, value: Val) -> bool
    requires { IsWidth width }
    ensures { IsTrue result → IsValueOf (Ty.Pair width) value }
{
    match value {
        Val::Poison => true,
        Val::Number(_) => false,
        Val::Pair(x, _) => x <= most(width),
    }
}

fn are_ints(width: u32, a: Val, b: Val) -> bool
    requires { IsWidth width }
    ensures { IsTrue result → AreOfWidth width a b }
{
    if !is_int(width, a) {
        return false;
    }
    is_int(width, b)
}

fn are_arms(width: u32, a: Val, b: Val, c: Val) -> bool
    requires { IsWidth width }
    ensures { IsTrue result → (AreOfWidth width a b × IsInt 1 c) }
{
    if !is_int(1, c) {
        return false;
    }
    are_ints(width, a, b)
}

fn are_values_for(op: &Op, a: Val, b: Val, c: Val) -> bool
    requires { IsOperation op.now }
    ensures { IsTrue result → AreValuesFor op.now a b c }
{
    match *op {
        Op::Bin { width, .. } => are_ints(width, a, b),
        Op::Icmp { width, .. } => are_ints(width, a, b),
        Op::Select { width, .. } => are_arms(width, a, b, c),
        Op::Cast { from, .. } => is_int(from, a),
        Op::Freeze { width, .. } => is_int(width, a),
        Op::Two { width, .. } => are_ints(width, a, b),
        Op::One { width, .. } => is_int(width, a),
        Op::Over { width, .. } => are_ints(width, a, b),
        Op::Part { width, .. } => is_pair(width, c),
        Op::Assume { .. } => is_int(1, c),
        Op::Call { .. } => false,
    }
}

fn check(rt: &impl Abort, line: &str) -> Result<(), Fail> {
    let case = case_of(line)?;
    let op = operation_of(&case).ok_or("no operation")?;
    assert!(rt; is_operation(&op));
    assert!(rt; are_values_for(&op, case.a, case.b, case.c));
    assert_eq!(rt; eval(&op, case.a, case.b, case.c), case.done, "{line}");
    Ok(())
}

#[test]
fn binary_operations(rt: HostRuntime) -> Result<(), Fail> {
    for line in BINARY.lines() {
        check(&rt, line)?;
    }
    Ok(())
}

#[test]
fn other_operations(rt: HostRuntime) -> Result<(), Fail> {
    for line in OTHERS.lines() {
        check(&rt, line)?;
    }
    Ok(())
}
