//! Texts worked out by hand.
use crate::names::push_name;
use crate::printing::text_of;
use smallvec::SmallVec;
use std::alloc::{AllocError, Global};
use std::process::Abort;
use std::test::Fail;
use vfa_ir::{
    Bin, Block, BlockId, CallArg, CallOp, Cast, CastFlags, Few, Flags, Fun1, Fun2, Function, Inst,
    Items, Name, Op, Operand, Over, Param, Phi, Pred, Term, Ty, Value, ValueId,
};

const PLAIN: Flags = Flags {
    nuw: false,
    nsw: false,
    exact: false,
    disjoint: false,
};

const PLAIN_CAST: CastFlags = CastFlags {
    nuw: false,
    nsw: false,
    nneg: false,
};

fn name(alloc: Global, text: &[u8]) -> Result<Option<Name>, AllocError> {
    if text.is_empty() {
        return Ok(None);
    }
    Ok(Some(Name::of(alloc, text)?))
}

fn values(alloc: Global, all: &[(&[u8], Ty)]) -> Result<Items<Value>, AllocError> {
    let mut values: Vec<Value> = Vec::new(alloc);
    'all: for (text, ty) in all {
        values.push(Value {
            name: name(alloc, text)?,
            ty: *ty,
        })?;
    }
    Ok(Items(values))
}

fn block(
    alloc: Global,
    label: &[u8],
    insts: &[(Option<ValueId>, Op)],
    term: Term,
) -> Result<Block, AllocError> {
    let mut all: Vec<Inst> = Vec::new(alloc);
    'insts: for (result, op) in insts {
        all.push(Inst {
            result: *result,
            op: *op,
        })?;
    }
    Ok(Block {
        name: name(alloc, label)?,
        phis: Items(Vec::new(alloc)),
        insts: Items(all),
        term,
    })
}

// A function of one parameter, the value 0.
fn function(
    alloc: Global,
    called: &[u8],
    width: u32,
    values: Items<Value>,
    blocks: Vec<Block>,
) -> Result<Function, AllocError> {
    let mut params: Vec<Param> = Vec::new(alloc);
    params.push(Param {
        value: ValueId(0),
        words: Items(Vec::new(alloc)),
    })?;
    Ok(Function {
        name: Name::of(alloc, called)?,
        lead: Items(Vec::new(alloc)),
        width,
        params: Items(params),
        tail: Name(Vec::new(alloc)),
        values,
        blocks: Items(blocks),
        calls: Items(Vec::new(alloc)),
    })
}

fn value(v: u32) -> Operand {
    Operand::Value(ValueId(v))
}

fn sum(flags: Flags, a: Operand, b: Operand) -> Op {
    Op::Bin {
        bin: Bin::Add,
        flags,
        width: 8,
        a,
        b,
    }
}

// One block that returns the value 1.
fn one_line(
    alloc: Global,
    called: &[u8],
    names: [&[u8]; 2],
    label: &[u8],
    op: Op,
) -> Result<Function, AllocError> {
    let values = values(alloc, &[(names[0], Ty::Int(8)), (names[1], Ty::Int(8))])?;
    let term = Term::Ret {
        width: 8,
        a: value(1),
    };
    let mut blocks: Vec<Block> = Vec::new(alloc);
    blocks.push(block(alloc, label, &[(Some(ValueId(1)), op)], term)?)?;
    function(alloc, called, 8, values, blocks)
}

fn check_text<R: AllocGlobal + Abort>(rt: &R, f: &Function, want: &[u8]) -> Result<(), Fail> {
    let text = text_of(rt.alloc(), f)?;
    assert_eq!(rt; text.as_slice(), want);
    Ok(())
}

#[test]
fn one_block(rt: HostRuntime) -> Result<(), Fail> {
    let op = Op::Bin {
        bin: Bin::And,
        flags: PLAIN,
        width: 8,
        a: value(0),
        b: Operand::Literal(15),
    };
    let f = one_line(rt.alloc(), b"f", [b"x", b"a"], b"entry", op)?;
    let want = b"define i8 @f(i8 %x) {\nentry:\n  %a = and i8 %x, 15\n  ret i8 %a\n}";
    check_text(&rt, &f, want)
}

#[test]
fn without_names(rt: HostRuntime) -> Result<(), Fail> {
    let flags = Flags {
        nuw: true,
        nsw: true,
        exact: false,
        disjoint: false,
    };
    let f = one_line(
        rt.alloc(),
        b"\"",
        [b"", b""],
        b"",
        sum(flags, value(0), Operand::Literal(255)),
    )?;
    let want = b"define i8 @\"\\22\"(i8 %0) {\n  %2 = add nuw nsw i8 %0, -1\n  ret i8 %2\n}";
    check_text(&rt, &f, want)
}

#[test]
fn names_in_quotes(rt: HostRuntime) -> Result<(), Fail> {
    let op = Op::One {
        fun: Fun1::Ctlz,
        width: 8,
        a: value(0),
        strict: true,
    };
    let f = one_line(rt.alloc(), b"g", [b"a b", b"-"], b"1x", op)?;
    let want =
        b"define i8 @g(i8 %\"a b\") {\n\"1x\":\n  %- = call i8 @llvm.ctlz.i8(i8 %\"a b\", i1 true)\n  ret i8 %-\n}";
    check_text(&rt, &f, want)?;
    let mut text: Vec<u8> = Vec::new(rt.alloc());
    push_name(&mut text, b"a\\\n\xff")?;
    let want: &[u8] = b"\"a\\5C\\0A\\FF\"";
    assert_eq!(rt; text.as_slice(), want);
    Ok(())
}

// Each operation once, with the lines that it is to be written on.
const LINES: &[u8] = b"define i1 @f(i8 %x) {
entry:
  %c = icmp slt i8 %x, -128
  %s = select i1 %c, i8 %x, i8 127
  %z = zext i8 %s to i128
  %q = sdiv exact i128 %z, -170141183460469231731687303715884105728
  %u = freeze i8 poison
  %m = call i8 @llvm.uadd.sat.i8(i8 %x, i8 1)
  %p = call { i8, i1 } @llvm.uadd.with.overflow.i8(i8 %m, i8 1)
  %o = extractvalue { i8, i1 } %p, 1
  call void @llvm.assume(i1 %o)
  %n = call i8 @llvm.ctpop.i8(i8 %x)
  %t = xor i1 %o, true
  ret i1 %t
}";

fn comparisons(alloc: Global) -> Result<Vec<(Option<ValueId>, Op)>, AllocError> {
    let mut insts: Vec<(Option<ValueId>, Op)> = Vec::new(alloc);
    insts.push((
        Some(ValueId(1)),
        Op::Icmp {
            pred: Pred::Slt,
            samesign: false,
            width: 8,
            a: value(0),
            b: Operand::Literal(128),
        },
    ))?;
    insts.push((
        Some(ValueId(2)),
        Op::Select {
            width: 8,
            c: value(1),
            a: value(0),
            b: Operand::Literal(127),
        },
    ))?;
    insts.push((
        Some(ValueId(3)),
        Op::Cast {
            cast: Cast::Zext,
            flags: PLAIN_CAST,
            from: 8,
            to: 128,
            a: value(2),
        },
    ))?;
    let flags = Flags {
        nuw: false,
        nsw: false,
        exact: true,
        disjoint: false,
    };
    insts.push((
        Some(ValueId(4)),
        Op::Bin {
            bin: Bin::Sdiv,
            flags,
            width: 128,
            a: value(3),
            b: Operand::Literal(1_u128 << 127),
        },
    ))?;
    insts.push((
        Some(ValueId(5)),
        Op::Freeze {
            width: 8,
            a: Operand::Poison,
        },
    ))?;
    Ok(insts)
}

fn intrinsics(
    mut insts: Vec<(Option<ValueId>, Op)>,
) -> Result<Vec<(Option<ValueId>, Op)>, AllocError> {
    insts.push((
        Some(ValueId(6)),
        Op::Two {
            fun: Fun2::UaddSat,
            width: 8,
            a: value(0),
            b: Operand::Literal(1),
        },
    ))?;
    insts.push((
        Some(ValueId(7)),
        Op::Over {
            over: Over::Uadd,
            width: 8,
            a: value(6),
            b: Operand::Literal(1),
        },
    ))?;
    insts.push((
        Some(ValueId(8)),
        Op::Part {
            width: 8,
            pair: ValueId(7),
            index: 1,
        },
    ))?;
    insts.push((None, Op::Assume { c: value(8) }))?;
    insts.push((
        Some(ValueId(9)),
        Op::One {
            fun: Fun1::Ctpop,
            width: 8,
            a: value(0),
            strict: false,
        },
    ))?;
    insts.push((
        Some(ValueId(10)),
        Op::Bin {
            bin: Bin::Xor,
            flags: PLAIN,
            width: 1,
            a: value(8),
            b: Operand::Literal(1),
        },
    ))?;
    Ok(insts)
}

#[test]
fn each_operation(rt: HostRuntime) -> Result<(), Fail> {
    let alloc = rt.alloc();
    let all: [(&[u8], Ty); 11] = [
        (b"x", Ty::Int(8)),
        (b"c", Ty::Int(1)),
        (b"s", Ty::Int(8)),
        (b"z", Ty::Int(128)),
        (b"q", Ty::Int(128)),
        (b"u", Ty::Int(8)),
        (b"m", Ty::Int(8)),
        (b"p", Ty::Pair(8)),
        (b"o", Ty::Int(1)),
        (b"n", Ty::Int(8)),
        (b"t", Ty::Int(1)),
    ];
    let insts = intrinsics(comparisons(alloc)?)?;
    let term = Term::Ret {
        width: 1,
        a: value(10),
    };
    let mut blocks: Vec<Block> = Vec::new(alloc);
    blocks.push(block(alloc, b"entry", &insts, term)?)?;
    let f = function(alloc, b"f", 1, values(alloc, &all)?, blocks)?;
    check_text(&rt, &f, LINES)
}

// A switch, both forms of `br`, a phi and `unreachable`, over numbered blocks and values.
const BRANCHES: &[u8] = b"define i8 @f(i8 %0) {
  switch i8 %0, label %2 [
    i8 0, label %3
    i8 -1, label %4
  ]

2:
  br label %4

3:
  br i1 true, label %4, label %6

4:
  %5 = phi i8 [ %0, %2 ], [ 3, %3 ]
  ret i8 %5

6:
  unreachable
}";

fn joined(alloc: Global) -> Result<Block, AllocError> {
    let mut entries: SmallVec<(Operand, BlockId), 4> = SmallVec::new(alloc);
    entries.push((value(0), BlockId(1)))?;
    entries.push((Operand::Literal(3), BlockId(2)))?;
    let mut phis: Vec<Phi> = Vec::new(alloc);
    phis.push(Phi {
        result: ValueId(1),
        width: 8,
        entries: Few(entries),
    })?;
    Ok(Block {
        name: None,
        phis: Items(phis),
        insts: Items(Vec::new(alloc)),
        term: Term::Ret {
            width: 8,
            a: value(1),
        },
    })
}

fn branches(alloc: Global) -> Result<Vec<Block>, AllocError> {
    let mut cases: SmallVec<(u128, BlockId), 4> = SmallVec::new(alloc);
    cases.push((0, BlockId(2)))?;
    cases.push((255, BlockId(3)))?;
    let mut blocks: Vec<Block> = Vec::new(alloc);
    let switch = Term::Switch {
        width: 8,
        on: value(0),
        other: BlockId(1),
        cases: Few(cases),
    };
    blocks.push(block(alloc, b"", &[], switch)?)?;
    blocks.push(block(alloc, b"", &[], Term::Br(BlockId(3)))?)?;
    let condition = Term::CondBr {
        c: Operand::Literal(1),
        yes: BlockId(3),
        no: BlockId(4),
    };
    blocks.push(block(alloc, b"", &[], condition)?)?;
    blocks.push(joined(alloc)?)?;
    blocks.push(block(alloc, b"", &[], Term::Unreachable)?)?;
    Ok(blocks)
}

#[test]
fn each_terminator(rt: HostRuntime) -> Result<(), Fail> {
    let alloc = rt.alloc();
    let values = values(alloc, &[(b"", Ty::Int(8)), (b"", Ty::Int(8))])?;
    let f = function(alloc, b"f", 8, values, branches(alloc)?)?;
    check_text(&rt, &f, BRANCHES)
}

// The newer flags, and calls with words and without.
const CALLS: &[u8] = b"define i8 @f(i8 %x) {
entry:
  %d = or disjoint i8 %x, 1
  %c = icmp samesign ult i8 %d, 10
  %w = zext nneg i8 %d to i16
  %h = trunc nuw nsw i16 %w to i8
  %r = call i8 @g(i8 %x, i8 1)
  call void @h()
  %s = call fastcc noundef i16 @\"a b\"(i8 noundef zeroext %h, i16 poison)
  ret i8 %r
}";

fn newer_flags(alloc: Global) -> Result<Vec<(Option<ValueId>, Op)>, AllocError> {
    let mut insts: Vec<(Option<ValueId>, Op)> = Vec::new(alloc);
    insts.push((
        Some(ValueId(1)),
        Op::Bin {
            bin: Bin::Or,
            flags: Flags {
                nuw: false,
                nsw: false,
                exact: false,
                disjoint: true,
            },
            width: 8,
            a: value(0),
            b: Operand::Literal(1),
        },
    ))?;
    insts.push((
        Some(ValueId(2)),
        Op::Icmp {
            pred: Pred::Ult,
            samesign: true,
            width: 8,
            a: value(1),
            b: Operand::Literal(10),
        },
    ))?;
    insts.push((
        Some(ValueId(3)),
        Op::Cast {
            cast: Cast::Zext,
            flags: CastFlags {
                nuw: false,
                nsw: false,
                nneg: true,
            },
            from: 8,
            to: 16,
            a: value(1),
        },
    ))?;
    insts.push((
        Some(ValueId(4)),
        Op::Cast {
            cast: Cast::Trunc,
            flags: CastFlags {
                nuw: true,
                nsw: true,
                nneg: false,
            },
            from: 16,
            to: 8,
            a: value(3),
        },
    ))?;
    Ok(insts)
}

fn words(alloc: Global, all: &[&[u8]]) -> Result<Items<Name>, AllocError> {
    let mut words: Vec<Name> = Vec::new(alloc);
    'all: for word in all {
        words.push(Name::of(alloc, word)?)?;
    }
    Ok(Items(words))
}

fn call(
    alloc: Global,
    callee: &[u8],
    words: Items<Name>,
    args: Vec<CallArg>,
) -> Result<CallOp, AllocError> {
    Ok(CallOp {
        callee: Name::of(alloc, callee)?,
        words,
        args: Items(args),
    })
}

fn arg(alloc: Global, width: u32, all: &[&[u8]], passed: Operand) -> Result<CallArg, AllocError> {
    Ok(CallArg {
        width,
        words: words(alloc, all)?,
        value: passed,
    })
}

fn three_calls(alloc: Global) -> Result<Items<CallOp>, AllocError> {
    let mut first: Vec<CallArg> = Vec::new(alloc);
    first.push(arg(alloc, 8, &[], value(0))?)?;
    first.push(arg(alloc, 8, &[], Operand::Literal(1))?)?;
    let mut last: Vec<CallArg> = Vec::new(alloc);
    last.push(arg(alloc, 8, &[b"noundef", b"zeroext"], value(4))?)?;
    last.push(arg(alloc, 16, &[], Operand::Poison)?)?;
    let mut calls: Vec<CallOp> = Vec::new(alloc);
    calls.push(call(alloc, b"g", words(alloc, &[])?, first)?)?;
    calls.push(call(alloc, b"h", words(alloc, &[])?, Vec::new(alloc))?)?;
    let attributes = words(alloc, &[b"fastcc", b"noundef"])?;
    calls.push(call(alloc, b"a b", attributes, last)?)?;
    Ok(Items(calls))
}

#[test]
fn newer_flags_and_calls(rt: HostRuntime) -> Result<(), Fail> {
    let alloc = rt.alloc();
    let all: [(&[u8], Ty); 7] = [
        (b"x", Ty::Int(8)),
        (b"d", Ty::Int(8)),
        (b"c", Ty::Int(1)),
        (b"w", Ty::Int(16)),
        (b"h", Ty::Int(8)),
        (b"r", Ty::Int(8)),
        (b"s", Ty::Int(16)),
    ];
    let mut insts = newer_flags(alloc)?;
    insts.push((
        Some(ValueId(5)),
        Op::Call {
            width: Some(8),
            call: 0,
        },
    ))?;
    insts.push((
        None,
        Op::Call {
            width: None,
            call: 1,
        },
    ))?;
    insts.push((
        Some(ValueId(6)),
        Op::Call {
            width: Some(16),
            call: 2,
        },
    ))?;
    let term = Term::Ret {
        width: 8,
        a: value(5),
    };
    let mut blocks: Vec<Block> = Vec::new(alloc);
    blocks.push(block(alloc, b"entry", &insts, term)?)?;
    let mut f = function(alloc, b"f", 8, values(alloc, &all)?, blocks)?;
    f.calls = three_calls(alloc)?;
    check_text(&rt, &f, CALLS)
}
