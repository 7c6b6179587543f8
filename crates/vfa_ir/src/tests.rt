//! Tests of functions as data: their numbers, operands and words.

use super::*;
use smallvec::SmallVec;
use std::alloc::{AllocError, Global};

fn name(alloc: Global, text: &str) -> Result<Name, AllocError> {
    Name::of(alloc, text.as_bytes())
}

/// `define i8 @f(i8 %x)`: one block, `and i8 %x, 15`, and the return of its result.
fn masked(alloc: Global) -> Result<Function, AllocError> {
    let mut values: Vec<Value> = Vec::new(alloc);
    values.push(Value {
        name: Some(name(alloc, "x")?),
        ty: Ty::Int(8),
    })?;
    values.push(Value {
        name: None,
        ty: Ty::Int(8),
    })?;
    let mut params: Vec<Param> = Vec::new(alloc);
    params.push(Param {
        value: ValueId(0),
        words: Items(Vec::new(alloc)),
    })?;
    let mut insts: Vec<Inst> = Vec::new(alloc);
    insts.push(Inst {
        result: Some(ValueId(1)),
        op: Op::Bin {
            bin: Bin::And,
            flags: Flags {
                nuw: false,
                nsw: false,
                exact: false,
                disjoint: false,
            },
            width: 8,
            a: Operand::Value(ValueId(0)),
            b: Operand::Literal(15),
        },
    })?;
    let mut blocks: Vec<Block> = Vec::new(alloc);
    blocks.push(Block {
        name: None,
        phis: Items(Vec::new(alloc)),
        insts: Items(insts),
        term: Term::Ret {
            width: 8,
            a: Operand::Value(ValueId(1)),
        },
    })?;
    Ok(Function {
        name: name(alloc, "f")?,
        lead: Items(Vec::new(alloc)),
        width: 8,
        params: Items(params),
        tail: Name(Vec::new(alloc)),
        values: Items(values),
        blocks: Items(blocks),
        calls: Items(Vec::new(alloc)),
    })
}

fn literals(f: &Function) -> usize {
    let mut count: usize = 0;
    for block in f.blocks.as_slice() {
        for inst in block.insts.as_slice() {
            if let Op::Bin {
                b: Operand::Literal(_),
                ..
            } = inst.op
            {
                count = count.saturating_add(1);
            }
        }
    }
    count
}

#[test]
fn a_function_is_built_and_read(rt: HostRuntime) {
    let f = masked(rt.alloc()).expect(&rt, "memory");
    assert_eq!(rt; literals(&f), 1);
    assert!(rt;
        matches!(
            f.blocks.0.last().map(|b| &b.term),
            Some(Term::Ret { width: 8, .. })
        )
    );
    let x = name(rt.alloc(), "x").expect(&rt, "memory");
    let again = x.copied(rt.alloc()).expect(&rt, "memory");
    assert!(rt; again.same(&x));
    assert!(rt; !again.same(&f.name));
}

#[test]
fn a_switch_keeps_its_cases(rt: HostRuntime) {
    let mut cases: SmallVec<(u128, BlockId), 4> = SmallVec::new(rt.alloc());
    cases.push((7, BlockId(1))).expect(&rt, "memory");
    let term = Term::Switch {
        width: 8,
        on: Operand::Poison,
        other: BlockId(2),
        cases: Few(cases),
    };
    let Term::Switch { cases, .. } = &term else {
        return;
    };
    assert_eq!(rt; cases.as_slice().len(), 1);
}

fn value_shows(alloc: Global, f: &Function, v: u32, text: &[u8]) -> bool {
    if v as usize >= f.values.as_slice().len() {
        return false;
    }
    match shown_value(alloc, f, ValueId(v)) {
        Ok(name) => name.bytes() == text,
        Err(_) => false,
    }
}

fn block_shows(alloc: Global, f: &Function, b: u32, text: &[u8]) -> bool {
    if b as usize >= f.blocks.as_slice().len() {
        return false;
    }
    match shown_block(alloc, f, BlockId(b)) {
        Ok(name) => name.bytes() == text,
        Err(_) => false,
    }
}

#[test]
fn unnamed_blocks_and_values_share_their_numbers(rt: HostRuntime) {
    let f = masked(rt.alloc()).expect(&rt, "memory");
    assert!(rt; value_shows(rt.alloc(), &f, 0, b"x"));
    assert!(rt; block_shows(rt.alloc(), &f, 0, b"0"));
    assert!(rt; value_shows(rt.alloc(), &f, 1, b"1"));
}

#[test]
fn operands_are_counted_as_written(rt: HostRuntime) {
    let f = masked(rt.alloc()).expect(&rt, "memory");
    let op = Op::Bin {
        bin: Bin::Add,
        flags: Flags {
            nuw: true,
            nsw: false,
            exact: false,
            disjoint: false,
        },
        width: 8,
        a: Operand::Value(ValueId(0)),
        b: Operand::Literal(15),
    };
    assert!(rt; operand(&f, &op, 1) == Some((Ty::Int(8), Operand::Literal(15))));
    assert!(rt; operand(&f, &op, 2).is_none());
    assert!(rt; op.bare() != op);
    assert!(rt; op.bare().bare() == op.bare());
}

#[test]
fn words_stand_for_operations(rt: HostRuntime) {
    assert!(rt; keyword_of(&Bin::ALL, b"xor") == Some(Bin::Xor));
    assert!(rt; keyword_of(&Bin::ALL, b"nor").is_none());
    assert!(rt; is_among(b"fastcc", &CALL_WORDS));
    assert!(rt; !is_among(b"nuw", &CALL_WORDS));
}
