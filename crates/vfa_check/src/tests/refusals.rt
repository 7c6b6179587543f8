//! The reason, line, block and name of each refusal, on functions made by hand.

ghost use Rattle.std.specs.Prelude.{◌≡◌, IfOk, length};
ghost use Rattle.vfa_cfg.specs.Sizes.{HasFewBlocks};
ghost use Rattle.vfa_check.specs.Items.{HasItsLines};
ghost use Rattle.vfa_check.specs.Within.{IsWithin};

use super::{block, branch, function, is_within, line, phi, returned};
use crate::checking::{Parts, parts_of};
use smallvec::SmallVec;
use std::alloc::{AllocError, Global};
use vfa_ir::{
    Block, BlockId, Cast, CastFlags, Few, Function, Inst, Items, Lines, Name, Op, Operand, Outside,
    Term, ValueId,
};

/// So many lines, two apart.
fn row(alloc: Global, first: u32, count: usize) -> Result<Items<u32>, AllocError>
    ensures { IfOk result (λ row. length row ≡ count) }
{
    let mut row = vec![in alloc; first; count]?;
    let mut at = first;
    'items: for line in row.iter_mut() {
        *line = at;
        at = at.wrapping_add(2);
    }
    Ok(Items(row))
}

/// Lines for the items of each block: those of block b are 100 b, 100 b + 2 and so on.
fn lines_for(alloc: Global, f: &Function) -> Result<Lines, AllocError>
    ensures { IfOk result (HasItsLines f.now) }
{
    let mut of: Vec<Items<u32>> = Vec::new(alloc);
    let mut first: u32 = 0;
    'each: for block in f.blocks.as_slice() {
        let count = block.phis.as_slice().len() + block.insts.as_slice().len() + 1;
        of.push(row(alloc, first, count)?)?;
        first = first.wrapping_add(100);
    }
    Ok(Lines { of: Items(of) })
}

fn outcome(alloc: Global, f: &Function) -> Result<Parts, Outside>
    requires within { IsWithin f.now }
    requires few { HasFewBlocks f.now }
{
    let lines = lines_for(alloc, f)?;
    parts_of(alloc, f, &lines)
}

/// The line of an ill-typed item; 1 for another outcome.
fn ill_typed(outcome: Result<Parts, Outside>) -> u32 {
    match outcome {
        Err(Outside::Types(line)) => line,
        _ => 1,
    }
}

fn is_misfit(outcome: Result<Parts, Outside>, text: &[u8]) -> bool {
    match outcome {
        Err(Outside::Phi(name)) => name.bytes() == text,
        _ => false,
    }
}

fn is_undefined(outcome: Result<Parts, Outside>, text: &[u8], at: &[u8]) -> bool {
    match outcome {
        Err(Outside::Undefined(name, block)) => name.bytes() == text && block.bytes() == at,
        _ => false,
    }
}

fn cast(cast: Cast, from: u32, to: u32) -> Op {
    Op::Cast {
        cast,
        flags: CastFlags::default(),
        from,
        to,
        a: Operand::Value(ValueId(0)),
    }
}

fn defines(named: u32, op: Op) -> Inst {
    Inst {
        result: Some(ValueId(named)),
        op,
    }
}

/// A block of three instructions, the first of which is well typed.
fn three(alloc: Global, second: Op, third: Op, term: Term) -> Result<Function, AllocError> {
    let mut blocks: Vec<Block> = Vec::new(alloc);
    let insts = [line(1, 0), defines(2, second), defines(3, third)];
    blocks.push(block(alloc, &insts, term)?)?;
    function(alloc, 4, blocks)
}

fn switch(alloc: Global, first: u128, second: u128) -> Result<Term, AllocError> {
    let mut cases: SmallVec<(u128, BlockId), 4> = SmallVec::new(alloc);
    cases.push((first, BlockId(0)))?;
    cases.push((second, BlockId(0)))?;
    Ok(Term::Switch {
        width: 8,
        on: Operand::Value(ValueId(0)),
        other: BlockId(0),
        cases: Few(cases),
    })
}

#[test]
fn the_first_ill_typed_item_is_refused_by_its_line(rt: HostRuntime) {
    let alloc = rt.alloc();
    let good = Op::Freeze {
        width: 8,
        a: Operand::Poison,
    };
    let wide = Op::Freeze {
        width: 9,
        a: Operand::Value(ValueId(0)),
    };
    let part = Op::Part {
        width: 8,
        pair: ValueId(0),
        index: 0,
    };
    let same = cast(Cast::Zext, 8, 8);
    let f = three(alloc, wide, part, returned(0)).expect(&rt, "memory");
    assert!(rt; is_within(&f));
    assert_eq!(rt; ill_typed(outcome(alloc, &f)), 2);
    let f = three(alloc, good, part, returned(0)).expect(&rt, "memory");
    assert!(rt; is_within(&f));
    assert_eq!(rt; ill_typed(outcome(alloc, &f)), 4);
    let f = three(alloc, same, good, returned(0)).expect(&rt, "memory");
    assert!(rt; is_within(&f));
    assert_eq!(rt; ill_typed(outcome(alloc, &f)), 2);
}

#[test]
fn a_terminator_is_refused_behind_its_block(rt: HostRuntime) {
    let alloc = rt.alloc();
    let good = cast(Cast::Sext, 8, 9);
    let narrow = Term::Ret {
        width: 7,
        a: Operand::Poison,
    };
    let f = three(alloc, good, good, narrow).expect(&rt, "memory");
    assert!(rt; is_within(&f));
    assert_eq!(rt; ill_typed(outcome(alloc, &f)), 6);
    let equal = switch(alloc, 3, 3).expect(&rt, "memory");
    let f = three(alloc, good, good, equal).expect(&rt, "memory");
    assert!(rt; is_within(&f));
    assert_eq!(rt; ill_typed(outcome(alloc, &f)), 6);
    let apart = switch(alloc, 3, 4).expect(&rt, "memory");
    let f = three(alloc, good, good, apart).expect(&rt, "memory");
    assert!(rt; is_within(&f));
    assert!(rt; is_misfit(outcome(alloc, &f), b"1"));
}

/// Block 0 branches to 1 and 2, which go on to 3, where a phi takes the parameter from two blocks.
fn joined(alloc: Global, first: u32, second: u32, back: u32) -> Result<Function, AllocError> {
    let mut blocks: Vec<Block> = Vec::new(alloc);
    blocks.push(block(alloc, &[], branch(1, 2))?)?;
    blocks.push(block(alloc, &[], Term::Br(BlockId(3)))?)?;
    blocks.push(block(alloc, &[line(2, 1)], Term::Br(BlockId(back)))?)?;
    let mut last = block(alloc, &[], returned(1))?;
    last.name = Some(Name::of(alloc, b"last")?);
    last.phis.0.push(phi(alloc, 1, 0, first, second)?)?;
    blocks.push(last)?;
    function(alloc, 3, blocks)
}

#[test]
fn phis_name_each_predecessor_once(rt: HostRuntime) {
    let alloc = rt.alloc();
    let lacks = joined(alloc, 1, 1, 3).expect(&rt, "memory");
    assert!(rt; is_within(&lacks));
    assert!(rt; is_misfit(outcome(alloc, &lacks), b"last"));
    let more = joined(alloc, 1, 0, 3).expect(&rt, "memory");
    assert!(rt; is_within(&more));
    assert!(rt; is_misfit(outcome(alloc, &more), b"last"));
    let entered = joined(alloc, 1, 2, 0).expect(&rt, "memory");
    assert!(rt; is_within(&entered));
    assert!(rt; is_misfit(outcome(alloc, &entered), b"1"));
}

#[test]
fn a_name_is_refused_with_the_block_of_its_use(rt: HostRuntime) {
    let alloc = rt.alloc();
    let f = joined(alloc, 1, 2, 3).expect(&rt, "memory");
    assert!(rt; is_within(&f));
    assert!(rt; is_undefined(outcome(alloc, &f), b"5", b"3"));
}

#[test]
fn types_come_before_phis_and_phis_before_names(rt: HostRuntime) {
    let alloc = rt.alloc();
    let mut f = joined(alloc, 1, 1, 3).expect(&rt, "memory");
    f.width = 9;
    assert!(rt; is_within(&f));
    assert_eq!(rt; ill_typed(outcome(alloc, &f)), 302);
}
