ghost use Rattle.vfa_cfg.specs.Sizes.{HasFewBlocks};
ghost use Rattle.vfa_check.specs.Within.{IsWithin};

mod refusals;
mod within;

use self::within::is_within;
use crate::scopes::Scopes;
use crate::uses::{MissedUse, undefined_use};
use smallvec::SmallVec;
use std::alloc::{AllocError, Global};
use vfa_cfg::order;
use vfa_ir::{
    Block, BlockId, Few, Function, Inst, Items, Name, Op, Operand, Param, Phi, Term, Ty, Value,
    ValueId,
};

/// `%named = freeze i8 %name`
fn line(named: u32, name: u32) -> Inst {
    Inst {
        result: Some(ValueId(named)),
        op: Op::Freeze {
            width: 8,
            a: Operand::Value(ValueId(name)),
        },
    }
}

fn returned(name: u32) -> Term {
    Term::Ret {
        width: 8,
        a: Operand::Value(ValueId(name)),
    }
}

fn branch(yes: u32, no: u32) -> Term {
    Term::CondBr {
        c: Operand::Poison,
        yes: BlockId(yes),
        no: BlockId(no),
    }
}

fn block(alloc: Global, insts: &[Inst], term: Term) -> Result<Block, AllocError> {
    Ok(Block {
        name: None,
        phis: Items(Vec::new(alloc)),
        insts: Items(insts.to_vec(alloc)?),
        term,
    })
}

/// `%named = phi i8 [ %name, %first ], [ %name, %second ]`
fn phi(alloc: Global, named: u32, name: u32, first: u32, second: u32) -> Result<Phi, AllocError> {
    let mut entries: SmallVec<(Operand, BlockId), 4> = SmallVec::new(alloc);
    entries.push((Operand::Value(ValueId(name)), BlockId(first)))?;
    entries.push((Operand::Value(ValueId(name)), BlockId(second)))?;
    Ok(Phi {
        result: ValueId(named),
        width: 8,
        entries: Few(entries),
    })
}

/// A function with the parameter 0 and so many names.
fn function(alloc: Global, names: u32, blocks: Vec<Block>) -> Result<Function, AllocError> {
    let mut params: Vec<Param> = Vec::new(alloc);
    params.push(Param {
        value: ValueId(0),
        words: Items(Vec::new(alloc)),
    })?;
    let mut values: Vec<Value> = Vec::new(alloc);
    for _ in 0..names {
        values.push(Value {
            name: None,
            ty: Ty::Int(8),
        })?;
    }
    Ok(Function {
        name: Name::of(alloc, b"f")?,
        lead: Items(Vec::new(alloc)),
        width: 8,
        params: Items(params),
        tail: Name(Vec::new(alloc)),
        values: Items(values),
        blocks: Items(blocks),
        calls: Items(Vec::new(alloc)),
    })
}

fn missed(alloc: Global, f: &Function) -> Result<Option<MissedUse>, AllocError>
    requires within { IsWithin f.now }
    requires few { HasFewBlocks f.now }
{
    let order = order(alloc, f)?;
    let scopes = Scopes::of(alloc, f, order.as_slice())?;
    undefined_use(f, &scopes)
}

fn use_at(name: u32, block: u32) -> Option<MissedUse> {
    Some(MissedUse {
        name: ValueId(name),
        block: BlockId(block),
    })
}

/// Block 0 branches to 1, which defines the name 1, and to 2; both go on to the last block, 3.
fn diamond(alloc: Global, last: Block) -> Result<Function, AllocError> {
    let mut blocks: Vec<Block> = Vec::new(alloc);
    blocks.push(block(alloc, &[], branch(1, 2))?)?;
    blocks.push(block(alloc, &[line(1, 0)], Term::Br(BlockId(3)))?)?;
    blocks.push(block(alloc, &[], Term::Br(BlockId(3)))?)?;
    blocks.push(last)?;
    function(alloc, 3, blocks)
}

#[test]
fn a_name_of_one_of_two_ways_is_missed_where_they_meet(rt: HostRuntime) {
    let alloc = rt.alloc();
    let last = block(alloc, &[], returned(1)).expect(&rt, "memory");
    let f = diamond(alloc, last).expect(&rt, "memory");
    assert!(rt; is_within(&f));
    let order = order(alloc, &f).expect(&rt, "memory");
    let scopes = Scopes::of(alloc, &f, order.as_slice()).expect(&rt, "memory");
    assert!(rt; scopes.defined(BlockId(3), ValueId(0)));
    assert!(rt; !scopes.defined(BlockId(3), ValueId(1)));
    assert!(rt; !scopes.defined(BlockId(1), ValueId(1)));
    assert!(rt; scopes.defined_behind(BlockId(1), ValueId(1)));
    let missed = undefined_use(&f, &scopes).expect(&rt, "memory");
    assert!(rt; missed == use_at(1, 3));
}

#[test]
fn the_operand_of_a_phi_is_used_in_its_predecessor(rt: HostRuntime) {
    let alloc = rt.alloc();
    let mut last = block(alloc, &[], returned(2)).expect(&rt, "memory");
    let phi = phi(alloc, 2, 1, 1, 2).expect(&rt, "memory");
    last.phis.0.push(phi).expect(&rt, "memory");
    let f = diamond(alloc, last).expect(&rt, "memory");
    assert!(rt; is_within(&f));
    assert!(rt; missed(alloc, &f).expect(&rt, "memory") == use_at(1, 2));
}

/// Block 0 goes on to 1, which uses a name and goes on to 2; 2 defines the name 1 and goes back to 1 or ends. Block 3, to
/// which no walk comes, returns the name 1.
fn loops(alloc: Global, used: u32) -> Result<Function, AllocError> {
    let mut blocks: Vec<Block> = Vec::new(alloc);
    blocks.push(block(alloc, &[], Term::Br(BlockId(1)))?)?;
    blocks.push(block(alloc, &[line(2, used)], Term::Br(BlockId(2)))?)?;
    blocks.push(block(alloc, &[line(1, 2)], branch(1, 4))?)?;
    blocks.push(block(alloc, &[], returned(1))?)?;
    blocks.push(block(alloc, &[], returned(1))?)?;
    function(alloc, 3, blocks)
}

#[test]
fn a_name_of_the_round_before_is_missed_in_the_first(rt: HostRuntime) {
    let alloc = rt.alloc();
    let f = loops(alloc, 1).expect(&rt, "memory");
    assert!(rt; is_within(&f));
    assert!(rt; missed(alloc, &f).expect(&rt, "memory") == use_at(1, 1));
    let f = loops(alloc, 2).expect(&rt, "memory");
    assert!(rt; is_within(&f));
    assert!(rt; missed(alloc, &f).expect(&rt, "memory") == use_at(2, 1));
    let f = loops(alloc, 0).expect(&rt, "memory");
    assert!(rt; is_within(&f));
    assert!(rt; missed(alloc, &f).expect(&rt, "memory") == None);
}
