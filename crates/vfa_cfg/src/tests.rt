ghost use Rattle.std.specs.Prelude.{◌≤◌, ◌+◌, ◌^◌, IsTrue, length};
ghost use Rattle.vfa_cfg.specs.Sizes.{HasFewBlocks};
ghost use Rattle.vfa_ir.specs.PhisFit.{targets};

use super::*;
use std::alloc::{AllocError, Global};
use vfa_ir::{Block, BlockId, Function, Items, Name, Operand, Term};

fn block(alloc: Global, term: Term) -> Block {
    Block {
        name: None,
        phis: Items(Vec::new(alloc)),
        insts: Items(Vec::new(alloc)),
        term,
    }
}

fn branch(yes: u32, no: u32) -> Term {
    Term::CondBr {
        c: Operand::Poison,
        yes: BlockId(yes),
        no: BlockId(no),
    }
}

fn function(alloc: Global, blocks: Vec<Block>) -> Result<Function, AllocError> {
    Ok(Function {
        name: Name::of(alloc, b"f")?,
        lead: Items(Vec::new(alloc)),
        width: 1,
        params: Items(Vec::new(alloc)),
        tail: Name(Vec::new(alloc)),
        values: Items(Vec::new(alloc)),
        blocks: Items(blocks),
        calls: Items(Vec::new(alloc)),
    })
}

/// Block 0 branches to 1 and 2, which go on to 3; 3 branches to itself and to 1. No edge comes to 4.
fn crossing(alloc: Global) -> Result<Function, AllocError> {
    let mut blocks: Vec<Block> = Vec::new(alloc);
    blocks.push(block(alloc, branch(1, 2)))?;
    blocks.push(block(alloc, Term::Br(BlockId(3))))?;
    blocks.push(block(alloc, Term::Br(BlockId(3))))?;
    blocks.push(block(alloc, branch(3, 1)))?;
    blocks.push(block(alloc, Term::Br(BlockId(1))))?;
    function(alloc, blocks)
}

fn has_two_targets(term: &Term) -> bool
    ensures { IsTrue result → length (targets term.now) ≤ 2 }
{
    match term {
        Term::Switch { .. } => false,
        _ => true,
    }
}

fn is_small(f: &Function) -> bool
    ensures { IsTrue result → HasFewBlocks f.now }
{
    'each: for block in f.blocks.as_slice() {
        if !has_two_targets(&block.term) {
            return false;
        }
    }
    f.blocks.as_slice().len() < 9
}

#[test]
fn a_loop_is_entered_at_its_head(rt: HostRuntime) {
    let f = crossing(rt.alloc()).expect(&rt, "memory");
    assert!(rt; is_small(&f));
    let order = order(rt.alloc(), &f).expect(&rt, "memory");
    let numbers = [BlockId(0), BlockId(2), BlockId(1), BlockId(3)];
    assert!(rt; order.as_slice() == numbers.as_slice());
    let heads = heads(rt.alloc(), &f, order.as_slice()).expect(&rt, "memory");
    assert!(rt; heads.as_slice() == [false, false, true, true].as_slice());
    let edges = edges(rt.alloc(), &f).expect(&rt, "memory");
    let back = Edge {
        from: BlockId(3),
        to: BlockId(1),
        way: Way::No,
    };
    assert_eq!(rt; edges.len(), 7);
    assert!(rt; edges.get(5) == Some(&back));
}
