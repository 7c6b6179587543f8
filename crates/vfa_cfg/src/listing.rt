//! The edges of a function.

ghost use Rattle.std.specs.Prelude.{◌≡◌, ◌≤◌, ◌+◌, ◌^◌, [], ◌∷◌, ◌++◌, length, IfOk};
ghost use Rattle.vfa_cfg.specs.Edges.{block_edges, case_edges, edges_of};
ghost use Rattle.vfa_cfg.specs.Sizes.{HasFewBlocks};
ghost use Rattle.vfa_ir.specs.PhisFit.{targets};

use std::alloc::{AllocError, Global};
use vfa_ir::{BlockId, Function, Term};

/// When control takes an edge.
#[derive(Clone, Copy, Debug, PartialEq, Eq)]
pub enum Way {
    /// Always: the edge of `br label`.
    Always,
    /// Where the condition of `br i1` is true.
    Yes,
    /// Where it is false.
    No,
    /// Where no case of a `switch` is the number.
    Other,
    /// Where the case of this number is, counted from 0 as written.
    Case(u32),
}

/// An edge of the control flow graph.
#[derive(Clone, Copy, Debug, PartialEq, Eq)]
pub struct Edge {
    /// The block that it leaves.
    pub from: BlockId,
    /// The block that it leads to.
    pub to: BlockId,
    /// When control takes it.
    pub way: Way,
}

fn push_edge(all: &mut Vec<Edge>, from: BlockId, to: BlockId, way: Way) -> Result<(), AllocError>
    ensures { IfOk result (λ _. all.new.items ≡ all.old.items ++ ((record { from = from; to = to; way = way }) ∷ [])) }
{
    all.push(Edge { from, to, way })?;
    Ok(())
}

fn push_cases(
    all: &mut Vec<Edge>,
    from: BlockId,
    cases: &[(u128, BlockId)],
) -> Result<(), AllocError>
    requires { length cases.now ≤ 2 ^ 28 }
    ensures { IfOk result (λ _. all.new.items ≡ all.old.items ++ case_edges from.0 0 cases.now) }
{
    let mut number: u32 = 0;
    'cases: for case in cases {
        push_edge(all, from, case.1, Way::Case(number))?;
        number += 1;
    }
    Ok(())
}

fn push_block(all: &mut Vec<Edge>, from: BlockId, term: &Term) -> Result<(), AllocError>
    requires { length (targets term.now) ≤ 2 ^ 28 + 1 }
    ensures { IfOk result (λ _. all.new.items ≡ all.old.items ++ block_edges from.0 term.now) }
{
    match term {
        Term::Ret { .. } | Term::Unreachable => Ok(()),
        Term::Br(to) => push_edge(all, from, *to, Way::Always),
        Term::CondBr { yes, no, .. } => {
            push_edge(all, from, *yes, Way::Yes)?;
            push_edge(all, from, *no, Way::No)
        }
        Term::Switch { other, cases, .. } => {
            push_edge(all, from, *other, Way::Other)?;
            push_cases(all, from, cases.as_slice())
        }
    }
}

/// All edges of a function, block by block in text order. The edges of one block stand as written: yes before no, the
/// other target of a `switch` before its cases (LLVM Language Reference, "Terminator Instructions").
///
/// An entry that ends in `br i1 %c, label %a, label %b` gives an edge to a by `Yes` and one to b by `No`.
pub fn edges(alloc: Global, f: &Function) -> Result<Vec<Edge>, AllocError>
    requires { HasFewBlocks f.now }
    ensures { IfOk result (λ all. all.items ≡ edges_of f.now) }
{
    let mut all: Vec<Edge> = Vec::new(alloc);
    let mut from: u32 = 0;
    'each: for block in f.blocks.as_slice() {
        push_block(&mut all, BlockId(from), &block.term)?;
        from += 1;
    }
    Ok(all)
}
