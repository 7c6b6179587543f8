//! A terminator with the operand that is put in place of its own, and the edges that a run may take.

ghost use Rattle.std.specs.Prelude.{◌≡◌, IfOk, Some, false, slice_index_or, true};
ghost use Rattle.vfa_cond.specs.States.{known};
ghost use Rattle.std.specs.Option.{option_map};
ghost use Rattle.vfa_rewrite.specs.Putting.{IsNamedTerm, MayPut, put_by};
ghost use Rattle.vfa_rewrite.specs.Rewritten.{cases_left, many_ways, one_way, shrunk, two_ways};

use crate::putting_operands::put;
use smallvec::SmallVec;
use std::alloc::{AllocError, Global};
use vfa_cond::State;
use vfa_ir::{BlockId, Few, Function, Operand, Term};
use vfa_xfer::AnyFact;

/// Whether a run may take the edge of this number.
pub(crate) fn has_left(left: &[bool], k: usize) -> bool
    ensures { result ≡ slice_index_or left.now k false }
{
    left.get(k).copied().unwrap_or(false)
}

/// Where a branch that always goes one way goes.
fn one_way(is_left: bool, to: BlockId) -> Term
    ensures { result ≡ one_way is_left to }
{
    if is_left {
        return Term::Br(to);
    }
    Term::Unreachable
}

/// Where a branch by a condition goes.
fn two_ways(yes_left: bool, no_left: bool, c: Operand, yes: BlockId, no: BlockId) -> Term
    ensures { result ≡ two_ways yes_left no_left c yes no }
{
    match (yes_left, no_left) {
        (true, true) => Term::CondBr { c, yes, no },
        (true, false) => Term::Br(yes),
        (false, true) => Term::Br(no),
        (false, false) => Term::Unreachable,
    }
}

/// The cases whose edges are left.
fn cases_left(
    alloc: Global,
    left: &[bool],
    cases: &[(u128, BlockId)],
) -> Result<SmallVec<(u128, BlockId), 4>, AllocError>
    ensures { IfOk result (λ all. all.items ≡ cases_left (λ k. slice_index_or left.now k false) 1 cases.now) }
{
    let mut all: SmallVec<(u128, BlockId), 4> = SmallVec::new(alloc);
    'each: for k in 0..cases.len() {
        if !has_left(left, k + 1) {
            continue;
        }
        all.push(cases[k])?;
    }
    Ok(all)
}

/// A switch of these cases, whose other edge is left.
fn with_other(width: u32, on: Operand, other: BlockId, cases: SmallVec<(u128, BlockId), 4>) -> Term
    ensures { result ≡ many_ways true width on other cases.items }
{
    if cases.is_empty() {
        return Term::Br(other);
    }
    Term::Switch {
        width,
        on,
        other,
        cases: Few(cases),
    }
}

/// A switch of these cases, whose other edge is gone: the last case becomes the other one.
fn without_other(
    width: u32,
    on: Operand,
    other: BlockId,
    mut cases: SmallVec<(u128, BlockId), 4>,
) -> Term
    ensures { result ≡ many_ways false width on other cases.items }
{
    let _ = other;
    let Some(last) = cases.pop() else {
        return Term::Unreachable;
    };
    with_other(width, on, last.1, cases)
}

/// A switch with the edges that are left.
fn put_switch(
    alloc: Global,
    width: u32,
    on: Operand,
    other: BlockId,
    left: &[bool],
    cases: &[(u128, BlockId)],
) -> Result<Term, AllocError>
    ensures { IfOk result (λ t. t ≡ many_ways (slice_index_or left.now 0 false) width on other
        (cases_left (λ k. slice_index_or left.now k false) 1 cases.now)) }
{
    let cases = cases_left(alloc, left, cases)?;
    if has_left(left, 0) {
        return Ok(with_other(width, on, other, cases));
    }
    Ok(without_other(width, on, other, cases))
}

/// A terminator with the operand that is put in place of its own, by the state before it, and with the edges that are left.
pub(crate) fn put_term(
    alloc: Global,
    f: &Function,
    state: Option<&State<AnyFact>>,
    others: &[Option<Operand>],
    left: &[bool],
    term: &Term,
) -> Result<Term, AllocError>
    requires may { MayPut f.now others.now (option_map (λ s. known s.now) state) }
    requires named { IsNamedTerm f.now term.now }
    ensures { IfOk result (λ t. t ≡
        shrunk (put_by f.now others.now (option_map (λ s. known s.now) state.entry)) (λ k. slice_index_or left.now k false) term.now) }
{
    match term {
        Term::Ret { width, a } => Ok(Term::Ret {
            width: *width,
            a: put(f, state, others, *a),
        }),
        Term::Br(to) => Ok(one_way(has_left(left, 0), *to)),
        Term::CondBr { c, yes, no } => Ok(two_ways(
            has_left(left, 0),
            has_left(left, 1),
            put(f, state, others, *c),
            *yes,
            *no,
        )),
        Term::Switch {
            width,
            on,
            other,
            cases,
        } => put_switch(
            alloc,
            *width,
            put(f, state, others, *on),
            *other,
            left,
            cases.as_slice(),
        ),
        Term::Unreachable => Ok(Term::Unreachable),
    }
}
