//! Where a terminator leads.

ghost use Rattle.std.specs.Prelude.{◌≡◌, ◌≤◌, ◌^◌, [], ◌∷◌, map, slice_get, IfSome};
ghost use Rattle.std.specs.Option.{option_map};
ghost use Rattle.vfa_cfg.specs.Sizes.{HasFewBlocks};
ghost use Rattle.vfa_ir.specs.Walks.{successors};
ghost use Rattle.vfa_ir.specs.PhisFit.{targets};

use vfa_ir::{BlockId, Function, Term};

fn only(to: BlockId, k: usize) -> Option<BlockId>
    ensures { result ≡ slice_get (to ∷ []) k }
{
    (k == 0).then_some(to)
}

fn one_of_two(yes: BlockId, no: BlockId, k: usize) -> Option<BlockId>
    ensures { result ≡ slice_get (yes ∷ no ∷ []) k }
{
    match k {
        0 => Some(yes),
        1 => Some(no),
        _ => None,
    }
}

fn one_of_many(other: BlockId, cases: &[(u128, BlockId)], k: usize) -> Option<BlockId>
    ensures { result ≡ slice_get (other ∷ map (λ c. c.1) cases.now) k }
{
    if k == 0 {
        return Some(other);
    }
    match cases.get(k - 1) {
        Some(case) => Some(case.1),
        None => None,
    }
}

fn target(term: &Term, k: usize) -> Option<BlockId>
    ensures { result ≡ slice_get (targets term.now) k }
{
    match term {
        Term::Ret { .. } | Term::Unreachable => None,
        Term::Br(to) => only(*to, k),
        Term::CondBr { yes, no, .. } => one_of_two(*yes, *no, k),
        Term::Switch { other, cases, .. } => one_of_many(*other, cases.as_slice(), k),
    }
}

/// The target of the edge number `k` of a block, counted from 0 as written; None exactly where it has no more than `k`.
/// Of a block that ends in `br i1 %c, label %a, label %b`, number 1 leads to b.
pub fn successor(f: &Function, from: BlockId, k: usize) -> Option<BlockId>
    ensures target { option_map (λ t. t.0) result ≡ slice_get (successors f.now from.0) k }
    ensures bound { IfSome result (λ _. HasFewBlocks f.now → k ≤ 2 ^ 28) }
{
    match f.blocks.as_slice().get(from.0 as usize) {
        Some(block) => target(&block.term, k),
        None => None,
    }
}
