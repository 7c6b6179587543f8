//! A test of what each function that some text reads as keeps.

ghost use Rattle.std.specs.Prelude.{◌≡◌, ◌<◌, ◌≤◌, ◌+◌, ◌^◌, ◌∷◌, [], ℕ, All, IsTrue, flat_map, length, map};
ghost use Rattle.vfa_cfg.specs.Sizes.{HasFewBlocks};
ghost use Rattle.vfa_check.specs.Within.{IsWithin};
ghost use Rattle.vfa_ir.specs.PhisFit.{targets};
ghost use Rattle.vfa_ir.specs.Printable.{block_ids, ids_of, inst_ids};

use vfa_ir::{Block, BlockId, Function, Inst, Param, Phi, Term};

fn has_parameters(params: &[Param], count: usize) -> bool
    ensures { IsTrue result → All (λ p. p.value.0 < count) params.now }
{
    params.iter().all(|p| (p.value.0 as usize) < count)
}

fn has_phis(phis: &[Phi], count: usize) -> bool
    ensures { IsTrue result → All (λ p. p.result.0 < count) phis.now }
{
    phis.iter().all(|p| (p.result.0 as usize) < count)
}

fn has_result(inst: &Inst, count: usize) -> bool
    ensures { IsTrue result → All (λ v. v < count) (inst_ids (inst.now ∷ [])) }
{
    match inst.result {
        Some(v) => (v.0 as usize) < count,
        None => true,
    }
}

fn has_results(insts: &[Inst], count: usize) -> bool
    ensures { IsTrue result → All (λ v. v < count) (inst_ids insts.now) }
{
    'insts: for inst in insts {
        if !has_result(inst, count) {
            return false;
        }
    }
    true
}

fn is_below(b: BlockId, count: usize) -> bool
    ensures { IsTrue result → b.0 < count }
{
    (b.0 as usize) < count
}

fn has_cases(cases: &[(u128, BlockId)], count: usize) -> bool
    ensures below { IsTrue result → All (λ c. c.1.0 < count) cases.now }
    ensures few { IsTrue result → length cases.now ≤ 2 ^ 28 }
{
    if cases.len() > 1024 {
        return false;
    }
    cases.iter().all(|c| (c.1.0 as usize) < count)
}

fn has_targets(term: &Term, count: usize) -> bool
    ensures few { IsTrue result → length (targets term.now) ≤ 2 ^ 28 + 1 }
    ensures below { IsTrue result → All (λ t. t.0 < count) (targets term.now) }
{
    match term {
        Term::Ret { .. } | Term::Unreachable => true,
        Term::Br(to) => is_below(*to, count),
        Term::CondBr { yes, no, .. } => {
            if !is_below(*yes, count) {
                return false;
            }
            is_below(*no, count)
        }
        Term::Switch { other, cases, .. } => {
            if !is_below(*other, count) {
                return false;
            }
            has_cases(cases.as_slice(), count)
        }
    }
}

fn has_block(block: &Block, names: usize, blocks: usize) -> bool
    ensures names { IsTrue result → All (λ v. v < names) (block_ids block.now) }
    ensures targets { IsTrue result → All (λ t. t.0 < blocks) (targets block.now.term) }
    ensures few { IsTrue result → length (targets block.now.term) ≤ 2 ^ 28 + 1 }
{
    if !has_phis(block.phis.as_slice(), names) {
        return false;
    }
    if !has_results(block.insts.as_slice(), names) {
        return false;
    }
    has_targets(&block.term, blocks)
}

fn has_blocks(all: &[Block], names: usize, count: usize) -> bool
    ensures names { IsTrue result → All (λ b. All (λ v. v < names) (block_ids b)) all.now }
    ensures targets { IsTrue result → All (λ b. All (λ t. t.0 < count) (targets b.term)) all.now }
    ensures few { IsTrue result → All (λ b. length (targets b.term) ≤ 2 ^ 28 + 1) all.now }
{
    'all: for block in all {
        if !has_block(block, names, count) {
            return false;
        }
    }
    true
}

/// Whether the function has an entry, leads to its blocks and defines its values.
pub fn is_within(f: &Function) -> bool
    ensures within { IsTrue result → IsWithin f.now }
    ensures few { IsTrue result → HasFewBlocks f.now }
{
    let names = f.values.as_slice().len();
    let count = f.blocks.as_slice().len();
    if count == 0 {
        return false;
    }
    if count > 4096 {
        return false;
    }
    if !has_parameters(f.params.as_slice(), names) {
        return false;
    }
    has_blocks(f.blocks.as_slice(), names, count)
}
