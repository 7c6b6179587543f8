//! Which phis fit the edges of their function, and the first block whose phis do not.

ghost use Rattle.std.specs.Prelude.{◌≡◌, ◌<◌, ◌↔◌, All, IfOk, IsTrue, MatchOption, length};
ghost use Rattle.vfa_cfg.specs.Sizes.{HasFewBlocks};
ghost use Rattle.vfa_check.specs.Misfit.{FirstMisfit};
ghost use Rattle.vfa_check.specs.Predecessors.{AreClear, FitsBlock, FitsPredecessors};
ghost use Rattle.vfa_ir.specs.PhisFit.{PhisFit};

use crate::predecessors::predecessors;
use crate::tallies::Tallies;
use std::alloc::{AllocError, Global};
use vfa_ir::{BlockId, Function, Phi};

/// Whether each phi fits these predecessors of its block.
fn all_fit(tallies: &mut Tallies, predecessors: &[BlockId], phis: &[Phi]) -> bool
    requires clear { AreClear tallies.old.left.items tallies.old.operands.items }
    requires within { All (λ p. p.0 < length tallies.old.left.items) predecessors.now }
    ensures each { length tallies.new.left.items ≡ length tallies.old.left.items }
    ensures fit { IsTrue result ↔ All (λ p. FitsPredecessors predecessors.now p.entries) phis.now }
    ensures clear { IsTrue result → AreClear tallies.new.left.items tallies.new.operands.items }
{
    'phis: for phi in phis {
        if !tallies.fits(predecessors, phi.entries.as_slice()) {
            return false;
        }
    }
    true
}

/// Whether the phis of the block at this place fit its predecessors. The entry has none.
fn fits_block(tallies: &mut Tallies, place: usize, predecessors: &[BlockId], phis: &[Phi]) -> bool
    requires clear { AreClear tallies.old.left.items tallies.old.operands.items }
    requires within { All (λ p. p.0 < length tallies.old.left.items) predecessors.now }
    ensures each { length tallies.new.left.items ≡ length tallies.old.left.items }
    ensures fit { IsTrue result ↔ FitsBlock place predecessors.now phis.now }
    ensures clear { IsTrue result → AreClear tallies.new.left.items tallies.new.operands.items }
{
    if place > 0 {
        return all_fit(tallies, predecessors, phis);
    }
    if !predecessors.is_empty() {
        return false;
    }
    all_fit(tallies, predecessors, phis)
}

/// The first block whose phis do not fit the edges; None exactly where those of all blocks fit.
pub(crate) fn first_misfit(alloc: Global, f: &Function) -> Result<Option<BlockId>, AllocError>
    requires { HasFewBlocks f.now }
    ensures { IfOk result (λ block. MatchOption block (PhisFit f.now) (λ b. FirstMisfit f.now b.0)) }
{
    let of = predecessors(alloc, f)?;
    let mut tallies = Tallies::new(alloc, f.blocks.as_slice().len())?;
    'each: for (place, block) in f.blocks.as_slice().iter().enumerate() {
        if !fits_block(
            &mut tallies,
            place,
            of[place].as_slice(),
            block.phis.as_slice(),
        ) {
            return Ok(Some(BlockId(place as u32)));
        }
    }
    Ok(None)
}
