//! Which blocks are reached from the entry over edges that a run may take.

ghost use Rattle.std.specs.Prelude.{◌≡◌, ◌<◌, ◌↔◌, false, true, [], ℕ, IfOk, length, replicate, slice_get, slice_index_or};
ghost use Rattle.vfa_ir.specs.Walks.{successors};
ghost use Rattle.vfa_check.specs.Within.{IsWithin};
ghost use Rattle.vfa_rewrite.specs.Findings.{Findings};
ghost use Rattle.vfa_rewrite.specs.Found.{AreKeptOf};
ghost use Rattle.vfa_rewrite.specs.Marks.{Reached};
ghost use Rattle.vfa_rewrite.specs.Spread.{spread_along, spread_over, spread_to};

use crate::found::BlockFindings;
use std::alloc::{AllocError, Global};
use std::marker::Model;
use vfa_cfg::successor;
use vfa_ir::{BlockId, Function};

/// The blocks that were found: a mark for each, and their numbers in the order in which they were found.
#[derive(Drop)]
struct Search {
    marks: Vec<bool>,
    order: Vec<u32>,
}

impl Model for Search {
    ghost use Rattle.vfa_rewrite.specs.Spread.{Spread};

    ghost Value = { Spread };

    ghost view = { λ s. record { marks = s.marks.items; order = s.order.items } };
}

impl Search {
    /// The search through so many blocks, none of which was found yet.
    fn new(alloc: Global, blocks: usize) -> Result<Search, AllocError>
        ensures { IfOk result (λ s. s ≡ record { marks = replicate blocks false; order = [] }) }
    {
        Ok(Search {
            marks: vec![in alloc; false; blocks]?,
            order: Vec::new(alloc),
        })
    }

    /// Comes to a block: where it is new, it is marked, and put last.
    fn come_to(&mut self, to: u32) -> Result<(), AllocError>
        requires { to < length self.old.marks }
        ensures { IfOk result (λ _. self.new ≡ spread_to self.old to) }
    {
        if self.marks[to as usize] {
            return Ok(());
        }
        self.marks[to as usize] = true;
        self.order.push(to)?;
        Ok(())
    }

    /// Follows an edge of a block, if it is left.
    fn follow(
        &mut self,
        f: &Function,
        b: BlockId,
        left: &[bool],
        k: usize,
    ) -> Result<(), AllocError>
        requires within { IsWithin f.now }
        requires count { length self.old.marks ≡ length f.now.blocks }
        ensures { IfOk result (λ _. self.new ≡ spread_along (successors f.now b.0) left.now self.old k) }
    {
        if !left.get(k).copied().unwrap_or(false) {
            return Ok(());
        }
        match successor(f, b, k) {
            Some(to) => self.come_to(to.0),
            None => Ok(()),
        }
    }

    /// Follows the edges of a block that are left.
    fn follow_all(&mut self, f: &Function, b: BlockId, left: &[bool]) -> Result<(), AllocError>
        requires within { IsWithin f.now }
        requires count { length self.old.marks ≡ length f.now.blocks }
        ensures { IfOk result (λ _. self.new ≡ spread_over (successors f.now b.0) left.now self.old (length left.now)) }
    {
        'edges: for k in 0..left.len() {
            self.follow(f, b, left, k)?;
        }
        Ok(())
    }

    /// The block that was found at this place of the order.
    fn found(&self, place: usize) -> Option<u32>
        ensures { result ≡ slice_get self.now.order place }
    {
        self.order.get(place).copied()
    }
}

/// Marks of the blocks of a function that are reached from its entry over edges left.
pub(crate) fn reached(
    alloc: Global,
    f: &Function,
    kept: &[BlockFindings],
) -> Result<Vec<bool>, AllocError>
    requires within { IsWithin f.now }
    requires count { length kept.now ≡ length f.now.blocks }
    ensures { (found : Findings) → AreKeptOf f.now found kept.now →
        IfOk result (λ marks. (b : ℕ) → (slice_index_or marks.items b false ≡ true) ↔ Reached f.now found b) }
{
    let mut search = Search::new(alloc, kept.len())?;
    search.come_to(0)?;
    'places: for place in 0..kept.len() {
        let Some(b) = search.found(place) else {
            return Ok(search.marks);
        };
        search.follow_all(f, BlockId(b), kept[b as usize].left.as_slice())?;
    }
    Ok(search.marks)
}
