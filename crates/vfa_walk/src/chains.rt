//! The edges of a block in chains, each of those that lead to one block.

ghost use Rattle.std.specs.Prelude.{◌≡◌, ◌<◌, IfOk, IsTrue, Some, false, length, slice_get, slice_index_or, slice_set};
ghost use Rattle.vfa_ir.specs.Walks.{successors};
ghost use Rattle.vfa_walk.specs.Chains.{AreChains};

use std::alloc::{AllocError, Global};
use vfa_cfg::successor;
use vfa_ir::{BlockId, Function};

/// The edges of a block by the blocks that they lead to: for each block the number of the first edge there, and for each edge
/// the number of the next one to the same block; where there is none, it is how many edges there are.
#[derive(Drop)]
pub(crate) struct Chains {
    pub(crate) first: Vec<usize>,
    pub(crate) next: Vec<usize>,
}

impl Chains {
    /// Whether the edge of this number is the first one to the block.
    pub(crate) fn begins(&self, to: BlockId, k: usize) -> bool
        ensures yes { IsTrue result → slice_get self.now.first.items to.0 ≡ Some k }
        ensures no { result ≡ false → slice_get self.now.first.items to.0 ≡ Some k → ⊥ }
    {
        match self.first.get(to.0 as usize) {
            Some(first) => *first == k,
            None => false,
        }
    }

    /// The number of the next edge to the same block.
    pub(crate) fn after(&self, k: usize) -> usize
        requires { k < length self.now.next.items }
        ensures { slice_get self.now.next.items k ≡ Some result }
    {
        self.next[k]
    }

    /// Puts an edge in front of those to the same block.
    fn put_in_front(&mut self, to: BlockId, k: usize)
        requires { k < length self.old.next.items }
        ensures first { self.new.first.items ≡ slice_set self.old.first.items to.0 k }
        ensures next { self.new.next.items ≡ slice_set self.old.next.items k (slice_index_or self.old.first.items to.0 0) }
    {
        let place = to.0 as usize;
        self.next[k] = self.first.get(place).copied().unwrap_or(0);
        if place < self.first.len() {
            self.first[place] = k;
        }
    }
}

/// The chains of the edges of a block, of which there are so many, in a function of so many blocks.
pub(crate) fn chains_of(
    alloc: Global,
    f: &Function,
    from: BlockId,
    edges: usize,
    blocks: usize,
) -> Result<Chains, AllocError>
    requires { edges ≡ length (successors f.now from.0) }
    ensures chains { IfOk result (λ c. AreChains (successors f.now from.0) c.first.items c.next.items) }
    ensures blocks { IfOk result (λ c. length c.first.items ≡ blocks) }
{
    let first = vec![in alloc; edges; blocks]?;
    let next = vec![in alloc; edges; edges]?;
    let mut chains = Chains { first, next };
    // the last edge first, so that each is put in front of those behind it
    'edges: for k in (0..edges).rev() {
        match successor(f, from, k) {
            Some(to) => chains.put_in_front(to, k),
            None => unreachable!(),
        }
    }
    Ok(chains)
}
