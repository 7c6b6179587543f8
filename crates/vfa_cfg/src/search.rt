//! The depth-first walk, with the visits that have begun on a stack of its own.

ghost use Rattle.std.specs.Prelude.{◌≡◌, ◌<◌, ◌≤◌, ◌+◌, ◌^◌, ◌++◌, false, [], IfNone, IfOk, IfSome, length, replicate, reverse};
ghost use Rattle.std.specs.Option.{option_to_list};
ghost use Rattle.vfa_cfg.specs.Search.{Search, is_unseen, begun, come_to, goes_on, stepped};

use std::alloc::{AllocError, Global};
use std::marker::Model;
use vfa_ir::BlockId;

/// A visit that has begun.
#[derive(Clone, Copy, Debug, PartialEq, Eq)]
pub struct Visit {
    /// The block that is visited.
    pub block: BlockId,
    /// The number of its edge that is followed next.
    pub next: usize,
}

/// The state of the walk.
#[derive(Drop)]
pub struct DepthFirst {
    seen: Vec<bool>,
    visits: Vec<Visit>,
    ended: Vec<BlockId>,
}

impl Model for DepthFirst {
    ghost Value = { Search };

    ghost view = { λ s. record { seen = s.seen.items; visits = s.visits.items; ended = s.ended.items } };
}

impl DepthFirst {
    /// The walk through so many blocks before its first step.
    pub fn new(alloc: Global, blocks: usize) -> Result<DepthFirst, AllocError>
        ensures { IfOk result (λ s. s ≡ record { seen = replicate blocks false; visits = []; ended = [] }) }
    {
        Ok(DepthFirst {
            seen: vec![in alloc; false; blocks]?,
            visits: Vec::new(alloc),
            ended: Vec::new(alloc),
        })
    }

    /// Comes to a block: where it is new, its visit begins.
    pub fn come_to(&mut self, to: BlockId) -> Result<(), AllocError>
        ensures { IfOk result (λ _. self.new ≡ come_to self.old to) }
    {
        if !self.is_unseen(to) {
            return Ok(());
        }
        self.begin(to)
    }

    fn is_unseen(&self, b: BlockId) -> bool
        ensures { result ≡ is_unseen self.now.seen b.0 }
    {
        match self.seen.get(b.0 as usize) {
            Some(mark) => !*mark,
            None => false,
        }
    }

    fn begin(&mut self, to: BlockId) -> Result<(), AllocError>
        requires { to.0 < length self.old.seen }
        ensures { IfOk result (λ _. self.new ≡ begun self.old to) }
    {
        self.seen[to.0 as usize] = true;
        self.visits.push(Visit { block: to, next: 0 })?;
        Ok(())
    }

    /// The innermost visit, taken off; none where all have ended.
    pub fn innermost(&mut self) -> Option<Visit>
        ensures taken { self.old ≡ record self.new { visits = self.new.visits ++ option_to_list result } }
        ensures none { IfNone result (self.old.visits ≡ []) }
    {
        self.visits.pop()
    }

    fn go_on(&mut self, visit: Visit) -> Result<(), AllocError>
        requires { visit.next ≤ 2 ^ 28 }
        ensures { IfOk result (λ _. self.new ≡ goes_on self.old visit) }
    {
        self.visits.push(Visit {
            block: visit.block,
            next: visit.next + 1,
        })?;
        Ok(())
    }

    /// Goes on with a visit that was taken off, at its next successor, or ends it where there is none.
    pub fn step(&mut self, visit: Visit, next: Option<BlockId>) -> Result<(), AllocError>
        requires { IfSome next (λ _. visit.next ≤ 2 ^ 28) }
        ensures { IfOk result (λ _. self.new ≡ stepped self.old visit next) }
    {
        match next {
            None => {
                self.ended.push(visit.block)?;
                Ok(())
            }
            Some(to) => {
                self.go_on(visit)?;
                self.come_to(to)
            }
        }
    }

    /// The blocks whose visits have ended, the last one first.
    pub fn last_ended_first(self) -> Vec<BlockId>
        ensures { result.items ≡ reverse self.ended }
    {
        let DepthFirst { mut ended, .. } = self;
        ended.reverse();
        ended
    }
}
