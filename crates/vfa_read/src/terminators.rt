//! Readers of terminators, after the word that each begins with.

ghost use Rattle.std.specs.Prelude.{◌≡◌, ◌≤◌, drop, codes};
ghost use Rattle.vfa_read.specs.Productions.{target, returned, condition, branch, switch_case, switch_cases, switch};
ghost use Rattle.vfa_read.specs.Readers.{Gives};
ghost use Rattle.vfa_read.specs.Seen.{all_of};

use crate::source::Source;
use crate::stops::Stop;
use std::alloc::Global;
use vfa_ir::syntax::{SwitchCase, TerminatorKind};
use vfa_ir::{Items, Name};

impl<'a> Source<'a> {
    /// `label %name`
    #[tactic(auto, unfolding(crate::specs::Productions::target))]
    pub fn target(&self, alloc: Global, at: usize) -> Result<(Name, usize), Stop>
        ensures { Gives (all_of self.now) result (target (drop at (all_of self.now))) }
    {
        let at = self.word(at, b"label")?;
        self.local(alloc, at)
    }

    #[tactic(auto, unfolding(crate::specs::Productions::returned))]
    pub fn returned(&self, alloc: Global, at: usize) -> Result<(TerminatorKind, usize), Stop>
        ensures { Gives (all_of self.now) result (returned (drop at (all_of self.now))) }
    {
        let (width, at) = self.width(at)?;
        let (a, at) = self.value(alloc, at, width)?;
        Ok((TerminatorKind::Return { width, a }, at))
    }

    #[tactic(auto, unfolding(crate::specs::Productions::condition))]
    fn condition(&self, alloc: Global, at: usize) -> Result<(TerminatorKind, usize), Stop>
        ensures { Gives (all_of self.now) result (condition (drop at (all_of self.now))) }
    {
        let at = self.type_of_width(at, 1)?;
        let (c, at) = self.value(alloc, at, 1)?;
        let at = self.mark(at, b',')?;
        let (yes, at) = self.target(alloc, at)?;
        let at = self.mark(at, b',')?;
        let (no, at) = self.target(alloc, at)?;
        Ok((TerminatorKind::Condition { c, yes, no }, at))
    }

    #[tactic(auto, unfolding(crate::specs::Productions::branch))]
    pub fn branch(&self, alloc: Global, at: usize) -> Result<(TerminatorKind, usize), Stop>
        ensures { Gives (all_of self.now) result (branch (drop at (all_of self.now))) }
    {
        if self.has_word(at, b"label") {
            let (to, at) = self.target(alloc, at)?;
            return Ok((TerminatorKind::Always(to), at));
        }
        self.condition(alloc, at)
    }

    /// `T L , label %name`
    #[tactic(auto, unfolding(crate::specs::Productions::switch_case))]
    fn switch_case(&self, alloc: Global, at: usize, width: u32) -> Result<(SwitchCase, usize), Stop>
        requires least { 1 ≤ width }
        requires most { width ≤ 128 }
        ensures { Gives (all_of self.now) result (switch_case width (drop at (all_of self.now))) }
    {
        let at = self.type_of_width(at, width)?;
        let (number, at) = self.literal(alloc, at, width)?;
        let at = self.mark(at, b',')?;
        let (block, at) = self.target(alloc, at)?;
        Ok((SwitchCase { number, block }, at))
    }

    /// The cases of a switch.
    fn switch_cases(
        &self,
        alloc: Global,
        from: usize,
        width: u32,
    ) -> Result<(Items<SwitchCase>, usize), Stop>
        requires least { 1 ≤ width }
        requires most { width ≤ 128 }
        ensures { Gives (all_of self.now) result (switch_cases width (drop from (all_of self.now))) }
    {
        let mut list = Vec::new(alloc);
        let mut at = from;
        'list: while self.has_any_word(at) {
            let (case, next) = self.switch_case(alloc, at, width)?;
            list.push(case)?;
            at = next;
        }
        Ok((Items(list), at))
    }

    #[tactic(auto, unfolding(crate::specs::Productions::switch))]
    pub fn switch(&self, alloc: Global, at: usize) -> Result<(TerminatorKind, usize), Stop>
        ensures { Gives (all_of self.now) result (switch (drop at (all_of self.now))) }
    {
        let (width, at) = self.width(at)?;
        let (on, at) = self.value(alloc, at, width)?;
        let at = self.mark(at, b',')?;
        let (other, at) = self.target(alloc, at)?;
        let at = self.mark(at, b'[')?;
        let (cases, at) = self.switch_cases(alloc, at, width)?;
        let at = self.mark(at, b']')?;
        Ok((
            TerminatorKind::Switch {
                width,
                on,
                other,
                cases,
            },
            at,
        ))
    }
}
