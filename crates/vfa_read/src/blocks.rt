//! Readers of blocks.

ghost use Rattle.std.specs.Prelude.{◌≡◌, [], ◌∷◌, ◌++◌, drop, suc, IfOk};
ghost use Rattle.vfa_ir.specs.TextLines.{block_lines, first_lines, item_lengths};
ghost use Rattle.vfa_read.specs.Headers.{body};
ghost use Rattle.vfa_read.specs.Items.{block_numbers};
ghost use Rattle.vfa_read.specs.Productions.{block_labelled, block_rest, block_with, entry_label, further_blocks, starts_label, written_label};
ghost use Rattle.vfa_read.specs.Readers.{Gives, made, next_passes};
ghost use Rattle.vfa_read.specs.Seen.{all_of, line_numbers};
ghost use Rattle.vfa_read.specs.Trees.{blocks_of};

use crate::source::{Seen, Source};
use crate::stops::Stop;
use std::alloc::Global;
use vfa_ir::syntax::BasicBlock;
use vfa_ir::{Items, Name};

impl<'a> Source<'a> {
    /// Whether a label stands at a place.
    #[tactic(auto, using(crate::proofs::Starts::label_starts))]
    fn starts_label(&self, at: usize) -> bool
        ensures { result ≡ next_passes starts_label (drop at (all_of self.now)) }
    {
        match self.seen(at) {
            Some(Seen::Label(_)) => true,
            _ => false,
        }
    }

    fn written_label(&self, alloc: Global, at: usize) -> Result<(Option<Name>, usize), Stop>
        ensures { Gives (all_of self.now) result (written_label (drop at (all_of self.now))) }
    {
        let (name, at) = self.label(alloc, at)?;
        Ok((Some(name), at))
    }

    fn entry_label(&self, alloc: Global, at: usize) -> Result<(Option<Name>, usize), Stop>
        ensures { Gives (all_of self.now) result (entry_label (drop at (all_of self.now))) }
    {
        if self.starts_label(at) {
            return self.written_label(alloc, at);
        }
        Ok((None, at))
    }

    /// A block after its label. The lines on which its items begin are put last among these.
    fn block_after(
        &self,
        alloc: Global,
        lines: &mut Vec<Items<u32>>,
        label: Option<Name>,
        at: usize,
    ) -> Result<(BasicBlock, usize), Stop>
        ensures gives { Gives (all_of self.now) result (made (block_labelled label) block_rest (drop at (all_of self.now))) }
        ensures lines { IfOk result (λ p. lines.new.items ≡ lines.old.items ++ first_lines (item_lengths p.0) (drop at (line_numbers self.now)) ∷ []) }
    {
        let mut numbers = Vec::new(alloc);
        let (found, at) = self.lines(alloc, &mut numbers, at)?;
        numbers.push(self.line_number(at))?;
        let (terminator, at) = self.terminator(alloc, at)?;
        lines.push(Items(numbers))?;
        Ok((
            BasicBlock {
                label,
                phis: found.phis,
                instructions: found.instructions,
                terminator,
            },
            at,
        ))
    }

    /// The first block, which may lack a label.
    #[tactic(auto, unfolding(crate::specs::Productions::block_with))]
    fn entry_block(
        &self,
        alloc: Global,
        lines: &mut Vec<Items<u32>>,
        at: usize,
    ) -> Result<(BasicBlock, usize), Stop>
        ensures gives { Gives (all_of self.now) result (block_with entry_label (drop at (all_of self.now))) }
        ensures lines { IfOk result (λ p. lines.new.items ≡ lines.old.items ++ block_numbers p.0 (drop at (line_numbers self.now)) ∷ []) }
    {
        let (label, at) = self.entry_label(alloc, at)?;
        self.block_after(alloc, lines, label, at)
    }

    #[tactic(auto, unfolding(crate::specs::Productions::block_with))]
    fn labelled_block(
        &self,
        alloc: Global,
        lines: &mut Vec<Items<u32>>,
        at: usize,
    ) -> Result<(BasicBlock, usize), Stop>
        ensures gives { Gives (all_of self.now) result (block_with written_label (drop at (all_of self.now))) }
        ensures lines { IfOk result (λ p. lines.new.items ≡ lines.old.items ++ block_numbers p.0 (drop at (line_numbers self.now)) ∷ []) }
    {
        let (label, at) = self.written_label(alloc, at)?;
        self.block_after(alloc, lines, label, at)
    }

    /// The first block and those after it.
    fn blocks_after(
        &self,
        alloc: Global,
        lines: &mut Vec<Items<u32>>,
        first: BasicBlock,
        from: usize,
    ) -> Result<(Items<BasicBlock>, usize), Stop>
        ensures gives { Gives (all_of self.now) result (made (λ more. first ∷ more) further_blocks (drop from (all_of self.now))) }
        ensures lines { IfOk result (λ p. lines.new.items ≡ lines.old.items ++ block_lines (drop 1 p.0) (drop from (line_numbers self.now))) }
    {
        let mut list = Vec::new(alloc);
        list.push(first)?;
        let mut at = from;
        'list: while self.starts_label(at) {
            let (block, next) = self.labelled_block(alloc, lines, at)?;
            list.push(block)?;
            at = next;
        }
        Ok((Items(list), at))
    }

    /// The body of a function: its blocks in braces. The lines on which their items begin are put last among these.
    #[tactic(auto, unfolding(crate::specs::Headers::body))]
    pub fn body(
        &self,
        alloc: Global,
        lines: &mut Vec<Items<u32>>,
        at: usize,
    ) -> Result<(Items<BasicBlock>, usize), Stop>
        ensures gives { Gives (all_of self.now) result (made blocks_of body (drop at (all_of self.now))) }
        ensures lines { IfOk result (λ p. lines.new.items ≡ lines.old.items ++ block_lines p.0 (drop (suc at) (line_numbers self.now))) }
    {
        let at = self.mark(at, b'{')?;
        let (first, at) = self.entry_block(alloc, lines, at)?;
        let (blocks, at) = self.blocks_after(alloc, lines, first, at)?;
        let at = self.mark(at, b'}')?;
        Ok((blocks, at))
    }
}
