//! Readers of the lines of a block.

ghost use Rattle.std.specs.Prelude.{◌≡◌, [], ◌∷◌, ◌++◌, drop, IfOk};
ghost use Rattle.vfa_read.specs.Items.{instructions_of, line_lengths, lines_of, phis_of};
ghost use Rattle.vfa_read.specs.Productions.{call_marker, defined_line, defined_rest, is_call_word, block_lines, line, marker_word, plain_rest, starts_call, starts_line, still_phis, void_line};
ghost use Rattle.vfa_read.specs.Readers.{Gives, next_passes};
ghost use Rattle.vfa_read.specs.Seen.{all_of, line_numbers};
ghost use Rattle.vfa_ir.specs.TextLines.{first_lines};

use crate::leaves::same;
use crate::source::{Seen, Source};
use crate::stops::Stop;
use std::alloc::{AllocError, Global};
use vfa_ir::syntax::{Instruction, PhiNode};
use vfa_ir::{Items, Name};

/// A line of a block before its terminator.
#[derive(Drop)]
pub enum Line {
    /// A phi.
    Phi(PhiNode),
    /// Another instruction.
    Plain(Instruction),
}

/// The lines of a block before its terminator.
#[derive(Drop)]
pub struct BlockLines {
    /// The phis.
    pub phis: Items<PhiNode>,
    /// The other instructions.
    pub instructions: Items<Instruction>,
}

impl BlockLines {
    fn new(alloc: Global) -> BlockLines
        ensures { result ≡ lines_of [] }
    {
        BlockLines {
            phis: Items(Vec::new(alloc)),
            instructions: Items(Vec::new(alloc)),
        }
    }

    /// Puts a line last.
    fn push(&mut self, line: Line) -> Result<(), AllocError>
        ensures phis { IfOk result (λ _. self.new.phis ≡ self.old.phis ++ phis_of (line ∷ [])) }
        ensures instructions { IfOk result (λ _. self.new.instructions ≡ self.old.instructions ++ instructions_of (line ∷ [])) }
    {
        match line {
            Line::Phi(phi) => self.phis.0.push(phi)?,
            Line::Plain(instruction) => self.instructions.0.push(instruction)?,
        }
        Ok(())
    }
}

/// Whether phis may still follow.
fn still_phis(phis: bool, line: &Line) -> bool
    ensures { result ≡ still_phis phis line.now }
{
    match line {
        Line::Phi(_) => phis,
        Line::Plain(_) => false,
    }
}

/// Whether a word is `call`, `tail` or `notail`.
fn is_call_word(text: &[u8]) -> bool
    ensures { result ≡ is_call_word text.now }
{
    if same(text, b"call") {
        return true;
    }
    if same(text, b"tail") {
        return true;
    }
    same(text, b"notail")
}

impl<'a> Source<'a> {
    #[tactic(auto, unfolding(crate::specs::Productions::plain_rest))]
    fn plain_rest(&self, alloc: Global, at: usize, result_name: Name) -> Result<(Line, usize), Stop>
        ensures { Gives (all_of self.now) result (plain_rest result_name (drop at (all_of self.now))) }
    {
        let (operation, at) = self.operation(alloc, at)?;
        let (attached, at) = self.attachments(alloc, at)?;
        let instruction = Instruction {
            result: Some(result_name),
            operation,
            attached,
        };
        Ok((Line::Plain(instruction), at))
    }

    fn defined_rest(
        &self,
        alloc: Global,
        at: usize,
        phis: bool,
        result_name: Name,
    ) -> Result<(Line, usize), Stop>
        ensures { Gives (all_of self.now) result (defined_rest phis result_name (drop at (all_of self.now))) }
    {
        if phis {
            if self.has_word(at, b"phi") {
                let at = self.word(at, b"phi")?;
                return self.phi_rest(alloc, at, result_name);
            }
        }
        self.plain_rest(alloc, at, result_name)
    }

    /// A line that defines a name.
    #[tactic(auto, unfolding(crate::specs::Productions::defined_line))]
    fn defined_line(&self, alloc: Global, at: usize, phis: bool) -> Result<(Line, usize), Stop>
        ensures { Gives (all_of self.now) result (defined_line phis (drop at (all_of self.now))) }
    {
        let (result_name, at) = self.local(alloc, at)?;
        let at = self.mark(at, b'=')?;
        self.defined_rest(alloc, at, phis, result_name)
    }

    fn marker_word(&self, alloc: Global, at: usize) -> Result<(Name, usize), Stop>
        ensures { Gives (all_of self.now) result (marker_word (drop at (all_of self.now))) }
    {
        if self.has_word(at, b"tail") {
            let at = self.word(at, b"tail")?;
            return Ok((Name::of(alloc, b"tail")?, at));
        }
        let at = self.word(at, b"notail")?;
        Ok((Name::of(alloc, b"notail")?, at))
    }

    /// `call`, `tail call` or `notail call`
    #[tactic(auto, unfolding(crate::specs::Productions::call_marker))]
    fn call_marker(&self, alloc: Global, at: usize) -> Result<(Option<Name>, usize), Stop>
        ensures { Gives (all_of self.now) result (call_marker (drop at (all_of self.now))) }
    {
        if self.has_word(at, b"call") {
            let at = self.word(at, b"call")?;
            return Ok((None, at));
        }
        let (marker, at) = self.marker_word(alloc, at)?;
        let at = self.word(at, b"call")?;
        Ok((Some(marker), at))
    }

    /// A call without a result.
    #[tactic(auto, unfolding(crate::specs::Productions::void_line))]
    fn void_line(&self, alloc: Global, at: usize) -> Result<(Line, usize), Stop>
        ensures { Gives (all_of self.now) result (void_line (drop at (all_of self.now))) }
    {
        let (marker, at) = self.call_marker(alloc, at)?;
        let (operation, at) = self.void_call(alloc, at, marker)?;
        let (attached, at) = self.attachments(alloc, at)?;
        let instruction = Instruction {
            result: None,
            operation,
            attached,
        };
        Ok((Line::Plain(instruction), at))
    }

    /// Whether a call without a result may begin at a place.
    fn starts_call(&self, at: usize) -> bool
        ensures { result ≡ next_passes starts_call (drop at (all_of self.now)) }
    {
        if let Some(Seen::Word(found)) = self.seen(at) {
            return is_call_word(found);
        }
        false
    }

    /// A phi or another instruction.
    #[tactic(auto, unfolding(crate::specs::Productions::line))]
    fn line(&self, alloc: Global, at: usize, phis: bool) -> Result<(Line, usize), Stop>
        ensures { Gives (all_of self.now) result (line phis (drop at (all_of self.now))) }
    {
        if self.starts_call(at) {
            return self.void_line(alloc, at);
        }
        self.defined_line(alloc, at, phis)
    }

    /// Whether a line may begin at a place.
    #[tactic(auto, using(crate::proofs::Starts::local_starts))]
    fn starts_line(&self, at: usize) -> bool
        ensures { result ≡ next_passes starts_line (drop at (all_of self.now)) }
    {
        match self.seen(at) {
            Some(Seen::Local(_)) => true,
            Some(Seen::Word(found)) => is_call_word(found),
            _ => false,
        }
    }

    /// The phis and the other instructions of a block. The lines on which they begin are put last among these numbers.
    pub fn lines(
        &self,
        alloc: Global,
        numbers: &mut Vec<u32>,
        from: usize,
    ) -> Result<(BlockLines, usize), Stop>
        ensures gives { Gives (all_of self.now) result (block_lines (drop from (all_of self.now))) }
        ensures numbers { IfOk result (λ p. numbers.new.items ≡ numbers.old.items ++ first_lines (line_lengths p.0) (drop from (line_numbers self.now))) }
    {
        let mut list = BlockLines::new(alloc);
        let mut at = from;
        let mut phis = true;
        'list: while self.starts_line(at) {
            let (line, next) = self.line(alloc, at, phis)?;
            phis = still_phis(phis, &line);
            list.push(line)?;
            numbers.push(self.line_number(at))?;
            at = next;
        }
        Ok((list, at))
    }
}
