//! The reader of whole functions.

ghost use Rattle.std.specs.Prelude.{◌≡◌, ◌⊎◌, ℕ, map, IfErr, IfOk};
ghost use Rattle.vfa_ir.specs.Reads.{IsShape, last_line};
ghost use Rattle.vfa_ir.specs.TokenLexemes.{lexemes};
ghost use Rattle.vfa_ir.specs.declared.reasons.Outside.TheVariants.{Memory, Shape};
ghost use Rattle.vfa_read.specs.declared.stops.Stop.TheVariants.{At};
ghost use Rattle.vfa_read.specs.Seen.{all_of, line_numbers};
ghost use Rattle.vfa_read.specs.Trees.{GivesTree, HasItsLines, IsStop, IsTree};

use crate::headers::FunctionHeader;
use crate::source::Source;
use crate::stops::Stop;
use std::alloc::Global;
use vfa_ir::syntax::BasicBlock;
use vfa_ir::{Items, Outside, Token};

/// A function as written. The places of its tail's tokens are given.
#[derive(Drop)]
pub struct FunctionTree {
    /// What stands before its tail.
    pub header: FunctionHeader,
    /// The place of the first token after the parameters.
    pub tail_start: usize,
    /// The place of the brace that opens the body.
    pub tail_end: usize,
    /// The blocks.
    pub blocks: Items<BasicBlock>,
    /// For each block the lines on which its phis, its instructions and its terminator begin.
    pub lines: Items<Items<u32>>,
}

fn last_line(tokens: &[Token]) -> u32
    ensures { result ≡ last_line tokens.now }
{
    match tokens.last() {
        Some(token) => token.line,
        None => 1,
    }
}

impl<'a> Source<'a> {
    /// The function that the first tokens are, and the place after them.
    fn first_tree(&self, alloc: Global) -> Result<(FunctionTree, usize), Stop>
        ensures gives { GivesTree (all_of self.now) result }
        ensures lines { IfOk result (λ p. HasItsLines (line_numbers self.now) p.0) }
    {
        let (header, tail_start) = self.header(alloc, 0)?;
        let tail_end = self.tail(tail_start)?;
        let mut lines = Vec::new(alloc);
        let (blocks, at) = self.body(alloc, &mut lines, tail_end)?;
        Ok((
            FunctionTree {
                header,
                tail_start,
                tail_end,
                blocks,
                lines: Items(lines),
            },
            at,
        ))
    }

    /// The line of a token, or of the last one where none stands there, or 1 where there is none.
    fn line_of(&self, place: usize) -> u32
        ensures { IsStop (all_of self.now) (At place) → IsShape self.now.bytes.now self.now.tokens.now result }
    {
        match self.tokens.get(place) {
            Some(token) => token.line,
            None => last_line(self.tokens),
        }
    }

    /// The function that all tokens are, or where they stop being one.
    pub fn function_tree(&self, alloc: Global) -> Result<FunctionTree, Stop>
        ensures tree { IfOk result (λ t. IsTree (all_of self.now) t) }
        ensures lines { IfOk result (λ t. HasItsLines (line_numbers self.now) t) }
        ensures stops { IfErr result (λ e. IsStop (all_of self.now) e) }
    {
        let (tree, at) = self.first_tree(alloc)?;
        if at < self.tokens.len() {
            return Err(Stop::At(at));
        }
        Ok(tree)
    }
}

/// The function that the bytes, which have these tokens, are as written, or the line at which they stop being one.
pub fn read_tree(alloc: Global, bytes: &[u8], tokens: &[Token]) -> Result<FunctionTree, Outside>
    ensures tree { IfOk result (λ t. IsTree (lexemes bytes.now tokens.now) t) }
    ensures lines { IfOk result (λ t. HasItsLines (map (λ t. t.line) tokens.now) t) }
    ensures shape { IfErr result (λ e. (e ≡ Memory) ⊎ ((line : ℕ) × (e ≡ Shape line) × IsShape bytes.now tokens.now line)) }
{
    let source = Source { bytes, tokens };
    match source.function_tree(alloc) {
        Ok(tree) => Ok(tree),
        Err(Stop::At(place)) => Err(Outside::Shape(source.line_of(place))),
        Err(Stop::Memory) => Err(Outside::Memory),
    }
}
