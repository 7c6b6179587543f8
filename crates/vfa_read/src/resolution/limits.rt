//! The limits of the profile.

ghost use Rattle.std.specs.Prelude.{◌≡◌, ◌<◌, ◌+◌, length, filter_map, MatchOption, nat_lt};
ghost use Rattle.std.specs.List.{list_any};
ghost use Rattle.vfa_ir.specs.DefinedNames.{block_results, value_names};
ghost use Rattle.vfa_ir.specs.Limits.{most_cases, most_names};
ghost use Rattle.vfa_ir.specs.Reads.{cases_of, too_many as tree_has_too_many};
ghost use Rattle.vfa_read.specs.Resolving.{tree};

use vfa_ir::syntax::{BasicBlock, Instruction, Parameter, TerminatorKind};
use vfa_ir::{Kind, MOST_BLOCKS, MOST_CASES, MOST_NAMES};

/// How many instructions have a result.
fn result_count(instructions: &[Instruction]) -> usize
    ensures { result ≡ length (filter_map (λ i. i.result) instructions.now) }
{
    let mut count = 0;
    'each: for instruction in instructions {
        if instruction.result.is_some() {
            count += 1;
        }
    }
    count
}

/// How many names may still come after those of a block; none where the block has too many.
fn room_after(room: usize, block: &BasicBlock) -> Option<usize>
    ensures { MatchOption result (room < length (block_results block.now)) (λ left. left + length (block_results block.now) ≡ room) }
{
    let room = room.checked_sub(block.phis.as_slice().len())?;
    room.checked_sub(result_count(block.instructions.as_slice()))
}

/// Whether there are too many parameters and results.
fn passes_names(parameters: &[Parameter], blocks: &[BasicBlock]) -> bool
    ensures { result ≡ nat_lt most_names (length (value_names (tree parameters.now blocks.now))) }
{
    if parameters.len() > MOST_NAMES {
        return true;
    }
    let mut room = MOST_NAMES - parameters.len();
    'count: for block in blocks {
        match room_after(room, block) {
            Some(left) => room = left,
            None => return true,
        }
    }
    false
}

fn has_too_many_cases(block: &BasicBlock) -> bool
    ensures { result ≡ nat_lt most_cases (cases_of block.now.terminator.kind) }
{
    match &block.terminator.kind {
        TerminatorKind::Switch { cases, .. } => cases.as_slice().len() > MOST_CASES,
        _ => false,
    }
}

/// Whether some switch has too many cases.
fn passes_cases(blocks: &[BasicBlock]) -> bool
    ensures { result ≡ list_any (λ b. nat_lt most_cases (cases_of b.terminator.kind)) blocks.now }
{
    blocks.iter().any(|block| has_too_many_cases(block))
}

/// The limit that a function of these parameters and blocks passes first: of names, of blocks, of the cases of a switch.
pub fn too_many(parameters: &[Parameter], blocks: &[BasicBlock]) -> Option<Kind>
    ensures { result ≡ tree_has_too_many (tree parameters.now blocks.now) }
{
    if passes_names(parameters, blocks) {
        return Some(Kind::Names);
    }
    if blocks.len() > MOST_BLOCKS {
        return Some(Kind::Blocks);
    }
    if passes_cases(blocks) {
        return Some(Kind::Cases);
    }
    None
}
