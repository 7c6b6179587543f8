//! Reading a function.

ghost use Rattle.std.specs.Prelude.{◌≡◌, ◌⊎◌, None, map, IfOk, IfErr, OnOk};
ghost use Rattle.vfa_ir.specs.Reads.{IsAccepted, IsReason, too_many as tree_has_too_many};
ghost use Rattle.vfa_ir.specs.TokenLexemes.{lexemes};
ghost use Rattle.vfa_ir.specs.declared.functions.Function.{Function};
ghost use Rattle.vfa_ir.specs.declared.functions.Lines.{Lines};
ghost use Rattle.vfa_ir.specs.declared.reasons.Outside.{Outside};
ghost use Rattle.vfa_ir.specs.declared.reasons.Outside.TheVariants.{Memory};
ghost use Rattle.vfa_read.specs.Resolving.{tree};
ghost use Rattle.vfa_read.specs.Trees.{HasItsLines, IsTree};

use crate::resolution::{function_of, too_many};
use crate::sentences::{FunctionTree, read_tree};
use crate::tails::tail_bytes;
use std::alloc::Global;
use vfa_ir::{Function, Lines, Outside, Token};

/// A function as read.
#[derive(Debug, Drop)]
pub struct ReadFunction {
    /// The function, with ids in text order.
    pub function: Function,
    /// The lines of its instructions.
    pub lines: Lines,
}

/// The tree of the tokens, which keeps the limits.
fn limited_tree(alloc: Global, bytes: &[u8], tokens: &[Token]) -> Result<FunctionTree, Outside>
    ensures tree { IfOk result (λ t. IsTree (lexemes bytes.now tokens.now) t) }
    ensures lines { IfOk result (λ t. HasItsLines (map (λ t. t.line) tokens.now) t) }
    ensures kept { IfOk result (λ t. tree_has_too_many (tree t.header.parameters t.blocks) ≡ None) }
    ensures refused { IfErr result (λ e. (e ≡ Memory) ⊎ IsReason bytes.now tokens.now e) }
{
    let tree = read_tree(alloc, bytes, tokens)?;
    match too_many(tree.header.parameters.as_slice(), tree.blocks.as_slice()) {
        Some(kind) => Err(Outside::TooMany(kind)),
        None => Ok(tree),
    }
}

/// The function of a tree of these tokens.
fn resolved(
    alloc: Global,
    bytes: &[u8],
    tokens: &[Token],
    written: FunctionTree,
) -> Result<ReadFunction, Outside>
    requires tree { IsTree (lexemes bytes.now tokens.now) written }
    requires lines { HasItsLines (map (λ t. t.line) tokens.now) written }
    requires kept { tree_has_too_many (tree written.header.parameters written.blocks) ≡ None }
    ensures reads { IfOk result (λ r. IsAccepted bytes.now tokens.now r.function r.lines) }
    ensures refused { IfErr result (λ e. (e ≡ Memory) ⊎ IsReason bytes.now tokens.now e) }
{
    let header = &written.header;
    let lead = header.lead.as_slice();
    let parameters = header.parameters.as_slice();
    let blocks = written.blocks.as_slice();
    let function = function_of(
        alloc,
        &header.name,
        lead,
        header.width,
        tail_bytes(bytes, tokens, written.tail_start, written.tail_end),
        parameters,
        blocks,
    )?;
    Ok(ReadFunction {
        function,
        lines: Lines { of: written.lines },
    })
}

/// The function that the tokens are, or why they are none.
fn read_tokens(alloc: Global, bytes: &[u8], tokens: &[Token]) -> Result<ReadFunction, Outside>
    ensures reads { IfOk result (λ r. IsAccepted bytes.now tokens.now r.function r.lines) }
    ensures refused { IfErr result (λ e. (e ≡ Memory) ⊎ IsReason bytes.now tokens.now e) }
{
    let tree = limited_tree(alloc, bytes, tokens)?;
    resolved(alloc, bytes, tokens, tree)
}

/// The function that the bytes, which have these tokens, read as within the limits, and the lines of its instructions,
/// counted from 1 within the bytes.
pub fn read_function(alloc: Global, bytes: &[u8], tokens: &[Token]) -> Result<ReadFunction, Outside>
    ensures reads { IfOk result (λ r. IsAccepted bytes.now tokens.now r.function r.lines) }
    ensures refused { IfErr result (λ e. (e ≡ Memory) ⊎ IsReason bytes.now tokens.now e) }
    ensures accepts { (f : Function) (lines : Lines) → IsAccepted bytes.now tokens.now f lines →
        IfOk result (λ r. (r.function ≡ f) × (r.lines ≡ lines)) × IfErr result (λ e. e ≡ Memory) }
    ensures refuses { (reason : Outside) → IsReason bytes.now tokens.now reason →
        OnOk result ⊥ × IfErr result (λ e. (e ≡ reason) ⊎ (e ≡ Memory)) }
{
    read_tokens(alloc, bytes, tokens)
}
