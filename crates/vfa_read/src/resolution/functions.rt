//! The function of a tree.

ghost use Rattle.std.specs.Prelude.{◌≡◌, ◌⊎◌, List, None, All, IfOk, IfErr};
ghost use Rattle.vfa_ir.specs.DefinedNames.{duplicate_of, unknown_of};
ghost use Rattle.vfa_ir.specs.Grammar.{FitsBlock};
ghost use Rattle.vfa_ir.specs.Lexemes.{Lexeme};
ghost use Rattle.vfa_ir.specs.Reads.{too_many};
ghost use Rattle.vfa_ir.specs.Resolution.{function_of as tree_function};
ghost use Rattle.vfa_read.specs.Resolving.{tree, IsDuplicate, IsUnknown};

use super::definitions::symbols_of;
use super::values::{copied_names, params_of, values_of};
use std::alloc::Global;
use vfa_ir::syntax::{BasicBlock, Parameter};
use vfa_ir::{Function, Items, Name, Outside};

/// The function of a tree that keeps the limits, with the bytes of its tail; or the name that is defined a second time
/// first; or, where each is defined once, the name that is used first without its definition.
pub fn function_of(
    alloc: Global,
    name: &Name,
    lead: &[Name],
    width: u32,
    tail: &[u8],
    parameters: &[Parameter],
    blocks: &[BasicBlock],
) -> Result<Function, Outside>
    requires kept { too_many (tree parameters.now blocks.now) ≡ None }
    requires fits { All FitsBlock blocks.now }
    ensures distinct { IfOk result (λ _. duplicate_of (tree parameters.now blocks.now) ≡ None) }
    ensures known { IfOk result (λ _. unknown_of (tree parameters.now blocks.now) ≡ None) }
    ensures function { (lexemes : List Lexeme) → IfOk result (λ f. f ≡ tree_function (record {
      lead = lead.now;
      width = width;
      name = name.now;
      parameters = parameters.now;
      tail = lexemes;
      blocks = blocks.now;
    }) tail.now) }
    ensures refused { IfErr result (λ e. IsDuplicate (duplicate_of (tree parameters.now blocks.now)) e
        ⊎ ((duplicate_of (tree parameters.now blocks.now) ≡ None) × IsUnknown (unknown_of (tree parameters.now blocks.now)) e)) }
{
    let table = symbols_of(alloc, parameters, blocks)?;
    let values = values_of(alloc, parameters, blocks)?;
    let params = params_of(alloc, parameters)?;
    let mut calls = Vec::new(alloc);
    let resolved = table.basic_blocks(alloc, &mut calls, blocks)?;
    let lead = copied_names(alloc, lead)?;
    let name = name.copied(alloc)?;
    let tail = Name::of(alloc, tail)?;
    Ok(Function {
        name,
        lead,
        width,
        params,
        tail,
        values,
        blocks: resolved,
        calls: Items(calls),
    })
}
