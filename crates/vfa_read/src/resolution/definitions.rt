//! The names of a function, each defined once.

ghost use Rattle.std.specs.Prelude.{◌≡◌, ◌≤◌, None, length, count_by, IfOk, IfErr};
ghost use Rattle.vfa_ir.specs.DefinedNames.{duplicate_of, is_numbered as parameter_is_numbered, value_names};
ghost use Rattle.vfa_ir.specs.Limits.{most_blocks, most_names};
ghost use Rattle.vfa_ir.specs.Resolution.{scope_of};
ghost use Rattle.vfa_read.specs.Resolving.{tree, IsDuplicate};

use super::table::{SymbolTable, is_numbered};
use std::alloc::Global;
use vfa_ir::Outside;
use vfa_ir::syntax::{BasicBlock, Parameter};

fn numbered_count(parameters: &[Parameter]) -> usize
    ensures { result ≡ count_by parameter_is_numbered parameters.now }
{
    parameters
        .iter()
        .filter(|parameter| is_numbered(parameter))
        .count()
}

/// The values and blocks that parameters and blocks define, in text order; or the name that is defined a second time
/// first. Parameters and blocks keep the limits.
pub fn symbols_of(
    alloc: Global,
    parameters: &[Parameter],
    blocks: &[BasicBlock],
) -> Result<SymbolTable, Outside>
    requires names { length (value_names (tree parameters.now blocks.now)) ≤ most_names }
    requires blocks { length blocks.now ≤ most_blocks }
    ensures distinct { IfOk result (λ _. duplicate_of (tree parameters.now blocks.now) ≡ None) }
    ensures scope { IfOk result (λ t. t ≡ scope_of (tree parameters.now blocks.now)) }
    ensures repeated { IfErr result (λ e. IsDuplicate (duplicate_of (tree parameters.now blocks.now)) e) }
{
    let mut table = SymbolTable::new(alloc);
    table.define_parameters(alloc, parameters)?;
    table.define_blocks(alloc, numbered_count(parameters), blocks)?;
    Ok(table)
}
