//! Which names are operands somewhere in a function.

ghost use Rattle.std.specs.Prelude.{◌≡◌, ◌||◌, ℕ, [], ◌∷◌, false, IfOk, OnOk, slice_index_or};
ghost use Rattle.vfa_ir.specs.Words.{is_in};
ghost use Rattle.vfa_ir.specs.declared.functions.Function.{Function};
ghost use Rattle.vfa_rules.specs.Uses.{is_used};
ghost use Rattle.vfa_rewrite.specs.Uses.{AreUses};

use std::alloc::{AllocError, Global};
use vfa_demand::names_used;
use vfa_ir::{Function, Inst};

/// Marks a name.
fn mark(marks: &mut Vec<bool>, name: u32) -> Result<(), AllocError>
    ensures { OnOk result ((n : ℕ) →
        slice_index_or marks.new.items n false ≡ (is_in n (name ∷ []) || slice_index_or marks.old.items n false)) }
{
    let place = name as usize;
    if place >= marks.len() {
        marks.resize(place + 1, false)?;
    }
    marks[place] = true;
    Ok(())
}

/// Marks of these names.
fn marked(alloc: Global, names: &[u32]) -> Result<Vec<bool>, AllocError>
    ensures { IfOk result (λ marks. (n : ℕ) → slice_index_or marks.items n false ≡ is_in n names.now) }
{
    let mut marks: Vec<bool> = Vec::new(alloc);
    'each: for name in names {
        mark(&mut marks, *name)?;
    }
    Ok(marks)
}

/// Marks of the names that are operands of phis, instructions and terminators of the function.
pub(crate) fn uses(alloc: Global, f: &Function) -> Result<Vec<bool>, AllocError>
    ensures { IfOk result (λ used. AreUses f.now used.items) }
{
    let names = names_used(alloc, f)?;
    marked(alloc, names.as_slice())
}

/// Whether the result of the instruction is marked.
pub(crate) fn is_result_used(used: &[bool], inst: &Inst) -> bool
    ensures { (f : Function) → AreUses f used.now → result ≡ is_used f inst.now.result }
{
    match inst.result {
        Some(name) => used.get(name.0 as usize).copied().unwrap_or(false),
        None => false,
    }
}
