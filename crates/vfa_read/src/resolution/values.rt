//! The values of a function: their names and their types.

ghost use Rattle.std.specs.Prelude.{◌≡◌, [], ◌∷◌, ◌++◌, ◌≤◌, None, Some, map, flat_map, filter_map, length, IfOk};
ghost use Rattle.vfa_ir.specs.DefinedNames.{kept_name as name_kept};
ghost use Rattle.vfa_ir.specs.Limits.{most_names};
ghost use Rattle.vfa_ir.specs.Resolution.{block_values, instruction_value, operation_type as type_of_operation, parameter_value, params_from, phi_value, value_of};

use std::alloc::{AllocError, Global};
use vfa_ir::syntax::{BasicBlock, Instruction, Operation, Parameter, PhiNode};
use vfa_ir::{Items, Name, Param, Ty, Value, ValueId, is_digits};

/// The name that is kept: one of digits alone is none.
fn kept_name(alloc: Global, name: &Name) -> Result<Option<Name>, AllocError>
    ensures { IfOk result (λ o. o ≡ name_kept name.now) }
{
    if is_digits(name.bytes()) {
        return Ok(None);
    }
    Ok(Some(name.copied(alloc)?))
}

/// The same of a name that may lack.
pub fn kept_option(alloc: Global, name: &Option<Name>) -> Result<Option<Name>, AllocError>
    ensures { IfOk result (λ o. o ≡ elim name.now [ None ↦ None | Some n ↦ name_kept n ]) }
{
    match name {
        Some(name) => kept_name(alloc, name),
        None => Ok(None),
    }
}

fn operation_type(operation: &Operation) -> Ty
    ensures { result ≡ type_of_operation operation.now }
{
    match operation {
        Operation::Binary { width, .. } => Ty::Int(*width),
        Operation::Compare { .. } => Ty::Int(1),
        Operation::Select { width, .. } => Ty::Int(*width),
        Operation::Convert { to, .. } => Ty::Int(*to),
        Operation::Freeze { width, .. } => Ty::Int(*width),
        Operation::Extract { width, index, .. } => Ty::Int(if *index == 0 { *width } else { 1 }),
        Operation::Two { width, .. } => Ty::Int(*width),
        Operation::One { width, .. } => Ty::Int(*width),
        Operation::Over { width, .. } => Ty::Pair(*width),
        Operation::Assume { .. } => Ty::Int(1),
        Operation::Call { width, .. } => Ty::Int(width.unwrap_or(1)),
    }
}

fn push_parameters(
    values: &mut Vec<Value>,
    alloc: Global,
    parameters: &[Parameter],
) -> Result<(), AllocError>
    ensures { IfOk result (λ _. values.new.items ≡ values.old.items ++ map parameter_value parameters.now) }
{
    'each: for parameter in parameters {
        let name = kept_option(alloc, &parameter.name)?;
        values.push(Value {
            name,
            ty: Ty::Int(parameter.width),
        })?;
    }
    Ok(())
}

fn push_value(values: &mut Vec<Value>, alloc: Global, name: &Name, ty: Ty) -> Result<(), AllocError>
    ensures { IfOk result (λ _. values.new.items ≡ values.old.items ++ value_of name.now ty ∷ []) }
{
    let name = kept_name(alloc, name)?;
    values.push(Value { name, ty })?;
    Ok(())
}

fn push_phis(values: &mut Vec<Value>, alloc: Global, phis: &[PhiNode]) -> Result<(), AllocError>
    ensures { IfOk result (λ _. values.new.items ≡ values.old.items ++ map phi_value phis.now) }
{
    'each: for phi in phis {
        push_value(values, alloc, &phi.result, Ty::Int(phi.width))?;
    }
    Ok(())
}

fn push_result(
    values: &mut Vec<Value>,
    alloc: Global,
    instruction: &Instruction,
) -> Result<(), AllocError>
    ensures { IfOk result (λ _. values.new.items ≡ values.old.items ++ filter_map instruction_value (instruction.now ∷ [])) }
{
    match &instruction.result {
        Some(name) => push_value(values, alloc, name, operation_type(&instruction.operation)),
        None => Ok(()),
    }
}

fn push_results(
    values: &mut Vec<Value>,
    alloc: Global,
    instructions: &[Instruction],
) -> Result<(), AllocError>
    ensures { IfOk result (λ _. values.new.items ≡ values.old.items ++ filter_map instruction_value instructions.now) }
{
    'each: for instruction in instructions {
        push_result(values, alloc, instruction)?;
    }
    Ok(())
}

fn push_block(values: &mut Vec<Value>, alloc: Global, block: &BasicBlock) -> Result<(), AllocError>
    ensures { IfOk result (λ _. values.new.items ≡ values.old.items ++ block_values block.now) }
{
    push_phis(values, alloc, block.phis.as_slice())?;
    push_results(values, alloc, block.instructions.as_slice())
}

/// All values in text order, with their names and types.
pub fn values_of(
    alloc: Global,
    parameters: &[Parameter],
    blocks: &[BasicBlock],
) -> Result<Items<Value>, AllocError>
    ensures { IfOk result (λ all. all ≡ map parameter_value parameters.now ++ flat_map block_values blocks.now) }
{
    let mut values = Vec::new(alloc);
    push_parameters(&mut values, alloc, parameters)?;
    'each: for block in blocks {
        push_block(&mut values, alloc, block)?;
    }
    Ok(Items(values))
}

/// A list of the same names.
pub fn copied_names(alloc: Global, names: &[Name]) -> Result<Items<Name>, AllocError>
    ensures { IfOk result (λ all. all ≡ names.now) }
{
    let mut list = Vec::new(alloc);
    'each: for name in names {
        list.push(name.copied(alloc)?)?;
    }
    Ok(Items(list))
}

/// The parameters, which are the first values.
pub fn params_of(alloc: Global, parameters: &[Parameter]) -> Result<Items<Param>, AllocError>
    requires { length parameters.now ≤ most_names }
    ensures { IfOk result (λ all. all ≡ params_from 0 parameters.now) }
{
    let mut list = Vec::new(alloc);
    'each: for (place, parameter) in parameters.iter().enumerate() {
        let words = copied_names(alloc, parameter.words.as_slice())?;
        list.push(Param {
            value: ValueId(place as u32),
            words,
        })?;
    }
    Ok(Items(list))
}
