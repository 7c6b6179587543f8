//! The header of a function: from `define` to the `)` after the parameters.

ghost use Rattle.std.specs.Prelude.{◌≡◌, ◌∷◌, ◌++◌, [], flat_map, map, IfOk};
ghost use Rattle.std.specs.List.{join_by};
ghost use Rattle.vfa_ir.specs.Spelling.{comma, header as header_tokens, parameter as parameter_tokens};
ghost use Rattle.vfa_print.specs.Trees.{parameter_tree, tree_with, width_at as width_of_value, width_of as width_of_type};
ghost use Rattle.vfa_print.specs.Writing.{with_tokens};

use crate::shown::ShownNames;
use crate::writer::Writer;
use std::alloc::AllocError;
use vfa_ir::{Function, Param, Ty, Value};

fn width_of(ty: Ty) -> u32
    ensures { result ≡ width_of_type ty }
{
    match ty {
        Ty::Int(width) => width,
        Ty::Pair(width) => width,
    }
}

/// The width of a value's type, or 0 where there is none.
fn width_at(values: &[Value], place: usize) -> u32
    ensures { result ≡ width_of_value values.now place }
{
    match values.get(place) {
        Some(value) => width_of(value.ty),
        None => 0,
    }
}

#[tactic(auto, using(crate::proofs::Drafts::with_tokens_append))]
fn push_parameter(
    w: &mut Writer,
    names: &ShownNames,
    values: &[Value],
    param: &Param,
) -> Result<(), AllocError>
    ensures { IfOk result (λ _. w.new ≡ with_tokens w.old (parameter_tokens (parameter_tree names.now values.now param.now))) }
{
    w.integer_type(width_at(values, param.value.0 as usize))?;
    w.words(param.words.as_slice())?;
    w.local(names.value(param.value))
}

/// The parameters after the first.
#[tactic(auto, using(crate::proofs::Drafts::with_tokens_append))]
fn push_further(
    w: &mut Writer,
    names: &ShownNames,
    values: &[Value],
    rest: &[Param],
) -> Result<(), AllocError>
    ensures { IfOk result (λ _. w.new ≡ with_tokens w.old
        (flat_map (λ p. comma ∷ parameter_tokens p) (map (parameter_tree names.now values.now) rest.now))) }
{
    'params: for param in rest {
        w.mark(b',')?;
        push_parameter(w, names, values, param)?;
    }
    Ok(())
}

#[tactic(auto, using(crate::proofs::Drafts::with_tokens_append))]
fn push_parameters(
    w: &mut Writer,
    names: &ShownNames,
    values: &[Value],
    params: &[Param],
) -> Result<(), AllocError>
    ensures { IfOk result (λ _. w.new ≡ with_tokens w.old
        (join_by parameter_tokens (comma ∷ []) (map (parameter_tree names.now values.now) params.now))) }
{
    let Some((first, rest)) = params.split_first() else {
        return Ok(());
    };
    push_parameter(w, names, values, first)?;
    push_further(w, names, values, rest)
}

/// The header of a function.
#[tactic(auto, using(crate::proofs::Drafts::with_tokens_append))]
pub fn push_header(w: &mut Writer, names: &ShownNames, f: &Function) -> Result<(), AllocError>
    ensures { IfOk result (λ _. w.new ≡ with_tokens w.old (header_tokens (tree_with names.now f.now))) }
{
    w.word(b"define")?;
    w.words(f.lead.as_slice())?;
    w.integer_type(f.width)?;
    w.global(f.name.bytes())?;
    w.mark(b'(')?;
    push_parameters(w, names, f.values.as_slice(), f.params.as_slice())?;
    w.mark(b')')
}
