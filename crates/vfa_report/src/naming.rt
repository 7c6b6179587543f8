//! What a state says of names, as lines.

ghost use Rattle.std.specs.Prelude.{◌≡◌, ◌++◌, codes, flat_map, IfOk};
ghost use Rattle.vfa_cond.specs.States.{known};
ghost use Rattle.vfa_print.specs.Layout.{line_feed};
ghost use Rattle.vfa_report.specs.FactLines.{cell_line, fact_lines, local_text};
ghost use Rattle.vfa_report.specs.Writing.{lines_at, result_lines_at};

use crate::lines::push_line;
use crate::shown::ShownNames;
use std::alloc::{AllocError, Global};
use vfa_cond::State;
use vfa_fact::{Cell, Parts};
use vfa_ir::{Param, Phi, ValueId};
use vfa_xfer::AnyFact;

/// Puts the whole line of a cell last in a text, with what stands before and behind the name.
fn push_cell_line(
    alloc: Global,
    text: &mut Vec<u8>,
    before: &[u8],
    name: &[u8],
    part: &[u8],
    cell: &Cell,
) -> Result<(), AllocError>
    ensures { IfOk result (λ _. text.new.items ≡ text.old.items ++ (before.now ++ (cell_line (local_text name.now ++ part.now) cell.now ++ line_feed))) }
{
    text.extend_from_slice(before)?;
    push_line(alloc, text, name, part, cell)?;
    text.push(b'\n')?;
    Ok(())
}

/// Puts the line or the two lines of a fact last in a text.
fn push_fact(
    alloc: Global,
    text: &mut Vec<u8>,
    before: &[u8],
    name: &[u8],
    fact: &AnyFact,
) -> Result<(), AllocError>
    ensures { IfOk result (λ _. text.new.items ≡ text.old.items
        ++ flat_map (λ line. before.now ++ (line ++ line_feed)) (fact_lines (local_text name.now) fact.now.parts)) }
{
    match &fact.parts {
        Parts::One(cell) => {
            push_cell_line(alloc, text, before, name, b"", cell)?;
            Ok(())
        }
        Parts::Two(number, bit) => {
            push_cell_line(alloc, text, before, name, b"[0]", number)?;
            push_cell_line(alloc, text, before, name, b"[1]", bit)?;
            Ok(())
        }
    }
}

/// Puts what a state says of a name last in a text.
fn push_known(
    alloc: Global,
    text: &mut Vec<u8>,
    before: &[u8],
    names: &ShownNames,
    state: &State<AnyFact>,
    v: ValueId,
) -> Result<(), AllocError>
    ensures { IfOk result (λ _. text.new.items ≡ text.old.items ++ lines_at names.now before.now (known state.now) v.0) }
{
    let Some(fact) = state.fact(v) else {
        return Ok(());
    };
    push_fact(alloc, text, before, names.value(v), &fact)?;
    Ok(())
}

/// Puts what a state says of parameters last in a text.
pub fn push_parameters(
    alloc: Global,
    text: &mut Vec<u8>,
    names: &ShownNames,
    state: &State<AnyFact>,
    params: &[Param],
) -> Result<(), AllocError>
    ensures { IfOk result (λ _. text.new.items ≡ text.old.items
        ++ flat_map (λ p. lines_at names.now (codes "  param ") (known state.now) p.value.0) params.now) }
{
    'params: for param in params {
        push_known(alloc, text, b"  param ", names, state, param.value)?;
    }
    Ok(())
}

/// Puts what a state says of names that a block uses last in a text.
pub fn push_names(
    alloc: Global,
    text: &mut Vec<u8>,
    names: &ShownNames,
    state: &State<AnyFact>,
    used: &[ValueId],
) -> Result<(), AllocError>
    ensures { IfOk result (λ _. text.new.items ≡ text.old.items
        ++ flat_map (λ v. lines_at names.now (codes "    in ") (known state.now) v.0) used.now) }
{
    'used: for v in used {
        push_known(alloc, text, b"    in ", names, state, *v)?;
    }
    Ok(())
}

/// Puts what a state says of the results of phis last in a text.
pub fn push_phis(
    alloc: Global,
    text: &mut Vec<u8>,
    names: &ShownNames,
    state: &State<AnyFact>,
    phis: &[Phi],
) -> Result<(), AllocError>
    ensures { IfOk result (λ _. text.new.items ≡ text.old.items
        ++ flat_map (λ p. lines_at names.now (codes "    def ") (known state.now) p.result.0) phis.now) }
{
    'phis: for phi in phis {
        push_known(alloc, text, b"    def ", names, state, phi.result)?;
    }
    Ok(())
}

/// Puts what a state says of the result of an instruction, if it has one, last in a text.
pub fn push_result(
    alloc: Global,
    text: &mut Vec<u8>,
    names: &ShownNames,
    state: &State<AnyFact>,
    result_of: Option<ValueId>,
) -> Result<(), AllocError>
    ensures { IfOk result (λ _. text.new.items ≡ text.old.items ++ result_lines_at names.now (known state.now) result_of) }
{
    let Some(v) = result_of else {
        return Ok(());
    };
    push_known(alloc, text, b"    def ", names, state, v)?;
    Ok(())
}
