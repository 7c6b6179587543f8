//! The lines of phis and of other instructions.

ghost use Rattle.std.specs.Prelude.{◌≡◌, ◌∷◌, ◌++◌, [], codes, flat_map, map, option_map, Option, Some, IfOk};
ghost use Rattle.std.specs.List.{join_by};
ghost use Rattle.vfa_ir.specs.Spelling.{comma, incoming as incoming_tokens, instruction as instruction_tokens, phi as phi_tokens, result as result_tokens};
ghost use Rattle.vfa_print.specs.Layout.{indented};
ghost use Rattle.vfa_print.specs.Trees.{entry_tree, inst_tree, name_at, phi_tree};
ghost use Rattle.vfa_print.specs.Writing.{with_tokens};

use crate::operands::push_operand;
use crate::operations::push_operation;
use crate::shown::ShownNames;
use crate::writer::Writer;
use std::alloc::AllocError;
use vfa_ir::{BlockId, CallOp, Inst, Operand, Phi, ValueId};

/// `%r =`, where there is a result.
fn push_result(
    w: &mut Writer,
    names: &ShownNames,
    defined: Option<ValueId>,
) -> Result<(), AllocError>
    ensures { IfOk result (λ _. w.new ≡ with_tokens w.old (result_tokens (option_map (λ v. name_at names.now.values v.0) defined))) }
{
    let Some(v) = defined else {
        return Ok(());
    };
    w.local(names.value(v))?;
    w.mark(b'=')
}

#[tactic(auto, using(crate::proofs::Drafts::with_tokens_append))]
fn push_inst(
    w: &mut Writer,
    names: &ShownNames,
    calls: &[CallOp],
    inst: &Inst,
) -> Result<(), AllocError>
    ensures { IfOk result (λ _. w.new ≡ with_tokens w.old (instruction_tokens (inst_tree names.now calls.now inst.now))) }
{
    push_result(w, names, inst.result)?;
    push_operation(w, names, calls, inst.op)
}

/// `[ V , %b ]`
#[tactic(auto, using(crate::proofs::Drafts::with_tokens_append))]
fn push_entry(
    w: &mut Writer,
    names: &ShownNames,
    width: u32,
    value: Operand,
    from: BlockId,
) -> Result<(), AllocError>
    ensures { IfOk result (λ _. w.new ≡ with_tokens w.old (incoming_tokens (entry_tree names.now width (value, from)))) }
{
    w.mark(b'[')?;
    push_operand(w, names, width, value)?;
    w.mark(b',')?;
    w.local(names.block(from))?;
    w.mark(b']')
}

/// The operands of a phi after the first.
#[tactic(auto, using(crate::proofs::Drafts::with_tokens_append))]
fn push_further(
    w: &mut Writer,
    names: &ShownNames,
    width: u32,
    rest: &[(Operand, BlockId)],
) -> Result<(), AllocError>
    ensures { IfOk result (λ _. w.new ≡ with_tokens w.old
        (flat_map (λ i. comma ∷ incoming_tokens i) (map (entry_tree names.now width) rest.now))) }
{
    'entries: for entry in rest {
        w.mark(b',')?;
        push_entry(w, names, width, entry.0, entry.1)?;
    }
    Ok(())
}

/// The operands of a phi.
#[tactic(auto, using(crate::proofs::Drafts::with_tokens_append))]
fn push_entries(
    w: &mut Writer,
    names: &ShownNames,
    width: u32,
    entries: &[(Operand, BlockId)],
) -> Result<(), AllocError>
    ensures { IfOk result (λ _. w.new ≡ with_tokens w.old
        (join_by incoming_tokens (comma ∷ []) (map (entry_tree names.now width) entries.now))) }
{
    let Some((first, rest)) = entries.split_first() else {
        return Ok(());
    };
    push_entry(w, names, width, first.0, first.1)?;
    push_further(w, names, width, rest)
}

fn push_phi(w: &mut Writer, names: &ShownNames, phi: &Phi) -> Result<(), AllocError>
    ensures { IfOk result (λ _. w.new ≡ with_tokens w.old (phi_tokens (phi_tree names.now phi.now))) }
{
    w.local(names.value(phi.result))?;
    w.mark(b'=')?;
    w.word(b"phi")?;
    w.integer_type(phi.width)?;
    push_entries(w, names, phi.width, phi.entries.as_slice())
}

fn push_phi_line(w: &mut Writer, names: &ShownNames, phi: &Phi) -> Result<(), AllocError>
    ensures { IfOk result (λ _. w.new.text ≡ w.old.text ++ indented (phi_tokens (phi_tree names.now phi.now))) }
{
    w.bytes(b"  ")?;
    push_phi(w, names, phi)?;
    w.line_feed()
}

fn push_inst_line(
    w: &mut Writer,
    names: &ShownNames,
    calls: &[CallOp],
    inst: &Inst,
) -> Result<(), AllocError>
    ensures { IfOk result (λ _. w.new.text ≡ w.old.text ++ indented (instruction_tokens (inst_tree names.now calls.now inst.now))) }
{
    w.bytes(b"  ")?;
    push_inst(w, names, calls, inst)?;
    w.line_feed()
}

/// The phis of a block.
pub fn push_phis(w: &mut Writer, names: &ShownNames, phis: &[Phi]) -> Result<(), AllocError>
    ensures { IfOk result (λ _. w.new.text ≡ w.old.text
        ++ flat_map (λ p. indented (phi_tokens p)) (map (phi_tree names.now) phis.now)) }
{
    'phis: for phi in phis {
        push_phi_line(w, names, phi)?;
    }
    Ok(())
}

/// The other instructions of a block.
pub fn push_insts(
    w: &mut Writer,
    names: &ShownNames,
    calls: &[CallOp],
    insts: &[Inst],
) -> Result<(), AllocError>
    ensures { IfOk result (λ _. w.new.text ≡ w.old.text
        ++ flat_map (λ i. indented (instruction_tokens i)) (map (inst_tree names.now calls.now) insts.now)) }
{
    'insts: for inst in insts {
        push_inst_line(w, names, calls, inst)?;
    }
    Ok(())
}
