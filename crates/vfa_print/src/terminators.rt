//! Terminators.

ghost use Rattle.std.specs.Prelude.{◌≡◌, ◌++◌, ℕ, codes, flat_map, map, IfOk};
ghost use Rattle.vfa_ir.specs.declared.functions.Term.{Term as TermOf};
ghost use Rattle.vfa_ir.specs.declared.operations.BlockId.{BlockId as BlockIdOf};
ghost use Rattle.vfa_ir.specs.Spelling.{switch_case as case_tokens, typed as typed_tokens};
ghost use Rattle.vfa_print.specs.Layout.{indented, switch_head as first_tokens, text_line, terminator_text};
ghost use Rattle.vfa_print.specs.Trees.{block_name_at, case_tree, operand_tree, term_tree};
ghost use Rattle.vfa_print.specs.Writing.{with_tokens};

use crate::operands::{push_literal, push_target, push_typed};
use crate::shown::ShownNames;
use crate::writer::Writer;
use std::alloc::AllocError;
use vfa_ir::{BlockId, Operand, Term};

fn push_return(w: &mut Writer, names: &ShownNames, width: u32, a: Operand) -> Result<(), AllocError>
    ensures { IfOk result (λ _. w.new.text ≡ w.old.text ++ terminator_text (term_tree names.now (TermOf.Ret width a))) }
{
    w.bytes(b"  ")?;
    w.word(b"ret")?;
    push_typed(w, names, width, a)?;
    w.line_feed()
}

fn push_branch(w: &mut Writer, names: &ShownNames, to: BlockId) -> Result<(), AllocError>
    ensures { IfOk result (λ _. w.new.text ≡ w.old.text ++ terminator_text (term_tree names.now (TermOf.Br to))) }
{
    w.bytes(b"  ")?;
    w.word(b"br")?;
    push_target(w, names, to)?;
    w.line_feed()
}

fn push_condition(
    w: &mut Writer,
    names: &ShownNames,
    c: Operand,
    yes: BlockId,
    no: BlockId,
) -> Result<(), AllocError>
    ensures { IfOk result (λ _. w.new.text ≡ w.old.text ++ terminator_text (term_tree names.now (TermOf.CondBr c yes no))) }
{
    w.bytes(b"  ")?;
    w.word(b"br")?;
    push_typed(w, names, 1, c)?;
    w.mark(b',')?;
    push_target(w, names, yes)?;
    w.mark(b',')?;
    push_target(w, names, no)?;
    w.line_feed()
}

/// The first line of a switch, up to the bracket before its cases.
#[tactic(auto, using(crate::proofs::Drafts::with_tokens_append))]
fn push_first(
    w: &mut Writer,
    names: &ShownNames,
    width: u32,
    on: Operand,
    other: BlockId,
) -> Result<(), AllocError>
    ensures { IfOk result (λ _. w.new ≡ with_tokens w.old
        (first_tokens width (typed_tokens width (operand_tree names.now width on)) (block_name_at names.now other))) }
{
    w.word(b"switch")?;
    push_typed(w, names, width, on)?;
    w.mark(b',')?;
    push_target(w, names, other)?;
    w.mark(b'[')
}

#[tactic(auto, using(crate::proofs::Drafts::with_tokens_append))]
fn push_case(
    w: &mut Writer,
    names: &ShownNames,
    width: u32,
    number: u128,
    to: BlockId,
) -> Result<(), AllocError>
    ensures { IfOk result (λ _. w.new ≡ with_tokens w.old (case_tokens width (case_tree names.now width (number, to)))) }
{
    w.integer_type(width)?;
    push_literal(w, width, number)?;
    w.mark(b',')?;
    push_target(w, names, to)
}

fn push_case_line(
    w: &mut Writer,
    names: &ShownNames,
    width: u32,
    number: u128,
    to: BlockId,
) -> Result<(), AllocError>
    ensures { IfOk result (λ _. w.new.text ≡ w.old.text ++ text_line (codes "    ") (case_tokens width (case_tree names.now width (number, to)))) }
{
    w.bytes(b"    ")?;
    push_case(w, names, width, number, to)?;
    w.line_feed()
}

fn push_cases(
    w: &mut Writer,
    names: &ShownNames,
    width: u32,
    cases: &[(u128, BlockId)],
) -> Result<(), AllocError>
    ensures { IfOk result (λ _. w.new.text ≡ w.old.text
        ++ flat_map (λ c. text_line (codes "    ") (case_tokens width c)) (map (case_tree names.now width) cases.now)) }
{
    'cases: for case in cases {
        push_case_line(w, names, width, case.0, case.1)?;
    }
    Ok(())
}

fn push_first_line(
    w: &mut Writer,
    names: &ShownNames,
    width: u32,
    on: Operand,
    other: BlockId,
) -> Result<(), AllocError>
    ensures { IfOk result (λ _. w.new.text ≡ w.old.text
        ++ indented (first_tokens width (typed_tokens width (operand_tree names.now width on)) (block_name_at names.now other))) }
{
    w.bytes(b"  ")?;
    push_first(w, names, width, on, other)?;
    w.line_feed()
}

fn push_switch(
    w: &mut Writer,
    names: &ShownNames,
    width: u32,
    on: Operand,
    other: BlockId,
    cases: &[(u128, BlockId)],
) -> Result<(), AllocError>
    ensures { IfOk result (λ _. w.new.text ≡ w.old.text ++ terminator_text (term_tree names.now (TermOf.Switch width on other cases.now))) }
{
    push_first_line(w, names, width, on, other)?;
    push_cases(w, names, width, cases)?;
    w.bytes(b"  ]\n")
}

/// A terminator.
pub fn push_term(w: &mut Writer, names: &ShownNames, term: &Term) -> Result<(), AllocError>
    ensures { IfOk result (λ _. w.new.text ≡ w.old.text ++ terminator_text (term_tree names.now term.now)) }
{
    match term {
        Term::Ret { width, a } => push_return(w, names, *width, *a),
        Term::Br(to) => push_branch(w, names, *to),
        Term::CondBr { c, yes, no } => push_condition(w, names, *c, *yes, *no),
        Term::Switch {
            width,
            on,
            other,
            cases,
        } => push_switch(w, names, *width, *on, *other, cases.as_slice()),
        Term::Unreachable => w.bytes(b"  unreachable\n"),
    }
}
