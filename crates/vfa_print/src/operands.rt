//! Operands with their types.

ghost use Rattle.std.specs.Prelude.{◌≡◌, ◌∷◌, ◌++◌, Bool, ℕ, List, IfOk};
ghost use Rattle.vfa_ir.specs.Lexemes.{Lexeme};
ghost use Rattle.vfa_ir.specs.declared.syntax.Literal.{Literal};
ghost use Rattle.vfa_ir.specs.Spelling.{comma, literal as literal_tokens, pair_type as pair_type_tokens, target as target_tokens, typed as typed_tokens, value as value_tokens};
ghost use Rattle.vfa_print.specs.Trees.{block_name_at, literal_tree, operand_tree};
ghost use Rattle.vfa_print.specs.Writing.{with_tokens};

use crate::shown::ShownNames;
use crate::writer::Writer;
use std::alloc::AllocError;
use vfa_ir::{BlockId, Operand};

/// `true` or `false`
pub fn push_bool(w: &mut Writer, is_true: bool) -> Result<(), AllocError>
    ensures { IfOk result (λ _. w.new ≡ with_tokens w.old (literal_tokens (Literal.Boolean is_true))) }
{
    if is_true {
        w.word(b"true")
    } else {
        w.word(b"false")
    }
}

/// A literal of the width, given by its bits.
pub fn push_literal(w: &mut Writer, width: u32, bits: u128) -> Result<(), AllocError>
    ensures { IfOk result (λ _. w.new ≡ with_tokens w.old (literal_tokens (literal_tree width bits))) }
{
    if width == 1 {
        return push_bool(w, bits == 1);
    }
    w.signed(width, bits)
}

/// An operand of the width.
pub fn push_operand(
    w: &mut Writer,
    names: &ShownNames,
    width: u32,
    operand: Operand,
) -> Result<(), AllocError>
    ensures { IfOk result (λ _. w.new ≡ with_tokens w.old (value_tokens (operand_tree names.now width operand))) }
{
    match operand {
        Operand::Value(v) => w.local(names.value(v)),
        Operand::Literal(bits) => push_literal(w, width, bits),
        Operand::Poison => w.word(b"poison"),
    }
}

/// A type and an operand of it.
pub fn push_typed(
    w: &mut Writer,
    names: &ShownNames,
    width: u32,
    operand: Operand,
) -> Result<(), AllocError>
    ensures { IfOk result (λ _. w.new ≡ with_tokens w.old (typed_tokens width (operand_tree names.now width operand))) }
{
    w.integer_type(width)?;
    push_operand(w, names, width, operand)
}

/// A type and two operands of it.
#[tactic(auto, using(crate::proofs::Drafts::with_tokens_append))]
pub fn push_both(
    w: &mut Writer,
    names: &ShownNames,
    width: u32,
    a: Operand,
    b: Operand,
) -> Result<(), AllocError>
    ensures { IfOk result (λ _. w.new ≡ with_tokens w.old
        (typed_tokens width (operand_tree names.now width a) ++ (comma ∷ value_tokens (operand_tree names.now width b)))) }
{
    push_typed(w, names, width, a)?;
    w.mark(b',')?;
    push_operand(w, names, width, b)
}

/// Two operands, each with its type.
#[tactic(auto, using(crate::proofs::Drafts::with_tokens_append))]
pub fn push_two_typed(
    w: &mut Writer,
    names: &ShownNames,
    width: u32,
    a: Operand,
    b: Operand,
) -> Result<(), AllocError>
    ensures { IfOk result (λ _. w.new ≡ with_tokens w.old
        (typed_tokens width (operand_tree names.now width a) ++ (comma ∷ typed_tokens width (operand_tree names.now width b)))) }
{
    push_typed(w, names, width, a)?;
    w.mark(b',')?;
    push_typed(w, names, width, b)
}

/// `{ iN, i1 }`
pub fn push_pair_type(w: &mut Writer, width: u32) -> Result<(), AllocError>
    ensures { IfOk result (λ _. w.new ≡ with_tokens w.old (pair_type_tokens width)) }
{
    w.mark(b'{')?;
    w.integer_type(width)?;
    w.mark(b',')?;
    w.integer_type(1)?;
    w.mark(b'}')
}

/// `label L`
pub fn push_target(w: &mut Writer, names: &ShownNames, to: BlockId) -> Result<(), AllocError>
    ensures { IfOk result (λ _. w.new ≡ with_tokens w.old (target_tokens (block_name_at names.now to))) }
{
    w.word(b"label")?;
    w.local(names.block(to))
}
