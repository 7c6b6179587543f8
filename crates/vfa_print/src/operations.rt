//! The operations of instructions.

ghost use Rattle.std.specs.Prelude.{◌≡◌, [], map, IfOk};
ghost use Rattle.vfa_ir.specs.declared.operations.Op.{Op as OpOf};
ghost use Rattle.vfa_ir.specs.Lexemes.{word as word_lexeme};
ghost use Rattle.vfa_ir.specs.Spelling.{operation as operation_tokens, same_sign, strict_argument};
ghost use Rattle.vfa_print.specs.Trees.{cast_flag_words, flag_word, flag_words, op_tree, strict_tree};
ghost use Rattle.vfa_print.specs.Writing.{with_tokens};

use crate::calls::push_call;
use crate::operands::{push_bool, push_both, push_pair_type, push_two_typed, push_typed};
use crate::shown::ShownNames;
use crate::writer::Writer;
use std::alloc::AllocError;
use vfa_ir::{
    Bin, CallOp, Cast, CastFlags, Flags, Fun1, Fun2, Keyword, Op, Operand, Over, Pred, ValueId,
};

/// A flag, where it is set.
fn push_flag(w: &mut Writer, flag: bool, text: &[u8]) -> Result<(), AllocError>
    ensures { IfOk result (λ _. w.new ≡ with_tokens w.old (map word_lexeme (flag_word flag text.now))) }
{
    if flag {
        return w.word(text);
    }
    Ok(())
}

#[tactic(auto, using(crate::proofs::Drafts::words_append))]
fn push_flags(w: &mut Writer, flags: Flags) -> Result<(), AllocError>
    ensures { IfOk result (λ _. w.new ≡ with_tokens w.old (map word_lexeme (flag_words flags))) }
{
    push_flag(w, flags.nuw, b"nuw")?;
    push_flag(w, flags.nsw, b"nsw")?;
    push_flag(w, flags.exact, b"exact")?;
    push_flag(w, flags.disjoint, b"disjoint")
}

#[tactic(auto, using(crate::proofs::Drafts::words_append))]
fn push_cast_flags(w: &mut Writer, flags: CastFlags) -> Result<(), AllocError>
    ensures { IfOk result (λ _. w.new ≡ with_tokens w.old (map word_lexeme (cast_flag_words flags))) }
{
    push_flag(w, flags.nuw, b"nuw")?;
    push_flag(w, flags.nsw, b"nsw")?;
    push_flag(w, flags.nneg, b"nneg")
}

#[tactic(auto, using(crate::proofs::Drafts::with_tokens_append))]
fn push_binary(
    w: &mut Writer,
    names: &ShownNames,
    bin: Bin,
    flags: Flags,
    width: u32,
    a: Operand,
    b: Operand,
) -> Result<(), AllocError>
    ensures { IfOk result (λ _. w.new ≡ with_tokens w.old (operation_tokens (op_tree names.now [] (OpOf.Bin bin flags width a b)))) }
{
    w.word(bin.word())?;
    push_flags(w, flags)?;
    push_both(w, names, width, a, b)
}

/// `samesign`, where it is set.
fn push_same_sign(w: &mut Writer, samesign: bool) -> Result<(), AllocError>
    ensures { IfOk result (λ _. w.new ≡ with_tokens w.old (same_sign samesign)) }
{
    if samesign {
        return w.word(b"samesign");
    }
    Ok(())
}

#[tactic(auto, using(crate::proofs::Drafts::with_tokens_append))]
fn push_compare(
    w: &mut Writer,
    names: &ShownNames,
    pred: Pred,
    samesign: bool,
    width: u32,
    a: Operand,
    b: Operand,
) -> Result<(), AllocError>
    ensures { IfOk result (λ _. w.new ≡ with_tokens w.old (operation_tokens (op_tree names.now [] (OpOf.Icmp pred samesign width a b)))) }
{
    w.word(b"icmp")?;
    push_same_sign(w, samesign)?;
    w.word(pred.word())?;
    push_both(w, names, width, a, b)
}

#[tactic(auto, using(crate::proofs::Drafts::with_tokens_append))]
fn push_select(
    w: &mut Writer,
    names: &ShownNames,
    width: u32,
    c: Operand,
    a: Operand,
    b: Operand,
) -> Result<(), AllocError>
    ensures { IfOk result (λ _. w.new ≡ with_tokens w.old (operation_tokens (op_tree names.now [] (OpOf.Select width c a b)))) }
{
    w.word(b"select")?;
    push_typed(w, names, 1, c)?;
    w.mark(b',')?;
    push_two_typed(w, names, width, a, b)
}

#[tactic(auto, using(crate::proofs::Drafts::with_tokens_append))]
fn push_cast(
    w: &mut Writer,
    names: &ShownNames,
    cast: Cast,
    flags: CastFlags,
    from: u32,
    to: u32,
    a: Operand,
) -> Result<(), AllocError>
    ensures { IfOk result (λ _. w.new ≡ with_tokens w.old (operation_tokens (op_tree names.now [] (OpOf.Cast cast flags from to a)))) }
{
    w.word(cast.word())?;
    push_cast_flags(w, flags)?;
    push_typed(w, names, from, a)?;
    w.word(b"to")?;
    w.integer_type(to)
}

fn push_freeze(w: &mut Writer, names: &ShownNames, width: u32, a: Operand) -> Result<(), AllocError>
    ensures { IfOk result (λ _. w.new ≡ with_tokens w.old (operation_tokens (op_tree names.now [] (OpOf.Freeze width a)))) }
{
    w.word(b"freeze")?;
    push_typed(w, names, width, a)
}

fn push_extract(
    w: &mut Writer,
    names: &ShownNames,
    width: u32,
    pair: ValueId,
    index: u32,
) -> Result<(), AllocError>
    ensures { IfOk result (λ _. w.new ≡ with_tokens w.old (operation_tokens (op_tree names.now [] (OpOf.Part width pair index)))) }
{
    w.word(b"extractvalue")?;
    push_pair_type(w, width)?;
    w.local(names.value(pair))?;
    w.mark(b',')?;
    w.number(index)
}

#[tactic(auto, using(crate::proofs::Drafts::with_tokens_append))]
fn push_two(
    w: &mut Writer,
    names: &ShownNames,
    fun: Fun2,
    width: u32,
    a: Operand,
    b: Operand,
) -> Result<(), AllocError>
    ensures { IfOk result (λ _. w.new ≡ with_tokens w.old (operation_tokens (op_tree names.now [] (OpOf.Two fun width a b)))) }
{
    w.word(b"call")?;
    w.integer_type(width)?;
    w.callee(fun.word(), width)?;
    w.mark(b'(')?;
    push_two_typed(w, names, width, a, b)?;
    w.mark(b')')
}

/// The second argument of `abs`, `ctlz` and `cttz`.
fn push_strict(w: &mut Writer, fun: Fun1, strict: bool) -> Result<(), AllocError>
    ensures { IfOk result (λ _. w.new ≡ with_tokens w.old (strict_argument (strict_tree fun strict))) }
{
    if let Fun1::Ctpop = fun {
        return Ok(());
    }
    w.mark(b',')?;
    w.integer_type(1)?;
    push_bool(w, strict)
}

#[tactic(auto, using(crate::proofs::Drafts::with_tokens_append))]
fn push_one(
    w: &mut Writer,
    names: &ShownNames,
    fun: Fun1,
    width: u32,
    a: Operand,
    strict: bool,
) -> Result<(), AllocError>
    ensures { IfOk result (λ _. w.new ≡ with_tokens w.old (operation_tokens (op_tree names.now [] (OpOf.One fun width a strict)))) }
{
    w.word(b"call")?;
    w.integer_type(width)?;
    w.callee(fun.word(), width)?;
    w.mark(b'(')?;
    push_typed(w, names, width, a)?;
    push_strict(w, fun, strict)?;
    w.mark(b')')
}

#[tactic(auto, using(crate::proofs::Drafts::with_tokens_append))]
fn push_over(
    w: &mut Writer,
    names: &ShownNames,
    over: Over,
    width: u32,
    a: Operand,
    b: Operand,
) -> Result<(), AllocError>
    ensures { IfOk result (λ _. w.new ≡ with_tokens w.old (operation_tokens (op_tree names.now [] (OpOf.Over over width a b)))) }
{
    w.word(b"call")?;
    push_pair_type(w, width)?;
    w.callee(over.word(), width)?;
    w.mark(b'(')?;
    push_two_typed(w, names, width, a, b)?;
    w.mark(b')')
}

#[tactic(auto, using(crate::proofs::Drafts::with_tokens_append))]
fn push_assume(w: &mut Writer, names: &ShownNames, c: Operand) -> Result<(), AllocError>
    ensures { IfOk result (λ _. w.new ≡ with_tokens w.old (operation_tokens (op_tree names.now [] (OpOf.Assume c)))) }
{
    w.word(b"call")?;
    w.word(b"void")?;
    w.global(b"llvm.assume")?;
    w.mark(b'(')?;
    push_typed(w, names, 1, c)?;
    w.mark(b')')
}

/// An operation of a function with these calls.
pub fn push_operation(
    w: &mut Writer,
    names: &ShownNames,
    calls: &[CallOp],
    op: Op,
) -> Result<(), AllocError>
    ensures { IfOk result (λ _. w.new ≡ with_tokens w.old (operation_tokens (op_tree names.now calls.now op))) }
{
    match op {
        Op::Bin {
            bin,
            flags,
            width,
            a,
            b,
        } => push_binary(w, names, bin, flags, width, a, b),
        Op::Icmp {
            pred,
            samesign,
            width,
            a,
            b,
        } => push_compare(w, names, pred, samesign, width, a, b),
        Op::Select { width, c, a, b } => push_select(w, names, width, c, a, b),
        Op::Cast {
            cast,
            flags,
            from,
            to,
            a,
        } => push_cast(w, names, cast, flags, from, to, a),
        Op::Freeze { width, a } => push_freeze(w, names, width, a),
        Op::Two { fun, width, a, b } => push_two(w, names, fun, width, a, b),
        Op::One {
            fun,
            width,
            a,
            strict,
        } => push_one(w, names, fun, width, a, strict),
        Op::Over { over, width, a, b } => push_over(w, names, over, width, a, b),
        Op::Part { width, pair, index } => push_extract(w, names, width, pair, index),
        Op::Assume { c } => push_assume(w, names, c),
        Op::Call { width, call } => push_call(w, names, calls, width, call),
    }
}
