//! A function with the operands, edges and entries that what was found out leaves: all lines that runs may come to stay, each as
//! the operation that does its work.

ghost use Rattle.std.specs.Prelude.{◌≡◌, ℕ, Bool, false, IfOk, None, OnOk, Some, length, slice_get, slice_index_or};
ghost use Rattle.std.specs.Option.{option_or};
ghost use Rattle.vfa_ir.specs.Defined.{line_count};
ghost use Rattle.vfa_mean.specs.Kept.{is_marked};
ghost use Rattle.vfa_mean.specs.Moments.{At};
ghost use Rattle.vfa_cfg.specs.Sizes.{HasFewBlocks};
ghost use Rattle.vfa_walk.specs.Kept.{AreStates, kept_entries};
ghost use Rattle.vfa_xfer.specs.AnyFacts.{fact_type, IsAnyFact};
ghost use Rattle.vfa_rules.specs.Uses.{first_found};
ghost use Rattle.vfa_rewrite.specs.ByFacts.{fact_state, findings_of};
ghost use Rattle.vfa_rewrite.specs.Chains.{itself, other_for};
ghost use Rattle.vfa_rewrite.specs.Found.{AreKeptOf};
ghost use Rattle.vfa_rewrite.specs.Making.{call_place, first_marks};
ghost use Rattle.vfa_rewrite.specs.Putting.{IsReadyToPut, call_at, call_in, call_within, with_body};
ghost use Rattle.vfa_rewrite.specs.Rewritten.{block_left, emptied, rewritten, rewritten_block, term_left, with_numbers};
ghost use Rattle.vfa_rewrite.specs.Walked.{EndsWith};

use crate::copies::{copied_name, copied_params, copied_values, copied_words};
use crate::found::BlockFindings;
use crate::laws::findings_fit;
use crate::putting_calls::{all_calls, no_calls};
use crate::putting_lines::put_lines;
use crate::putting_phis::put_phis;
use crate::putting_terms::{has_left, put_term};
use crate::ready::ready;
use std::alloc::{AllocError, Global};
use vfa_check::Checked;
use vfa_ir::{Block, BlockId, CallOp, Function, Items, Operand, Term};
use vfa_print::fit_is_printable;
use vfa_walk::{Cursor, Table};
use vfa_xfer::AnyFact;

/// What is left of a terminator: `unreachable`, where no run comes to it.
fn put_end(
    alloc: Global,
    f: &Function,
    table: &Table<AnyFact>,
    others: &[Option<Operand>],
    b: BlockId,
    block: &Block,
    end: Option<Cursor<AnyFact>>,
    left: &[bool],
) -> Result<Term, AllocError>
    requires ready { IsReadyToPut f.now (kept_entries table.now) others.now }
    requires block { slice_get f.now.blocks b.0 ≡ Some block.now }
    requires end { EndsWith f.now (fact_state f.now (kept_entries table.now) (At b.0 (line_count f.now b.0))) end }
    requires left { (k : ℕ) → slice_index_or left.now k false ≡ (findings_of f.now (kept_entries table.now)).left b.0 k }
    ensures { IfOk result (λ t. (reached : ℕ → Bool) → t ≡ term_left (first_marks f.now (findings_of f.now (kept_entries table.now)) reached) b.0 block.now) }
{
    let _ = table;
    let _ = b;
    match end {
        Some(cursor) => put_term(alloc, f, Some(cursor.state()), others, left, &block.term),
        None => Ok(Term::Unreachable),
    }
}

/// A block that is gone.
fn emptied(alloc: Global, block: &Block) -> Result<Block, AllocError>
    ensures { IfOk result (λ b. b ≡ emptied block.now) }
{
    Ok(Block {
        name: copied_name(alloc, &block.name)?,
        phis: Items(Vec::new(alloc)),
        insts: Items(Vec::new(alloc)),
        term: Term::Unreachable,
    })
}

/// What is left of a block that is reached. The calls that it makes are noted.
fn put_reached(
    alloc: Global,
    checked: &Checked,
    f: &Function,
    table: &Table<AnyFact>,
    kept: &[BlockFindings],
    reached: &[bool],
    others: &[Option<Operand>],
    b: BlockId,
    block: &Block,
    left: &mut Vec<usize>,
    calls: &mut Vec<Option<CallOp>>,
) -> Result<Block, AllocError>
    requires same { f.now ≡ checked.now }
    requires ready { IsReadyToPut f.now (kept_entries table.now) others.now }
    requires block { slice_get f.now.blocks b.0 ≡ Some block.now }
    requires states { AreStates fact_type IsAnyFact f.now table.now }
    requires kept { AreKeptOf f.now (findings_of f.now (kept_entries table.now)) kept.now }
    requires room { length left.old.items ≡ length f.now.blocks }
    requires count { length calls.old.items ≡ length f.now.calls }
    ensures room { OnOk result (length left.new.items ≡ length left.old.items) }
    ensures count { OnOk result (length calls.new.items ≡ length calls.old.items) }
    ensures block { IfOk result (λ g. g ≡
        rewritten_block f.now (first_marks f.now (findings_of f.now (kept_entries table.now)) (is_marked reached.now)) b.0 block.now) }
    ensures calls { OnOk result ((k : ℕ) → slice_index_or calls.new.items k None ≡
        option_or (slice_index_or calls.old.items k None)
        (first_found itself (with_numbers (call_in f.now (findings_of f.now (kept_entries table.now)) k b.0) 0 block.now.insts))) }
{
    let found = &kept[b.0 as usize];
    let phis = put_phis(
        alloc, checked, f, table, kept, reached, others, b, block, left,
    )?;
    let lines = put_lines(
        alloc,
        checked,
        f,
        table,
        others,
        b,
        block,
        found.lines.as_slice(),
        calls,
    )?;
    let term = put_end(
        alloc,
        f,
        table,
        others,
        b,
        block,
        lines.end,
        found.left.as_slice(),
    )?;
    Ok(Block {
        name: copied_name(alloc, &block.name)?,
        phis,
        insts: Items(lines.insts),
        term,
    })
}

/// What is left of a block. The calls that it makes are noted.
fn put_block(
    alloc: Global,
    checked: &Checked,
    f: &Function,
    table: &Table<AnyFact>,
    kept: &[BlockFindings],
    reached: &[bool],
    others: &[Option<Operand>],
    b: BlockId,
    block: &Block,
    left: &mut Vec<usize>,
    calls: &mut Vec<Option<CallOp>>,
) -> Result<Block, AllocError>
    requires same { f.now ≡ checked.now }
    requires ready { IsReadyToPut f.now (kept_entries table.now) others.now }
    requires block { slice_get f.now.blocks b.0 ≡ Some block.now }
    requires states { AreStates fact_type IsAnyFact f.now table.now }
    requires kept { AreKeptOf f.now (findings_of f.now (kept_entries table.now)) kept.now }
    requires room { length left.old.items ≡ length f.now.blocks }
    requires count { length calls.old.items ≡ length f.now.calls }
    ensures room { OnOk result (length left.new.items ≡ length left.old.items) }
    ensures count { OnOk result (length calls.new.items ≡ length calls.old.items) }
    ensures block { IfOk result (λ g. g ≡
        block_left f.now (first_marks f.now (findings_of f.now (kept_entries table.now)) (is_marked reached.now)) b.0 block.now) }
    ensures calls { OnOk result ((k : ℕ) → slice_index_or calls.new.items k None ≡
        option_or (slice_index_or calls.old.items k None)
        (call_within f.now (findings_of f.now (kept_entries table.now)) (is_marked reached.now) k b.0 block.now)) }
{
    if !has_left(reached, b.0 as usize) {
        return emptied(alloc, block);
    }
    put_reached(
        alloc, checked, f, table, kept, reached, others, b, block, left, calls,
    )
}

/// What is left of each block. The calls that they make are noted.
fn put_blocks(
    alloc: Global,
    checked: &Checked,
    f: &Function,
    table: &Table<AnyFact>,
    kept: &[BlockFindings],
    reached: &[bool],
    others: &[Option<Operand>],
    calls: &mut Vec<Option<CallOp>>,
) -> Result<Items<Block>, AllocError>
    requires same { f.now ≡ checked.now }
    requires few { HasFewBlocks f.now }
    requires ready { IsReadyToPut f.now (kept_entries table.now) others.now }
    requires states { AreStates fact_type IsAnyFact f.now table.now }
    requires kept { AreKeptOf f.now (findings_of f.now (kept_entries table.now)) kept.now }
    requires count { length calls.old.items ≡ length f.now.calls }
    requires none { (k : ℕ) → slice_index_or calls.old.items k None ≡ None }
    ensures blocks { IfOk result (λ all. all ≡
        with_numbers (block_left f.now (first_marks f.now (findings_of f.now (kept_entries table.now)) (is_marked reached.now))) 0 f.now.blocks) }
    ensures calls { OnOk result ((k : ℕ) → slice_index_or calls.new.items k None ≡
        call_at f.now (findings_of f.now (kept_entries table.now)) k
        (call_place f.now (findings_of f.now (kept_entries table.now)) (is_marked reached.now) k)) }
{
    let mut left: Vec<usize> = vec![in alloc; 0; f.blocks.as_slice().len()]?;
    let mut all: Vec<Block> = Vec::new(alloc);
    let mut b: u32 = 0;
    'all: for block in f.blocks.as_slice() {
        let put = put_block(
            alloc,
            checked,
            f,
            table,
            kept,
            reached,
            others,
            BlockId(b),
            block,
            &mut left,
            calls,
        )?;
        all.push(put)?;
        b += 1;
    }
    Ok(Items(all))
}

/// The function with other blocks and calls.
fn with_body(
    alloc: Global,
    f: &Function,
    blocks: Items<Block>,
    calls: Items<CallOp>,
) -> Result<Function, AllocError>
    ensures { IfOk result (λ g. g ≡ with_body f.now blocks calls) }
{
    Ok(Function {
        name: f.name.copied(alloc)?,
        lead: copied_words(alloc, &f.lead)?,
        width: f.width,
        params: copied_params(alloc, &f.params)?,
        tail: f.tail.copied(alloc)?,
        values: copied_values(alloc, &f.values)?,
        blocks,
        calls,
    })
}

/// What is left of the function.
fn put_all(
    alloc: Global,
    checked: &Checked,
    f: &Function,
    table: &Table<AnyFact>,
    kept: &[BlockFindings],
    reached: &[bool],
    others: &[Option<Operand>],
) -> Result<Function, AllocError>
    requires same { f.now ≡ checked.now }
    requires few { HasFewBlocks f.now }
    requires ready { IsReadyToPut f.now (kept_entries table.now) others.now }
    requires states { AreStates fact_type IsAnyFact f.now table.now }
    requires kept { AreKeptOf f.now (findings_of f.now (kept_entries table.now)) kept.now }
    ensures { IfOk result (λ h. h ≡ rewritten f.now (first_marks f.now (findings_of f.now (kept_entries table.now)) (is_marked reached.now))) }
{
    let mut calls = no_calls(alloc, f.calls.as_slice().len())?;
    let blocks = put_blocks(alloc, checked, f, table, kept, reached, others, &mut calls)?;
    let calls = all_calls(alloc, f, calls.as_slice())?;
    with_body(alloc, f, blocks, calls)
}

/// A checked function with the operands, edges and entries that what was found out leaves: all lines that runs may come to stay, each
/// as the operation that does its work. Calls and values keep their numbers, and a block that is not reached is empty. An error says
/// that memory was wanting.
pub(crate) fn put_in(
    alloc: Global,
    checked: &Checked,
    table: &Table<AnyFact>,
    kept: &[BlockFindings],
    reached: &[bool],
    others: &[Option<Operand>],
) -> Result<Function, AllocError>
    requires states { AreStates fact_type IsAnyFact checked.now table.now }
    requires kept { AreKeptOf checked.now (findings_of checked.now (kept_entries table.now)) kept.now }
    requires others { (n : ℕ) → slice_index_or others.now n None ≡ other_for checked.now (findings_of checked.now (kept_entries table.now)) n }
    ensures { IfOk result (λ h. h ≡
        rewritten checked.now (first_marks checked.now (findings_of checked.now (kept_entries table.now)) (is_marked reached.now))) }
{
    findings_fit();
    fit_is_printable();
    put_all(alloc, checked, ready(checked), table, kept, reached, others)
}
