//! Functions that are numbered in text order.

ghost use Rattle.std.specs.Prelude.{◌≡◌, ◌≤◌, ◌^◌, [], ◌∷◌, ◌++◌, IfOk, length, map};
ghost use Rattle.vfa_mean.specs.Kept.{is_marked};
ghost use Rattle.vfa_mean.specs.Numbering as numbering;
ghost use Rattle.vfa_mean.specs.Numbering.{DefinesKeptOnce, MayBeNumbered, text_order};
ghost use Rattle.vfa_mean.specs.Refines.{Refines};
ghost use Rattle.vfa_mean.specs.Renaming as renaming;
ghost use Rattle.vfa_mean.specs.Renaming.{at_places, renamed_block, renamed_call};

use crate::copies::{copied_value, copied_words};
use crate::kept::{kept_calls, kept_numbers, kept_values};
use crate::numbering::numbering_refines;
use crate::places::Places;
use crate::renaming::Renaming;
use std::alloc::{AllocError, Global};
use vfa_ir::{Block, CallOp, Function, Items, Value};

/// The order of what is kept.
fn order_of(alloc: Global, f: &Function, keeps: &[bool]) -> Result<Renaming, AllocError>
    requires numbered { MayBeNumbered f.now (is_marked keeps.now) }
    requires once { DefinesKeptOnce f.now (is_marked keeps.now) }
    requires few { length f.now.blocks ≤ 2 ^ 32 }
    ensures { IfOk result (λ order. order ≡ text_order f.now (is_marked keeps.now)) }
{
    let numbers = kept_numbers(alloc, f, keeps)?;
    let values = kept_values(alloc, f, numbers.as_slice())?;
    let calls = kept_calls(alloc, f, numbers.as_slice())?;
    Ok(Renaming {
        values: Places::of(alloc, values, f.values.as_slice().len())?,
        blocks: Places::of(alloc, numbers, f.blocks.as_slice().len())?,
        calls: Places::of(alloc, calls, f.calls.as_slice().len())?,
    })
}

/// The value of an id, behind others.
fn push_value(
    alloc: Global,
    all: &mut Vec<Value>,
    values: &[Value],
    id: u32,
) -> Result<(), AllocError>
    ensures { IfOk result (λ _. all.new.items ≡ all.old.items ++ at_places values.now (id ∷ [])) }
{
    match values.get(id as usize) {
        Some(value) => {
            all.push(copied_value(alloc, value)?)?;
            Ok(())
        }
        None => Ok(()),
    }
}

/// The values of these ids.
fn values_at(alloc: Global, values: &[Value], ids: &[u32]) -> Result<Items<Value>, AllocError>
    ensures { IfOk result (λ all. all ≡ at_places values.now ids.now) }
{
    let mut all = Vec::new(alloc);
    'each: for id in ids {
        push_value(alloc, &mut all, values, *id)?;
    }
    Ok(Items(all))
}

/// The block of a number with its new numbers, behind others.
fn push_block(
    alloc: Global,
    all: &mut Vec<Block>,
    blocks: &[Block],
    order: &Renaming,
    number: u32,
) -> Result<(), AllocError>
    ensures { IfOk result (λ _.
        all.new.items ≡ all.old.items ++ map (renamed_block order.now) (at_places blocks.now (number ∷ []))) }
{
    match blocks.get(number as usize) {
        Some(block) => {
            all.push(order.block(alloc, block)?)?;
            Ok(())
        }
        None => Ok(()),
    }
}

/// The call of a place with the new numbers of its arguments, behind others.
fn push_call(
    alloc: Global,
    all: &mut Vec<CallOp>,
    calls: &[CallOp],
    order: &Renaming,
    place: u32,
) -> Result<(), AllocError>
    ensures { IfOk result (λ _.
        all.new.items ≡ all.old.items ++ map (renamed_call order.now) (at_places calls.now (place ∷ []))) }
{
    match calls.get(place as usize) {
        Some(call) => {
            all.push(order.call(alloc, call)?)?;
            Ok(())
        }
        None => Ok(()),
    }
}

/// The blocks of the order with their new numbers.
fn blocks_of(alloc: Global, blocks: &[Block], order: &Renaming) -> Result<Items<Block>, AllocError>
    ensures { IfOk result (λ all. all ≡ map (renamed_block order.now) (at_places blocks.now order.now.blocks)) }
{
    let mut all = Vec::new(alloc);
    'each: for number in order.blocks.numbers() {
        push_block(alloc, &mut all, blocks, order, *number)?;
    }
    Ok(Items(all))
}

/// The calls of the order with the new numbers of their arguments.
fn calls_of(alloc: Global, calls: &[CallOp], order: &Renaming) -> Result<Items<CallOp>, AllocError>
    ensures { IfOk result (λ all. all ≡ map (renamed_call order.now) (at_places calls.now order.now.calls)) }
{
    let mut all = Vec::new(alloc);
    'each: for place in order.calls.numbers() {
        push_call(alloc, &mut all, calls, order, *place)?;
    }
    Ok(Items(all))
}

/// The values of the order, its blocks and its calls with their new numbers, under the function's header.
fn renamed(alloc: Global, f: &Function, order: &Renaming) -> Result<Function, AllocError>
    ensures { IfOk result (λ g. g ≡ renaming.renamed order.now f.now) }
{
    let params = order.params(alloc, f.params.as_slice())?;
    let values = values_at(alloc, f.values.as_slice(), order.values.numbers())?;
    let blocks = blocks_of(alloc, f.blocks.as_slice(), order)?;
    let calls = calls_of(alloc, f.calls.as_slice(), order)?;
    Ok(Function {
        name: f.name.copied(alloc)?,
        lead: copied_words(alloc, &f.lead)?,
        width: f.width,
        params,
        tail: f.tail.copied(alloc)?,
        values,
        blocks,
        calls,
    })
}

/// The function with the marked blocks alone, numbered in text order: the parameters first, then the results block by
/// block, and the calls as they stand; values that nothing defines any more are gone. It and the function refine each
/// other. The entry is marked, and with a block those that its edges lead to. An error says that memory was wanting.
///
/// Of `define i8 @f(i8 %x)`, `entry: %a = add i8 %x, 1`, `br label %end`, `end: ret i8 %x` with ids 2 of %a and 0 of %x, in
/// the result %x is 0 and %a is 1.
pub fn numbered(alloc: Global, f: &Function, keeps: &[bool]) -> Result<Function, AllocError>
    requires numbered { MayBeNumbered f.now (is_marked keeps.now) }
    requires once { DefinesKeptOnce f.now (is_marked keeps.now) }
    requires few { length f.now.blocks ≤ 2 ^ 32 }
    ensures exact { IfOk result (λ g. g ≡ numbering.numbered f.now (is_marked keeps.now)) }
    ensures refines { IfOk result (λ g. Refines f.now g) }
{
    numbering_refines();
    let order = order_of(alloc, f, keeps)?;
    renamed(alloc, f, &order)
}
