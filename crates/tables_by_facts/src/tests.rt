//! What narrowing makes of states of facts, the entry states of blocks by tables of facts, and answers to questions. The facts that are expected
//! were computed from their definitions by a program of its own.

mod conditions;
mod depths;
mod entries;
mod generated;
mod narrowing;
mod predicates;
mod questions;
mod rounds;
mod shown;
mod states;
mod texts;

use std::alloc::Global;
use vfa_check::{Checked, accepted_may_be_checked, check};
use vfa_ir::Outside;
use vfa_lex::tokens;
use vfa_read::read_function;

/// How long a text may be.
const LONGEST: usize = 100000;

/// The function of a text.
fn read(alloc: Global, text: &[u8]) -> Result<Checked, Outside> {
    accepted_may_be_checked();
    if text.len() > LONGEST {
        return Err(Outside::Memory);
    }
    let tokens = tokens(alloc, text)?;
    let read = read_function(alloc, text, tokens.as_slice())?;
    check(alloc, read.function, &read.lines)
}
