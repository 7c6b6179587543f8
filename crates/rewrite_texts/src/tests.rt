//! What rewriting by facts alone leaves of functions; bits that nobody asks for stay. The texts that are expected were computed
//! from the rules by a program of its own.

ghost use Rattle.std.specs.Prelude.{◌≤◌, ◌^◌, IsTrue, length};

mod effects;
mod operations;
mod walks;

use std::alloc::Global;
use std::process::Abort;
use std::test::Fail;
use vfa_check::{Checked, accepted_may_be_checked, check};
use vfa_ir::{MOST_BYTES, MOST_NAMES, Outside};
use vfa_lex::tokens;
use vfa_print::print_function;
use vfa_read::read_function;
use vfa_rewrite::rewrite;
use vfa_solve::solve;
use vfa_xfer::AnyFact;

/// The function of a text.
fn read(alloc: Global, text: &[u8]) -> Result<Checked, Outside> {
    accepted_may_be_checked();
    if text.len() > MOST_BYTES {
        return Err(Outside::Memory);
    }
    let tokens = tokens(alloc, text)?;
    let read = read_function(alloc, text, tokens.as_slice())?;
    check(alloc, read.function, &read.lines)
}

/// Whether a function has as few names as rewriting asks for.
fn has_few_names(f: &Checked) -> bool
    ensures { IsTrue result → length f.now.values ≤ 2 ^ 26 }
{
    f.function().values.as_slice().len() <= MOST_NAMES
}

/// The text of what rewriting leaves of a function.
fn rewritten(alloc: Global, text: &[u8]) -> Result<Vec<u8>, Outside> {
    let f = read(alloc, text)?;
    if !has_few_names(&f) {
        return Err(Outside::Memory);
    }
    let table = solve::<AnyFact>(alloc, &f)?;
    let simpler = rewrite(alloc, &f, &table)?;
    let printed = print_function(alloc, simpler.function())?;
    Ok(printed)
}

/// Rewriting makes the second text of the first.
fn check_rewritten(rt: &impl Abort, alloc: Global, text: &[u8], want: &[u8]) -> Result<(), Fail> {
    let found = rewritten(alloc, text)?;
    assert_eq!(rt; found.as_slice(), want);
    Ok(())
}
