//! Questions about each name at each block of generated functions.

ghost use Rattle.std.specs.Prelude.{◌≤◌, length};

use super::questions::{NOT_DEFINED, answer, by_table, entry_of};
use super::read;
use std::alloc::{AllocError, Global};
use std::process::Abort;
use vfa_check::Checked;
use vfa_ir::{BlockId, ValueId};
use vfa_opt::generated;

/// The seed of the text.
const SEED: u32 = 7;

/// How many of its functions are asked about.
const FUNCTIONS: u32 = 20;

/// Two parameters, forty results and a comparison.
const NAMES: u32 = 43;

const BLOCKS: u32 = 3;

/// What is to be answered: the table's entry, where the name is defined on every walk to the block.
fn wanted(alloc: Global, f: &Checked, v: ValueId, b: BlockId) -> Result<Vec<u8>, AllocError> {
    if !f.defined(b, v) {
        return Ok(NOT_DEFINED.to_vec(alloc)?);
    }
    by_table(alloc, f, v, entry_of(b.0))
}

/// Asks about each name where the block is entered.
fn check_block(rt: &impl Abort, alloc: Global, f: &Checked, b: u32) {
    'names: for v in 0..NAMES {
        let found = answer(alloc, f, ValueId(v), entry_of(b)).expect(rt, "memory");
        let want = wanted(alloc, f, ValueId(v), BlockId(b)).expect(rt, "memory");
        assert_eq!(rt; found.as_slice(), want.as_slice());
    }
}

/// Asks about each name at each block of the function that the text is.
fn check_function(rt: &impl Abort, alloc: Global, text: &[u8]) {
    let f = read(alloc, text).expect(rt, "a function");
    'blocks: for b in 0..BLOCKS {
        check_block(rt, alloc, &f, b);
    }
}

/// How long the text is up to its first closing brace, with it.
fn first_function(text: &[u8]) -> usize
    ensures { result ≤ length text.now }
{
    match text.iter().position(|byte| *byte == b'}') {
        Some(brace) => brace.saturating_add(1).min(text.len()),
        None => text.len(),
    }
}

#[test]
fn each_answer_about_a_generated_function_is_the_one_of_its_table(rt: HostRuntime) {
    let alloc = rt.alloc();
    let text = generated(alloc, SEED).expect(&rt, "memory");
    let mut rest = text.as_slice();
    'functions: for _ in 0..FUNCTIONS {
        let (function, later) = rest.split_at(first_function(rest));
        check_function(&rt, alloc, function);
        rest = later;
    }
}
