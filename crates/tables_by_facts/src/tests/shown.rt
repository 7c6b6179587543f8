//! States as texts: a line for each fact.

use std::alloc::{AllocError, Global};
use vfa_cond::State;
use vfa_ir::{Function, ValueId, shown_value};
use vfa_report::fact_line;
use vfa_xfer::AnyFact;

/// How many names the functions of these tests have at most.
pub const NAMES: u32 = 64;

/// The line of a name's fact; empty where it has none.
pub fn line_of(
    alloc: Global,
    f: &Function,
    state: &State<AnyFact>,
    v: ValueId,
) -> Result<Vec<u8>, AllocError> {
    if v.0 as usize >= f.values.as_slice().len() {
        return Ok(Vec::new(alloc));
    }
    match state.fact(v) {
        Some(fact) => fact_line(alloc, &shown_value(alloc, f, v)?, &fact),
        None => Ok(Vec::new(alloc)),
    }
}

/// A line for each name that has a fact, in text order.
pub fn facts(alloc: Global, f: &Function, state: &State<AnyFact>) -> Result<Vec<u8>, AllocError> {
    let mut text = Vec::new(alloc);
    'names: for v in 0..NAMES {
        let line = line_of(alloc, f, state, ValueId(v))?;
        if !line.is_empty() {
            text.extend_from_slice(line.as_slice())?;
            text.push(b'\n')?;
        }
    }
    Ok(text)
}

/// A line for each of the first names whose fact is another one than before.
pub fn changed_facts(
    alloc: Global,
    f: &Function,
    names: u32,
    before: &State<AnyFact>,
    after: &State<AnyFact>,
) -> Result<Vec<u8>, AllocError> {
    let mut text = Vec::new(alloc);
    'names: for v in 0..names {
        let old = line_of(alloc, f, before, ValueId(v))?;
        let line = line_of(alloc, f, after, ValueId(v))?;
        if line.as_slice() != old.as_slice() {
            text.extend_from_slice(line.as_slice())?;
            text.push(b'\n')?;
        }
    }
    Ok(text)
}
