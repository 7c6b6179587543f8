//! The function whose comparison is told.

use std::alloc::Global;
use vfa_check::{Checked, accepted_may_be_checked, check};
use vfa_ir::Outside;
use vfa_lex::tokens;
use vfa_read::read_function;

/// How long a text may be.
const LONGEST: usize = 100000;

const TEXT: &[u8] = b"define i1 @f(i32 %x, i32 %y) {
entry:
  %c = icmp ult i32 %x, %y
  ret i1 %c
}";

/// The function of a text.
fn read(alloc: Global, text: &[u8]) -> Result<Checked, Outside> {
    accepted_may_be_checked();
    if text.len() > LONGEST {
        return Err(Outside::Memory);
    }
    let tokens = tokens(alloc, text)?;
    let read = read_function(alloc, text, tokens.as_slice())?;
    check(alloc, read.function, &read.lines)
}

/// A comparison of two names of width 32.
pub fn comparison(alloc: Global) -> Result<Checked, Outside> {
    read(alloc, TEXT)
}
