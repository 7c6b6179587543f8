//! The text that `self` works on, and what it prints.

mod draws;
mod functions;
mod lines;

ghost use Rattle.std.specs.Prelude.{◌≡◌, ◌≤◌, ◌^◌, ◌++◌, length, IfOk, OnOk};
ghost use Rattle.vfa_opt.specs.Generated.{generated_text, summary_line, summary_text};

use crate::generator::draws::Draws;
use crate::generator::functions::push_function;
use std::alloc::{AllocError, Global};
use vfa_ir::push_decimal;

/// The functions of the text.
const FUNCTIONS: u32 = 256;

/// The text of 256 functions that are drawn from a seed.
pub fn generated(alloc: Global, seed: u32) -> Result<Vec<u8>, AllocError>
    ensures text { IfOk result (λ text. text.items ≡ generated_text seed) }
    ensures limit { IfOk result (λ text. length text.items ≤ 2 ^ 24) }
{
    let mut text = Vec::new(alloc);
    let mut draws = Draws {
        state: u64::from(seed),
    };
    push_function(alloc, &mut draws, &mut text, 0)?;
    'functions: for number in 1..FUNCTIONS {
        text.extend_from_slice(b"\n\n")?;
        push_function(alloc, &mut draws, &mut text, number)?;
    }
    text.push(b'\n')?;
    Ok(text)
}

/// Puts a line of a word and a number last.
fn push_summary_line(
    alloc: Global,
    text: &mut Vec<u8>,
    word: &[u8],
    number: u64,
    unit: &[u8],
) -> Result<(), AllocError>
    ensures { OnOk result (text.new.items ≡ text.old.items ++ summary_line word.now number unit.now) }
{
    text.extend_from_slice(word)?;
    text.push(b' ')?;
    push_decimal(alloc, text, u128::from(number))?;
    text.extend_from_slice(unit)?;
    text.extend_from_slice(b"\n")
}

/// The lines that `self` prints: the seed, how many functions there are, how many bytes were read and printed, and how
/// many functions stay as they are.
pub fn summary(
    alloc: Global,
    seed: u32,
    read: usize,
    printed: usize,
    carried: usize,
) -> Result<Vec<u8>, AllocError>
    ensures { IfOk result (λ text. text.items ≡ summary_text seed read printed carried) }
{
    let mut text = Vec::new(alloc);
    push_summary_line(alloc, &mut text, b"seed", u64::from(seed), b"")?;
    push_summary_line(alloc, &mut text, b"functions", u64::from(FUNCTIONS), b"")?;
    push_summary_line(alloc, &mut text, b"read", read as u64, b" bytes")?;
    push_summary_line(alloc, &mut text, b"printed", printed as u64, b" bytes")?;
    push_summary_line(alloc, &mut text, b"carried", carried as u64, b"")?;
    Ok(text)
}
