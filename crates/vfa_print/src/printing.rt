//! The text of a function.

ghost use Rattle.std.specs.Prelude.{◌≡◌, ◌+◌, ◌<◌, ◌^◌, ◌++◌, length, IfOk};
ghost use Rattle.vfa_ir.specs.Printable.{IsPrintable};
ghost use Rattle.vfa_ir.specs.Reads.{Fit, Reads};
ghost use Rattle.vfa_ir.specs.declared.functions.Lines.{Lines};
ghost use Rattle.vfa_print.specs.Layout.{sentence_text, tail_text};
ghost use Rattle.vfa_print.specs.Trees.{function_text, tree_with};

use crate::blocks::push_blocks;
use crate::headers::push_header;
use crate::shown::{ShownNames, shown_names};
use crate::writer::Writer;
use std::alloc::{AllocError, Global};
use vfa_ir::Function;

/// The bytes between the parameters and the body, after a blank.
fn push_tail(w: &mut Writer, tail: &[u8]) -> Result<(), AllocError>
    ensures { IfOk result (λ _. w.new.text ≡ w.old.text ++ tail_text tail.now) }
{
    if tail.is_empty() {
        return Ok(());
    }
    w.bytes(b" ")?;
    w.bytes(tail)
}

/// The text of a function, with these names.
fn text_with(alloc: Global, names: &ShownNames, f: &Function) -> Result<Vec<u8>, AllocError>
    ensures { IfOk result (λ text. text.items ≡ sentence_text (tree_with names.now f.now) f.now.tail) }
{
    let mut w = Writer::new(alloc);
    push_header(&mut w, names, f)?;
    push_tail(&mut w, f.tail.bytes())?;
    w.bytes(b" {\n")?;
    let calls = f.calls.as_slice();
    let blocks = f.blocks.as_slice();
    push_blocks(&mut w, names, calls, blocks)?;
    w.bytes(b"}")?;
    Ok(w.into_text())
}

/// The text of a function, whose ids are places in text order.
pub(crate) fn text_of(alloc: Global, f: &Function) -> Result<Vec<u8>, AllocError>
    ensures { IfOk result (λ text. IsPrintable f.now → text.items ≡ function_text f.now) }
{
    let names = shown_names(alloc, f)?;
    text_with(alloc, &names, f)
}

/// The lengths of lists are below 2 ^ 64.
fn has_few_names(f: &Function)
    ensures { length f.now.values + length f.now.blocks < 10 ^ 64 }
{
    let _values = f.values.as_slice().len();
    let _blocks = f.blocks.as_slice().len();
}

/// The text of a function that some text reads as (`docs/LANGUAGE.md`). It reads again as the function, so printing what
/// was printed and read changes nothing.
///
/// The function of `define i8 @f(i8 %x) { ret i8 255 }` gives `define i8 @f(i8 %x) {`, `  ret i8 -1` and `}`, with a line
/// feed between two lines.
pub fn print_function(alloc: Global, f: &Function) -> Result<Vec<u8>, AllocError>
    requires { Fit f.now }
    ensures text { IfOk result (λ text. text.items ≡ function_text f.now) }
    ensures again { IfOk result (λ text. (lines : Lines) × Reads text.items f.now lines) }
{
    has_few_names(f);
    text_of(alloc, f)
}
