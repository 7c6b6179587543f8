//! One pass over a module's text.

ghost use Rattle.std.specs.Prelude.{◌≡◌, ◌≤◌, ◌++◌, length, Ok, Err, IfOk, IfErr};
ghost use Rattle.std.specs.List.{AllByRecursion};
ghost use Rattle.vfa_ir.specs.Limits.{most_bytes};
ghost use Rattle.vfa_module.specs.Defines.{AreApart, Fails, IsPart};
ghost use Rattle.vfa_module.specs.Split as spec;

use crate::braces::closing_brace;
use crate::items::{Item, SplitFault};
use crate::lines::{define_of_line, is_clear, next_line};
use std::alloc::{AllocError, Global};

/// Splits a module's text into its defines and the lines between them. The items have the bytes of the text in order.
///
/// A line whose first word is `define`, with white space after it, begins a define. After the first global name the
/// first `{` outside of parentheses opens the body, and the `}` that matches it ends the define. The rest of that
/// brace's line is white space or a comment.
///
/// The first failure in text order decides. `Unclosed(n)` comes exactly where the define at offset `n` has no such end
/// before the text ends, `BadLine(n)` exactly where something else follows the brace that ends a define, on line
/// `n`, the brace's own.
///
/// `source_filename = "a"`, a line feed, `define i8 @f() { ret i8 0 }` and a line feed give the first line, the define
/// and the last line feed.
pub fn split(alloc: Global, bytes: &[u8]) -> Result<Vec<Item>, SplitFault>
    requires { length bytes.now ≤ most_bytes }
    ensures items { IfOk result (λ items. spec.split_of bytes.now ≡ Ok items.items) }
    ensures fault { IfErr result (λ fault. spec.MemoryOr fault (spec.split_of bytes.now ≡ Err fault)) }
    ensures cover { IfOk result (λ items. spec.Cover 0 (length bytes.now) items.items) }
    ensures parts { IfOk result (λ items. AllByRecursion (IsPart bytes.now) items.items) }
    ensures apart { IfOk result (λ items. AreApart items.items) }
    ensures cause { IfErr result (λ fault. Fails bytes.now fault) }
{
    let mut items = Vec::new(alloc);
    let mut copied = 0;
    let mut at = 0;
    let mut line = 1;
    while at < bytes.len() {
        let Some(start) = define_of_line(bytes, at) else {
            at = next_line(bytes, at);
            line += 1;
            continue;
        };
        let Some(brace) = closing_brace(bytes, start, line) else {
            return Err(SplitFault::Unclosed(start));
        };
        if !is_clear(&bytes[brace.end..]) {
            return Err(SplitFault::BadLine(brace.line));
        }
        push_lines(&mut items, copied, start)?;
        items.push(Item::Define {
            start,
            end: brace.end,
            line,
        })?;
        copied = brace.end;
        at = next_line(bytes, brace.end);
        line = brace.line + 1;
    }
    push_lines(&mut items, copied, bytes.len())?;
    Ok(items)
}

/// Adds the bytes between two offsets as lines, where there are any.
fn push_lines(items: &mut Vec<Item>, start: usize, end: usize) -> Result<(), AllocError>
    ensures { IfOk result (λ _. items.new.items ≡ items.old.items ++ spec.lines_between start end) }
{
    if start < end {
        items.push(Item::Lines { start, end })?;
    }
    Ok(())
}
