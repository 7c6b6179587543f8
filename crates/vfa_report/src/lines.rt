//! The lines of facts.

ghost use Rattle.std.specs.Prelude.{◌≡◌, ◌++◌, ℕ, List, IfOk, OnOk, codes};
ghost use Rattle.vfa_fact.specs.Cells.{IsCell};
ghost use Rattle.vfa_report.specs.FactLines.{cell_line, local_text, fact_lines, fact_line as fact_line_of};
ghost use Rattle.vfa_report.specs.Showing.{ShowFact};
ghost use Rattle.std.specs.List.{join_with_byte};
ghost use Rattle.std.specs.Str.{byte};

use crate::cells::push_cell;
use std::alloc::{AllocError, Global};
use vfa_fact::{Cell, Parts};
use vfa_ir::Name;
use vfa_print::push_name;
use vfa_xfer::AnyFact;

/// Puts the line of a cell last in a text. The part is what stands directly behind the name.
pub fn push_line(
    alloc: Global,
    text: &mut Vec<u8>,
    name: &[u8],
    part: &[u8],
    cell: &Cell,
) -> Result<(), AllocError>
    ensures line { IfOk result (λ _. text.new.items ≡ text.old.items ++ cell_line (local_text name.now ++ part.now) cell.now) }
    ensures cell { OnOk result (IsCell cell.now) }
{
    text.push(b'%')?;
    push_name(text, name)?;
    text.extend_from_slice(part)?;
    push_cell(alloc, text, cell)
}

/// The line of a fact of the value with this name: the name, the type, the bits from the top as `0`, `1` or `?`, the range,
/// and `never-poison` or `maybe-poison`, with a blank between each two. The range is `full`, or the first number and the one
/// that follows the last, as `[1,4)` for 1 to 3. Of poison alone the line is the name, the type and `only-poison`. A pair has
/// two lines, with `[0]` and `[1]` behind the name. The name has no sigil, quotes or escapes.
///
/// Of `x`, 1 or 3 at width 4 and never poison, it is `%x i4 00?1 [1,4) never-poison`.
pub fn fact_line(alloc: Global, name: &Name, fact: &AnyFact) -> Result<Vec<u8>, AllocError>
    ensures line { IfOk result (λ text. text.items ≡ fact_line_of name.now fact.now.parts) }
    ensures shows { IfOk result (λ text. (lines : List (List ℕ)) × (text.items ≡ join_with_byte (byte "\n") lines)
        × ShowFact (local_text name.now) fact.now.parts lines) }
{
    let mut text = Vec::new(alloc);
    match &fact.parts {
        Parts::One(cell) => {
            push_line(alloc, &mut text, name.bytes(), b"", cell)?;
            Ok(text)
        }
        Parts::Two(number, bit) => {
            push_line(alloc, &mut text, name.bytes(), b"[0]", number)?;
            text.push(b'\n')?;
            push_line(alloc, &mut text, name.bytes(), b"[1]", bit)?;
            Ok(text)
        }
    }
}
