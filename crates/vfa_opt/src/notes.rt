//! Notes on the functions that stay as they are, and the messages of refusals.

ghost use Rattle.std.specs.Prelude.{◌≡◌, ◌++◌, codes, decimal, IfOk, OnOk};
ghost use Rattle.vfa_print.specs.Layout.{name_text, line_feed};
ghost use Rattle.vfa_opt.specs.Module.{kind_text, local_text, reason_text, named_reason, note_text};
ghost use Rattle.vfa_opt.specs.Refusals.{refusal_text};

use crate::refusals::Refused;
use crate::work::Carried;
use std::alloc::{AllocError, Global};
use vfa_ir::{Kind, Outside, push_decimal};
use vfa_print::push_name;

fn push_local(text: &mut Vec<u8>, name: &[u8]) -> Result<(), AllocError>
    ensures { OnOk result (text.new.items ≡ text.old.items ++ local_text name.now) }
{
    text.push(b'%')?;
    push_name(text, name)
}

fn push_kind(text: &mut Vec<u8>, kind: Kind) -> Result<(), AllocError>
    ensures { OnOk result (text.new.items ≡ text.old.items ++ kind_text kind) }
{
    match kind {
        Kind::Names => text.extend_from_slice(b"names"),
        Kind::Blocks => text.extend_from_slice(b"blocks"),
        Kind::Cases => text.extend_from_slice(b"cases"),
    }
}

fn push_numbered(
    alloc: Global,
    text: &mut Vec<u8>,
    words: &[u8],
    number: u64,
) -> Result<(), AllocError>
    ensures { OnOk result (text.new.items ≡ text.old.items ++ (words.now ++ decimal number)) }
{
    text.extend_from_slice(words)?;
    push_decimal(alloc, text, u128::from(number))
}

fn push_named(text: &mut Vec<u8>, words: &[u8], name: &[u8]) -> Result<(), AllocError>
    ensures { OnOk result (text.new.items ≡ text.old.items ++ (words.now ++ local_text name.now)) }
{
    text.extend_from_slice(words)?;
    push_local(text, name)
}

fn push_undefined(text: &mut Vec<u8>, name: &[u8], block: &[u8]) -> Result<(), AllocError>
    ensures { OnOk result (text.new.items ≡ text.old.items ++ (codes "Undefined " ++ (local_text name.now ++ (codes " at " ++ local_text block.now)))) }
{
    push_named(text, b"Undefined ", name)?;
    push_named(text, b" at ", block)
}

fn push_too_many(text: &mut Vec<u8>, kind: Kind) -> Result<(), AllocError>
    ensures { OnOk result (text.new.items ≡ text.old.items ++ (codes "TooMany " ++ kind_text kind)) }
{
    text.extend_from_slice(b"TooMany ")?;
    push_kind(text, kind)
}

fn push_reason(alloc: Global, text: &mut Vec<u8>, reason: &Outside) -> Result<(), AllocError>
    ensures { OnOk result (text.new.items ≡ text.old.items ++ reason_text reason.now) }
{
    match reason {
        Outside::Shape(line) => push_numbered(alloc, text, b"Shape at line ", u64::from(*line)),
        Outside::TooMany(kind) => push_too_many(text, *kind),
        Outside::Duplicate(name) => push_named(text, b"Duplicate ", name.bytes()),
        Outside::Unknown(name) => push_named(text, b"Unknown ", name.bytes()),
        Outside::Types(line) => push_numbered(alloc, text, b"Type at line ", u64::from(*line)),
        Outside::Phi(block) => push_named(text, b"Phi in ", block.bytes()),
        Outside::Undefined(name, block) => push_undefined(text, name.bytes(), block.bytes()),
        Outside::Memory => Ok(()),
    }
}

/// Puts a function's name last, these words and the reason why it stays as it is.
fn push_named_reason(
    alloc: Global,
    text: &mut Vec<u8>,
    name: &[u8],
    between: &[u8],
    reason: &Outside,
) -> Result<(), AllocError>
    ensures { OnOk result (text.new.items ≡ text.old.items ++ named_reason name.now between.now reason.now) }
{
    text.push(b'@')?;
    push_name(text, name)?;
    text.extend_from_slice(between)?;
    push_reason(alloc, text, reason)?;
    text.extend_from_slice(b"\n")
}

/// Puts the note on a function last that stays as it is.
pub fn push_note(alloc: Global, text: &mut Vec<u8>, function: &Carried) -> Result<(), AllocError>
    ensures { OnOk result (text.new.items ≡ text.old.items ++ note_text function.now) }
{
    text.extend_from_slice(b"note: ")?;
    push_named_reason(
        alloc,
        text,
        function.name.bytes(),
        b" carried: ",
        &function.reason,
    )
}

fn push_function(text: &mut Vec<u8>, words: &[u8], name: &[u8]) -> Result<(), AllocError>
    ensures { OnOk result (text.new.items ≡ text.old.items ++ (words.now ++ (name_text name.now ++ line_feed))) }
{
    text.extend_from_slice(words)?;
    push_name(text, name)?;
    text.extend_from_slice(b"\n")
}

fn push_missing(text: &mut Vec<u8>, words: &[u8], name: &[u8]) -> Result<(), AllocError>
    ensures { OnOk result (text.new.items ≡ text.old.items ++ (words.now ++ (local_text name.now ++ line_feed))) }
{
    push_named(text, words, name)?;
    text.extend_from_slice(b"\n")
}

fn push_not_defined(text: &mut Vec<u8>, value: &[u8], block: &[u8]) -> Result<(), AllocError>
    ensures { OnOk result (text.new.items ≡ text.old.items
        ++ (codes "refused: NotDefined " ++ (local_text value.now ++ (codes " at " ++ (local_text block.now ++ line_feed))))) }
{
    push_named(text, b"refused: NotDefined ", value)?;
    push_missing(text, b" at ", block)
}

fn push_strict(
    alloc: Global,
    text: &mut Vec<u8>,
    name: &[u8],
    reason: &Outside,
) -> Result<(), AllocError>
    ensures { OnOk result (text.new.items ≡ text.old.items ++ (codes "refused: Strict " ++ named_reason name.now (codes ": ") reason.now)) }
{
    text.extend_from_slice(b"refused: Strict ")?;
    push_named_reason(alloc, text, name, b": ", reason)
}

fn push_place(alloc: Global, text: &mut Vec<u8>, words: &[u8], place: u64) -> Result<(), AllocError>
    ensures { OnOk result (text.new.items ≡ text.old.items ++ (words.now ++ (decimal place ++ line_feed))) }
{
    push_numbered(alloc, text, words, place)?;
    text.extend_from_slice(b"\n")
}

fn push_refusal(alloc: Global, text: &mut Vec<u8>, refused: &Refused) -> Result<(), AllocError>
    ensures { OnOk result (text.new.items ≡ text.old.items ++ refusal_text refused.now) }
{
    match refused {
        Refused::Unclosed(start) => push_place(
            alloc,
            text,
            b"refused: Unclosed at byte ",
            *start as u64,
        ),
        Refused::BadLine(line) => push_place(
            alloc,
            text,
            b"refused: BadLine at line ",
            u64::from(*line),
        ),
        Refused::DuplicateFunction(name) => push_function(
            text,
            b"refused: DuplicateFunction @",
            name.bytes(),
        ),
        Refused::Strict(name, reason) => push_strict(alloc, text, name.bytes(), reason),
        Refused::NoFunction(name) => push_function(text, b"refused: NoFunction @", name.bytes()),
        Refused::NoValue(name) => push_missing(text, b"refused: NoValue ", name.bytes()),
        Refused::NoBlock(name) => push_missing(text, b"refused: NoBlock ", name.bytes()),
        Refused::NotDefined(value, block) => push_not_defined(text, value.bytes(), block.bytes()),
        Refused::Memory => Ok(()),
    }
}

/// The message of a refusal, a line; empty for want of memory.
///
/// For `BadLine(3)` it is `refused: BadLine at line 3` and a line feed.
pub fn refusal_message(alloc: Global, refused: &Refused) -> Result<Vec<u8>, AllocError>
    ensures { IfOk result (λ text. text.items ≡ refusal_text refused.now) }
{
    let mut text = Vec::new(alloc);
    push_refusal(alloc, &mut text, refused)?;
    Ok(text)
}
