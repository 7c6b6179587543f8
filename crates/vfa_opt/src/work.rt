//! The work on one item of a module.

ghost use Rattle.std.specs.Prelude.{◌≡◌, ◌≤◌, ◌<◌, ◌+◌, ◌-◌, ◌^◌, ◌↔◌, ℕ, List, length, IfOk, IsTrue};
ghost use Rattle.std.specs.List.{AllByRecursion};
ghost use Rattle.vfa_ir.specs.Tokens.{tokens_of, IsPlaced as IsToken};
ghost use Rattle.vfa_ir.specs.declared.reasons.Outside.TheVariants.{Memory};
ghost use Rattle.vfa_module.specs.declared.items.Item.TheVariants.{Define};
ghost use Rattle.vfa_opt.specs.Acceptance.{IsOutside, in_module as shown_reason, line_of};
ghost use Rattle.vfa_opt.specs.Module.{accepted, IsFunctionText, define_name as name_of_define};
ghost use Rattle.vfa_opt.specs.Sound.{IsSound};
ghost use Rattle.vfa_opt.specs.Works.{IsPlaced, IsRange, IsWorkOn, IsWorked};

use crate::acceptance::{accept, inside_is_checked};
use crate::defines::define_name;
use crate::printed::printed;
use crate::reported::reported;
use crate::writings::Writing;
use std::alloc::{AllocError, Global};
use vfa_check::Checked;
use vfa_ir::{Name, Outside, Token};
use vfa_lex::tokens;
use vfa_module::Item;

/// A function that stays as it is.
#[derive(Debug, Drop)]
pub struct Carried {
    /// Its first global name.
    pub name: Name,
    /// Why it stays. Lines are those of the module.
    pub reason: Outside,
}

/// What is made of an item of a module.
#[derive(Debug, Drop)]
pub enum Worked {
    /// Bytes outside of all defines.
    Copied {
        /// The offset of the first byte.
        start: usize,
        /// The offset after the last byte.
        end: usize,
    },
    /// An accepted function.
    Printed {
        /// The text for it.
        text: Vec<u8>,
        /// Its name.
        name: Name,
    },
    /// A define that stays as it is.
    Carried {
        /// The offset of the word `define`.
        start: usize,
        /// The offset after the closing brace.
        end: usize,
        /// Its function.
        function: Carried,
    },
}

/// The text that is written for an accepted function.
fn function_text(alloc: Global, writing: Writing, f: &Checked) -> Result<Vec<u8>, AllocError>
    requires few { length f.now.values ≤ 2 ^ 26 }
    ensures text { IfOk result (λ text. IsFunctionText writing f.now text.items) }
    ensures sound { IfOk result (λ _. (text : List ℕ) → IsFunctionText writing f.now text → IsSound writing f.now text) }
{
    match writing {
        Writing::Optimised => printed(alloc, f),
        Writing::Reports => reported(alloc, f),
        Writing::Nothing => Ok(Vec::new(alloc)),
    }
}

/// The text that is written for an accepted function, and its name.
fn function_work(alloc: Global, writing: Writing, f: &Checked) -> Result<Worked, AllocError>
    requires few { length f.now.values ≤ 2 ^ 26 }
    ensures { (input : List ℕ) → IfOk result (IsWorkOn writing input (accepted f.now)) }
{
    let text = function_text(alloc, writing, f)?;
    Ok(Worked::Printed {
        text,
        name: f.function().name.copied(alloc)?,
    })
}

/// The line of the module that a line is within a define which begins on the first one.
fn line_in_module(first: u32, line: u32) -> u32
    requires { first + line < 2 ^ 32 }
    ensures { result ≡ first + line - 1 }
{
    (first + line).saturating_sub(1)
}

/// The reason with the line of the module.
fn in_module(first: u32, reason: Outside) -> Outside
    requires { first + line_of reason < 2 ^ 32 }
    ensures { result ≡ shown_reason first reason }
{
    match reason {
        Outside::Shape(line) => Outside::Shape(line_in_module(first, line)),
        Outside::Types(line) => Outside::Types(line_in_module(first, line)),
        other => other,
    }
}

/// The function of a define that begins on the first line and stays as it is.
fn carried_function(
    alloc: Global,
    text: &[u8],
    all: &[Token],
    first: u32,
    reason: Outside,
) -> Result<Carried, AllocError>
    requires tokens { all.now ≡ tokens_of text.now }
    requires lines { first + line_of reason < 2 ^ 32 }
    ensures name { IfOk result (λ function. function.name ≡ name_of_define text.now) }
    ensures reason { IfOk result (λ function. function.reason ≡ shown_reason first reason) }
{
    let name = define_name(alloc, text, all)?;
    Ok(Carried {
        name,
        reason: in_module(first, reason),
    })
}

fn is_memory(reason: &Outside) -> bool
    ensures { IsTrue result ↔ (reason.now ≡ Memory) }
{
    matches!(reason, Outside::Memory)
}

/// The line of a reason is one of the text.
fn line_is_within(text: &[u8], all: &[Token], reason: &Outside)
    requires tokens { all.now ≡ tokens_of text.now }
    requires placed { AllByRecursion (IsToken text.now 0 1) all.now }
    requires reason { IsOutside text.now reason.now }
    ensures { line_of reason.now ≤ length text.now + 1 }
{}

/// The work on a define.
fn define_work(
    alloc: Global,
    writing: Writing,
    bytes: &[u8],
    start: usize,
    end: usize,
    line: u32,
) -> Result<Worked, AllocError>
    requires range { IsRange bytes.now start end }
    requires limit { length bytes.now ≤ 16777216 }
    requires line { line ≤ 16777217 }
    ensures { IfOk result (IsWorked writing bytes.now (Define start end line)) }
{
    inside_is_checked();
    let text = &bytes[start..end];
    let all = tokens(alloc, text)?;
    match accept(alloc, text, &all) {
        Ok(f) => {
            // A long define has many tokens, and they are not read again.
            drop(all);
            function_work(alloc, writing, &f)
        }
        Err(reason) => {
            if is_memory(&reason) {
                return Err(AllocError);
            }
            line_is_within(text, &all, &reason);
            let function = carried_function(alloc, text, &all, line, reason)?;
            Ok(Worked::Carried {
                start,
                end,
                function,
            })
        }
    }
}

/// The work on an item of a module's text: the text for it, the name of an accepted function, and a function that
/// stays as it is.
pub fn work(
    alloc: Global,
    writing: Writing,
    bytes: &[u8],
    item: &Item,
) -> Result<Worked, AllocError>
    requires place { IsPlaced bytes.now item.now }
    requires limit { length bytes.now ≤ 16777216 }
    ensures { IfOk result (IsWorked writing bytes.now item.now) }
{
    match *item {
        Item::Lines { start, end } => Ok(Worked::Copied { start, end }),
        Item::Define { start, end, line } => define_work(alloc, writing, bytes, start, end, line),
    }
}
