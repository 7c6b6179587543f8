//! The names that the values and the blocks of a function are shown by.

ghost use Rattle.std.specs.Prelude.{◌≡◌, ◌<◌, ◌-◌, ◌^◌, [], None, Some, MatchOption, IfOk, bytes_eq, position};
ghost use Rattle.vfa_ir.specs.declared.numbering.Local.{Local as LocalOf};
ghost use Rattle.vfa_ir.specs.Printable.{IsPrintable};
ghost use Rattle.vfa_ir.specs.Resolution.{Scope};
ghost use Rattle.vfa_ir.specs.Shown.{name_of as shown_name_of};
ghost use Rattle.vfa_print.specs.Numbered.{name_or_number, next_number, with_name};
ghost use Rattle.vfa_print.specs.Trees.{block_name_at, name_at, shown_scope};

use std::alloc::{AllocError, Global};
use std::marker::Model;
use vfa_ir::{BlockId, Function, Local, Name, ValueId, locals};

/// The names that values and blocks are shown by, in text order. Contracts see what they mean.
#[derive(Drop)]
pub struct ShownNames {
    values: Vec<Name>,
    blocks: Vec<Name>,
}

impl Model for ShownNames {
    ghost Value = { Scope };

    ghost view = { λ n. record { values = n.values.items; blocks = n.blocks.items } };
}

impl ShownNames {
    fn new(alloc: Global) -> ShownNames
        ensures { result ≡ record { values = []; blocks = [] } }
    {
        ShownNames {
            values: Vec::new(alloc),
            blocks: Vec::new(alloc),
        }
    }

    fn push(&mut self, local: Local, name: Name) -> Result<(), AllocError>
        ensures { IfOk result (λ _. self.new ≡ with_name self.old local name) }
    {
        match local {
            Local::Value(_) => self.values.push(name)?,
            Local::Block(_) => self.blocks.push(name)?,
        }
        Ok(())
    }

    /// The name of a value, or an empty one where there is none.
    pub fn value(&self, v: ValueId) -> &[u8]
        ensures { result.now ≡ name_at self.now.values v.0 }
    {
        match self.values.get(v.0 as usize) {
            Some(name) => name.bytes(),
            None => &[],
        }
    }

    /// The name of a block, or an empty one where there is none.
    pub fn block(&self, b: BlockId) -> &[u8]
        ensures { result.now ≡ block_name_at self.now b }
    {
        match self.blocks.get(b.0 as usize) {
            Some(name) => name.bytes(),
            None => &[],
        }
    }

    /// The place of the first value of a name.
    pub fn value_named(&self, name: &[u8]) -> Option<usize>
        ensures { result ≡ position (bytes_eq name.now) self.now.values }
    {
        place_of(&self.values, name)
    }

    /// The place of the first block of a name.
    pub fn block_named(&self, name: &[u8]) -> Option<usize>
        ensures { result ≡ position (bytes_eq name.now) self.now.blocks }
    {
        place_of(&self.blocks, name)
    }
}

/// The first place of a name.
fn place_of(names: &[Name], name: &[u8]) -> Option<usize>
    ensures { result ≡ position (bytes_eq name.now) names.now }
{
    names.iter().position(|other| name == other.bytes())
}

fn value_name(f: &Function, v: usize) -> Option<&Name>
    ensures { MatchOption result (shown_name_of f.now (LocalOf.Value v) ≡ None) (λ name. shown_name_of f.now (LocalOf.Value v) ≡ Some name.now) }
{
    match f.values.as_slice().get(v) {
        Some(value) => value.name.as_ref(),
        None => None,
    }
}

fn block_name(f: &Function, b: usize) -> Option<&Name>
    ensures { MatchOption result (shown_name_of f.now (LocalOf.Block b) ≡ None) (λ name. shown_name_of f.now (LocalOf.Block b) ≡ Some name.now) }
{
    match f.blocks.as_slice().get(b) {
        Some(block) => block.name.as_ref(),
        None => None,
    }
}

fn name_of(f: &Function, local: Local) -> Option<&Name>
    ensures { MatchOption result (shown_name_of f.now local ≡ None) (λ name. shown_name_of f.now local ≡ Some name.now) }
{
    match local {
        Local::Value(v) => value_name(f, v),
        Local::Block(b) => block_name(f, b),
    }
}

/// Puts the name of one more value or block last. The first without a name has the given number; the result is the
/// number of the next.
fn push_local(
    alloc: Global,
    names: &mut ShownNames,
    f: &Function,
    number: usize,
    local: Local,
) -> Result<usize, AllocError>
    requires { number < 2 ^ 64 - 1 }
    ensures number { IfOk result (λ n. n ≡ next_number f.now number local) }
    ensures names { IfOk result (λ _. names.new ≡ with_name names.old local (name_or_number f.now number local)) }
{
    match name_of(f, local) {
        Some(name) => {
            names.push(local, name.copied(alloc)?)?;
            Ok(number)
        }
        None => {
            names.push(local, Name::decimal(alloc, number)?)?;
            Ok(number + 1)
        }
    }
}

/// The names of a function, whose ids are places in text order.
pub fn shown_names(alloc: Global, f: &Function) -> Result<ShownNames, AllocError>
    ensures { IfOk result (λ names. IsPrintable f.now → names ≡ shown_scope f.now) }
{
    let all = locals(alloc, f)?;
    let mut names = ShownNames::new(alloc);
    let mut number: usize = 0;
    'all: for local in all.as_slice() {
        number = push_local(alloc, &mut names, f, number, *local)?;
    }
    Ok(names)
}
