//! What is made of consecutive items of a module.

ghost use Rattle.std.specs.Prelude.{◌≡◌, ◌≤◌, ◌<◌, ◌+◌, ◌++◌, ◌^◌, All, [], None, length, option_to_list, IfOk, OnOk};
ghost use Rattle.std.specs.Option.{option_or};
ghost use Rattle.vfa_opt.specs.Module.{kept_bytes, note_text};
ghost use Rattle.vfa_opt.specs.Works.{IsPlaced, IsPortion, IsWithin, standing_in, worked_carried, worked_name, worked_note, worked_text};

use crate::notes::push_note;
use crate::work::{Carried, Worked, work};
use crate::writings::Writing;
use std::alloc::{AllocError, Global};
use vfa_ir::Name;
use vfa_module::Item;

/// An accepted function, and the item that it stands in.
#[derive(Debug, Drop)]
pub struct Accepted {
    /// Its name.
    pub name: Name,
    /// The item.
    pub item: Item,
}

/// What is made of consecutive items of a module.
#[derive(Debug, Drop)]
pub struct Portion {
    /// The text.
    pub out: Vec<u8>,
    /// The notes on functions that stay as they are, a line each.
    pub notes: Vec<u8>,
    /// The accepted functions.
    pub accepted: Vec<Accepted>,
    /// How many functions stay as they are.
    pub carried: usize,
    /// The first of these.
    pub first_carried: Option<Carried>,
}

/// Puts what is kept of bytes last.
fn push_kept(writing: Writing, out: &mut Vec<u8>, bytes: &[u8]) -> Result<(), AllocError>
    ensures { OnOk result (out.new.items ≡ out.old.items ++ kept_bytes writing bytes.now) }
{
    match writing {
        Writing::Optimised => out.extend_from_slice(bytes),
        Writing::Reports => Ok(()),
        Writing::Nothing => Ok(()),
    }
}

impl Portion {
    /// What no item makes.
    pub fn new(alloc: Global) -> Portion
        ensures out { result.out.items ≡ [] }
        ensures notes { result.notes.items ≡ [] }
        ensures accepted { result.accepted.items ≡ [] }
        ensures carried { result.carried ≡ 0 }
        ensures first { result.first_carried ≡ None }
    {
        Portion {
            out: Vec::new(alloc),
            notes: Vec::new(alloc),
            accepted: Vec::new(alloc),
            carried: 0,
            first_carried: None,
        }
    }

    /// Puts the text for an item last.
    fn push_text(
        &mut self,
        writing: Writing,
        bytes: &[u8],
        worked: &Worked,
    ) -> Result<(), AllocError>
        requires { IsWithin bytes.now worked.now }
        ensures out { OnOk result (self.new.out.items ≡ self.old.out.items ++ worked_text writing bytes.now worked.now) }
        ensures notes { self.new.notes ≡ self.old.notes }
        ensures accepted { self.new.accepted ≡ self.old.accepted }
        ensures carried { self.new.carried ≡ self.old.carried }
        ensures first { self.new.first_carried ≡ self.old.first_carried }
    {
        match worked {
            Worked::Copied { start, end } => {
                push_kept(writing, &mut self.out, &bytes[*start..*end])
            }
            Worked::Printed { text, .. } => self.out.extend_from_slice(text),
            Worked::Carried { start, end, .. } => {
                push_kept(writing, &mut self.out, &bytes[*start..*end])
            }
        }
    }

    /// Puts a function last that stays as it is.
    fn push_carried(&mut self, alloc: Global, function: Carried) -> Result<(), AllocError>
        requires { self.old.carried + 1 < 2 ^ 64 }
        ensures out { self.new.out ≡ self.old.out }
        ensures notes { OnOk result (self.new.notes.items ≡ self.old.notes.items ++ note_text function) }
        ensures accepted { self.new.accepted ≡ self.old.accepted }
        ensures carried { OnOk result (self.new.carried ≡ self.old.carried + 1) }
        ensures first { OnOk result (self.new.first_carried ≡ option_or self.old.first_carried (Some function)) }
    {
        push_note(alloc, &mut self.notes, &function)?;
        self.carried += 1;
        self.first_carried = self.first_carried.take().or(Some(function));
        Ok(())
    }

    /// Puts the function of an item last, where there is one.
    fn push_function(&mut self, alloc: Global, item: Item, worked: Worked) -> Result<(), AllocError>
        requires { self.old.carried + 1 < 2 ^ 64 }
        ensures out { self.new.out ≡ self.old.out }
        ensures notes { OnOk result (self.new.notes.items ≡ self.old.notes.items ++ worked_note worked) }
        ensures accepted { OnOk result (self.new.accepted.items ≡ self.old.accepted.items ++ standing_in item (worked_name worked)) }
        ensures carried { OnOk result (self.new.carried ≡ self.old.carried + length (option_to_list (worked_carried worked))) }
        ensures first { OnOk result (self.new.first_carried ≡ option_or self.old.first_carried (worked_carried worked)) }
    {
        match worked {
            Worked::Copied { .. } => Ok(()),
            Worked::Printed { name, .. } => {
                self.accepted.push(Accepted { name, item })?;
                Ok(())
            }
            Worked::Carried { function, .. } => self.push_carried(alloc, function),
        }
    }
}

/// What is made of items.
pub fn portion_of(
    alloc: Global,
    writing: Writing,
    bytes: &[u8],
    items: &[Item],
) -> Result<Portion, AllocError>
    requires places { All (IsPlaced bytes.now) items.now }
    requires limit { length bytes.now ≤ 16777216 }
    ensures { IfOk result (IsPortion writing bytes.now items.now) }
{
    let mut all = Portion::new(alloc);
    'items: for item in items {
        let worked = work(alloc, writing, bytes, item)?;
        all.push_text(writing, bytes, &worked)?;
        all.push_function(alloc, *item, worked)?;
    }
    Ok(all)
}
