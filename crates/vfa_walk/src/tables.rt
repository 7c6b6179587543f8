//! Tables: the entry state of each block.

ghost use Rattle.std.specs.Prelude.{◌≡◌, ◌<◌, All, IfOk, None, length, slice_set};
ghost use Rattle.std.specs.Option.{option_map};
ghost use Rattle.vfa_cond.specs.States.{known};
ghost use Rattle.vfa_walk.specs.Kept.{entry_in, kept_entries};

use std::alloc::{AllocError, Global};
use std::marker::Model;
use vfa_cond::State;
use vfa_ir::BlockId;
use vfa_values::Values;

/// The entry states of the blocks of a function, none for a block to which no run comes. Contracts see the list of them, one
/// place for each block.
#[derive(Drop)]
pub struct Table<V: Values> {
    entries: Vec<Option<State<V>>>,
}

impl<V: Values> Model for Table<V> {
    ghost use Rattle.std.specs.Prelude.{List, Option};
    ghost use Rattle.vfa_cond.specs.States.{Stored};

    ghost Value = { List (Option (Stored V)) };

    ghost view = { λ t. t.entries.items };
}

impl<V: Values> Table<V> {
    /// The entry state of a block; None exactly where no run comes to it.
    pub fn entry(&self, b: BlockId) -> Option<&State<V>>
        ensures entry { option_map (λ s. known s.now) result ≡ kept_entries self.now b.0 }
        ensures stored { option_map (λ s. s.now) result ≡ entry_in self.now b.0 }
    {
        match self.entries.get(b.0 as usize) {
            Some(entry) => entry.as_ref(),
            None => None,
        }
    }

    /// The entries in order.
    pub(crate) fn as_slice(&self) -> &[Option<State<V>>]
        ensures { result.now ≡ self.now }
    {
        self.entries.as_slice()
    }

    /// So many blocks without a state.
    pub(crate) fn empty(alloc: Global, count: usize) -> Result<Table<V>, AllocError>
        ensures count { IfOk result (λ t. length t ≡ count) }
        ensures none { IfOk result (λ t. All (λ e. e ≡ None) t) }
    {
        let mut entries: Vec<Option<State<V>>> = Vec::new(alloc);
        'blocks: for _ in 0..count {
            entries.push(None)?;
        }
        Ok(Table { entries })
    }

    /// Takes the state of a block out; none is left there.
    pub(crate) fn take(&mut self, b: BlockId) -> Option<State<V>>
        ensures taken { result ≡ entry_in self.old b.0 }
        ensures left { self.new ≡ slice_set self.old b.0 None }
    {
        match self.entries.get_mut(b.0 as usize) {
            Some(entry) => entry.take(),
            None => None,
        }
    }

    /// Makes this the entry state of a block.
    pub(crate) fn set(&mut self, b: BlockId, entry: Option<State<V>>)
        requires { b.0 < length self.old }
        ensures { self.new ≡ slice_set self.old b.0 entry }
    {
        self.entries[b.0 as usize] = entry;
    }
}
