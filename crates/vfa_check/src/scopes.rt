//! The names in scope of each block.

ghost use Rattle.std.specs.Prelude.{◌≡◌, ◌<◌, ℕ, All, IfOk, MatchBool, length};
ghost use Rattle.vfa_ir.specs.declared.functions.Function.{Function};

use crate::name_rows::NameRow;
use std::alloc::AllocError;
use vfa_ir::{BlockId, ValueId};

/// The names in scope at the entry and at the end of each block of a function.
#[derive(Drop)]
pub struct Scopes {
    pub(crate) entries: Vec<NameRow>,
    pub(crate) ends: Vec<NameRow>,
}

impl Scopes {
    ghost use Rattle.vfa_ir.specs.Defined.{line_count};
    ghost use Rattle.vfa_ir.specs.Walks.{IsDefinedAt, IsMissedAt};
    ghost use Rattle.vfa_check.specs.NameRows.{IsRow, has_name};
    ghost use Rattle.vfa_check.specs.Scopes.{AreScopes, is_defined, is_defined_behind};

    /// Whether a name is defined on every walk to the entry of a block, its phis included. Of a block that no walk reaches
    /// this holds of each name.
    ///
    /// In `entry: br i1 %c, label %a, label %b`, `a: %x = add i8 %p, 1`, `br label %b`, the parameter `%c` is defined at
    /// the entry of b, and `%x` is not.
    pub(crate) fn defined(&self, b: BlockId, v: ValueId) -> bool
        ensures value { result ≡ is_defined self.now b.0 v.0 }
        ensures scope { (f : Function) → AreScopes f self.now → MatchBool result (IsDefinedAt f b.0 0 v.0) (IsMissedAt f b.0 0 v.0) }
    {
        match self.entries.get(b.0 as usize) {
            Some(row) => row.has(v),
            None => true,
        }
    }

    /// Whether a name is defined on every walk to the terminator of a block. Of a block that no walk reaches this holds of
    /// each name.
    ///
    /// In `entry: br i1 %c, label %a, label %b`, `a: %x = add i8 %p, 1`, `br label %b`, the name `%x` is defined at the end
    /// of a.
    pub(crate) fn defined_behind(&self, b: BlockId, v: ValueId) -> bool
        ensures value { result ≡ is_defined_behind self.now b.0 v.0 }
        ensures scope { (f : Function) → AreScopes f self.now →
            MatchBool result (IsDefinedAt f b.0 (line_count f b.0) v.0) (IsMissedAt f b.0 (line_count f b.0) v.0) }
    {
        match self.ends.get(b.0 as usize) {
            Some(row) => row.has(v),
            None => true,
        }
    }

    /// The names in scope at the entry of a block, in memory of its own.
    pub(crate) fn entry(&self, b: BlockId) -> Result<NameRow, AllocError>
        requires { b.0 < length self.now.entries.items }
        ensures row { IfOk result (λ row. (count : ℕ) → All (IsRow count) self.now.entries.items → IsRow count row) }
        ensures has { IfOk result (λ row. (v : ℕ) → has_name row v ≡ is_defined self.now b.0 v) }
    {
        self.entries[b.0 as usize].copy()
    }
}
