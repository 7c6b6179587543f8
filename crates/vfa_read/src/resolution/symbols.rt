//! Names in the order of their definitions, each found by its bytes.

ghost use Rattle.std.specs.Prelude.{◌≡◌, ℕ, List, [], ◌∷◌, ◌++◌, map, position, bytes_eq, false, IfOk, IfErr, IfSome, is_some, ◌<◌, length};
ghost use Rattle.vfa_ir.specs.Words.{is_among};

use indexmap::IndexSet;
use std::alloc::{AllocError, Global};
use std::marker::Model;

/// Names in the order of their definitions. Contracts see the list of the names.
#[derive(Drop)]
pub struct Symbols {
    set: IndexSet<Vec<u8>>,
}

impl Model for Symbols {
    ghost Value = { List (List ℕ) };

    ghost view = { λ s. map (λ k. k.items) s.set.keys };
}

impl Symbols {
    /// No names.
    pub fn new(alloc: Global) -> Symbols
        ensures { result ≡ [] }
    {
        Symbols {
            set: IndexSet::new(alloc),
        }
    }

    /// The place of a name.
    pub fn place(&self, name: &[u8]) -> Option<usize>
        ensures place { result ≡ position (bytes_eq name.now) self.now }
        ensures found { is_some result ≡ is_among name.now self.now }
        ensures within { IfSome result (λ i. i < length self.now) }
    {
        self.set.get_index_of(name)
    }

    /// Whether a name is there.
    pub fn has(&self, name: &[u8]) -> bool
        ensures { result ≡ is_among name.now self.now }
    {
        self.set.contains(name)
    }

    /// Puts a name last.
    pub fn add(&mut self, alloc: Global, name: &[u8]) -> Result<(), AllocError>
        requires { is_among name.now self.old ≡ false }
        ensures added { IfOk result (λ _. self.new ≡ self.old ++ name.now ∷ []) }
        ensures unchanged { IfErr result (λ _. self.new ≡ self.old) }
    {
        self.set.insert(Vec::from_slice(alloc, name)?)?;
        Ok(())
    }
}
