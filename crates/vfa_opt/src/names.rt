//! The names of a module's functions.

ghost use Rattle.std.specs.Prelude.{◌≡◌, ℕ, List, [], ◌∷◌, ◌++◌, map, false, IfOk};
ghost use Rattle.vfa_ir.specs.DefinedNames.{first_repeated};
ghost use Rattle.vfa_ir.specs.Words.{is_among};
ghost use Rattle.vfa_opt.specs.Works.{names_of};

use crate::portions::Accepted;
use indexmap::IndexSet;
use std::alloc::{AllocError, Global};
use std::marker::Model;
use vfa_ir::Name;

/// Names, each once, where they stand. Contracts see the list of the names.
#[derive(Drop)]
struct Names<'a> {
    set: IndexSet<&'a [u8]>,
}

impl<'a> Model for Names<'a> {
    ghost Value = { List (List ℕ) };

    ghost view = { λ s. map (λ k. k.now) s.set.keys };
}

impl<'a> Names<'a> {
    fn new(alloc: Global) -> Names<'a>
        ensures { result ≡ [] }
    {
        Names {
            set: IndexSet::new(alloc),
        }
    }

    fn has(&self, name: &[u8]) -> bool
        ensures { result ≡ is_among name.now self.now }
    {
        self.set.contains(name)
    }

    /// Puts a name last.
    fn add(&mut self, name: &'a [u8]) -> Result<(), AllocError>
        requires { is_among name.now self.old ≡ false }
        ensures { IfOk result (λ _. self.new ≡ self.old ++ name.now ∷ []) }
    {
        self.set.insert(name)?;
        Ok(())
    }
}

/// The first name of an accepted function that another one has before it.
pub fn repeated_name(alloc: Global, all: &[Accepted]) -> Result<Option<Name>, AllocError>
    ensures { IfOk result (λ name. name ≡ first_repeated [] (names_of all.now)) }
{
    let mut seen = Names::new(alloc);
    'functions: for function in all {
        let name = function.name.bytes();
        if seen.has(name) {
            return Ok(Some(function.name.copied(alloc)?));
        }
        seen.add(name)?;
    }
    Ok(None)
}
