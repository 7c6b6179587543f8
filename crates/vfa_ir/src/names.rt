//! Names as bytes.

ghost use Rattle.std.specs.Prelude.{◌≡◌, ◌↔◌, ℕ, List, decimal, IfOk, IsTrue};

use crate::bytes::push_decimal;
use std::alloc::{AllocError, Global};
use std::marker::Model;

/// The bytes of a name, without sigil, quotes or escapes. Contracts see the list of the bytes.
#[derive(Debug, Drop)]
pub struct Name(pub Vec<u8>);

impl Model for Name {
    ghost Value = { List ℕ };

    ghost view = { λ n. n.0.items };
}

impl Name {
    /// The bytes of the name.
    pub fn bytes(&self) -> &[u8]
        ensures { result.now ≡ self.now }
    {
        self.0.as_slice()
    }

    /// A name of the same bytes.
    pub fn copied(&self, alloc: Global) -> Result<Name, AllocError>
        ensures { IfOk result (λ n. n ≡ self.now) }
    {
        Name::of(alloc, self.bytes())
    }

    /// The name of these bytes.
    pub fn of(alloc: Global, bytes: &[u8]) -> Result<Name, AllocError>
        ensures { IfOk result (λ n. n ≡ bytes.now) }
    {
        Ok(Name(Vec::from_slice(alloc, bytes)?))
    }

    /// The name that a number is: its decimal digits.
    pub fn decimal(alloc: Global, number: usize) -> Result<Name, AllocError>
        ensures { IfOk result (λ n. n ≡ decimal number) }
    {
        let mut text = Vec::new(alloc);
        push_decimal(alloc, &mut text, number as u128)?;
        Ok(Name(text))
    }

    /// Whether both names have the same bytes.
    pub fn same(&self, other: &Name) -> bool
        ensures { IsTrue result ↔ (self.now ≡ other.now) }
    {
        self.bytes() == other.bytes()
    }
}
