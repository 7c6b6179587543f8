//! Lists as fields of public types: contracts see the elements in order.

ghost use Rattle.std.specs.Prelude.{◌≡◌, List};

use smallvec::SmallVec;
use std::marker::Model;

/// A list in memory of its own. Contracts see the list of its elements.
#[derive(Debug, Drop)]
pub struct Items<T>(pub Vec<T>);

impl<T> Model for Items<T> {
    ghost Value = { List T };

    ghost view = { λ v. v.0.items };
}

impl<T> Items<T> {
    /// The elements in order.
    pub fn as_slice(&self) -> &[T]
        ensures { result.now ≡ self.now }
    {
        self.0.as_slice()
    }
}

/// A list that keeps up to four elements in place. Contracts see the list of its elements.
#[derive(Debug, Drop)]
pub struct Few<T>(pub SmallVec<T, 4>);

impl<T> Model for Few<T> {
    ghost Value = { List T };

    ghost view = { λ v. v.0.items };
}

impl<T> Few<T> {
    /// The elements in order.
    pub fn as_slice(&self) -> &[T]
        ensures { result.now ≡ self.now }
    {
        self.0.as_slice()
    }
}
