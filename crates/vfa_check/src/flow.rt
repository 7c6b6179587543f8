//! The search for the names in scope: from all names down, along the edges.

ghost use Rattle.std.specs.Prelude.{◌≡◌, ◌<◌, length};

use crate::name_rows::NameRow;

/// The names that may still be in scope, while the search goes on.
#[derive(Drop)]
pub struct Flow {
    /// For each block those at its entry, without its phis.
    pub entries: Vec<NameRow>,
    /// For each block those at its end.
    pub ends: Vec<NameRow>,
    /// For each block whether it has lost names since its end was last sent along its edges.
    pub unsent: Vec<bool>,
}
