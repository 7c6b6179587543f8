//! Walks of states through the blocks of a function.
#![tactic(auto)]

mod blocks;
mod chains;
mod cursor;
mod definitions;
mod handing;
mod heads;
mod joining;
mod landmarks;
pub mod laws;
mod leaving;
mod loop_free;
mod marks;
mod operands;
mod pairs;
mod passes;
mod ready;
mod rounds;
mod stepping;
mod tables;
mod telling;
pub mod truth;
mod widening;

pub use cursor::{Cursor, Moved, cursor_has_the_state_at_its_place};
pub use heads::{Widened, widen_heads, widen_heads_by};
pub use loop_free::table_without_loops;
pub use marks::Marks;
pub use pairs::{edge_state, pair_state};
pub use passes::{Passed, pass};
pub use rounds::table_by_rounds;
pub use tables::Table;
