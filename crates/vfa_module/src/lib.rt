//! The split of a module's text into the defines of its functions and the lines between them.
#![tactic(auto)]

mod braces;
mod items;
mod laws;
mod lines;
mod splitting;
#[cfg(test)]
mod tests;

pub use items::{Item, SplitFault};
pub use laws::{
    a_define_has_a_name, a_define_is_closed_where_its_braces_are_level, a_followed_define_fails,
    a_text_is_one_split, an_unclosed_define_fails, an_unclosed_string_is_the_rest,
};
pub use splitting::split;
