//! Reports on functions: what a table says of each of their names, a line each.
#![tactic(auto)]

mod cells;
mod laws;
mod lines;
mod naming;
mod reporting;
mod shown;
mod truth;
mod uses;

pub use laws::lines_show_facts;
pub use lines::fact_line;
pub use reporting::report;
pub use shown::{ShownNames, shown_names};
pub use truth::{bits_are_best, one_report, reports_are_one_by_read_names, reports_hold};
pub use uses::names_in;
