//! Rewriting by facts (LLVM's CorrelatedValuePropagation): what is left of a function where facts decide operands, edges
//! and operations.
#![tactic(auto)]

mod again;
mod asked;
mod copies;
mod divisions;
mod edges;
mod expanding;
mod facts;
mod found;
mod laws;
mod made;
mod putting;
mod putting_calls;
mod putting_lines;
mod putting_operands;
mod putting_phis;
mod putting_terms;
mod ready;
mod replacing;
mod rewriting;
mod spreading;
mod staying;
mod uses;
mod widths;

pub use laws::{
    chains_end, findings_are_true, findings_fit, fitting_marks_leave_checked, marks_are_one,
    marks_are_sound, numbers_are_printed, one_rewritten, rewriting_by_facts_refines,
    rewriting_by_the_table_refines, rewriting_is_one_by_read_names, rewriting_refines,
    rewritten_is_checked,
};
pub use rewriting::rewrite;
