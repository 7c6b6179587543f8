//! What functions mean: values, what operations give, and the outcomes of functions (LLVM Language Reference).
#![tactic(auto)]

mod arithmetic;
mod bits;
mod choice;
mod clamp;
mod compare;
mod convert;
mod copies;
mod division;
mod fresh;
mod kept;
mod laws;
mod numbering;
mod numbers;
mod operation;
mod places;
mod renaming;
mod shift;
mod text_order;
mod value;

pub use fresh::operands_are_fresh;
pub use laws::{
    calls_are_seen_in_order, functions_have_outcomes, operations_keep_order_and_types,
    refinement_is_a_preorder,
};
pub use numbering::{
    numbered_is_in_text_order, numbered_is_printable, numbering_keeps_definitions,
    numbering_keeps_phis, numbering_keeps_types, numbering_refines, renaming_refines,
};
pub use operation::eval;
pub use text_order::numbered;
pub use value::{Done, Val};

#[cfg(test)]
mod tests;
