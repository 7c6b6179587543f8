//! States of an analysis, each a fact for each of some names and the names whose equations are live, and their restriction
//! by conditions, through live equations to a depth of four (LLVM's LazyValueInfo).
#![tactic(auto)]

mod changes;
mod consequence;
mod equations;
mod laws;
mod narrowing;
mod predicates;
mod state;
#[cfg(test)]
mod tests;
mod want;

pub use changes::Changes;
pub use laws::typed_functions_have_typed_equations;
pub use state::State;
pub use want::Want;
