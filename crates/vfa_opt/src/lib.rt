//! The work on modules: from a module's text to the text with its functions optimised, to the reports on its functions, or to the answer to
//! a question about one of them, and the notes on those that stay as they are.
#![tactic(auto)]

mod acceptance;
mod asked;
mod asked_out;
mod defines;
mod generator;
mod jobs;
mod joined;
mod laws;
mod modules;
mod names;
mod notes;
mod optimised;
mod portions;
mod printed;
mod questions;
mod refusals;
mod reported;
mod self_run;
mod share_work;
mod work;
mod writings;
mod written;

pub use generator::{generated, summary};
pub use jobs::Job;
pub use joined::Text;
pub use laws::{generated_is_within, module_or_refusal, one_list_of_pieces, one_refusal, one_text};
pub use modules::module_out;
pub use notes::refusal_message;
pub use questions::Question;
pub use refusals::Refused;
