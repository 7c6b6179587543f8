//! Why an input is refused.

ghost use Rattle.std.specs.Prelude.{◌≡◌, IfOk};
ghost use Rattle.vfa.specs.Refusals.{refusal_text};

use std::alloc::{AllocError, Global};
use vfa_opt::{Refused, refusal_message};

/// Why an input is refused.
#[derive(Debug, Drop)]
pub enum Refusal {
    /// It is longer than allowed.
    TooLong,
    /// Its module is refused.
    Module(Refused),
}

/// The message of a refusal.
pub fn message_of(alloc: Global, refusal: &Refusal) -> Result<Vec<u8>, AllocError>
    ensures { IfOk result (λ message. message.items ≡ refusal_text refusal.now) }
{
    match refusal {
        Refusal::TooLong => Vec::from_slice(alloc, b"refused: TooLong\n"),
        Refusal::Module(refused) => refusal_message(alloc, refused),
    }
}
