//! Why a module is refused.

ghost use Rattle.std.specs.Prelude.{◌≡◌};
ghost use Rattle.vfa_opt.specs.declared.refusals.Refused.TheVariants.{Memory};

use std::alloc::{AllocError, AllocFailed};
use thiserror::Error;
use vfa_ir::{Name, Outside};

/// Why a module is refused.
#[derive(Debug, Drop, Error)]
pub enum Refused {
    /// The define at this offset has no end.
    #[error("a define has no end")]
    Unclosed(usize),
    /// On this line something other than white space or a comment follows the brace that closes a define.
    #[error("something follows a define on its last line")]
    BadLine(u32),
    /// Two accepted functions have this name.
    #[error("a function is defined twice")]
    DuplicateFunction(Name),
    /// The function of this name stays as it is, and none is to.
    #[error("a function is outside the profile")]
    Strict(Name, Outside),
    /// A question is about a function of this name, and none is accepted.
    #[error("there is no such function")]
    NoFunction(Name),
    /// The function of a question has no value of this name.
    #[error("the function has no such value")]
    NoValue(Name),
    /// The function of a question has no block of this name, or none that leads to the block of the question.
    #[error("the function has no such block")]
    NoBlock(Name),
    /// Some walk comes to the place of a question, which is at this block, without a definition of this value.
    #[error("the value is not defined on every walk")]
    NotDefined(Name, Name),
    /// Out of memory.
    #[error("out of memory")]
    Memory,
}

impl From<AllocError> for Refused {
    ghost from_gives = { λ _ e. e ≡ Memory };

    fn from(_e: AllocError) -> Refused {
        Refused::Memory
    }
}

impl<T: Drop> From<AllocFailed<T>> for Refused {
    ghost from_gives = { λ _ e. e ≡ Memory };

    fn from(_e: AllocFailed<T>) -> Refused {
        Refused::Memory
    }
}
