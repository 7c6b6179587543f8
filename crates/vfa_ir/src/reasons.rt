//! Why a function is outside the profile.

ghost use Rattle.std.specs.Prelude.{◌≡◌};
ghost use Rattle.vfa_ir.specs.declared.reasons.Outside.TheVariants.{Memory};

use crate::names::Name;
use std::alloc::{AllocError, AllocFailed};
use thiserror::Error;

/// What a function may have too many of.
#[derive(Clone, Copy, Debug, PartialEq, Eq)]
pub enum Kind {
    /// Parameters and results.
    Names,
    /// Blocks.
    Blocks,
    /// Cases of one switch.
    Cases,
}

/// Why a function is carried unchanged.
#[derive(Debug, Drop, Error)]
pub enum Outside {
    /// The first token at which the text begins no function of the profile stands on this line.
    #[error("the text is outside the profile")]
    Shape(u32),
    /// A limit of the profile is passed.
    #[error("the function is too large")]
    TooMany(Kind),
    /// The name is defined twice.
    #[error("a name is defined twice")]
    Duplicate(Name),
    /// The name is used and not defined as the use needs.
    #[error("a name is not defined")]
    Unknown(Name),
    /// The types of the instruction on this line do not fit.
    #[error("the types of an instruction do not fit")]
    Types(u32),
    /// The entries of a phi of this block do not fit its predecessors.
    #[error("the entries of a phi do not fit its predecessors")]
    Phi(Name),
    /// On some walk the value is used at this block before it is defined.
    #[error("a value is used before it is defined")]
    Undefined(Name, Name),
    /// Out of memory.
    #[error("out of memory")]
    Memory,
}

impl From<AllocError> for Outside {
    ghost from_gives = { λ _ e. e ≡ Memory };

    fn from(_e: AllocError) -> Outside {
        Outside::Memory
    }
}

impl<T: Drop> From<AllocFailed<T>> for Outside {
    ghost from_gives = { λ _ e. e ≡ Memory };

    fn from(_e: AllocFailed<T>) -> Outside {
        Outside::Memory
    }
}
