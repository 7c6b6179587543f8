//! What a module is split into, and why a split fails.

ghost use Rattle.std.specs.Prelude.{◌≡◌};
ghost use Rattle.vfa_module.specs.declared.items.SplitFault.TheVariants.{Memory};

use std::alloc::{AllocError, AllocFailed};
use thiserror::Error;

/// A part of a module's text.
#[derive(Clone, Copy, Debug, PartialEq, Eq)]
pub enum Item {
    /// Bytes outside of all defines.
    Lines {
        /// The offset of the first byte.
        start: usize,
        /// The offset after the last byte.
        end: usize,
    },
    /// A function, from the word `define` to the brace that closes its body.
    Define {
        /// The offset of the word `define`.
        start: usize,
        /// The offset after the closing brace.
        end: usize,
        /// The line of the word, counted from 1.
        line: u32,
    },
}

/// Why a text does not split.
#[derive(Clone, Copy, Debug, PartialEq, Eq, Error)]
pub enum SplitFault {
    /// The define at this offset has no end.
    #[error("a define has no end")]
    Unclosed(usize),
    /// On this line something other than white space or a comment follows the brace that closes a define.
    #[error("something follows a define on its last line")]
    BadLine(u32),
    /// Out of memory.
    #[error("out of memory")]
    Memory,
}

impl From<AllocError> for SplitFault {
    ghost from_gives = { λ _ e. e ≡ Memory };

    fn from(_e: AllocError) -> SplitFault {
        SplitFault::Memory
    }
}

impl<T: Drop> From<AllocFailed<T>> for SplitFault {
    ghost from_gives = { λ _ e. e ≡ Memory };

    fn from(_e: AllocFailed<T>) -> SplitFault {
        SplitFault::Memory
    }
}
