//! Why reading stops.

ghost use Rattle.std.specs.Prelude.{◌≡◌};
ghost use Rattle.vfa_read.specs.declared.stops.Stop.TheVariants.{Memory};

use std::alloc::{AllocError, AllocFailed};

/// Why reading stops.
#[derive(Clone, Copy, Debug)]
pub enum Stop {
    /// The token of this place cannot stand there.
    At(usize),
    /// Out of memory.
    Memory,
}

impl From<AllocError> for Stop {
    ghost from_gives = { λ _ e. e ≡ Memory };

    fn from(_e: AllocError) -> Stop {
        Stop::Memory
    }
}

impl<T: Drop> From<AllocFailed<T>> for Stop {
    ghost from_gives = { λ _ e. e ≡ Memory };

    fn from(_e: AllocFailed<T>) -> Stop {
        Stop::Memory
    }
}
