//! The limits of the profile: how large a module and its functions may be.

/// The bytes of a module.
pub const MOST_BYTES: usize = 1 << 24;

/// The parameters and results of a function.
pub const MOST_NAMES: usize = 4096;

/// The blocks of a function.
pub const MOST_BLOCKS: usize = 1024;

/// The cases of a `switch`.
pub const MOST_CASES: usize = 1024;
