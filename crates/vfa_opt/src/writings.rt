//! What is written for the functions of a module.

/// What is written for each accepted function, and with it for all other bytes.
#[derive(Clone, Copy, Debug, PartialEq, Eq)]
pub enum Writing {
    /// The optimised function; all other bytes stay.
    Optimised,
    /// The report by the function's table, and nothing for other bytes.
    Reports,
    /// Nothing for any byte: functions are read and checked alone.
    Nothing,
}
