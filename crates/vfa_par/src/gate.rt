//! What a piece passes before its work begins.

/// Something that each piece calls as it starts, with its number from 0. It decides nothing: no result depends on it.
pub trait Gate: Sync {
    /// Returns as the piece is to begin.
    fn start(&self, piece: u32);
}

/// The gate that stands open: pieces begin at once.
#[derive(Clone, Copy, Debug)]
pub struct OpenGate;

impl Gate for OpenGate {
    fn start(&self, _piece: u32) {}
}
