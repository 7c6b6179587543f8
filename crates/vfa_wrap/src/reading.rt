/// How a number of a width is read as a whole number.
#[derive(Clone, Copy)]
pub enum Reading {
    /// As it is, 0 to 2^W - 1.
    Unsigned,
    /// In two's complement, -2^(W - 1) to 2^(W - 1) - 1.
    Signed,
}
