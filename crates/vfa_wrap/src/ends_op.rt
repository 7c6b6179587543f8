/// The operations whose results have an arc by the ends of their operands alone, as LLVM names them.
#[derive(Clone, Copy)]
pub enum EndsOp {
    /// The product.
    Mul,
    /// The bits that both have.
    And,
    /// The bits that one or both have.
    Or,
    /// A shift to the left, by an amount below the width.
    Shl,
    /// A shift to the right that brings in zeros, by an amount below the width.
    Lshr,
    /// A shift to the right that copies the sign, by an amount below the width.
    Ashr,
    /// The quotient, rounded down.
    Udiv,
    /// The quotient of the signed readings, rounded to 0.
    Sdiv,
    /// The remainder of `Udiv`.
    Urem,
    /// The remainder of `Sdiv`, which has the sign of the dividend.
    Srem,
    /// The lesser number.
    Umin,
    /// The greater number.
    Umax,
    /// The number of the lesser signed reading.
    Smin,
    /// The number of the greater signed reading.
    Smax,
    /// The sum, or the greatest number where the sum passes it.
    UaddSat,
    /// The difference, or 0 where it would be negative.
    UsubSat,
    /// The sum of the signed readings, clamped to the signed range.
    SaddSat,
    /// The difference of the signed readings, clamped to the signed range.
    SsubSat,
}
