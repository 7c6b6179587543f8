/// The operations that LLVM's flags `nuw` and `nsw` speak of: whether the result over whole numbers leaves the unsigned
/// or the signed range.
#[derive(Clone, Copy)]
pub enum Arith {
    /// The sum.
    Add,
    /// The difference.
    Sub,
    /// The product.
    Mul,
    /// The first number times 2 to the power of the second.
    Shl,
}
