//! Types, operands and operations, as in the LLVM Language Reference.

/// A parameter or a result of a function, by its place in `Function::values`.
#[derive(Clone, Copy, Debug, Default, PartialEq, Eq)]
pub struct ValueId(pub u32);

/// A block of a function, by its place in `Function::blocks`.
#[derive(Clone, Copy, Debug, Default, PartialEq, Eq)]
pub struct BlockId(pub u32);

/// The type of a value (Language Reference, "Type System").
#[derive(Clone, Copy, Debug, PartialEq, Eq)]
pub enum Ty {
    /// `iN`: the numbers below 2^N. The width N is 1 to 128.
    Int(u32),
    /// `{ iN, i1 }`: the result of an operation with overflow. The width N is 1 to 128.
    Pair(u32),
}

/// What an instruction takes.
#[derive(Clone, Copy, Debug, Default, PartialEq, Eq)]
pub enum Operand {
    /// A parameter or the result of an instruction.
    Value(ValueId),
    /// A number below 2 to the width: the bits of a literal.
    Literal(u128),
    /// `poison` (Language Reference, "Poison Values").
    #[default]
    Poison,
}

/// The predicates of `icmp`.
#[derive(Clone, Copy, Debug, PartialEq, Eq)]
pub enum Pred {
    /// Equal.
    Eq,
    /// Not equal.
    Ne,
    /// Unsigned greater than.
    Ugt,
    /// Unsigned greater or equal.
    Uge,
    /// Unsigned less than.
    Ult,
    /// Unsigned less or equal.
    Ule,
    /// Signed greater than.
    Sgt,
    /// Signed greater or equal.
    Sge,
    /// Signed less than.
    Slt,
    /// Signed less or equal.
    Sle,
}

/// The words `nuw`, `nsw`, `exact` and `disjoint`, each of which makes a result poison where it does not hold.
#[derive(Clone, Copy, Debug, Default, PartialEq, Eq)]
pub struct Flags {
    /// No unsigned wrap.
    pub nuw: bool,
    /// No signed wrap.
    pub nsw: bool,
    /// Nothing is cut off: a division without remainder, a right shift that drops only zeros.
    pub exact: bool,
    /// No bit is one in both operands of an `or`.
    pub disjoint: bool,
}

/// The binary and bitwise binary operations.
#[derive(Clone, Copy, Debug, PartialEq, Eq)]
pub enum Bin {
    /// `add`
    Add,
    /// `sub`
    Sub,
    /// `mul`
    Mul,
    /// `shl`
    Shl,
    /// `udiv`
    Udiv,
    /// `sdiv`
    Sdiv,
    /// `lshr`
    Lshr,
    /// `ashr`
    Ashr,
    /// `urem`
    Urem,
    /// `srem`
    Srem,
    /// `and`
    And,
    /// `or`
    Or,
    /// `xor`
    Xor,
}

/// The conversions between widths.
#[derive(Clone, Copy, Debug, PartialEq, Eq)]
pub enum Cast {
    /// `zext`: to a greater width, by zeros.
    Zext,
    /// `sext`: to a greater width, by copies of the sign bit.
    Sext,
    /// `trunc`: to a lesser width, by the low bits.
    Trunc,
}

/// The words `nuw`, `nsw` and `nneg` of a conversion, each of which makes a result poison where it does not hold.
#[derive(Clone, Copy, Debug, Default, PartialEq, Eq)]
pub struct CastFlags {
    /// `trunc`: no bit that is cut off is one.
    pub nuw: bool,
    /// `trunc`: the signed reading stays.
    pub nsw: bool,
    /// `zext`: the operand is not negative.
    pub nneg: bool,
}

/// The intrinsics of two arguments.
#[derive(Clone, Copy, Debug, PartialEq, Eq)]
pub enum Fun2 {
    /// `llvm.umin`
    Umin,
    /// `llvm.umax`
    Umax,
    /// `llvm.smin`
    Smin,
    /// `llvm.smax`
    Smax,
    /// `llvm.uadd.sat`
    UaddSat,
    /// `llvm.usub.sat`
    UsubSat,
    /// `llvm.sadd.sat`
    SaddSat,
    /// `llvm.ssub.sat`
    SsubSat,
}

/// The intrinsics of one argument.
#[derive(Clone, Copy, Debug, PartialEq, Eq)]
pub enum Fun1 {
    /// `llvm.abs`
    Abs,
    /// `llvm.ctlz`
    Ctlz,
    /// `llvm.cttz`
    Cttz,
    /// `llvm.ctpop`
    Ctpop,
}

/// The intrinsics whose result is a pair of a number and whether it overflowed.
#[derive(Clone, Copy, Debug, PartialEq, Eq)]
pub enum Over {
    /// `llvm.uadd.with.overflow`
    Uadd,
    /// `llvm.sadd.with.overflow`
    Sadd,
    /// `llvm.usub.with.overflow`
    Usub,
    /// `llvm.ssub.with.overflow`
    Ssub,
    /// `llvm.umul.with.overflow`
    Umul,
    /// `llvm.smul.with.overflow`
    Smul,
}

/// What an instruction computes. Each width is 1 to 128.
#[derive(Clone, Copy, Debug, PartialEq, Eq)]
pub enum Op {
    /// A binary operation on two numbers of one width.
    Bin {
        /// The operation.
        bin: Bin,
        /// Its words; those that the operation does not have are false.
        flags: Flags,
        /// The width of operands and result.
        width: u32,
        /// The first operand.
        a: Operand,
        /// The second operand.
        b: Operand,
    },
    /// `icmp`: a comparison, of type `i1`.
    Icmp {
        /// The predicate.
        pred: Pred,
        /// The word `samesign`: the result is poison where just one operand is negative.
        samesign: bool,
        /// The width of the operands.
        width: u32,
        /// The first operand.
        a: Operand,
        /// The second operand.
        b: Operand,
    },
    /// `select`: one of two numbers, by a condition.
    Select {
        /// The width of both numbers and of the result.
        width: u32,
        /// The condition, of type `i1`.
        c: Operand,
        /// What it is where the condition is true.
        a: Operand,
        /// What it is where the condition is false.
        b: Operand,
    },
    /// A conversion to another width.
    Cast {
        /// The conversion.
        cast: Cast,
        /// Its words; those that the conversion does not have are false.
        flags: CastFlags,
        /// The operand's width.
        from: u32,
        /// The result's width.
        to: u32,
        /// The operand.
        a: Operand,
    },
    /// `freeze`: its operand, or some number where that is poison.
    Freeze {
        /// The width of operand and result.
        width: u32,
        /// The operand.
        a: Operand,
    },
    /// An intrinsic of two numbers of one width.
    Two {
        /// The intrinsic.
        fun: Fun2,
        /// The width of operands and result.
        width: u32,
        /// The first operand.
        a: Operand,
        /// The second operand.
        b: Operand,
    },
    /// An intrinsic of one number.
    One {
        /// The intrinsic.
        fun: Fun1,
        /// The width of operand and result.
        width: u32,
        /// The operand.
        a: Operand,
        /// The second argument of `abs`, `ctlz` and `cttz`: whether their edge case is poison. False for `ctpop`.
        strict: bool,
    },
    /// An intrinsic whose result is a pair.
    Over {
        /// The intrinsic.
        over: Over,
        /// The width of the operands and of the pair's first part.
        width: u32,
        /// The first operand.
        a: Operand,
        /// The second operand.
        b: Operand,
    },
    /// `extractvalue` of a pair.
    Part {
        /// The width of the pair's first part.
        width: u32,
        /// The pair.
        pair: ValueId,
        /// 0 for the number, 1 for the overflow bit.
        index: u32,
    },
    /// `llvm.assume`. It has no result.
    Assume {
        /// What is assumed, of type `i1`.
        c: Operand,
    },
    /// `call` of a function that is none of the intrinsics above.
    Call {
        /// The width of the result; none for `void`.
        width: Option<u32>,
        /// The place of the call in `Function::calls`.
        call: u32,
    },
}
