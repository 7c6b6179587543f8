//! The syntax tree of a function: what stands in its text, production by production, with names in place of ids
//! (Language Reference, "Functions" and "Instruction Reference").

use crate::lists::Items;
use crate::names::Name;
use crate::operations::{Bin, Cast, Fun1, Fun2, Over, Pred};

/// A literal of an integer type (Language Reference, "Simple Constants").
#[derive(Drop)]
pub enum Literal {
    /// `true` or `false`.
    Boolean(bool),
    /// The digits, perhaps after a `-`, as written.
    Number(Name),
}

/// What an instruction takes.
#[derive(Drop)]
pub enum Written {
    /// `%name`
    Local(Name),
    /// A literal.
    Literal(Literal),
    /// `poison`
    Poison,
}

/// Metadata after an instruction, as `, !prof !7`.
#[derive(Drop)]
pub struct Attachment {
    /// The word after the first `!`.
    pub kind: Name,
    /// The digits after the second `!`.
    pub node: Name,
}

/// A parameter of a function.
#[derive(Drop)]
pub struct Parameter {
    /// The width of its type.
    pub width: u32,
    /// Its attributes.
    pub words: Items<Name>,
    /// Its name, where it has one.
    pub name: Option<Name>,
}

/// A phi's operand and the predecessor that it belongs to, as `[ 0, %entry ]`.
#[derive(Drop)]
pub struct Incoming {
    /// The operand.
    pub value: Written,
    /// The name of the predecessor.
    pub block: Name,
}

/// A `phi`.
#[derive(Drop)]
pub struct PhiNode {
    /// The name that it defines.
    pub result: Name,
    /// The width of its type.
    pub width: u32,
    /// The operands, of which there is at least one.
    pub entries: Items<Incoming>,
    /// The metadata after them.
    pub attached: Items<Attachment>,
}

/// What a call has besides the types, callee and arguments.
#[derive(Drop)]
pub struct CallWords {
    /// `tail` or `notail`, where one stands before `call`.
    pub marker: Option<Name>,
    /// The digits of the attribute groups after the arguments, as 4 of `#4`.
    pub groups: Items<Name>,
}

/// An argument of a call, as `i8 noundef %x`.
#[derive(Drop)]
pub struct Argument {
    /// The width of its type.
    pub width: u32,
    /// Its attributes.
    pub words: Items<Name>,
    /// The value that is passed.
    pub value: Written,
}

/// What an instruction computes.
#[derive(Drop)]
pub enum Operation {
    /// A binary or bitwise binary operation.
    Binary {
        /// The operation.
        bin: Bin,
        /// Its flags, as written.
        flags: Items<Name>,
        /// The width of its type.
        width: u32,
        /// The first operand.
        a: Written,
        /// The second operand.
        b: Written,
    },
    /// `icmp`
    Compare {
        /// Whether `samesign` stands before the predicate.
        samesign: bool,
        /// The predicate.
        pred: Pred,
        /// The width of its operands.
        width: u32,
        /// The first operand.
        a: Written,
        /// The second operand.
        b: Written,
    },
    /// `select`
    Select {
        /// The condition.
        c: Written,
        /// The width of its type.
        width: u32,
        /// What it is where the condition is true.
        a: Written,
        /// What it is where the condition is false.
        b: Written,
    },
    /// `zext`, `sext` or `trunc`
    Convert {
        /// The conversion.
        cast: Cast,
        /// Its flags, as written.
        flags: Items<Name>,
        /// The width of its operand.
        from: u32,
        /// The operand.
        a: Written,
        /// The width of its result.
        to: u32,
    },
    /// `freeze`
    Freeze {
        /// The width of its type.
        width: u32,
        /// The operand.
        a: Written,
    },
    /// `extractvalue`
    Extract {
        /// The width of the pair's first part.
        width: u32,
        /// The name of the pair.
        pair: Name,
        /// The part: 0 or 1.
        index: u32,
    },
    /// A call of an intrinsic of two numbers.
    Two {
        /// The words of the call.
        call: CallWords,
        /// The intrinsic.
        fun: Fun2,
        /// The width of its type.
        width: u32,
        /// The first argument.
        a: Written,
        /// The second argument.
        b: Written,
    },
    /// A call of an intrinsic of one number.
    One {
        /// The words of the call.
        call: CallWords,
        /// The intrinsic.
        fun: Fun1,
        /// The width of its type.
        width: u32,
        /// The first argument.
        a: Written,
        /// The literal of type `i1` after it; `llvm.ctpop` alone has none.
        strict: Option<Literal>,
    },
    /// A call of an intrinsic whose result is a pair.
    Over {
        /// The words of the call.
        call: CallWords,
        /// The intrinsic.
        over: Over,
        /// The width of the arguments.
        width: u32,
        /// The first argument.
        a: Written,
        /// The second argument.
        b: Written,
    },
    /// A call of `llvm.assume`.
    Assume {
        /// The words of the call.
        call: CallWords,
        /// What is assumed.
        c: Written,
    },
    /// A call of a function that is none of the intrinsics above.
    Call {
        /// The words before `call` and after the arguments.
        call: CallWords,
        /// The words between `call` and the type of the result.
        words: Items<Name>,
        /// The width of the result; none for `void`.
        width: Option<u32>,
        /// The name of the function.
        callee: Name,
        /// The arguments.
        arguments: Items<Argument>,
    },
}

/// An instruction that is no phi and no terminator.
#[derive(Drop)]
pub struct Instruction {
    /// The name that it defines; none for `llvm.assume` and for a call of `void` alone.
    pub result: Option<Name>,
    /// What it computes.
    pub operation: Operation,
    /// The metadata after it.
    pub attached: Items<Attachment>,
}

/// A case of a `switch`.
#[derive(Drop)]
pub struct SwitchCase {
    /// The number.
    pub number: Literal,
    /// The name of the block for it.
    pub block: Name,
}

/// The terminators: where control goes from a block.
#[derive(Drop)]
pub enum TerminatorKind {
    /// `ret`
    Return {
        /// The width of its type.
        width: u32,
        /// The result.
        a: Written,
    },
    /// `br label`
    Always(Name),
    /// `br i1`
    Condition {
        /// The condition.
        c: Written,
        /// The block where it is true.
        yes: Name,
        /// The block where it is false.
        no: Name,
    },
    /// `switch`
    Switch {
        /// The width of its type.
        width: u32,
        /// The number.
        on: Written,
        /// The block where no case is the number.
        other: Name,
        /// The cases.
        cases: Items<SwitchCase>,
    },
    /// `unreachable`
    Unreachable,
}

/// A terminator.
#[derive(Drop)]
pub struct Terminator {
    /// Where control goes.
    pub kind: TerminatorKind,
    /// The metadata after it.
    pub attached: Items<Attachment>,
}

/// A block.
#[derive(Drop)]
pub struct BasicBlock {
    /// Its label; it may lack in the first block alone.
    pub label: Option<Name>,
    /// Its phis.
    pub phis: Items<PhiNode>,
    /// Its other instructions.
    pub instructions: Items<Instruction>,
    /// Its terminator.
    pub terminator: Terminator,
}
