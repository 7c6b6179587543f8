//! Functions: blocks of phis, instructions and a terminator.

use crate::lists::{Few, Items};
use crate::names::Name;
use crate::operations::{BlockId, Op, Operand, Ty, ValueId};

/// A `phi`: the operand of the block that control came from.
#[derive(Debug, Drop)]
pub struct Phi {
    /// The name that it defines.
    pub result: ValueId,
    /// The width of result and operands.
    pub width: u32,
    /// The operands, each with the predecessor that it belongs to, as written.
    pub entries: Few<(Operand, BlockId)>,
}

/// An instruction between the phis and the terminator.
#[derive(Clone, Copy, Debug, PartialEq, Eq)]
pub struct Inst {
    /// The name that it defines; none for `llvm.assume` and for a call of `void` alone.
    pub result: Option<ValueId>,
    /// What it computes.
    pub op: Op,
}

/// The terminator of a block (Language Reference, "Terminator Instructions").
#[derive(Debug, Drop)]
pub enum Term {
    /// `ret`
    Ret {
        /// The width of the function's result.
        width: u32,
        /// The result.
        a: Operand,
    },
    /// `br label`: always to this block.
    Br(BlockId),
    /// `br i1`: by a condition.
    CondBr {
        /// The condition, of type `i1`.
        c: Operand,
        /// Where it goes if the condition is true.
        yes: BlockId,
        /// Where it goes if the condition is false.
        no: BlockId,
    },
    /// `switch`: by the cases, whose numbers differ.
    Switch {
        /// The width of the number and of the cases.
        width: u32,
        /// The number.
        on: Operand,
        /// Where it goes if no case is the number.
        other: BlockId,
        /// The cases as written.
        cases: Few<(u128, BlockId)>,
    },
    /// `unreachable`
    Unreachable,
}

/// A block: its phis, its instructions and its terminator.
#[derive(Debug, Drop)]
pub struct Block {
    /// Its label, or none where it is numbered.
    pub name: Option<Name>,
    /// The phis in text order.
    pub phis: Items<Phi>,
    /// The instructions in text order.
    pub insts: Items<Inst>,
    /// The terminator.
    pub term: Term,
}

/// A parameter or a result.
#[derive(Debug, Drop)]
pub struct Value {
    /// Its name, or none where it is numbered.
    pub name: Option<Name>,
    /// Its type.
    pub ty: Ty,
}

/// A parameter of a function.
#[derive(Debug, Drop)]
pub struct Param {
    /// The value that it defines.
    pub value: ValueId,
    /// The attributes between its type and its name, as written.
    pub words: Items<Name>,
}

/// An argument of a call.
#[derive(Debug, Drop)]
pub struct CallArg {
    /// The width of its type.
    pub width: u32,
    /// The attributes between its type and its value, as written.
    pub words: Items<Name>,
    /// The value that is passed.
    pub value: Operand,
}

/// A call of a function that is no intrinsic with a meaning of its own (Language Reference, "call Instruction").
#[derive(Debug, Drop)]
pub struct CallOp {
    /// The name after `@`.
    pub callee: Name,
    /// The words between `call` and the result's type, as written.
    pub words: Items<Name>,
    /// The arguments.
    pub args: Items<CallArg>,
}

/// A function. Its values are numbered in text order: the parameters, then the results block by block.
#[derive(Debug, Drop)]
pub struct Function {
    /// The name after `@`.
    pub name: Name,
    /// The words between `define` and the result's type, as written.
    pub lead: Items<Name>,
    /// The width of the result.
    pub width: u32,
    /// The parameters.
    pub params: Items<Param>,
    /// The bytes from the first to the last token between `)` and `{`.
    pub tail: Name,
    /// All parameters and results.
    pub values: Items<Value>,
    /// The blocks in text order, the entry first.
    pub blocks: Items<Block>,
    /// The calls of its instructions `Op::Call`, in text order.
    pub calls: Items<CallOp>,
}

/// Where the instructions of a function stand in its text.
#[derive(Debug, Drop)]
pub struct Lines {
    /// For each block the lines of its phis, instructions and terminator in order.
    pub of: Items<Items<u32>>,
}
