//! The program that the analyses read: functions of LLVM's integer IR as plain data, and the tokens of its text.
#![tactic(auto)]

mod bytes;
mod functions;
mod limits;
mod lists;
mod names;
mod numbering;
mod operands;
mod operations;
mod reasons;
pub mod syntax;
#[cfg(test)]
mod tests;
mod tokens;
mod words;

pub use bytes::{all_digits, is_blank, is_digits, is_number, is_run_byte, push_decimal};
pub use functions::{Block, CallArg, CallOp, Function, Inst, Lines, Param, Phi, Term, Value};
pub use limits::{MOST_BLOCKS, MOST_BYTES, MOST_CASES, MOST_NAMES};
pub use lists::{Few, Items};
pub use names::Name;
pub use numbering::{Local, locals, shown_block, shown_value};
pub use operands::operand;
pub use operations::{
    Bin, BlockId, Cast, CastFlags, Flags, Fun1, Fun2, Op, Operand, Over, Pred, Ty, ValueId,
};
pub use reasons::{Kind, Outside};
pub use tokens::{Token, TokenKind};
pub use words::{CALL_WORDS, Keyword, LEAD_WORDS, PARAMETER_WORDS, is_among, keyword_of};
