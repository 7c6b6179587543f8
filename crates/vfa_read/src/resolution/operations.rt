//! Operations: with ids in place of names, flags in place of words.

ghost use Rattle.std.specs.Prelude.{◌≡◌, ◌++◌, All, flat_map, length, map, IfErr, IfOk, IfSome};
ghost use Rattle.vfa_ir.specs.DefinedNames.{operation_uses, value_uses};
ghost use Rattle.vfa_ir.specs.Grammar.{FitsArgument, FitsLiteral, FitsOperation};
ghost use Rattle.vfa_ir.specs.Resolution.{argument_of, cast_flags_of_words as cast_flags_by_words, flags_of_words as flags_by_words, is_strict as is_strict_literal, op_of};
ghost use Rattle.vfa_ir.specs.Words.{is_among};
ghost use Rattle.vfa_ir.specs.declared.reasons.Outside.TheVariants.{Memory};
ghost use Rattle.vfa_read.specs.Resolving.{operation_calls, Resolves};

use super::literals::literal_bits;
use super::table::SymbolTable;
use super::values::copied_names;
use std::alloc::Global;
use vfa_ir::syntax::{Argument, Literal, Operation};
use vfa_ir::{CallArg, CallOp, CastFlags, Flags, Items, Name, Op, Outside};

fn has_word(words: &[Name], word: &[u8]) -> bool
    ensures { result ≡ is_among word.now words.now }
{
    words.iter().any(|found| word == found.bytes())
}

fn flags_of_words(words: &[Name]) -> Flags
    ensures { result ≡ flags_by_words words.now }
{
    Flags {
        nuw: has_word(words, b"nuw"),
        nsw: has_word(words, b"nsw"),
        exact: has_word(words, b"exact"),
        disjoint: has_word(words, b"disjoint"),
    }
}

fn cast_flags_of_words(words: &[Name]) -> CastFlags
    ensures { result ≡ cast_flags_by_words words.now }
{
    CastFlags {
        nuw: has_word(words, b"nuw"),
        nsw: has_word(words, b"nsw"),
        nneg: has_word(words, b"nneg"),
    }
}

fn is_strict(literal: &Option<Literal>) -> bool
    requires { IfSome literal.now (FitsLiteral 1) }
    ensures { result ≡ is_strict_literal literal.now }
{
    match literal {
        Some(literal) => literal_bits(literal, 1) == 1,
        None => false,
    }
}

/// The place of the next call. Calls that no place counts fit into no memory.
fn call_place(calls: &[CallOp]) -> Result<u32, Outside>
    ensures place { IfOk result (λ place. place ≡ length calls.now) }
    ensures memory { IfErr result (λ e. e ≡ Memory) }
{
    match u32::try_from(calls.len()) {
        Ok(place) => Ok(place),
        Err(_) => Err(Outside::Memory),
    }
}

impl SymbolTable {
    fn argument(&self, alloc: Global, argument: &Argument) -> Result<CallArg, Outside>
        requires { FitsArgument argument.now }
        ensures { Resolves self.now (value_uses argument.now.value) (argument_of self.now argument.now) result }
    {
        let value = self.operand(alloc, &argument.value, argument.width)?;
        let words = copied_names(alloc, argument.words.as_slice())?;
        Ok(CallArg {
            width: argument.width,
            words,
            value,
        })
    }

    fn arguments(&self, alloc: Global, arguments: &[Argument]) -> Result<Items<CallArg>, Outside>
        requires { All FitsArgument arguments.now }
        ensures { Resolves self.now (flat_map (λ a. value_uses a.value) arguments.now) (map (argument_of self.now) arguments.now) result }
    {
        let mut list = Vec::new(alloc);
        'each: for argument in arguments {
            let item = self.argument(alloc, argument)?;
            list.push(item)?;
        }
        Ok(Items(list))
    }

    /// The call of ids.
    fn call(
        &self,
        alloc: Global,
        words: &Items<Name>,
        callee: &Name,
        arguments: &[Argument],
    ) -> Result<CallOp, Outside>
        requires { All FitsArgument arguments.now }
        ensures { Resolves self.now (flat_map (λ a. value_uses a.value) arguments.now)
            (record { callee = callee.now; words = words.now; args = map (argument_of self.now) arguments.now }) result }
    {
        let args = self.arguments(alloc, arguments)?;
        let callee = callee.copied(alloc)?;
        let words = copied_names(alloc, words.as_slice())?;
        Ok(CallOp {
            callee,
            words,
            args,
        })
    }

    /// The operation of ids, before which these calls stand. A call is put last among them.
    #[tactic(auto, using(crate::proofs::Strict::strict_fits))]
    pub fn operation(
        &self,
        alloc: Global,
        calls: &mut Vec<CallOp>,
        operation: &Operation,
    ) -> Result<Op, Outside>
        requires { FitsOperation operation.now }
        ensures resolves { Resolves self.now (operation_uses operation.now) (op_of self.now (length calls.old.items) operation.now) result }
        ensures calls { IfOk result (λ _. calls.new.items ≡ calls.old.items ++ operation_calls self.now operation.now) }
    {
        match operation {
            Operation::Binary {
                bin,
                flags,
                width,
                a,
                b,
            } => {
                let (a, b) = self.operands(alloc, a, b, *width)?;
                Ok(Op::Bin {
                    bin: *bin,
                    flags: flags_of_words(flags.as_slice()),
                    width: *width,
                    a,
                    b,
                })
            }
            Operation::Compare {
                samesign,
                pred,
                width,
                a,
                b,
            } => {
                let (a, b) = self.operands(alloc, a, b, *width)?;
                Ok(Op::Icmp {
                    pred: *pred,
                    samesign: *samesign,
                    width: *width,
                    a,
                    b,
                })
            }
            Operation::Select { c, width, a, b } => {
                let c = self.operand(alloc, c, 1)?;
                let (a, b) = self.operands(alloc, a, b, *width)?;
                Ok(Op::Select {
                    width: *width,
                    c,
                    a,
                    b,
                })
            }
            Operation::Convert {
                cast,
                flags,
                from,
                a,
                to,
            } => {
                let a = self.operand(alloc, a, *from)?;
                Ok(Op::Cast {
                    cast: *cast,
                    flags: cast_flags_of_words(flags.as_slice()),
                    from: *from,
                    to: *to,
                    a,
                })
            }
            Operation::Freeze { width, a } => {
                let a = self.operand(alloc, a, *width)?;
                Ok(Op::Freeze { width: *width, a })
            }
            Operation::Extract { width, pair, index } => {
                let pair = self.value(alloc, pair)?;
                Ok(Op::Part {
                    width: *width,
                    pair,
                    index: *index,
                })
            }
            Operation::Two {
                fun,
                width,
                a,
                b,
                ..
            } => {
                let (a, b) = self.operands(alloc, a, b, *width)?;
                Ok(Op::Two {
                    fun: *fun,
                    width: *width,
                    a,
                    b,
                })
            }
            Operation::One {
                fun,
                width,
                a,
                strict,
                ..
            } => {
                let a = self.operand(alloc, a, *width)?;
                Ok(Op::One {
                    fun: *fun,
                    width: *width,
                    a,
                    strict: is_strict(strict),
                })
            }
            Operation::Over {
                over,
                width,
                a,
                b,
                ..
            } => {
                let (a, b) = self.operands(alloc, a, b, *width)?;
                Ok(Op::Over {
                    over: *over,
                    width: *width,
                    a,
                    b,
                })
            }
            Operation::Assume { c, .. } => {
                let c = self.operand(alloc, c, 1)?;
                Ok(Op::Assume { c })
            }
            Operation::Call {
                words,
                width,
                callee,
                arguments,
                ..
            } => {
                let call = self.call(alloc, words, callee, arguments.as_slice())?;
                let place = call_place(calls)?;
                calls.push(call)?;
                Ok(Op::Call {
                    width: *width,
                    call: place,
                })
            }
        }
    }
}
