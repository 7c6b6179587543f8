//! The operands of an operation, and an operation without its flags.

ghost use Rattle.std.specs.Prelude.{◌≡◌, [], ◌∷◌, slice_get};
ghost use Rattle.vfa_ir.specs.Operands.{arguments_of, operands_of, pair_of_width, without_flags};
ghost use Rattle.vfa_ir.specs.declared.operations.Ty.TheVariants.{Int};

use crate::functions::Function;
use crate::operations::{CastFlags, Flags, Op, Operand, Ty};

/// The operand of a place among those of an operation of one operand.
fn only(ty: Ty, a: Operand, place: usize) -> Option<(Ty, Operand)>
    ensures { result ≡ slice_get ((ty, a) ∷ []) place }
{
    match place {
        0 => Some((ty, a)),
        _ => None,
    }
}

/// The operand of a place among two numbers of one width.
fn of_two(width: u32, a: Operand, b: Operand, place: usize) -> Option<(Ty, Operand)>
    ensures { result ≡ slice_get (pair_of_width width a b) place }
{
    match place {
        0 => Some((Ty::Int(width), a)),
        1 => Some((Ty::Int(width), b)),
        _ => None,
    }
}

/// The operand of a place among those of a `select`.
fn of_select(width: u32, c: Operand, a: Operand, b: Operand, place: usize) -> Option<(Ty, Operand)>
    ensures { result ≡ slice_get ((Int 1, c) ∷ pair_of_width width a b) place }
{
    match place {
        0 => Some((Ty::Int(1), c)),
        _ => of_two(width, a, b, place - 1),
    }
}

/// The argument of a place among those of a call.
fn argument(f: &Function, call: u32, place: usize) -> Option<(Ty, Operand)>
    ensures { result ≡ slice_get (arguments_of (slice_get f.now.calls call)) place }
{
    let call = f.calls.as_slice().get(call as usize)?;
    let argument = call.args.as_slice().get(place)?;
    Some((Ty::Int(argument.width), argument.value))
}

/// The operand of this place among those of an operation of the function, from 0 on in text order, with the type that is
/// written for it; none where the operation has no more operands than the place. The arguments of a call are its
/// operands, and the pair of an `extractvalue` is one; the literal of `llvm.abs`, `llvm.ctlz` and `llvm.cttz` is none.
///
/// The operand 0 of `select i1 %c, i8 %a, i8 1` is `%c` of type `i1`, the operand 2 is 1 of type `i8`, and there is no
/// operand 3.
pub fn operand(f: &Function, op: &Op, place: usize) -> Option<(Ty, Operand)>
    ensures { result ≡ slice_get (operands_of f.now op.now) place }
{
    match *op {
        Op::Bin { width, a, b, .. } => of_two(width, a, b, place),
        Op::Icmp { width, a, b, .. } => of_two(width, a, b, place),
        Op::Select { width, c, a, b } => of_select(width, c, a, b, place),
        Op::Cast { from, a, .. } => only(Ty::Int(from), a, place),
        Op::Freeze { width, a } => only(Ty::Int(width), a, place),
        Op::Two { width, a, b, .. } => of_two(width, a, b, place),
        Op::One { width, a, .. } => only(Ty::Int(width), a, place),
        Op::Over { width, a, b, .. } => of_two(width, a, b, place),
        Op::Part { width, pair, .. } => only(Ty::Pair(width), Operand::Value(pair), place),
        Op::Assume { c } => only(Ty::Int(1), c, place),
        Op::Call { call, .. } => argument(f, call, place),
    }
}

impl Op {
    /// The same operation with each flag taken away: `nuw`, `nsw`, `exact`, `disjoint`, `samesign` and `nneg`.
    ///
    /// Of `add nuw i8 %a, 1` it is `add i8 %a, 1`.
    pub fn bare(&self) -> Op
        ensures { result ≡ without_flags self.now }
    {
        match *self {
            Op::Bin {
                bin,
                width,
                a,
                b,
                ..
            } => Op::Bin {
                bin,
                flags: Flags {
                    nuw: false,
                    nsw: false,
                    exact: false,
                    disjoint: false,
                },
                width,
                a,
                b,
            },
            Op::Icmp {
                pred,
                width,
                a,
                b,
                ..
            } => Op::Icmp {
                pred,
                samesign: false,
                width,
                a,
                b,
            },
            Op::Cast {
                cast,
                from,
                to,
                a,
                ..
            } => Op::Cast {
                cast,
                flags: CastFlags {
                    nuw: false,
                    nsw: false,
                    nneg: false,
                },
                from,
                to,
                a,
            },
            op => op,
        }
    }
}
