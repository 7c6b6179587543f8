//! Saturation and overflow intrinsics that never overflow.

ghost use Rattle.std.specs.Prelude.{◌≡◌, ◌&&◌, nat_eq};
ghost use Rattle.vfa_rules.specs.Conditions.{is_only};
ghost use Rattle.vfa_mean.specs.Rows.{overflow_arith};
ghost use Rattle.vfa_rules.specs.Ready.{AreReady};
ghost use Rattle.vfa_rules.specs.Rules.{extracted, no_wrap, plain, plain_arithmetic, plain_if, range_of_overflow, unsaturated};

use crate::change::OverflowCall;
use crate::ends::is_only;
use crate::spans::stays;
use vfa_fact::Cell;
use vfa_ir::{Bin, Flags, Fun2, Op, Operand, Over, ValueId};
use vfa_word::Arith;
use vfa_wrap::Reading;

/// The word that promises no wrap in the reading.
fn no_wrap(reading: Reading) -> Flags
    ensures { result ≡ no_wrap reading }
{
    match reading {
        Reading::Unsigned => Flags {
            nuw: true,
            nsw: false,
            exact: false,
            disjoint: false,
        },
        Reading::Signed => Flags {
            nuw: false,
            nsw: true,
            exact: false,
            disjoint: false,
        },
    }
}

/// The binary operation that gives the whole result modulo 2^w.
fn plain(op: Arith) -> Bin
    ensures { result ≡ plain op }
{
    match op {
        Arith::Add => Bin::Add,
        Arith::Sub => Bin::Sub,
        Arith::Mul => Bin::Mul,
        Arith::Shl => Bin::Shl,
    }
}

/// What an overflow intrinsic computes.
fn overflow_arith(over: Over) -> Arith
    ensures { result ≡ overflow_arith over }
{
    match over {
        Over::Uadd | Over::Sadd => Arith::Add,
        Over::Usub | Over::Ssub => Arith::Sub,
        Over::Umul | Over::Smul => Arith::Mul,
    }
}

/// The reading whose range its bit speaks of.
fn range_of_overflow(over: Over) -> Reading
    ensures { result ≡ range_of_overflow over }
{
    match over {
        Over::Uadd | Over::Usub | Over::Umul => Reading::Unsigned,
        Over::Sadd | Over::Ssub | Over::Smul => Reading::Signed,
    }
}

/// The plain operation, which does not wrap, where the results stay in the range; else the operation as it is.
fn plain_if(
    stays: bool,
    arith: Arith,
    reading: Reading,
    width: u32,
    a: Operand,
    b: Operand,
    op: Op,
) -> Op
    ensures { result ≡ plain_if stays arith reading width a b op }
{
    if stays {
        return Op::Bin {
            bin: plain(arith),
            flags: no_wrap(reading),
            width,
            a,
            b,
        };
    }
    op
}

/// A saturating operation that never saturates is the plain one.
fn unsaturated(fun: Fun2, x: &Cell, y: &Cell, width: u32, a: Operand, b: Operand) -> Op
    requires { x.now.width ≡ y.now.width }
    ensures { result ≡ unsaturated fun x.now y.now width a b }
{
    let op = Op::Two { fun, width, a, b };
    match fun {
        Fun2::UaddSat => {
            let fits = stays(Arith::Add, x, y).unsigned;
            plain_if(fits, Arith::Add, Reading::Unsigned, width, a, b, op)
        }
        Fun2::UsubSat => {
            let fits = stays(Arith::Sub, x, y).unsigned;
            plain_if(fits, Arith::Sub, Reading::Unsigned, width, a, b, op)
        }
        Fun2::SaddSat => {
            let fits = stays(Arith::Add, x, y).signed;
            plain_if(fits, Arith::Add, Reading::Signed, width, a, b, op)
        }
        Fun2::SsubSat => {
            let fits = stays(Arith::Sub, x, y).signed;
            plain_if(fits, Arith::Sub, Reading::Signed, width, a, b, op)
        }
        Fun2::Umin | Fun2::Umax | Fun2::Smin | Fun2::Smax => op,
    }
}

/// Whether the part is the number of a pair whose bit is 0 alone.
fn is_number_without_overflow(bit: &Cell, index: u32) -> bool
    ensures { result ≡ (nat_eq index 0 && is_only bit.now 0) }
{
    if index != 0 {
        return false;
    }
    is_only(bit, 0)
}

/// The number of the pair of an overflow intrinsic that never overflows is the plain result.
fn extracted(call: Option<OverflowCall>, bit: &Cell, width: u32, pair: ValueId, index: u32) -> Op
    ensures { result ≡ extracted call bit.now width pair index }
{
    let op = Op::Part { width, pair, index };
    let Some(call) = call else {
        return op;
    };
    plain_if(
        is_number_without_overflow(bit, index),
        overflow_arith(call.over),
        range_of_overflow(call.over),
        width,
        call.a,
        call.b,
        op,
    )
}

/// The plain operation in place of an intrinsic that never overflows.
pub(crate) fn plain_arithmetic(
    op: &Op,
    call: Option<OverflowCall>,
    bit: &Cell,
    x: &Cell,
    y: &Cell,
) -> Op
    requires { AreReady op.now x.now y.now }
    ensures { result ≡ plain_arithmetic call bit.now x.now y.now op.now }
{
    match *op {
        Op::Two { fun, width, a, b } => unsaturated(fun, x, y, width, a, b),
        Op::Part { width, pair, index } => extracted(call, bit, width, pair, index),
        op => op,
    }
}
