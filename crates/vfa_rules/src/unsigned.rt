//! Signed operations on numbers of one sign.

ghost use Rattle.std.specs.Prelude.{◌≡◌, ◌&&◌};
ghost use Rattle.vfa_rules.specs.Conditions.{is_natural};
ghost use Rattle.vfa_rules.specs.Rules.{unsigned_binary, unsigned_cast, unsigned_form, unsigned_order, unsigned_predicate};

use crate::ends::{have_one_sign, is_natural};
use vfa_fact::Cell;
use vfa_ir::{Bin, Cast, Op, Pred};

/// Whether no number of either is negative.
fn are_natural(x: &Cell, y: &Cell) -> bool
    ensures { result ≡ (is_natural x.now && is_natural y.now) }
{
    if !is_natural(x) {
        return false;
    }
    is_natural(y)
}

/// The unsigned operation in place of a signed one on numbers that are not negative.
fn unsigned_binary(bin: Bin, x: &Cell, y: &Cell) -> Bin
    ensures { result ≡ unsigned_binary bin x.now y.now }
{
    match bin {
        Bin::Sdiv if are_natural(x, y) => Bin::Udiv,
        Bin::Srem if are_natural(x, y) => Bin::Urem,
        Bin::Ashr if is_natural(x) => Bin::Lshr,
        bin => bin,
    }
}

/// `zext` in place of `sext` of numbers that are not negative.
fn unsigned_cast(cast: Cast, x: &Cell) -> Cast
    ensures { result ≡ unsigned_cast cast x.now }
{
    match cast {
        Cast::Sext if is_natural(x) => Cast::Zext,
        cast => cast,
    }
}

/// The unsigned order in place of the signed one.
fn unsigned_order(pred: Pred) -> Pred
    ensures { result ≡ unsigned_order pred }
{
    match pred {
        Pred::Sgt => Pred::Ugt,
        Pred::Sge => Pred::Uge,
        Pred::Slt => Pred::Ult,
        Pred::Sle => Pred::Ule,
        pred => pred,
    }
}

/// The predicate of a comparison: the unsigned order where the numbers are of one sign, or the result is poison.
fn unsigned_predicate(pred: Pred, samesign: bool, x: &Cell, y: &Cell) -> Pred
    ensures { result ≡ unsigned_predicate pred samesign x.now y.now }
{
    if samesign || have_one_sign(x, y) {
        return unsigned_order(pred);
    }
    pred
}

/// The unsigned operation in place of a signed one that gives the same.
pub(crate) fn unsigned_form(op: &Op, x: &Cell, y: &Cell) -> Op
    ensures { result ≡ unsigned_form x.now y.now op.now }
{
    match *op {
        Op::Bin {
            bin,
            flags,
            width,
            a,
            b,
        } => Op::Bin {
            bin: unsigned_binary(bin, x, y),
            flags,
            width,
            a,
            b,
        },
        Op::Cast {
            cast,
            flags,
            from,
            to,
            a,
        } => Op::Cast {
            cast: unsigned_cast(cast, x),
            flags,
            from,
            to,
            a,
        },
        Op::Icmp {
            pred,
            samesign,
            width,
            a,
            b,
        } => Op::Icmp {
            pred: unsigned_predicate(pred, samesign, x, y),
            samesign,
            width,
            a,
            b,
        },
        op => op,
    }
}
