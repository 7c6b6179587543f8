//! Words that no numbers of the operands break.

ghost use Rattle.std.specs.Prelude.{◌≡◌, ◌&&◌, ◌||◌};
ghost use Rattle.vfa_rules.specs.Conditions.{have_one_sign};
ghost use Rattle.vfa_rules.specs.Ready.{AreReady};
ghost use Rattle.vfa_rules.specs.Rules.{gained_cast_flags, gained_flags, gained_no_wrap, gained_words, is_order};
ghost use Rattle.vfa_word.specs.Numbers.{IsWidth};

use crate::bits::ones_are_apart;
use crate::ends::{fits_width, fits_width_signed, have_one_sign, is_natural};
use crate::spans::stays;
use vfa_fact::Cell;
use vfa_ir::{Bin, Cast, CastFlags, Flags, Op, Pred};
use vfa_word::Arith;

/// The words with `nuw` and `nsw` where the whole results stay in the ranges.
fn gained_no_wrap(op: Arith, flags: Flags, x: &Cell, y: &Cell) -> Flags
    requires { x.now.width ≡ y.now.width }
    ensures { result ≡ gained_no_wrap op flags x.now y.now }
{
    let kept = stays(op, x, y);
    Flags {
        nuw: flags.nuw || kept.unsigned,
        nsw: flags.nsw || kept.signed,
        exact: flags.exact,
        disjoint: flags.disjoint,
    }
}

/// The words with `disjoint` where no bit may be one in both.
fn gained_disjoint(flags: Flags, x: &Cell, y: &Cell) -> Flags
    requires { x.now.width ≡ y.now.width }
    ensures { result ≡ gained_flags Bin.Or flags x.now y.now }
{
    Flags {
        nuw: flags.nuw,
        nsw: flags.nsw,
        exact: flags.exact,
        disjoint: flags.disjoint || ones_are_apart(x, y),
    }
}

/// The words of a binary operation.
fn gained_flags(bin: Bin, flags: Flags, x: &Cell, y: &Cell) -> Flags
    requires { x.now.width ≡ y.now.width }
    ensures { result ≡ gained_flags bin flags x.now y.now }
{
    match bin {
        Bin::Add => gained_no_wrap(Arith::Add, flags, x, y),
        Bin::Sub => gained_no_wrap(Arith::Sub, flags, x, y),
        Bin::Mul => gained_no_wrap(Arith::Mul, flags, x, y),
        Bin::Shl => gained_no_wrap(Arith::Shl, flags, x, y),
        Bin::Or => gained_disjoint(flags, x, y),
        _ => flags,
    }
}

/// The words of a conversion to the width.
fn gained_cast_flags(cast: Cast, flags: CastFlags, to: u32, x: &Cell) -> CastFlags
    requires { IsWidth to }
    ensures { result ≡ gained_cast_flags cast flags to x.now }
{
    match cast {
        Cast::Zext => CastFlags {
            nuw: flags.nuw,
            nsw: flags.nsw,
            nneg: flags.nneg || is_natural(x),
        },
        Cast::Trunc => CastFlags {
            nuw: flags.nuw || fits_width(to, x),
            nsw: flags.nsw || fits_width_signed(to, x),
            nneg: flags.nneg,
        },
        Cast::Sext => flags,
    }
}

/// Whether the predicate is one of the orders.
fn is_order(pred: Pred) -> bool
    ensures { result ≡ is_order pred }
{
    match pred {
        Pred::Eq | Pred::Ne => false,
        _ => true,
    }
}

/// Whether a comparison has `samesign`.
fn gained_samesign(pred: Pred, samesign: bool, x: &Cell, y: &Cell) -> bool
    ensures { result ≡ (samesign || (is_order pred && have_one_sign x.now y.now)) }
{
    if samesign {
        return true;
    }
    if !is_order(pred) {
        return false;
    }
    have_one_sign(x, y)
}

/// The operation with each word that no numbers of the operands break.
pub(crate) fn gained_words(op: &Op, x: &Cell, y: &Cell) -> Op
    requires { AreReady op.now x.now y.now }
    ensures { result ≡ gained_words x.now y.now op.now }
{
    match *op {
        Op::Bin {
            bin,
            flags,
            width,
            a,
            b,
        } => Op::Bin {
            bin,
            flags: gained_flags(bin, flags, x, y),
            width,
            a,
            b,
        },
        Op::Cast {
            cast,
            flags,
            from,
            to,
            a,
        } => Op::Cast {
            cast,
            flags: gained_cast_flags(cast, flags, to, x),
            from,
            to,
            a,
        },
        Op::Icmp {
            pred,
            samesign,
            width,
            a,
            b,
        } => Op::Icmp {
            pred,
            samesign: gained_samesign(pred, samesign, x, y),
            width,
            a,
            b,
        },
        op => op,
    }
}
