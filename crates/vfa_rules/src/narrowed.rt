//! Divisions of numbers that a lesser width has.

ghost use Rattle.std.specs.Prelude.{◌≡◌, ◌<◌, ◌^◌, ◌&&◌, nat_lt, find, Option, Some};
ghost use Rattle.vfa_fact.specs.CellCuts.{cell_ends};
ghost use Rattle.vfa_rules.specs.Rules.{division_widths, divides_unsigned, if_below, lesser_width, narrow_width};

use vfa_fact::Cell;
use vfa_ir::{Bin, Op};

/// The least of the widths 8, 16, 32 and 64 at which both numbers are.
fn width_for(x: u128, y: u128) -> Option<u32>
    ensures { result ≡ find (λ v. nat_lt x (2 ^ v) && nat_lt y (2 ^ v)) division_widths }
{
    let most = x.max(y);
    if most <= u128::from(u8::MAX) {
        return Some(u8::BITS);
    }
    if most <= u128::from(u16::MAX) {
        return Some(u16::BITS);
    }
    if most <= u128::from(u32::MAX) {
        return Some(u32::BITS);
    }
    if most <= u128::from(u64::MAX) {
        return Some(u64::BITS);
    }
    None
}

/// The width, where it is less than the other.
fn if_below(width: u32, lesser: Option<u32>) -> Option<u32>
    ensures { result ≡ if_below width lesser }
{
    match lesser {
        Some(lesser) if lesser < width => Some(lesser),
        _ => None,
    }
}

/// The least width at which all numbers of both are, where it is less than the width.
fn lesser_width(width: u32, x: &Cell, y: &Cell) -> Option<u32>
    ensures { result ≡ lesser_width width (cell_ends x.now) (cell_ends y.now) }
{
    let x = x.ends()?;
    let y = y.ends()?;
    if_below(width, width_for(x.hi, y.hi))
}

/// Whether the operation is an unsigned division or remainder.
fn divides_unsigned(bin: Bin) -> bool
    ensures { result ≡ divides_unsigned bin }
{
    match bin {
        Bin::Udiv | Bin::Urem => true,
        _ => false,
    }
}

/// The width at which an unsigned division whose result is used can be done.
pub(crate) fn narrow_width(op: &Op, used: bool, x: &Cell, y: &Cell) -> Option<u32>
    ensures { result ≡ narrow_width used x.now y.now op.now }
{
    match *op {
        Op::Bin { bin, width, .. } => {
            if !divides_unsigned(bin) || !used {
                return None;
            }
            lesser_width(width, x, y)
        }
        _ => None,
    }
}
