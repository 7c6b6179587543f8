//! Binary operations on facts.

ghost use Rattle.std.specs.Prelude.{◌≡◌, ◌<◌, ◌^◌, ◌&&◌, ◌||◌, not};
ghost use Rattle.std.specs.Option.{option_map};
ghost use Rattle.vfa_fact.specs.Cells.{IsCell};
ghost use Rattle.vfa_fact.specs.Views.{numbers_of};
ghost use Rattle.vfa_mean.specs.Meaning.{Allowed, Gave, binary};
ghost use Rattle.vfa_mean.specs.declared.value.Val.{Val};
ghost use Rattle.vfa_word.specs.Numbers.{IsWidth};
ghost use Rattle.vfa_xfer.specs.AnyFacts.{CellHolds};
ghost use Rattle.vfa_xfer.specs.Binary.{are_disjoint, binary_by_row, binary_cell, binary_constant, drops_zeros, ends_in_numbers, never_breaks, operands_marked, shifts_within};
ghost use Rattle.vfa_xfer.specs.Bounds.{keeps_in_range};

use crate::binary_rows::{binary_row, fact_ends};
use crate::bounds::keeps_in_range;
use crate::constants::constant_cell;
use crate::rows::cell_with;
use vfa_fact::{Cell, Fact, at_width};
use vfa_ir::{Bin, Flags, Op, Operand};
use vfa_mean::{Val, eval};
use vfa_word::{Arith, most};

/// Whether no flag of `nuw` and `nsw` is broken by numbers of the facts, whose ends are looked up only for a flag.
fn facts_keep_in_range<const W: u32>(op: Arith, flags: Flags, a: &Fact<W>, b: &Fact<W>) -> bool
    requires width { IsWidth W }
    requires amounts { op ≡ Arith.Shl → (ends_in_numbers W (numbers_of b.now)).hi < W }
    ensures { result ≡ keeps_in_range op flags W (ends_in_numbers W (numbers_of a.now)) (ends_in_numbers W (numbers_of b.now)) }
{
    if !flags.nuw && !flags.nsw {
        return true;
    }
    keeps_in_range(op, flags, &fact_ends(a), &fact_ends(b))
}

/// Whether each number of the fact is below the width.
fn shifts_within<const W: u32>(b: &Fact<W>) -> bool
    requires { IsWidth W }
    ensures { result ≡ shifts_within W (numbers_of b.now) }
{
    fact_ends(b).hi < u128::from(W)
}

/// Whether each bit that some amount shifts out to the right is known to be zero.
#[tactic(auto, unfolding(crate::specs::Binary::drops_zeros))]
fn drops_zeros<const W: u32>(a: &Fact<W>, b: &Fact<W>) -> bool
    requires { IsWidth W }
    ensures { result ≡ drops_zeros W (numbers_of a.now) (numbers_of b.now) }
{
    fact_ends(b).hi <= u128::from(a.known().zeros().trailing_ones())
}

/// Whether no bit may be one in both.
fn are_disjoint<const W: u32>(a: &Fact<W>, b: &Fact<W>) -> bool
    requires { IsWidth W }
    ensures { result ≡ are_disjoint W (numbers_of a.now) (numbers_of b.now) }
{
    a.known().zeros() | b.known().zeros() == most::<W>()
}

/// Whether a shift to the left by these amounts breaks no flag.
fn left_never_breaks<const W: u32>(flags: Flags, a: &Fact<W>, b: &Fact<W>) -> bool
    requires { IsWidth W }
    ensures { result ≡ (shifts_within W (numbers_of b.now) && keeps_in_range Arith.Shl flags W (ends_in_numbers W (numbers_of a.now)) (ends_in_numbers W (numbers_of b.now))) }
{
    if !shifts_within(b) {
        return false;
    }
    facts_keep_in_range(Arith::Shl, flags, a, b)
}

/// Whether a shift to the right by these amounts breaks no flag.
fn right_never_breaks<const W: u32>(flags: Flags, a: &Fact<W>, b: &Fact<W>) -> bool
    requires { IsWidth W }
    ensures { result ≡ (shifts_within W (numbers_of b.now) && (not flags.exact || drops_zeros W (numbers_of a.now) (numbers_of b.now))) }
{
    if !shifts_within(b) {
        return false;
    }
    !flags.exact || drops_zeros(a, b)
}

/// Whether the operation gives a number of any two numbers of the facts, or has undefined behaviour.
#[tactic(auto, unfolding(crate::specs::Binary::never_breaks))]
fn never_breaks<const W: u32>(bin: Bin, flags: Flags, a: &Fact<W>, b: &Fact<W>) -> bool
    requires { IsWidth W }
    ensures { result ≡ never_breaks bin flags W (numbers_of a.now) (numbers_of b.now) }
{
    match bin {
        Bin::Add => facts_keep_in_range(Arith::Add, flags, a, b),
        Bin::Sub => facts_keep_in_range(Arith::Sub, flags, a, b),
        Bin::Mul => facts_keep_in_range(Arith::Mul, flags, a, b),
        Bin::Shl => left_never_breaks(flags, a, b),
        Bin::Udiv | Bin::Sdiv => !flags.exact,
        Bin::Lshr | Bin::Ashr => right_never_breaks(flags, a, b),
        Bin::Urem | Bin::Srem | Bin::And | Bin::Xor => true,
        Bin::Or => !flags.disjoint || are_disjoint(a, b),
    }
}

/// Whether the operands that could make the result poison are never poison.
fn operands_marked(bin: Bin, a: &Cell, b: &Cell) -> bool
    ensures { result ≡ operands_marked bin a.now b.now }
{
    match bin {
        Bin::Udiv | Bin::Sdiv | Bin::Urem | Bin::Srem => a.never_poison,
        _ => a.never_poison && b.never_poison,
    }
}

/// The result of cells of width `W` by the operation's row.
fn binary_at<const W: u32>(bin: Bin, flags: Flags, a: &Cell, b: &Cell) -> Cell
    requires width { IsWidth W }
    requires left { a.now.width ≡ W }
    requires right { b.now.width ≡ W }
    ensures { result ≡ binary_by_row bin flags a.now b.now a.now.numbers b.now.numbers }
{
    let Some(one) = a.typed::<W>() else {
        return Cell::none(W);
    };
    let Some(two) = b.typed::<W>() else {
        return Cell::none(W);
    };
    let fact = match binary_row(bin, flags, &one, &two) {
        Some(row) => row.fact(),
        None => None,
    };
    let mark = operands_marked(bin, a, b) && never_breaks(bin, flags, &one, &two);
    cell_with(fact, mark)
}

/// The result of cells of one width by the operation's row.
fn binary_by_width(width: u32, bin: Bin, flags: Flags, a: &Cell, b: &Cell) -> Cell
    requires width { IsWidth width }
    requires left { a.now.width ≡ width }
    requires right { b.now.width ≡ width }
    ensures { result ≡ binary_by_row bin flags a.now b.now a.now.numbers b.now.numbers }
{
    at_width!(width, binary_at, (bin, flags, a, b))
}

/// What the operation gives of the numbers `x` and `y` of the cells alone.
fn binary_constant(bin: Bin, flags: Flags, a: &Cell, b: &Cell, x: u128, y: u128) -> Cell
    requires width { IsWidth a.now.width }
    requires left { x < 2 ^ a.now.width }
    requires right { y < 2 ^ a.now.width }
    ensures { result ≡ binary_constant bin flags a.now b.now x y }
{
    let op = Op::Bin {
        bin,
        flags,
        width: a.width,
        a: Operand::Poison,
        b: Operand::Poison,
    };
    let done = eval(&op, Val::Number(x), Val::Number(y), Val::Poison);
    constant_cell(a.width, done, operands_marked(bin, a, b))
}

/// The cell of the result of a binary operation.
#[tactic(auto, unfolding(crate::specs::Binary::binary_cell))]
fn binary_cell(bin: Bin, flags: Flags, a: &Cell, b: &Cell) -> Cell
    requires { a.now.width ≡ b.now.width }
    ensures { result ≡ binary_cell bin flags a.now b.now }
{
    let width = a.width;
    let Some(x) = a.single() else {
        return binary_by_width(width, bin, flags, a, b);
    };
    let Some(y) = b.single() else {
        return binary_by_width(width, bin, flags, a, b);
    };
    binary_constant(bin, flags, a, b, x, y)
}

/// What is known of the result of a binary operation on values of which the cells are known, both of one width.
///
/// Its numbers are the best known bits of the results of the two cubes, or for products and divisions some of them, within
/// an arc that holds each result and the bounds that the flags put, made sharp; of two numbers alone they are the one that
/// the operation gives. It has no numbers where an operand has none or the operation gives none. It is never poison where
/// the operands are not, or the dividend of a division is not, and no flag can be broken.
///
/// At width 8, `add nuw` of 200 to 210 and 40 to 60, both never poison, is 240 to 255 that may be poison.
pub fn transfer_binary(bin: Bin, flags: Flags, a: &Cell, b: &Cell) -> Cell
    requires { a.now.width ≡ b.now.width }
    ensures exact { result ≡ binary_cell bin flags a.now b.now }
    ensures holds { (x y r : Val) → CellHolds a.now x → CellHolds b.now y →
        Allowed (binary bin flags a.now.width x y) (Gave r) → CellHolds result r }
    ensures cell { IsCell result }
{
    // the prover knows of each that it is a cell once a field of it is read
    let _widths = (a.width, b.width);
    binary_cell(bin, flags, a, b)
}

#[cfg(test)]
mod tests;
