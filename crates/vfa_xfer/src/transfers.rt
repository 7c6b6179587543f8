//! What operations make of facts of values of any type.

ghost use Rattle.std.specs.Prelude.{◌≡◌};
ghost use Rattle.vfa_mean.specs.Operands.{IsOperation};
ghost use Rattle.vfa_values.specs.Operands.{AreOperandFacts};
ghost use Rattle.vfa_xfer.specs.AnyFacts.{fact_type, IsAnyFact};
ghost use Rattle.vfa_xfer.specs.Transfers.{cell_in, part_of_parts, transferred};

use crate::any_fact::AnyFact;
use crate::binary::transfer_binary;
use crate::casts::transfer_cast;
use crate::comparisons::transfer_icmp;
use crate::counts::transfer_one;
use crate::extremes::transfer_two;
use crate::fact_calls::of_cell;
use crate::overflows::transfer_over;
use crate::selects::{assume, freeze, part, select};
use vfa_fact::{Cell, Parts};
use vfa_ir::Op;

/// The cell of a number; of a pair that of its number.
fn cell_in(fact: &AnyFact) -> &Cell
    ensures { result.now ≡ cell_in fact.now }
{
    match &fact.parts {
        Parts::One(cell) => cell,
        Parts::Two(cell, _) => cell,
    }
}

/// The cell of the part of a pair.
fn part_of(index: u32, fact: &AnyFact) -> Cell
    ensures { result ≡ part_of_parts index fact.now.parts }
{
    match &fact.parts {
        Parts::One(cell) => *cell,
        Parts::Two(number, overflow) => part(index, number, overflow),
    }
}

/// The fact of an operation's result, by facts of the operands that its fields of these names are.
pub(crate) fn transfer(op: &Op, a: &AnyFact, b: &AnyFact, c: &AnyFact) -> AnyFact
    requires operation { IsOperation op.now }
    requires operands { AreOperandFacts fact_type IsAnyFact op.now a.now b.now c.now }
    ensures { result ≡ transferred op.now a.now b.now c.now }
{
    match *op {
        Op::Bin { bin, flags, .. } => of_cell(transfer_binary(bin, flags, cell_in(a), cell_in(b))),
        Op::Icmp { pred, samesign, .. } => of_cell(transfer_icmp(
            pred,
            samesign,
            cell_in(a),
            cell_in(b),
        )),
        Op::Select { .. } => of_cell(select(cell_in(c), cell_in(a), cell_in(b))),
        Op::Cast {
            cast,
            flags,
            to,
            ..
        } => of_cell(transfer_cast(cast, flags, to, cell_in(a))),
        Op::Freeze { .. } => of_cell(freeze(cell_in(a))),
        Op::Two { fun, .. } => of_cell(transfer_two(fun, cell_in(a), cell_in(b))),
        Op::One { fun, strict, .. } => of_cell(transfer_one(fun, strict, cell_in(a))),
        Op::Over { over, .. } => AnyFact {
            parts: transfer_over(over, cell_in(a), cell_in(b)),
        },
        Op::Part { index, .. } => of_cell(part_of(index, c)),
        Op::Assume { .. } => of_cell(assume(cell_in(c))),
        Op::Call { .. } => unreachable!(),
    }
}
