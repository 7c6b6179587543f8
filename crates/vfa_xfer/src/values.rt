//! Facts as a domain of values.

ghost use Rattle.std.specs.Prelude.{◌≡◌, IsTrue, ◌↔◌};

use crate::any_fact::AnyFact;
use crate::{fact_calls, transfers};
use vfa_ir::{Op, Pred, Ty};
use vfa_values::Values;

impl Values for AnyFact {
    ghost use Rattle.vfa_xfer.specs.AnyFacts.{fact_type, IsAnyFact, HoldsOf};
    ghost use Rattle.vfa_xfer.specs.Transfers.{fact_answers};
    ghost use Rattle.vfa_xfer.specs.TransferLaws.{fact_laws};

    ghost holds = { HoldsOf };

    ghost ty = { fact_type };

    ghost proper = { IsAnyFact };

    ghost answers = { fact_answers };

    ghost lawful = { fact_laws };

    fn literal(width: u32, bits: u128) -> AnyFact {
        fact_calls::literal(width, bits)
    }

    fn any(of_type: Ty, never_poison: bool) -> AnyFact {
        fact_calls::any(of_type, never_poison)
    }

    fn poison(of_type: Ty) -> AnyFact {
        fact_calls::poison(of_type)
    }

    fn transfer(op: &Op, a: &AnyFact, b: &AnyFact, c: &AnyFact) -> AnyFact {
        transfers::transfer(op, a, b, c)
    }

    fn join(&self, other: &AnyFact) -> AnyFact {
        fact_calls::join(self, other)
    }

    fn includes(&self, other: &AnyFact) -> bool {
        fact_calls::includes(self, other)
    }

    fn widen(&self, new: &AnyFact, round: u32, marks: &[u128]) -> AnyFact {
        fact_calls::widen(self, new, round, marks)
    }

    fn compare(&self, pred: Pred, other: &AnyFact) -> Option<AnyFact> {
        fact_calls::compare(self, pred, other)
    }

    fn with_bits(&self, mask: u128, value: u128) -> Option<AnyFact> {
        fact_calls::with_bits(self, mask, value)
    }

    fn moved_from(&self, sum: &AnyFact, c: u128) -> Option<AnyFact> {
        fact_calls::moved_from(self, sum, c)
    }

    fn same(&self, other: &AnyFact) -> bool {
        fact_calls::same(self, other)
    }

    fn single(&self) -> Option<u128> {
        fact_calls::single(self)
    }

    fn rank(&self) -> u32 {
        fact_calls::rank(self)
    }
}

#[cfg(test)]
mod tests;
