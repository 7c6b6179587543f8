//! Each operation with each choice of its flags, of all facts of its operands: what is known of the result holds of all that
//! the operation gives of values of which the facts hold, and what the rules make of it gives only what it allows.

ghost use Rattle.vfa_word.specs.Numbers.{IsWidth};

mod asked;
mod facts;
mod meaning;
mod operations;
mod rules;
mod transfers;

use self::facts::{Case, facts, nothing, open_pairs, pairs};
use self::operations::{assumptions, choices, of_one_number, of_two_numbers, overflows, parts};
use self::rules::{check_part, check_rule};
use self::transfers::check_transfer;
use std::alloc::Global;
use std::process::Abort;
use std::test::Fail;
use vfa_ir::{Op, Over};

/// What is looked at.
#[derive(Clone, Copy)]
enum Subject {
    /// What is known of results.
    Transfers,
    /// What the rules make of operations.
    Rules,
}

impl Subject {
    /// An operation of these facts.
    fn check(self, rt: &impl Abort, op: &Op, a: &Case, b: &Case, c: &Case) {
        match self {
            Subject::Transfers => check_transfer(rt, op, a, b, c),
            Subject::Rules => check_rule(rt, op, a, b, c),
        }
    }

    /// An operation of a first fact.
    fn check_first(self, rt: &impl Abort, op: &Op, a: &Case, second: &[Case], third: &[Case]) {
        'second: for b in second {
            'third: for c in third {
                self.check(rt, op, a, b, c);
            }
        }
    }

    /// The operations of all facts of the three lists.
    fn check_all(
        self,
        rt: &impl Abort,
        ops: &[Op],
        first: &[Case],
        second: &[Case],
        third: &[Case],
    ) {
        'operations: for op in ops {
            'first: for a in first {
                self.check_first(rt, op, a, second, third);
            }
        }
    }

    /// The operations of numbers of a width, each of whose facts there are so many.
    fn check_width<const W: u32>(
        self,
        rt: &impl Abort,
        alloc: Global,
        count: usize,
    ) -> Result<(), Fail>
        requires { IsWidth W }
    {
        let (numbers, bits, none) = (facts::<W>(alloc)?, facts::<1>(alloc)?, nothing(alloc)?);
        assert_eq!(rt; numbers.len(), count);
        self.check_all(rt, &of_two_numbers(alloc, W)?, &numbers, &numbers, &none);
        self.check_all(rt, &overflows(alloc, W)?, &numbers, &numbers, &none);
        self.check_all(rt, &of_one_number(alloc, W)?, &numbers, &none, &none);
        self.check_all(rt, &choices(alloc, W)?, &numbers, &numbers, &bits);
        self.check_all(rt, &parts(alloc, W)?, &none, &none, &pairs::<W>(alloc)?);
        self.check_all(rt, &assumptions(alloc)?, &none, &none, &bits);
        Ok(())
    }
}

/// A part of the pair that an intrinsic gives of all facts.
fn check_intrinsic(
    rt: &impl Abort,
    op: &Op,
    over: Over,
    width: u32,
    numbers: &[Case],
    pair: &Case,
) {
    'first: for a in numbers {
        'second: for b in numbers {
            check_part(rt, op, over, width, a, b, pair);
        }
    }
}

/// The parts of the pairs that the intrinsics give.
fn check_parts(rt: &impl Abort, ops: &[Op], width: u32, numbers: &[Case], pairs: &[Case]) {
    'parts: for op in ops {
        'intrinsics: for over in Over::ALL {
            'pairs: for pair in pairs {
                check_intrinsic(rt, op, over, width, numbers, pair);
            }
        }
    }
}

/// The parts of the pairs of a width, where the intrinsic is known.
fn check_pairs<const W: u32>(rt: &impl Abort, alloc: Global) -> Result<(), Fail>
    requires { IsWidth W }
{
    let (numbers, pairs) = (facts::<W>(alloc)?, open_pairs::<W>(alloc)?);
    check_parts(rt, &parts(alloc, W)?, W, &numbers, &pairs);
    Ok(())
}

#[test]
fn known_results_hold_at_widths_1_and_2(rt: HostRuntime) -> Result<(), Fail> {
    Subject::Transfers.check_width::<1>(&rt, rt.alloc(), 7)?;
    Subject::Transfers.check_width::<2>(&rt, rt.alloc(), 35)
}

#[test]
fn known_results_hold_at_width_3(rt: HostRuntime) -> Result<(), Fail> {
    Subject::Transfers.check_width::<3>(&rt, rt.alloc(), 231)
}

#[test]
fn changes_are_allowed_at_widths_1_and_2(rt: HostRuntime) -> Result<(), Fail> {
    Subject::Rules.check_width::<1>(&rt, rt.alloc(), 7)?;
    Subject::Rules.check_width::<2>(&rt, rt.alloc(), 35)
}

#[test]
fn changes_are_allowed_at_width_3(rt: HostRuntime) -> Result<(), Fail> {
    Subject::Rules.check_width::<3>(&rt, rt.alloc(), 231)
}

#[test]
fn changes_of_parts_are_allowed(rt: HostRuntime) -> Result<(), Fail> {
    check_pairs::<1>(&rt, rt.alloc())?;
    check_pairs::<2>(&rt, rt.alloc())?;
    check_pairs::<3>(&rt, rt.alloc())
}
