//! Nanoseconds for each transfer of facts.

ghost use Rattle.vfa_word.specs.Numbers.{IsWidth};

use crate::lines::{Goes, Line, lines};
use crate::operations::{over_first, over_third};
use crate::ratios::{COUNT, RUNS, TURNS, report, sharp_time};
use crate::samples::{Case, Numbers, cases, facts, marked, marked_amounts, pairs};
use std::io;
use std::time::Instant;
use vfa_ir::Ty;
use vfa_values::Values;
use vfa_xfer::AnyFact;

/// What the lines of a width go over.
#[derive(Drop)]
struct Items {
    numbers: Vec<AnyFact>,
    amounts: Vec<AnyFact>,
    halves: Vec<AnyFact>,
    pairs: Vec<AnyFact>,
    bit: AnyFact,
}

/// The items of the width `W`, whose half is `H`.
fn make_items<const W: u32, const H: u32>(
    rt: &HostRuntime,
    numbers: &mut Numbers,
    own: &[Case<W>],
) -> io::Result<Items>
    requires width { IsWidth W }
    requires half { IsWidth H }
{
    let own = facts(rt.alloc(), own)?;
    let known = marked(rt.alloc(), &own)?;
    let half: Vec<Case<H>> = cases(rt.alloc(), numbers, COUNT)?;
    let half = facts(rt.alloc(), &half)?;
    Ok(Items {
        amounts: marked_amounts::<W>(rt.alloc(), numbers, COUNT)?,
        halves: marked(rt.alloc(), &half)?,
        pairs: pairs(rt.alloc(), &known)?,
        numbers: known,
        bit: AnyFact::any(Ty::Int(1), true),
    })
}

/// Goes over all items for one of them.
fn turn(line: &Line, items: &Items, by: &AnyFact, amount: &AnyFact) -> u128 {
    let numbers = items.numbers.as_slice();
    let bit = &items.bit;
    match line.of {
        Goes::Numbers => over_first(&line.op, numbers, by, bit),
        Goes::Amounts => over_first(&line.op, numbers, amount, bit),
        Goes::Half => over_first(&line.op, items.halves.as_slice(), by, bit),
        Goes::Choice => over_first(&line.op, numbers, by, bit),
        Goes::Pair => over_third(&line.op, items.pairs.as_slice(), by, by),
    }
}

/// Goes over all items for each of some of them.
fn turns(line: &Line, items: &Items) -> u128 {
    let mut sum = 0u128;
    'turns: for (by, amount) in items.numbers.iter().zip(items.amounts.iter()).take(TURNS) {
        sum = sum.wrapping_add(turn(line, items, by, amount));
    }
    sum
}

/// How many calls `turns` makes.
fn call_count(line: &Line, items: &Items) -> u128 {
    let over = match line.of {
        Goes::Half => items.halves.len(),
        Goes::Pair => items.pairs.len(),
        _ => items.numbers.len(),
    };
    let turns = items.numbers.len().min(items.amounts.len()).min(TURNS);
    (over as u128).wrapping_mul(turns as u128).max(1)
}

/// The least of some measurements of a line, in picoseconds a call.
fn time_of(rt: &HostRuntime, line: &Line, items: &Items) -> io::Result<u128> {
    let mut least = u128::MAX;
    let mut sum = 0u128;
    'runs: for _ in 0..RUNS {
        let start = Instant::now(rt)?;
        sum = sum.wrapping_add(turns(line, items));
        least = least.min(start.elapsed(rt)?.as_nanos());
    }
    println!(rt; "checksum {sum}")?;
    Ok(least.wrapping_mul(1000) / call_count(line, items).max(1))
}

/// Measures the lines of a width, whose half is `H`, beside `sharp` of the width.
fn measure<const W: u32, const H: u32>(rt: &HostRuntime) -> io::Result<()>
    requires width { IsWidth W }
    requires half { IsWidth H }
{
    let mut numbers = Numbers::new();
    let cases: Vec<Case<W>> = cases(rt.alloc(), &mut numbers, COUNT)?;
    let sharp = sharp_time(rt, &cases)?;
    report(rt, W, "sharp", sharp, sharp)?;
    let items = make_items::<W, H>(rt, &mut numbers, &cases)?;
    'lines: for line in lines(rt.alloc(), W)? {
        let time = time_of(rt, &line, &items)?;
        report(rt, W, line.name, time, sharp)?;
    }
    Ok(())
}

/// Measures the transfers at widths 8, 32, 64 and 128.
pub fn time_transfers(rt: &HostRuntime) -> io::Result<()> {
    measure::<8, 4>(rt)?;
    measure::<32, 16>(rt)?;
    measure::<64, 32>(rt)?;
    measure::<128, 64>(rt)
}
