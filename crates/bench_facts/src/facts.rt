//! Nanoseconds for each call on facts.

ghost use Rattle.vfa_word.specs.Numbers.{IsWidth};

use crate::calls::{
    amounts, compare_cells, decide, divisors, join, join_cells, join_same, restrict, sharpen,
};
use crate::samples::{Case, Numbers, cases, cells, facts};
use std::io;
use std::time::Instant;

/// How many cases there are.
const COUNT: usize = 1024;

/// How many of the items the calls go over all of them for.
const TURNS: usize = 400;

/// Prints the time of a call.
fn report(
    rt: &HostRuntime,
    name: &str,
    width: u32,
    start: Instant,
    calls: u128,
    sum: u128,
) -> io::Result<()> {
    let spent = start.elapsed(rt)?.as_nanos();
    println!(rt;
        "width {width:>3}  {name:<14} {:>5} ns a call  (checksum {sum})",
        spent / calls.max(1)
    )?;
    Ok(())
}

/// Times a call over all items, once for each of some of them.
macro_rules! measure {
    ($rt:expr, $name:expr, $width:expr, $items:expr, $call:ident) => {{
        let start = Instant::now($rt)?;
        let mut sum = 0u128;
        let mut calls = 0u128;
        'turns: for by in $items.iter().take(TURNS) {
            sum = sum.wrapping_add($call(&$items, by));
            calls = calls.wrapping_add($items.len() as u128);
        }
        report($rt, $name, $width, start, calls, sum)?;
    }};
}

fn measure<const W: u32>(rt: &HostRuntime) -> io::Result<()>
    requires { IsWidth W }
{
    let mut numbers = Numbers::new();
    let cases: Vec<Case<W>> = cases(rt.alloc(), &mut numbers, COUNT)?;
    measure!(rt, "sharp", W, cases, sharpen);
    let facts = facts(rt.alloc(), &cases)?;
    measure!(rt, "join", W, facts, join);
    measure!(rt, "decide", W, facts, decide);
    measure!(rt, "restrict", W, facts, restrict);
    measure!(rt, "amounts", W, facts, amounts);
    measure!(rt, "divisors", W, facts, divisors);
    let cells = cells(rt.alloc(), &facts)?;
    measure!(rt, "join with self", W, cells, join_same);
    measure!(rt, "join of cells", W, cells, join_cells);
    measure!(rt, "compare cells", W, cells, compare_cells);
    Ok(())
}

/// Measures the calls on facts at widths 8, 32, 64 and 128.
pub fn time_facts(rt: &HostRuntime) -> io::Result<()> {
    measure::<8>(rt)?;
    measure::<32>(rt)?;
    measure::<64>(rt)?;
    measure::<128>(rt)
}
