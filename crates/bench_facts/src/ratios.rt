//! How many times the time of one `sharp` other calls take.

ghost use Rattle.vfa_word.specs.Numbers.{IsWidth};

use crate::calls::sharpen;
use crate::samples::Case;
use std::io;
use std::time::Instant;

/// How many items there are.
pub const COUNT: usize = 256;

/// How many of the items the calls go over all of them for.
pub const TURNS: usize = 128;

/// Of how many measurements the least is taken.
pub const RUNS: u32 = 9;

/// Picoseconds for each of the calls.
pub fn each_time(nanoseconds: u128, over: usize) -> u128 {
    let calls = (over as u128).wrapping_mul(over.min(TURNS) as u128);
    nanoseconds.wrapping_mul(1000) / calls.max(1)
}

/// The least of some measurements of `sharp`, in picoseconds a call.
pub fn sharp_time<const W: u32>(rt: &HostRuntime, cases: &[Case<W>]) -> io::Result<u128>
    requires { IsWidth W }
{
    let mut least = u128::MAX;
    let mut sum = 0u128;
    'runs: for _ in 0..RUNS {
        let start = Instant::now(rt)?;
        'turns: for by in cases.iter().take(TURNS) {
            sum = sum.wrapping_add(sharpen(cases, by));
        }
        least = least.min(start.elapsed(rt)?.as_nanos());
    }
    println!(rt; "checksum {sum}")?;
    Ok(each_time(least, cases.len()))
}

/// Prints the time of a call, in picoseconds, and its ratio to the time of one `sharp` of the width.
pub fn report(rt: &HostRuntime, width: u32, name: &str, time: u128, sharp: u128) -> io::Result<()> {
    let tenths = time.wrapping_mul(10) / sharp.max(1);
    println!(rt;
        "width {width:>3}  {name:<28} {:>5}.{} ns  {:>3}.{} sharps",
        time / 1000,
        time % 1000 / 100,
        tenths / 10,
        tenths % 10
    )?;
    Ok(())
}
