//! Nanoseconds for each call on facts and each transfer of facts at widths 8, 32, 64 and 128, and for a narrowing of a state at
//! width 32; of transfers and narrowing also how many times those of one `sharp` of the width they are. With `time facts`,
//! `time transfers` or `time narrowing` it measures one of these, with the word `time` all; without words it does nothing.
#![tactic(auto)]

mod asked;
mod calls;
mod facts;
mod lines;
mod narrowing;
mod operations;
mod ratios;
mod samples;
mod states;
mod texts;
mod transfers;

use crate::facts::time_facts;
use crate::narrowing::time_narrowing;
use crate::transfers::time_transfers;
use std::{env, io};

/// Measures all.
fn measure_all(rt: &HostRuntime) -> io::Result<()> {
    time_facts(rt)?;
    time_transfers(rt)?;
    time_narrowing(rt)
}

/// Measures what the word names.
fn measure_named(rt: &HostRuntime, name: &str) -> io::Result<()> {
    if name == "facts" {
        return time_facts(rt);
    }
    if name == "transfers" {
        return time_transfers(rt);
    }
    if name == "narrowing" {
        return time_narrowing(rt);
    }
    Ok(())
}

fn main(rt: HostRuntime) -> io::Result<()> {
    let mut words = Vec::new(rt.alloc());
    for word in env::args(&rt)?.skip(1) {
        words.push(word)?;
    }
    match words.as_slice() {
        [time] if time.as_str() == "time" => measure_all(&rt),
        [time, name] if time.as_str() == "time" => measure_named(&rt, name.as_str()),
        _ => Ok(()),
    }
}
