//! Nanoseconds for one narrowing of a state by a comparison of two names of width 32.

ghost use Rattle.vfa_cond.specs.Conditions.{HasTypedEquations};
ghost use Rattle.vfa_mean.specs.FreshOperands.{DefinesOnce};
ghost use Rattle.vfa_walk.specs.Kept.{IsStateOf};
ghost use Rattle.vfa_xfer.specs.AnyFacts.{fact_type, IsAnyFact};

use crate::ratios::{COUNT, RUNS, TURNS, each_time, report, sharp_time};
use crate::samples::{Case, Numbers, cases, facts, marked};
use crate::states::{Told, WIDTH, spare, turn};
use crate::texts::comparison;
use std::io;
use std::time::Instant;
use vfa_check::Checked;
use vfa_cond::{State, typed_functions_have_typed_equations};
use vfa_ir::Function;
use vfa_print::fit_is_printable;
use vfa_xfer::AnyFact;

/// The least of some measurements of what states are told, in picoseconds for each.
fn told_time(
    rt: &HostRuntime,
    f: &Function,
    spare: &State<AnyFact>,
    told: Told,
    facts: &[AnyFact],
) -> io::Result<u128>
    requires equations { HasTypedEquations f.now }
    requires once { DefinesOnce f.now }
    requires spare { IsStateOf fact_type IsAnyFact f.now spare.now }
{
    let mut least = u128::MAX;
    let mut dropped = 0u128;
    'runs: for _ in 0..RUNS {
        let start = Instant::now(rt)?;
        'turns: for by in facts.iter().take(TURNS) {
            dropped = dropped.wrapping_add(turn(rt.alloc(), f, spare, told, facts, by)?);
        }
        least = least.min(start.elapsed(rt)?.as_nanos());
    }
    println!(rt; "dropped {dropped}")?;
    Ok(each_time(least, facts.len()))
}

/// Measures what states of the function are told.
fn measure_in(rt: &HostRuntime, f: &Function) -> io::Result<()>
    requires equations { HasTypedEquations f.now }
    requires once { DefinesOnce f.now }
{
    let mut numbers = Numbers::new();
    let cases: Vec<Case<WIDTH>> = cases(rt.alloc(), &mut numbers, COUNT)?;
    let sharp = sharp_time(rt, &cases)?;
    report(rt, WIDTH, "sharp", sharp, sharp)?;
    let known = facts(rt.alloc(), &cases)?;
    let facts = marked(rt.alloc(), &known)?;
    let spare = spare(rt.alloc(), f)?;
    let nothing = told_time(rt, f, &spare, Told::Nothing, &facts)?;
    report(rt, WIDTH, "two facts put", nothing, sharp)?;
    let holds = told_time(rt, f, &spare, Told::Holds, &facts)?;
    report(rt, WIDTH, "two facts put, hold", holds, sharp)?;
    let is_true = told_time(rt, f, &spare, Told::IsTrue, &facts)?;
    report(rt, WIDTH, "three facts put, narrow", is_true, sharp)?;
    report(
        rt,
        WIDTH,
        "hold alone",
        holds.saturating_sub(nothing),
        sharp,
    )?;
    report(
        rt,
        WIDTH,
        "narrow and a put",
        is_true.saturating_sub(nothing),
        sharp,
    )
}

/// What narrowing asks of a function is so of one that was checked.
fn was_checked(f: &Checked)
    ensures equations { HasTypedEquations f.now }
    ensures once { DefinesOnce f.now }
{
    typed_functions_have_typed_equations();
    fit_is_printable();
    let _ = f.function();
}

fn measure(rt: &HostRuntime, f: &Checked) -> io::Result<()> {
    was_checked(f);
    measure_in(rt, f.function())
}

/// Measures narrowing by a comparison of two names, beside `sharp` of their width.
pub fn time_narrowing(rt: &HostRuntime) -> io::Result<()> {
    match comparison(rt.alloc()) {
        Ok(f) => measure(rt, &f),
        Err(_) => Ok(()),
    }
}
