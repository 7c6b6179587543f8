//! Entry states of blocks by tables of facts.

use super::read;
use super::shown::facts;
use super::states::{entry, entry_from};
use super::texts::{COUNTER, DEAD, STALE, SUM, SWITCH};
use std::alloc::Global;
use std::process::Abort;
use vfa_ir::{BlockId, Outside};
use vfa_xfer::AnyFact;

/// What stands for the facts of a state that no run comes to.
const NEVER_REACHED: &[u8] = b"never-reached\n";

/// A line for each fact at the entry of the block.
fn at_entry(alloc: Global, text: &[u8], block: u32) -> Result<Vec<u8>, Outside> {
    let f = read(alloc, text)?;
    match entry::<AnyFact>(alloc, &f, BlockId(block))? {
        Some(state) => Ok(facts(alloc, f.function(), &state)?),
        None => Ok(NEVER_REACHED.to_vec(alloc)?),
    }
}

/// A line for each fact before the phis of a block, where it is entered from another.
fn at_entry_from(alloc: Global, text: &[u8], from: u32, to: u32) -> Result<Vec<u8>, Outside> {
    let f = read(alloc, text)?;
    match entry_from::<AnyFact>(alloc, &f, BlockId(from), BlockId(to))? {
        Some(state) => Ok(facts(alloc, f.function(), &state)?),
        None => Ok(NEVER_REACHED.to_vec(alloc)?),
    }
}

/// The table has these facts at the entry of the block.
pub fn check_entry(rt: &impl Abort, alloc: Global, text: &[u8], block: u32, want: &[u8]) {
    let found = at_entry(alloc, text, block).expect(rt, "a table");
    assert_eq!(rt; found.as_slice(), want);
}

/// The table has these facts before the phis of a block, where it is entered from another.
fn check_entry_from(rt: &impl Abort, alloc: Global, text: &[u8], from: u32, to: u32, want: &[u8]) {
    let found = at_entry_from(alloc, text, from, to).expect(rt, "a table");
    assert_eq!(rt; found.as_slice(), want);
}

#[test]
fn a_condition_on_a_sum_restricts_what_is_added_to(rt: HostRuntime) {
    let alloc = rt.alloc();
    let text = SUM;
    check_entry(
        &rt,
        alloc,
        text,
        1,
        b"%x i8 00001??? [10,15) never-poison
%y i8 00000??? [0,5) never-poison
%c i1 1 [1,0) never-poison
",
    );
    check_entry(
        &rt,
        alloc,
        text,
        2,
        b"%x i8 ???????? full never-poison
%y i8 ???????? [5,0) never-poison
%c i1 0 [0,1) never-poison
",
    );
}

#[test]
fn a_counter_is_bounded_by_its_condition(rt: HostRuntime) {
    let alloc = rt.alloc();
    let text = COUNTER;
    check_entry(
        &rt,
        alloc,
        text,
        1,
        b"%i i32 0000000000000000000000000000???? [0,11) never-poison
",
    );
    check_entry(
        &rt,
        alloc,
        text,
        2,
        b"%i i32 0000000000000000000000000000???? [0,10) never-poison
%c i1 1 [1,0) never-poison
",
    );
    check_entry(
        &rt,
        alloc,
        text,
        3,
        b"%i i32 00000000000000000000000000001010 [10,11) never-poison
%c i1 0 [0,1) never-poison
",
    );
    check_entry_from(&rt, alloc, text, 0, 1, b"");
    check_entry_from(
        &rt,
        alloc,
        text,
        2,
        1,
        b"%i i32 0000000000000000000000000000???? [0,10) never-poison
%c i1 1 [1,0) never-poison
%n i32 0000000000000000000000000000???? [1,11) never-poison
",
    );
}

#[test]
fn phis_of_a_block_are_read_at_once(rt: HostRuntime) {
    let alloc = rt.alloc();
    let text = b"define i8 @swap(i1 noundef %c) {
entry:
  br label %loop

loop:
  %a = phi i8 [ 1, %entry ], [ %b, %loop ]
  %b = phi i8 [ 2, %entry ], [ %a, %loop ]
  br i1 %c, label %loop, label %exit

exit:
  ret i8 %a
}";
    check_entry(
        &rt,
        alloc,
        text,
        1,
        b"%c i1 ? full never-poison
%a i8 000000?? [1,3) never-poison
%b i8 000000?? [1,3) never-poison
",
    );
    check_entry(
        &rt,
        alloc,
        text,
        2,
        b"%c i1 0 [0,1) never-poison
%a i8 000000?? [1,3) never-poison
%b i8 000000?? [1,3) never-poison
",
    );
    check_entry_from(
        &rt,
        alloc,
        text,
        1,
        1,
        b"%c i1 1 [1,0) never-poison
%a i8 000000?? [1,3) never-poison
%b i8 000000?? [1,3) never-poison
",
    );
}

#[test]
fn a_condition_carried_by_a_phi_restricts_no_name_that_has_changed(rt: HostRuntime) {
    let alloc = rt.alloc();
    let text = STALE;
    check_entry(
        &rt,
        alloc,
        text,
        1,
        b"%k i8 ???????? full maybe-poison
%a i8 ???????? full maybe-poison
%c i1 ? full maybe-poison
",
    );
    check_entry(
        &rt,
        alloc,
        text,
        2,
        b"%k i8 ???????? full maybe-poison
%a i8 ???????? full maybe-poison
%c i1 0 [0,1) never-poison
%b i8 ???????? full maybe-poison
%d i1 ? full maybe-poison
",
    );
}

#[test]
fn two_edges_from_one_block_are_joined(rt: HostRuntime) {
    let alloc = rt.alloc();
    let text = SWITCH;
    check_entry(
        &rt,
        alloc,
        text,
        1,
        b"%x i8 000000?? [1,3) never-poison
%r i8 000000?? [1,3) never-poison
",
    );
    check_entry(
        &rt,
        alloc,
        text,
        2,
        b"%x i8 ???????? full never-poison
",
    );
    check_entry_from(
        &rt,
        alloc,
        text,
        0,
        1,
        b"%x i8 000000?? [1,3) never-poison
",
    );
}

#[test]
fn no_run_comes_behind_an_assumption_that_fails(rt: HostRuntime) {
    let alloc = rt.alloc();
    let text = DEAD;
    check_entry(
        &rt,
        alloc,
        text,
        0,
        b"%x i8 ???????? full maybe-poison
",
    );
    check_entry(&rt, alloc, text, 1, NEVER_REACHED);
    check_entry_from(&rt, alloc, text, 0, 1, NEVER_REACHED);
}
