//! Questions about names at places, by facts, and what tables say there.

ghost use Rattle.std.specs.Prelude.{◌≡◌, ◌<◌, IsTrue, Some, length};
ghost use Rattle.std.specs.Option.{option_map};
ghost use Rattle.vfa_ir.specs.Walks.{IsEdge};
ghost use Rattle.vfa_lazy.specs.Questions.{IsAskedOf};

use super::read;
use super::shown::line_of;
use super::states::{entry, entry_from};
use super::texts::{COUNTER, DEAD, STALE, SUM, SWITCH};
use std::alloc::{AllocError, Global};
use std::process::Abort;
use vfa_cfg::successor;
use vfa_check::Checked;
use vfa_cond::State;
use vfa_ir::{BlockId, Function, ValueId, shown_value};
use vfa_lazy::{Answer, Place, ask};
use vfa_report::fact_line;
use vfa_xfer::AnyFact;

/// What stands for an answer where no run comes to the place.
const NEVER_REACHED: &[u8] = b"never-reached";

/// What stands for an answer where the name is not defined.
pub(super) const NOT_DEFINED: &[u8] = b"not-defined";

/// What stands for an answer where the function has no such name or place.
const NO_QUESTION: &[u8] = b"no-question";

/// How many edges leave a block of these tests at most.
const MOST_EDGES: usize = 8;

/// A name that is defined on one of two ways.
const HALF: &[u8] = b"define i8 @half(i8 %x) {
entry:
  %c = icmp ult i8 %x, 5
  br i1 %c, label %a, label %b

a:
  %y = add i8 %x, 1
  br label %b

b:
  %p = phi i8 [ %x, %entry ], [ %y, %a ]
  ret i8 %p
}";

/// The same behind an assumption that fails, and a block that no walk reaches.
const DEAD_HALF: &[u8] = b"define i8 @f(i1 %c, i8 %x) {
entry:
  call void @llvm.assume(i1 false)
  br i1 %c, label %a, label %b

a:
  %y = add i8 %x, 1
  br label %b

b:
  ret i8 %x

lost:
  br label %b
}";

/// Whether it is this block.
fn is_block(target: Option<BlockId>, b: BlockId) -> bool
    ensures { IsTrue result → option_map (λ t. t.0) target ≡ Some b.0 }
{
    match target {
        Some(target) => target.0 == b.0,
        None => false,
    }
}

/// Whether an edge leads from a block to another.
fn leads(f: &Function, from: BlockId, to: BlockId) -> bool
    ensures { IsTrue result → IsEdge f.now from.0 to.0 }
{
    'edges: for k in 0..MOST_EDGES {
        if is_block(successor(f, from, k), to) {
            return true;
        }
    }
    false
}

/// Whether it is a place of the function.
fn is_place(f: &Function, place: Place) -> bool
    ensures { IsTrue result → IsAskedOf f.now place }
{
    match place {
        Place::Entry(b) => (b.0 as usize) < f.blocks.as_slice().len(),
        Place::Pair(from, to) => leads(f, from, to),
    }
}

/// Whether it is a name of the function.
fn is_name(f: &Function, v: ValueId) -> bool
    ensures { IsTrue result → v.0 < length f.now.values }
{
    (v.0 as usize) < f.values.as_slice().len()
}

/// An answer about the name, as a line.
fn line(
    alloc: Global,
    f: &Function,
    v: ValueId,
    answer: &Answer<AnyFact>,
) -> Result<Vec<u8>, AllocError>
    requires { v.0 < length f.now.values }
{
    match answer {
        Answer::Fact(fact) => fact_line(alloc, &shown_value(alloc, f, v)?, fact),
        Answer::NeverReached => Ok(NEVER_REACHED.to_vec(alloc)?),
        Answer::NotDefined => Ok(NOT_DEFINED.to_vec(alloc)?),
    }
}

/// The answer to a question about a name of the function at one of its places.
fn told(alloc: Global, f: &Checked, v: ValueId, place: Place) -> Result<Vec<u8>, AllocError>
    requires name { v.0 < length f.now.values }
    requires place { IsAskedOf f.now place }
{
    match ask::<AnyFact>(alloc, f, v, place) {
        Ok(answer) => line(alloc, f.function(), v, &answer),
        Err(error) => Err(error),
    }
}

/// The answer to a question.
pub(super) fn answer(
    alloc: Global,
    f: &Checked,
    v: ValueId,
    place: Place,
) -> Result<Vec<u8>, AllocError> {
    let function = f.function();
    if !is_name(function, v) {
        return Ok(NO_QUESTION.to_vec(alloc)?);
    }
    if !is_place(function, place) {
        return Ok(NO_QUESTION.to_vec(alloc)?);
    }
    told(alloc, f, v, place)
}

/// The state of the table at a place.
fn state_at(
    alloc: Global,
    f: &Checked,
    place: Place,
) -> Result<Option<State<AnyFact>>, AllocError> {
    match place {
        Place::Entry(b) => entry(alloc, f, b),
        Place::Pair(from, to) => entry_from(alloc, f, from, to),
    }
}

/// What the table says of a name at a place; that it is not defined where the state has no fact of it.
pub(super) fn by_table(
    alloc: Global,
    f: &Checked,
    v: ValueId,
    place: Place,
) -> Result<Vec<u8>, AllocError> {
    let Some(state) = state_at(alloc, f, place)? else {
        return Ok(NEVER_REACHED.to_vec(alloc)?);
    };
    let line = line_of(alloc, f.function(), &state, v)?;
    if line.is_empty() {
        return Ok(NOT_DEFINED.to_vec(alloc)?);
    }
    Ok(line)
}

/// The answer about the name of this number is this line.
fn check_answer(rt: &impl Abort, alloc: Global, text: &[u8], v: u32, place: Place, want: &[u8]) {
    let f = read(alloc, text).expect(rt, "a function");
    let found = answer(alloc, &f, ValueId(v), place).expect(rt, "memory");
    assert_eq!(rt; found.as_slice(), want);
}

/// The answer is this line, and the table says the same.
fn check_both(rt: &impl Abort, alloc: Global, text: &[u8], v: u32, place: Place, want: &[u8]) {
    check_answer(rt, alloc, text, v, place, want);
    let f = read(alloc, text).expect(rt, "a function");
    let table = by_table(alloc, &f, ValueId(v), place).expect(rt, "memory");
    assert_eq!(rt; table.as_slice(), want);
}

pub(super) fn entry_of(b: u32) -> Place {
    Place::Entry(BlockId(b))
}

fn pair(from: u32, to: u32) -> Place {
    Place::Pair(BlockId(from), BlockId(to))
}

#[test]
fn a_condition_on_a_sum_tells_of_what_is_added_to(rt: HostRuntime) {
    let alloc = rt.alloc();
    let inside = b"%x i8 00001??? [10,15) never-poison";
    let outside = b"%x i8 ???????? full never-poison";
    check_both(&rt, alloc, SUM, 0, entry_of(1), inside);
    check_both(&rt, alloc, SUM, 0, entry_of(2), outside);
}

#[test]
fn a_counter_is_told_at_each_place_of_its_loop(rt: HostRuntime) {
    let alloc = rt.alloc();
    let at_exit = b"%i i32 00000000000000000000000000001010 [10,11) never-poison";
    let in_body = b"%i i32 0000000000000000000000000000???? [0,10) never-poison";
    let next = b"%n i32 0000000000000000000000000000???? [1,11) never-poison";
    check_both(&rt, alloc, COUNTER, 0, entry_of(3), at_exit);
    check_both(&rt, alloc, COUNTER, 0, entry_of(2), in_body);
    check_both(&rt, alloc, COUNTER, 2, pair(2, 1), next);
    check_both(&rt, alloc, COUNTER, 2, entry_of(3), NOT_DEFINED);
}

#[test]
fn a_condition_of_the_turn_before_tells_nothing(rt: HostRuntime) {
    let alloc = rt.alloc();
    let want = b"%a i8 ???????? full maybe-poison";
    check_both(&rt, alloc, STALE, 1, entry_of(2), want);
}

#[test]
fn all_edges_of_a_pair_tell_together(rt: HostRuntime) {
    let alloc = rt.alloc();
    let want = b"%x i8 000000?? [1,3) never-poison";
    check_both(&rt, alloc, SWITCH, 0, pair(0, 1), want);
}

#[test]
fn a_place_behind_an_assumption_that_fails_is_never_reached(rt: HostRuntime) {
    let alloc = rt.alloc();
    check_both(&rt, alloc, DEAD, 0, entry_of(1), NEVER_REACHED);
    check_both(&rt, alloc, DEAD, 0, pair(0, 1), NEVER_REACHED);
}

#[test]
fn a_name_is_told_on_the_way_that_defines_it(rt: HostRuntime) {
    let alloc = rt.alloc();
    let least = b"%x i8 00000??? [0,5) never-poison";
    let sum = b"%y i8 00000??? [1,6) never-poison";
    check_both(&rt, alloc, HALF, 0, entry_of(1), least);
    check_both(&rt, alloc, HALF, 2, pair(1, 2), sum);
    check_both(&rt, alloc, HALF, 2, entry_of(2), NOT_DEFINED);
    check_both(&rt, alloc, HALF, 2, pair(0, 2), NOT_DEFINED);
    check_both(&rt, alloc, HALF, 3, pair(1, 2), NOT_DEFINED);
}

// No run comes to these places, but walks do, and the name is missed on one.
#[test]
fn what_is_not_defined_is_told_before_what_is_never_reached(rt: HostRuntime) {
    let alloc = rt.alloc();
    check_answer(&rt, alloc, DEAD_HALF, 2, entry_of(2), NOT_DEFINED);
    check_answer(&rt, alloc, DEAD_HALF, 2, pair(0, 2), NOT_DEFINED);
    check_both(&rt, alloc, DEAD_HALF, 1, entry_of(2), NEVER_REACHED);
    check_both(&rt, alloc, DEAD_HALF, 2, pair(1, 2), NEVER_REACHED);
}

// Each name is defined on every walk where there is no walk.
#[test]
fn a_place_that_no_walk_reaches_is_never_reached(rt: HostRuntime) {
    let alloc = rt.alloc();
    check_both(&rt, alloc, DEAD_HALF, 2, entry_of(3), NEVER_REACHED);
    check_both(&rt, alloc, DEAD_HALF, 2, pair(3, 2), NEVER_REACHED);
}

/// Each answer about a name at this place is what the table says there.
fn check_names(rt: &impl Abort, alloc: Global, text: &[u8], names: u32, place: Place) {
    let f = read(alloc, text).expect(rt, "a function");
    'names: for v in 0..names {
        let found = answer(alloc, &f, ValueId(v), place).expect(rt, "memory");
        let table = by_table(alloc, &f, ValueId(v), place).expect(rt, "memory");
        assert_eq!(rt; found.as_slice(), table.as_slice());
    }
}

/// How many names and how many blocks the loop has.
const COUNTER_NAMES: u32 = 3;

const COUNTER_BLOCKS: u32 = 4;

#[test]
fn each_answer_about_a_loop_is_the_one_of_its_table(rt: HostRuntime) {
    let alloc = rt.alloc();
    'blocks: for b in 0..COUNTER_BLOCKS {
        check_names(&rt, alloc, COUNTER, COUNTER_NAMES, entry_of(b));
    }
    check_names(&rt, alloc, COUNTER, COUNTER_NAMES, pair(0, 1));
    check_names(&rt, alloc, COUNTER, COUNTER_NAMES, pair(1, 2));
    check_names(&rt, alloc, COUNTER, COUNTER_NAMES, pair(1, 3));
    check_names(&rt, alloc, COUNTER, COUNTER_NAMES, pair(2, 1));
}
