//! Narrowing where operands are literals or `poison`, where names have no fact, and where equations are not live.

use super::conditions::{Condition, holds, is, told};
use super::read;
use super::shown::NAMES;
use super::states::Change;
use super::texts::with_equations;
use std::alloc::Global;
use std::process::Abort;
use vfa_ir::{Operand, Pred, ValueId};

const X: ValueId = ValueId(0);

const Y: ValueId = ValueId(1);

const P: ValueId = ValueId(2);

/// The first name that an equation gives.
const FIRST: ValueId = ValueId(4);

/// The second one.
const SECOND: ValueId = ValueId(5);

/// What stands for the facts of a state that no values meet.
const NO_VALUES: &[u8] = b"no values\n";

fn name(v: ValueId) -> Operand {
    Operand::Value(v)
}

fn number(bits: u128) -> Operand {
    Operand::Literal(bits)
}

/// A condition, told after the change to the state behind the equations, makes of the facts what the lines say.
fn check_told(
    rt: &impl Abort,
    alloc: Global,
    equations: &[u8],
    change: Change,
    condition: &Condition,
    want: &[u8],
) {
    let text = with_equations(alloc, equations).expect(rt, "memory");
    let f = read(alloc, text.as_slice()).expect(rt, "a function");
    let found = told(alloc, &f, NAMES, change, condition).expect(rt, "memory");
    assert_eq!(rt; found.as_slice(), want);
}

#[test]
fn literals_pass_or_fail(rt: HostRuntime) {
    let alloc = rt.alloc();
    check_told(
        &rt,
        alloc,
        b"  %c = icmp ugt i8 7, %x\n",
        Change::Same,
        &is(FIRST, 1),
        b"%x i8 00000??? [0,7) never-poison\n%c i1 1 [1,0) never-poison\n",
    );
    check_told(
        &rt,
        alloc,
        b"  %d = icmp ult i8 %x, 5\n  call void @llvm.assume(i1 %d)\n  %c = icmp eq i8 7, %x\n",
        Change::Unknown(SECOND),
        &is(SECOND, 1),
        NO_VALUES,
    );
    check_told(
        &rt,
        alloc,
        b"  %d = icmp ult i8 %x, 5\n  call void @llvm.assume(i1 %d)\n  %c = icmp eq i8 3, %x\n",
        Change::Unknown(SECOND),
        &is(SECOND, 1),
        b"%x i8 00000011 [3,4) never-poison\n%c i1 1 [1,0) never-poison\n",
    );
    check_told(
        &rt,
        alloc,
        b"  %c = select i1 %p, i1 false, i1 false\n",
        Change::Unknown(FIRST),
        &is(FIRST, 1),
        NO_VALUES,
    );
    check_told(
        &rt,
        alloc,
        b"  %m = and i8 12, 4\n",
        Change::Unknown(FIRST),
        &holds(name(FIRST), Pred::Eq, number(4)),
        b"%m i8 00000100 [4,5) never-poison\n",
    );
    check_told(
        &rt,
        alloc,
        b"  %m = and i8 12, 4\n",
        Change::Unknown(FIRST),
        &holds(name(FIRST), Pred::Eq, number(0)),
        NO_VALUES,
    );
    check_told(
        &rt,
        alloc,
        b"  %s = add i8 12, 4\n",
        Change::Unknown(FIRST),
        &holds(name(FIRST), Pred::Ult, number(17)),
        b"%s i8 000????? [0,17) never-poison\n",
    );
    check_told(
        &rt,
        alloc,
        b"  %s = add i8 12, 4\n",
        Change::Unknown(FIRST),
        &holds(name(FIRST), Pred::Ult, number(16)),
        NO_VALUES,
    );
    check_told(
        &rt,
        alloc,
        b"",
        Change::Same,
        &holds(number(3), Pred::Ult, number(5)),
        b"",
    );
    check_told(
        &rt,
        alloc,
        b"",
        Change::Same,
        &holds(number(5), Pred::Ult, number(3)),
        NO_VALUES,
    );
    check_told(
        &rt,
        alloc,
        b"",
        Change::Same,
        &holds(name(X), Pred::Ult, number(0)),
        NO_VALUES,
    );
}

#[test]
fn poison_fails(rt: HostRuntime) {
    let alloc = rt.alloc();
    check_told(
        &rt,
        alloc,
        b"",
        Change::Same,
        &holds(name(X), Pred::Ult, Operand::Poison),
        NO_VALUES,
    );
    check_told(
        &rt,
        alloc,
        b"",
        Change::Same,
        &holds(Operand::Poison, Pred::Ule, name(X)),
        NO_VALUES,
    );
    check_told(
        &rt,
        alloc,
        b"  %c = icmp ult i8 %x, poison\n",
        Change::Unknown(FIRST),
        &is(FIRST, 1),
        NO_VALUES,
    );
    check_told(
        &rt,
        alloc,
        b"  %c = icmp ult i8 poison, %x\n",
        Change::Unknown(FIRST),
        &is(FIRST, 0),
        NO_VALUES,
    );
    check_told(
        &rt,
        alloc,
        b"  %c = trunc i8 poison to i1\n",
        Change::Unknown(FIRST),
        &is(FIRST, 1),
        NO_VALUES,
    );
    check_told(
        &rt,
        alloc,
        b"  %c = and i1 poison, %p\n",
        Change::Unknown(FIRST),
        &is(FIRST, 1),
        NO_VALUES,
    );
    check_told(
        &rt,
        alloc,
        b"  %c = and i1 %p, poison\n",
        Change::Unknown(FIRST),
        &is(FIRST, 1),
        NO_VALUES,
    );
    check_told(
        &rt,
        alloc,
        b"  %c = and i1 %p, poison\n",
        Change::Unknown(FIRST),
        &is(FIRST, 0),
        b"%c i1 0 [0,1) never-poison\n",
    );
    check_told(
        &rt,
        alloc,
        b"  %c = xor i1 poison, true\n",
        Change::Unknown(FIRST),
        &is(FIRST, 1),
        NO_VALUES,
    );
    check_told(
        &rt,
        alloc,
        b"  %s = add i8 poison, 3\n",
        Change::Unknown(FIRST),
        &holds(name(FIRST), Pred::Ult, number(5)),
        NO_VALUES,
    );
    check_told(
        &rt,
        alloc,
        b"  %c = select i1 poison, i1 %p, i1 false\n",
        Change::Unknown(FIRST),
        &is(FIRST, 1),
        NO_VALUES,
    );
    check_told(
        &rt,
        alloc,
        b"  %c = select i1 %p, i1 true, i1 poison\n",
        Change::Unknown(FIRST),
        &is(FIRST, 0),
        NO_VALUES,
    );
}

#[test]
fn poison_fails_beside_a_mask_and_is_no_mask(rt: HostRuntime) {
    let alloc = rt.alloc();
    check_told(
        &rt,
        alloc,
        b"  %m = and i8 poison, 12\n",
        Change::Unknown(FIRST),
        &holds(name(FIRST), Pred::Eq, number(4)),
        NO_VALUES,
    );
    check_told(
        &rt,
        alloc,
        b"  %m = and i8 12, poison\n",
        Change::Unknown(FIRST),
        &holds(name(FIRST), Pred::Eq, number(4)),
        NO_VALUES,
    );
    check_told(
        &rt,
        alloc,
        b"  %m = and i8 poison, 12\n",
        Change::Unknown(FIRST),
        &holds(name(FIRST), Pred::Ule, number(4)),
        b"%m i8 00000??? [0,5) never-poison\n",
    );
    check_told(
        &rt,
        alloc,
        b"  %m = and i8 %x, poison\n",
        Change::Unknown(FIRST),
        &holds(name(FIRST), Pred::Eq, number(4)),
        b"%m i8 00000100 [4,5) never-poison\n",
    );
    check_told(
        &rt,
        alloc,
        b"  %m = and i8 poison, %x\n",
        Change::Unknown(FIRST),
        &holds(name(FIRST), Pred::Eq, number(4)),
        b"%m i8 00000100 [4,5) never-poison\n",
    );
    check_told(
        &rt,
        alloc,
        b"  %m = and i8 %x, 12\n",
        Change::Same,
        &holds(name(FIRST), Pred::Eq, Operand::Poison),
        NO_VALUES,
    );
    check_told(
        &rt,
        alloc,
        b"  %m = and i8 %x, 12\n  %c = icmp eq i8 %m, poison\n",
        Change::Unknown(SECOND),
        &is(SECOND, 1),
        NO_VALUES,
    );
    check_told(
        &rt,
        alloc,
        b"  %c = and i1 poison, true\n",
        Change::Unknown(FIRST),
        &is(FIRST, 0),
        NO_VALUES,
    );
}

#[test]
fn names_without_a_fact_are_left_alone(rt: HostRuntime) {
    let alloc = rt.alloc();
    check_told(
        &rt,
        alloc,
        b"  %c = icmp ult i8 %x, %y\n",
        Change::WithoutFact(Y),
        &is(FIRST, 1),
        b"%c i1 1 [1,0) never-poison\n",
    );
    check_told(
        &rt,
        alloc,
        b"  %c = icmp ult i8 %x, %y\n",
        Change::WithoutFact(X),
        &is(FIRST, 1),
        b"%c i1 1 [1,0) never-poison\n",
    );
    check_told(
        &rt,
        alloc,
        b"  %c = and i1 %p, %q\n",
        Change::WithoutFact(P),
        &is(FIRST, 1),
        b"%q i1 1 [1,0) never-poison\n%c i1 1 [1,0) never-poison\n",
    );
    check_told(
        &rt,
        alloc,
        b"  %c = and i1 %p, %q\n",
        Change::WithoutFact(FIRST),
        &is(FIRST, 1),
        b"",
    );
    check_told(
        &rt,
        alloc,
        b"",
        Change::WithoutFact(Y),
        &holds(name(X), Pred::Ult, name(Y)),
        b"",
    );
}

#[test]
fn ended_equations_are_not_followed(rt: HostRuntime) {
    let alloc = rt.alloc();
    check_told(
        &rt,
        alloc,
        b"  %c = and i1 %p, %q\n",
        Change::Ended(FIRST),
        &is(FIRST, 1),
        b"%c i1 1 [1,0) never-poison\n",
    );
    check_told(
        &rt,
        alloc,
        b"  %s = add i8 %x, 3\n  %c = icmp ult i8 %s, 5\n",
        Change::Ended(FIRST),
        &is(SECOND, 1),
        b"%s i8 00000??? [0,5) never-poison\n%c i1 1 [1,0) never-poison\n",
    );
    check_told(
        &rt,
        alloc,
        b"  %s = add i8 %x, -3\n  %c = icmp ult i8 %s, 5\n",
        Change::Ended(SECOND),
        &is(SECOND, 1),
        b"%c i1 1 [1,0) never-poison\n",
    );
}

#[test]
fn bits_outside_a_mask_fail(rt: HostRuntime) {
    let alloc = rt.alloc();
    check_told(
        &rt,
        alloc,
        b"  %m = and i8 %x, 12\n",
        Change::Unknown(FIRST),
        &holds(name(FIRST), Pred::Eq, number(3)),
        NO_VALUES,
    );
    check_told(
        &rt,
        alloc,
        b"  %m = and i8 %x, 12\n",
        Change::Unknown(FIRST),
        &holds(name(FIRST), Pred::Eq, number(4)),
        b"%x i8 ????01?? [4,248) never-poison\n%m i8 00000100 [4,5) never-poison\n",
    );
    check_told(
        &rt,
        alloc,
        b"  %m = and i8 %x, 12\n",
        Change::Same,
        &holds(name(FIRST), Pred::Ule, number(4)),
        b"%m i8 00000?00 [0,5) never-poison\n",
    );
}

#[test]
fn one_name_may_stand_on_both_sides(rt: HostRuntime) {
    let alloc = rt.alloc();
    check_told(
        &rt,
        alloc,
        b"",
        Change::Same,
        &holds(name(X), Pred::Ult, name(X)),
        b"%x i8 ???????? [1,255) never-poison\n",
    );
    check_told(
        &rt,
        alloc,
        b"",
        Change::Same,
        &holds(name(X), Pred::Ule, name(X)),
        b"%x i8 ???????? full never-poison\n",
    );
    check_told(
        &rt,
        alloc,
        b"",
        Change::Same,
        &holds(name(X), Pred::Ne, name(X)),
        b"%x i8 ???????? full never-poison\n",
    );
    check_told(
        &rt,
        alloc,
        b"  %d = icmp eq i8 %x, 7\n  call void @llvm.assume(i1 %d)\n",
        Change::Same,
        &holds(name(X), Pred::Ne, name(X)),
        NO_VALUES,
    );
    check_told(
        &rt,
        alloc,
        b"  %d = icmp eq i8 %x, 7\n  call void @llvm.assume(i1 %d)\n",
        Change::Same,
        &holds(name(X), Pred::Sle, name(X)),
        b"",
    );
    check_told(
        &rt,
        alloc,
        b"  %c = and i1 %p, %p\n",
        Change::Same,
        &is(FIRST, 1),
        b"%p i1 1 [1,0) never-poison\n%c i1 1 [1,0) never-poison\n",
    );
    check_told(
        &rt,
        alloc,
        b"  %c = icmp sgt i8 %x, %x\n",
        Change::Same,
        &is(FIRST, 1),
        b"%x i8 ???????? full never-poison\n%c i1 1 [1,0) never-poison\n",
    );
    check_told(
        &rt,
        alloc,
        b"  %s = add i8 %x, 1\n  %c = icmp ult i8 %s, %x\n",
        Change::Same,
        &is(SECOND, 1),
        b"%x i8 ???????? [1,0) never-poison\n%s i8 ???????? [0,255) never-poison\n%c i1 1 [1,0) never-poison\n",
    );
}
