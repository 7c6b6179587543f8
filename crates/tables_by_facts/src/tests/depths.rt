//! Narrowing through each kind of equation, behind up to five opposites.

use super::conditions::{is, told};
use super::read;
use super::states::Change;
use super::texts::{OPPOSITES, with_opposites};
use std::alloc::{AllocError, Global};
use std::process::Abort;
use vfa_ir::{Function, ValueId};

/// How many equations are followed, one behind the other.
const DEEPEST: u32 = 4;

/// The lines of what a condition restricts, where it stands so many equations deep: those of names that are two equations
/// behind it, those one behind, and its own.
fn lines_at(
    alloc: Global,
    depth: u32,
    second: &[u8],
    first: &[u8],
    own: &[u8],
) -> Result<Vec<u8>, AllocError> {
    let mut text = Vec::new(alloc);
    if depth.saturating_add(2) <= DEEPEST {
        text.extend_from_slice(second)?;
    }
    if depth.saturating_add(1) <= DEEPEST {
        text.extend_from_slice(first)?;
    }
    if depth <= DEEPEST {
        text.extend_from_slice(own)?;
    }
    Ok(text)
}

/// How many names stand before the opposites, the condition the last of them.
fn names_before(f: &Function) -> u32 {
    let mut names = 0u32;
    'values: for _ in f.values.as_slice() {
        names = names.saturating_add(1);
    }
    names.saturating_sub(OPPOSITES)
}

/// Where the condition `%c` is the bit, the equations tell this of names that are one equation behind it and of names that
/// are two behind; so they do where an opposite of the condition is told, as deep as equations are followed.
fn check_row(
    rt: &impl Abort,
    alloc: Global,
    equations: &[u8],
    bit: u128,
    first: &[u8],
    second: &[u8],
) {
    let text = with_opposites(alloc, equations).expect(rt, "memory");
    let f = read(alloc, text.as_slice()).expect(rt, "a function");
    let names = names_before(f.function());
    let own: &[u8] = if bit == 0 {
        b"%c i1 0 [0,1) never-poison\n"
    } else {
        b"%c i1 1 [1,0) never-poison\n"
    };
    'depths: for depth in 0..=OPPOSITES {
        let v = ValueId(names.saturating_sub(1).saturating_add(depth));
        let condition = is(v, bit ^ u128::from(depth % 2));
        let found = told(alloc, &f, names, Change::Same, &condition).expect(rt, "memory");
        let want = lines_at(alloc, depth, second, first, own).expect(rt, "memory");
        assert_eq!(rt; found.as_slice(), want.as_slice(), "at depth {depth}");
    }
}

#[test]
fn comparisons_restrict_both_operands(rt: HostRuntime) {
    let alloc = rt.alloc();
    check_row(
        &rt,
        alloc,
        b"  %c = icmp ult i8 %x, %y\n",
        1,
        b"%x i8 ???????? [0,255) never-poison\n%y i8 ???????? [1,0) never-poison\n",
        b"",
    );
    check_row(
        &rt,
        alloc,
        b"  %c = icmp ult i8 %x, %y\n",
        0,
        b"%x i8 ???????? full never-poison\n%y i8 ???????? full never-poison\n",
        b"",
    );
    check_row(
        &rt,
        alloc,
        b"  %c = icmp sgt i8 %x, 100\n",
        1,
        b"%x i8 011????? [101,128) never-poison\n",
        b"",
    );
    check_row(
        &rt,
        alloc,
        b"  %c = icmp ne i8 7, %x\n",
        1,
        b"%x i8 ???????? full never-poison\n",
        b"",
    );
}

#[test]
fn sums_restrict_what_is_added_to(rt: HostRuntime) {
    let alloc = rt.alloc();
    check_row(
        &rt,
        alloc,
        b"  %s = add i8 %x, -10\n  %c = icmp ult i8 %s, 5\n",
        1,
        b"%s i8 00000??? [0,5) never-poison\n",
        b"%x i8 00001??? [10,15) never-poison\n",
    );
    check_row(
        &rt,
        alloc,
        b"  %s = add nuw nsw i8 %x, 5\n  %c = icmp samesign ult i8 %s, 9\n",
        1,
        b"%s i8 0000???? [5,9) never-poison\n",
        b"%x i8 000000?? [0,4) never-poison\n",
    );
    check_row(
        &rt,
        alloc,
        b"  %a = icmp uge i8 %x, 10\n  %b = icmp ult i8 %x, 20\n  %c = and i1 %a, %b\n",
        1,
        b"%a i1 1 [1,0) never-poison\n%b i1 1 [1,0) never-poison\n",
        b"%x i8 000????? [10,20) never-poison\n",
    );
}

#[test]
fn masks_and_truncations_restrict_bits(rt: HostRuntime) {
    let alloc = rt.alloc();
    check_row(
        &rt,
        alloc,
        b"  %m = and i8 %x, 12\n  %c = icmp eq i8 %m, 4\n",
        1,
        b"%m i8 00000100 [4,5) never-poison\n",
        b"%x i8 ????01?? [4,248) never-poison\n",
    );
    check_row(
        &rt,
        alloc,
        b"  %m = and i8 -16, %x\n  %c = icmp ne i8 %m, 32\n",
        0,
        b"%m i8 00100000 [32,33) never-poison\n",
        b"%x i8 0010???? [32,48) never-poison\n",
    );
    check_row(
        &rt,
        alloc,
        b"  %c = trunc i8 %x to i1\n",
        1,
        b"%x i8 ???????1 [1,0) never-poison\n",
        b"",
    );
    check_row(
        &rt,
        alloc,
        b"  %c = trunc i8 %x to i1\n",
        0,
        b"%x i8 ???????0 [0,255) never-poison\n",
        b"",
    );
    check_row(
        &rt,
        alloc,
        b"  %c = and i1 %p, true\n",
        0,
        b"%p i1 0 [0,1) never-poison\n",
        b"",
    );
}

#[test]
fn conjunctions_disjunctions_and_opposites_restrict_their_operands(rt: HostRuntime) {
    let alloc = rt.alloc();
    check_row(
        &rt,
        alloc,
        b"  %c = and i1 %p, %q\n",
        1,
        b"%p i1 1 [1,0) never-poison\n%q i1 1 [1,0) never-poison\n",
        b"",
    );
    check_row(&rt, alloc, b"  %c = and i1 %p, %q\n", 0, b"", b"");
    check_row(
        &rt,
        alloc,
        b"  %c = or i1 %p, %q\n",
        0,
        b"%p i1 0 [0,1) never-poison\n%q i1 0 [0,1) never-poison\n",
        b"",
    );
    check_row(&rt, alloc, b"  %c = or i1 %p, %q\n", 1, b"", b"");
    check_row(
        &rt,
        alloc,
        b"  %c = xor i1 %p, true\n",
        1,
        b"%p i1 0 [0,1) never-poison\n",
        b"",
    );
    check_row(
        &rt,
        alloc,
        b"  %c = xor i1 true, %p\n",
        0,
        b"%p i1 1 [1,0) never-poison\n",
        b"",
    );
}

#[test]
fn choices_restrict_their_operands(rt: HostRuntime) {
    let alloc = rt.alloc();
    check_row(
        &rt,
        alloc,
        b"  %c = select i1 %p, i1 %q, i1 false\n",
        1,
        b"%p i1 1 [1,0) never-poison\n%q i1 1 [1,0) never-poison\n",
        b"",
    );
    check_row(
        &rt,
        alloc,
        b"  %c = select i1 %p, i1 %q, i1 false\n",
        0,
        b"",
        b"",
    );
    check_row(
        &rt,
        alloc,
        b"  %c = select i1 %p, i1 true, i1 %q\n",
        0,
        b"%p i1 0 [0,1) never-poison\n%q i1 0 [0,1) never-poison\n",
        b"",
    );
    check_row(
        &rt,
        alloc,
        b"  %c = select i1 %p, i1 true, i1 %q\n",
        1,
        b"",
        b"",
    );
    check_row(
        &rt,
        alloc,
        b"  %c = select i1 %p, i1 true, i1 false\n",
        1,
        b"%p i1 1 [1,0) never-poison\n",
        b"",
    );
    check_row(
        &rt,
        alloc,
        b"  %c = select i1 %p, i1 true, i1 false\n",
        0,
        b"%p i1 0 [0,1) never-poison\n",
        b"",
    );
}

#[test]
fn other_operations_restrict_nothing(rt: HostRuntime) {
    let alloc = rt.alloc();
    check_row(&rt, alloc, b"  %c = xor i1 %p, false\n", 1, b"", b"");
    check_row(&rt, alloc, b"  %c = xor i1 %p, %q\n", 1, b"", b"");
    check_row(
        &rt,
        alloc,
        b"  %c = select i1 %p, i1 %q, i1 true\n",
        1,
        b"",
        b"",
    );
    check_row(
        &rt,
        alloc,
        b"  %d = sub i8 %x, 3\n  %c = icmp ult i8 %d, 5\n",
        1,
        b"%d i8 00000??? [0,5) never-poison\n",
        b"",
    );
    check_row(
        &rt,
        alloc,
        b"  %d = add i8 %x, %y\n  %c = icmp ult i8 %d, 5\n",
        1,
        b"%d i8 00000??? [0,5) never-poison\n",
        b"",
    );
}
