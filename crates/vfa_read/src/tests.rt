//! Tests of the reader: what it accepts, its exact reasons, and the names of tokens.

use super::*;
use std::alloc::{AllocError, Global};
use vfa_ir::{Kind, Outside};
use vfa_lex::tokens;

fn read(alloc: Global, text: &[u8]) -> Result<ReadFunction, Outside> {
    if text.len() > 1_000_000 {
        return Err(Outside::Memory);
    }
    let all = tokens(alloc, text)?;
    read_function(alloc, text, all.as_slice())
}

/// A function of an `i8` `%a` and an `i1` `%c` with these lines, of which the first is line 2.
fn with_lines(alloc: Global, lines: &[u8]) -> Result<Vec<u8>, AllocError> {
    let mut text = Vec::from_slice(alloc, b"define i8 @f(i8 %a, i1 %c) {\n")?;
    text.extend_from_slice(lines)?;
    text.extend_from_slice(b"\nret i8 %a\n}\n")?;
    Ok(text)
}

fn read_lines(alloc: Global, lines: &[u8]) -> Result<ReadFunction, Outside> {
    let text = with_lines(alloc, lines)?;
    read(alloc, text.as_slice())
}

fn reads(alloc: Global, text: &[u8]) -> bool {
    read(alloc, text).is_ok()
}

fn reads_lines(alloc: Global, lines: &[u8]) -> bool {
    read_lines(alloc, lines).is_ok()
}

fn stops_on(found: Result<ReadFunction, Outside>, line: u32) -> bool {
    match found {
        Err(Outside::Shape(stop)) => stop == line,
        _ => false,
    }
}

fn stops(alloc: Global, text: &[u8], line: u32) -> bool {
    stops_on(read(alloc, text), line)
}

/// Whether these lines stop being a sentence on their first one.
fn stops_at_once(alloc: Global, lines: &[u8]) -> bool {
    stops_on(read_lines(alloc, lines), 2)
}

/// Whether these tokens on the first line may stand there, and the first on the next line may not.
fn stops_after(alloc: Global, good: &[u8], bad: &[u8]) -> bool {
    let Ok(mut lines) = Vec::from_slice(alloc, good) else {
        return false;
    };
    if lines.push(b'\n').is_err() || lines.extend_from_slice(bad).is_err() {
        return false;
    }
    stops_on(read_lines(alloc, lines.as_slice()), 3)
}

fn repeats(alloc: Global, lines: &[u8], name: &[u8]) -> bool {
    match read_lines(alloc, lines) {
        Err(Outside::Duplicate(found)) => found.bytes() == name,
        _ => false,
    }
}

fn lacks(alloc: Global, lines: &[u8], name: &[u8]) -> bool {
    match read_lines(alloc, lines) {
        Err(Outside::Unknown(found)) => found.bytes() == name,
        _ => false,
    }
}

fn passes(alloc: Global, text: &[u8], kind: Kind) -> bool {
    match read(alloc, text) {
        Err(Outside::TooMany(found)) => found == kind,
        _ => false,
    }
}

/// A function with so many parameters.
fn with_parameters(alloc: Global, count: usize) -> Result<Vec<u8>, AllocError> {
    let mut text = Vec::from_slice(alloc, b"define i8 @f(i8")?;
    for _ in 1..count {
        text.extend_from_slice(b", i8")?;
    }
    text.extend_from_slice(b") {\nret i8 0\n}")?;
    Ok(text)
}

#[test]
fn operations_read(rt: HostRuntime) {
    assert!(rt;
        reads_lines(
            rt.alloc(),
            b"%b0 = add i8 %a, 1\n%b1 = add nuw i8 %a, 1\n%b2 = add nsw i8 %a, 1\n%b3 = add nuw nsw i8 %a, 1\n%b4 = add nsw nuw i8 %a, 1\n%b5 = sub nuw nsw i8 %a, 1\n%b6 = mul nsw nuw i8 %a, 1\n%b7 = shl nuw i8 %a, 1\n%b8 = udiv i8 %a, 1\n%b9 = udiv exact i8 %a, 1\n%b10 = sdiv exact i8 %a, 1\n%b11 = lshr exact i8 %a, 1\n%b12 = ashr exact i8 %a, 1\n%b13 = urem i8 %a, 1\n%b14 = srem i8 %a, 1\n%b15 = and i8 %a, 1\n%b16 = or i8 %a, 1\n%b17 = xor i8 %a, 1"
        )
    );
    assert!(rt;
        reads_lines(
            rt.alloc(),
            b"%p0 = icmp eq i8 %a, 3\n%p1 = icmp ne i8 %a, 3\n%p2 = icmp ugt i8 %a, 3\n%p3 = icmp uge i8 %a, 3\n%p4 = icmp ult i8 %a, 3\n%p5 = icmp ule i8 %a, 3\n%p6 = icmp sgt i8 %a, 3\n%p7 = icmp sge i8 %a, 3\n%p8 = icmp slt i8 %a, 3\n%p9 = icmp sle i8 %a, 3"
        )
    );
    assert!(rt;
        reads_lines(
            rt.alloc(),
            b"%x = select i1 %c, i8 %a, i8 poison\n%y = freeze i8 %x"
        )
    );
    assert!(rt;
        reads_lines(
            rt.alloc(),
            b"%x = zext i1 %c to i8\n%y = sext i1 true to i128\n%z = trunc i128 %y to i3"
        )
    );
    assert!(rt; reads_lines(rt.alloc(), b"%x = add i8 %a, 1, !range !0, !dbg !12"));
}

#[test]
fn calls_read(rt: HostRuntime) {
    assert!(rt;
        reads_lines(
            rt.alloc(),
            b"%t0 = call i8 @llvm.umin.i8(i8 %a, i8 3)\n%t1 = call i8 @llvm.umax.i8(i8 %a, i8 3)\n%t2 = call i8 @llvm.smin.i8(i8 %a, i8 3)\n%t3 = call i8 @llvm.smax.i8(i8 %a, i8 3)\n%t4 = call i8 @llvm.uadd.sat.i8(i8 %a, i8 3)\n%t5 = call i8 @llvm.usub.sat.i8(i8 %a, i8 3)\n%t6 = call i8 @llvm.sadd.sat.i8(i8 %a, i8 3)\n%t7 = call i8 @llvm.ssub.sat.i8(i8 %a, i8 3)"
        )
    );
    assert!(rt;
        reads_lines(
            rt.alloc(),
            b"%k0 = call i8 @llvm.abs.i8(i8 %a, i1 true)\n%k1 = tail call i8 @llvm.ctlz.i8(i8 %a, i1 false) #0 #1\n%k2 = notail call i8 @llvm.cttz.i8(i8 %a, i1 1)\n%k3 = call i8 @llvm.ctpop.i8(i8 %a)"
        )
    );
    assert!(rt;
        reads_lines(
            rt.alloc(),
            b"%o0 = call { i8, i1 } @llvm.uadd.with.overflow.i8(i8 %a, i8 3)\n%o1 = call { i8, i1 } @llvm.sadd.with.overflow.i8(i8 %a, i8 3)\n%o2 = call { i8, i1 } @llvm.usub.with.overflow.i8(i8 %a, i8 3)\n%o3 = call { i8, i1 } @llvm.ssub.with.overflow.i8(i8 %a, i8 3)\n%o4 = call { i8, i1 } @llvm.umul.with.overflow.i8(i8 %a, i8 3)\n%o5 = call { i8, i1 } @llvm.smul.with.overflow.i8(i8 %a, i8 3)\n%x = extractvalue { i8, i1 } %o0, 0\n%y = extractvalue { i8, i1 } %o5, 1"
        )
    );
    assert!(rt;
        reads_lines(
            rt.alloc(),
            b"call void @llvm.assume(i1 %c)\ntail call void @llvm.assume(i1 true) #3"
        )
    );
}

#[test]
fn newer_flags_read(rt: HostRuntime) {
    assert!(rt;
        reads_lines(
            rt.alloc(),
            b"%x = or disjoint i8 %a, 1\n%p = icmp samesign eq i8 %a, 3\n%z = zext nneg i8 %a to i9\n%t = trunc nsw nuw i9 %z to i8\n%u = trunc nuw i9 %z to i8"
        )
    );
    assert!(rt; stops_after(rt.alloc(), b"%x = or", b"exact i8 %a, 1"));
    assert!(rt; stops_after(rt.alloc(), b"%x = icmp samesign", b"samesign eq i8 %a, 1"));
    assert!(rt; stops_after(rt.alloc(), b"%x = zext", b"uw i8 %a to i9"));
    assert!(rt; stops_after(rt.alloc(), b"%x = zext", b"nuw i8 %a to i9"));
    assert!(rt; stops_after(rt.alloc(), b"%x = trunc", b"nneg i8 %a to i7"));
    assert!(rt; stops_after(rt.alloc(), b"%x = sext", b"nneg i8 %a to i9"));
}

#[test]
fn calls_of_functions_read(rt: HostRuntime) {
    assert!(rt;
        reads_lines(
            rt.alloc(),
            b"%r = call fastcc fastcc i8 @g()\ncall void @g() #0, !dbg !3\n%s = tail call noundef i8 @\"g h\"(i8 noundef signext %r, i1 true)\ncall void @g(i8 poison)"
        )
    );
    assert!(rt; stops_after(rt.alloc(), b"%r = call i8 @g(i8 %a,", b")"));
    assert!(rt; stops_after(rt.alloc(), b"%r = call i8", b"@llvm.foo(i8 %a)"));
    assert!(rt;
        stops_after(
            rt.alloc(),
            b"%r = call noundef i8",
            b"@llvm.umax.i8(i8 %a, i8 %a)"
        )
    );
    assert!(rt; stops_after(rt.alloc(), b"%r = call", b"void @g()"));
    assert!(rt; stops_after(rt.alloc(), b"call", b"i8 @g()"));
    assert!(rt; stops_after(rt.alloc(), b"%r = call i8 @g(i8", b"align 4 %a)"));
    assert!(rt; stops_after(rt.alloc(), b"%r = call i8 @g(i8", b"range(i8 0, 2) %a)"));
}

#[test]
fn blocks_read(rt: HostRuntime) {
    assert!(rt; reads(rt.alloc(), b"define i8 @f() {\nunreachable\n}"));
    assert!(rt;
        reads(
            rt.alloc(),
            b"define i8 @f(i1) {\nentry: br i1 %0, label %entry, label %x\nx: %y = phi i8 [ 1, %entry ], !a !0\nret i8 %y, !b !1\n}"
        )
    );
    assert!(rt;
        reads(
            rt.alloc(),
            b"define i8 @f(i8 %a) {\nswitch i8 %a, label %b [ i8 1, label %b i8 -1, label %c i8 1, label %c ]\nb: br label %c\n\"c\": %d = phi i8 [ %a, %0 ], [ 0, %0 ], [ 1, %b ]\nret i8 %d\n}"
        )
    );
    assert!(rt;
        reads(
            rt.alloc(),
            b"define private internal available_externally linkonce weak linkonce_odr weak_odr external dso_local dso_preemptable default hidden protected dllexport ccc fastcc coldcc tailcc noundef zeroext signext inreg i8 @\"f g\"(i8 noundef zeroext signext inreg returned %a, i8 inreg, i8 %\"b\\41\") local_unnamed_addr #0 align (4) \"x\" {\nret i8 %bA\n}"
        )
    );
}

#[test]
fn numbers_lie_in_their_range(rt: HostRuntime) {
    assert!(rt;
        reads_lines(
            rt.alloc(),
            b"%x = or i1 0, 1\n%y = or i1 -1, true\n%z = and i1 false, %c"
        )
    );
    assert!(rt; stops_at_once(rt.alloc(), b"%x = or i1 %c, 2"));
    assert!(rt; stops_at_once(rt.alloc(), b"%x = or i1 %c, -2"));
    assert!(rt; reads_lines(rt.alloc(), b"%x = or i8 -128, 255"));
    assert!(rt; stops_at_once(rt.alloc(), b"%x = or i8 %a, 256"));
    assert!(rt; stops_at_once(rt.alloc(), b"%x = or i8 %a, -129"));
    assert!(rt; stops_at_once(rt.alloc(), b"%x = or i8 %a, true"));
    assert!(rt;
        reads_lines(
            rt.alloc(),
            b"%x = or i128 -170141183460469231731687303715884105728, 340282366920938463463374607431768211455"
        )
    );
    assert!(rt;
        stops_at_once(
            rt.alloc(),
            b"%x = or i128 0, 340282366920938463463374607431768211456"
        )
    );
    assert!(rt;
        stops_at_once(
            rt.alloc(),
            b"%x = or i128 0, -170141183460469231731687303715884105729"
        )
    );
    assert!(rt;
        stops_at_once(
            rt.alloc(),
            b"%x = or i128 0, 9999999999999999999999999999999999999999"
        )
    );
    assert!(rt;
        reads_lines(
            rt.alloc(),
            b"%x = or i8 %a, 0000000000000000000000000000000000000005"
        )
    );
    assert!(rt; stops_at_once(rt.alloc(), b"%x = or i129 0, 0"));
    assert!(rt; stops_at_once(rt.alloc(), b"%x = or i0 0, 0"));
}

#[test]
fn what_is_no_sentence(rt: HostRuntime) {
    assert!(rt; stops(rt.alloc(), b"", 1));
    assert!(rt; stops(rt.alloc(), b"define i8\n@f(i8 %a) {\nret\n\n", 3));
    assert!(rt; stops(rt.alloc(), b"define i8 @f() {\nret i8 0\n}\n}", 4));
    assert!(rt; stops(rt.alloc(), b"define i8 @f()\n(() {\nret i8 0\n}", 2));
    assert!(rt; stops(rt.alloc(), b"define i8 @f())\n{\nret i8 0\n}", 1));
    assert!(rt; stops(rt.alloc(), b"define i8 @f() {\nret i8 0\n\nret i8 0\n}", 4));
    assert!(rt; stops_at_once(rt.alloc(), b"%\"5\" = add i8 %a, 1"));
    assert!(rt; stops_at_once(rt.alloc(), b"%\"\" = add i8 %a, 1"));
    assert!(rt; stops_at_once(rt.alloc(), b"%x = add exact i8 %a, 1"));
    assert!(rt; stops_at_once(rt.alloc(), b"%x = add nuw nuw i8 %a, 1"));
    assert!(rt; stops_at_once(rt.alloc(), b"%x = call i8 @llvm.umin.i9(i8 %a, i8 1)"));
    assert!(rt; stops_at_once(rt.alloc(), b"%x = call i8 @llvm.abs.i8(i8 %a)"));
    assert!(rt;
        stops_on(
            read_lines(rt.alloc(), b"%x = add i8 %a, 1\n%y = phi i8 [ 0, %2 ]"),
            3
        )
    );
}

#[test]
fn names_are_defined_once_and_used_as_defined(rt: HostRuntime) {
    assert!(rt; repeats(rt.alloc(), b"%a = add i8 %y, 1", b"a"));
    assert!(rt; repeats(rt.alloc(), b"br label %a\na: br label %c\nc:", b"a"));
    assert!(rt; lacks(rt.alloc(), b"%x = add i8 %y, %z", b"y"));
    assert!(rt; lacks(rt.alloc(), b"br label %a\nb:", b"a"));
    assert!(rt; reads_lines(rt.alloc(), b"br label %b\nb:"));
}

#[test]
fn names_are_limited(rt: HostRuntime) {
    let most = with_parameters(rt.alloc(), 4096).expect(&rt, "memory");
    assert!(rt; reads(rt.alloc(), most.as_slice()));
    let more = with_parameters(rt.alloc(), 4097).expect(&rt, "memory");
    assert!(rt; passes(rt.alloc(), more.as_slice(), Kind::Names));
}

#[test]
fn names_of_tokens(rt: HostRuntime) -> Result<(), AllocError> {
    let text = b"@\"a\\20b\"";
    for token in tokens(rt.alloc(), text)? {
        let name = token_name(rt.alloc(), text, &token)?;
        assert!(rt; name.bytes() == b"a b".as_slice());
    }
    Ok(())
}
