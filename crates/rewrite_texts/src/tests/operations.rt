//! What rewriting makes of single operations.

use super::*;

#[test]
fn a_mask_of_a_mask_without_common_bits_is_0(rt: HostRuntime) -> Result<(), Fail> {
    let alloc = rt.alloc();
    check_rewritten(
        &rt,
        alloc,
        b"define i8 @f(i8 %x) {
entry:
  %a = and i8 %x, 15
  %b = and i8 %a, -16
  ret i8 %b
}",
        b"define i8 @f(i8 %x) {
entry:
  ret i8 0
}",
    )
}

// `true` is -1, and 1 and 1 are 0.
#[test]
fn operations_on_numbers_of_width_1(rt: HostRuntime) -> Result<(), Fail> {
    let alloc = rt.alloc();
    check_rewritten(
        &rt,
        alloc,
        b"define i8 @one() {
  %a = sext i1 true to i8
  %b = add i1 true, true
  %c = select i1 %b, i8 7, i8 %a
  ret i8 %c
}",
        b"define i8 @one() {
  ret i8 -1
}",
    )
}

#[test]
fn results_without_a_number_are_poison(rt: HostRuntime) -> Result<(), Fail> {
    let alloc = rt.alloc();
    check_rewritten(
        &rt,
        alloc,
        b"define i128 @p() {
entry:
  %r = add nuw i128 -1, 1
  ret i128 %r
}",
        b"define i128 @p() {
entry:
  ret i128 poison
}",
    )?;
    check_rewritten(
        &rt,
        alloc,
        b"define i8 @p(i8 %x) {
  %r = shl i8 %x, 8
  ret i8 %r
}",
        b"define i8 @p(i8 %x) {
  ret i8 poison
}",
    )?;
    check_rewritten(
        &rt,
        alloc,
        b"define i16 @r() {
  %r = zext nneg i8 -1 to i16
  ret i16 %r
}",
        b"define i16 @r() {
  ret i16 poison
}",
    )
}

#[test]
fn a_freeze_of_what_is_never_poison_goes(rt: HostRuntime) -> Result<(), Fail> {
    let alloc = rt.alloc();
    check_rewritten(
        &rt,
        alloc,
        b"define i8 @fr(i8 noundef %x, i8 %y) {
  %a = freeze i8 %x
  %b = freeze i8 %y
  %c = xor i8 %a, %b
  ret i8 %c
}",
        b"define i8 @fr(i8 noundef %x, i8 %y) {
  %b = freeze i8 %y
  %c = xor i8 %x, %b
  ret i8 %c
}",
    )
}

#[test]
fn a_signed_division_is_done_at_a_lesser_width(rt: HostRuntime) -> Result<(), Fail> {
    let alloc = rt.alloc();
    check_rewritten(
        &rt,
        alloc,
        b"define i32 @quot(i32 %x, i32 %y) {
entry:
  %cx = icmp ult i32 %x, 100
  %d = add i32 %y, -1
  %cy = icmp ult i32 %d, 49
  %both = and i1 %cx, %cy
  br i1 %both, label %go, label %no

go:
  %q = sdiv i32 %x, %y
  ret i32 %q

no:
  ret i32 0
}",
        b"define i32 @quot(i32 %x, i32 %y) {
entry:
  %cx = icmp ult i32 %x, 100
  %d = add i32 %y, -1
  %cy = icmp ult i32 %d, 49
  %both = and i1 %cx, %cy
  br i1 %both, label %go, label %no

go:
  %0 = trunc i32 %x to i8
  %1 = trunc i32 %y to i8
  %2 = udiv i8 %0, %1
  %q = zext i8 %2 to i32
  ret i32 %q

no:
  ret i32 0
}",
    )
}

#[test]
fn an_overflow_that_is_decided_becomes_a_sum(rt: HostRuntime) -> Result<(), Fail> {
    let alloc = rt.alloc();
    check_rewritten(
        &rt,
        alloc,
        b"define i8 @ov(i8 %x) {
  %a = and i8 %x, 15
  %p = call { i8, i1 } @llvm.uadd.with.overflow.i8(i8 %a, i8 1)
  %o = extractvalue { i8, i1 } %p, 1
  %s = extractvalue { i8, i1 } %p, 0
  %r = select i1 %o, i8 0, i8 %s
  ret i8 %r
}",
        b"define i8 @ov(i8 %x) {
  %a = and i8 %x, 15
  %s = add nuw nsw i8 %a, 1
  ret i8 %s
}",
    )
}

#[test]
fn words_are_gained_where_no_number_breaks_them(rt: HostRuntime) -> Result<(), Fail> {
    let alloc = rt.alloc();
    check_rewritten(
        &rt,
        alloc,
        b"define i32 @low4(i32 %x, i8 noundef %y) {
  %a = and i32 %x, 240
  %b = or i32 %a, 3
  %t = trunc i32 %b to i8
  %n = and i8 %y, 15
  %z = zext i8 %n to i32
  %w = zext i8 %t to i32
  %s = xor i32 %z, %w
  ret i32 %s
}",
        b"define i32 @low4(i32 %x, i8 noundef %y) {
  %a = and i32 %x, 240
  %b = or disjoint i32 %a, 3
  %t = trunc nuw i32 %b to i8
  %n = and i8 %y, 15
  %z = zext nneg i8 %n to i32
  %w = zext i8 %t to i32
  %s = xor i32 %z, %w
  ret i32 %s
}",
    )
}

#[test]
fn bits_that_nobody_asks_for_stay(rt: HostRuntime) -> Result<(), Fail> {
    let alloc = rt.alloc();
    let unchanged = b"define i8 @low(i32 %x, i32 %y) {
  %a = and i32 %x, 65535
  %s = add nsw i32 %a, %y
  %t = trunc i32 %s to i8
  ret i8 %t
}";
    check_rewritten(&rt, alloc, unchanged, unchanged)
}
