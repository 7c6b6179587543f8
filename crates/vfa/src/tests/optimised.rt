//! What `opt` makes of functions.
use super::*;

// Width 1: `true` is -1, and 1 and 1 are 0.
#[test]
fn a_sign_extension_at_width_1(rt: HostRuntime) -> Result<(), Fail> {
    check_prints(
        &rt,
        b"define i8 @one() {
  %a = sext i1 true to i8
  %b = add i1 true, true
  %c = select i1 %b, i8 7, i8 %a
  ret i8 %c
}
",
        b"define i8 @one() {
  ret i8 -1
}
",
    )
}

// Operations whose words do not hold, or whose amount is too great, give poison.
#[test]
fn poison_results(rt: HostRuntime) -> Result<(), Fail> {
    check_prints(
        &rt,
        b"define i128 @p() {
entry:
  %r = add nuw i128 -1, 1
  ret i128 %r
}
",
        b"define i128 @p() {
entry:
  ret i128 poison
}
",
    )?;
    check_prints(
        &rt,
        b"define i8 @p(i8 %x) {
  %r = shl i8 %x, 8
  ret i8 %r
}
",
        b"define i8 @p(i8 %x) {
  ret i8 poison
}
",
    )?;
    check_prints(
        &rt,
        b"define i16 @r() {
  %r = zext nneg i8 -1 to i16
  ret i16 %r
}
",
        b"define i16 @r() {
  ret i16 poison
}
",
    )
}

// A loop: the end is known behind it, and its steps do not wrap.
#[test]
fn a_loop_that_counts(rt: HostRuntime) -> Result<(), Fail> {
    check_prints(
        &rt,
        b"define i32 @count() {
entry:
  br label %head

head:
  %i = phi i32 [ 0, %entry ], [ %n, %body ]
  %c = icmp ult i32 %i, 10
  br i1 %c, label %body, label %exit

body:
  %n = add i32 %i, 1
  br label %head

exit:
  ret i32 %i
}
",
        b"define i32 @count() {
entry:
  br label %head

head:
  %i = phi i32 [ 0, %entry ], [ %n, %body ]
  %c = icmp samesign ult i32 %i, 10
  br i1 %c, label %body, label %exit

body:
  %n = add nuw nsw i32 %i, 1
  br label %head

exit:
  ret i32 10
}
",
    )
}

// A condition that was made of the last turn says nothing of this one.
#[test]
fn a_comparison_of_the_turn_before(rt: HostRuntime) -> Result<(), Fail> {
    let unchanged = b"define i8 @stale(i8 %k) {
entry:
  br label %head

head:
  %a = phi i8 [ 0, %entry ], [ %b, %head ]
  %c = phi i1 [ true, %entry ], [ %d, %head ]
  %b = add i8 %a, %k
  %d = icmp ult i8 %a, 5
  br i1 %c, label %head, label %exit

exit:
  ret i8 %a
}
";
    check_prints(&rt, unchanged, unchanged)
}

// Two edges from one block: the phi has both entries.
#[test]
fn two_edges_from_one_block(rt: HostRuntime) -> Result<(), Fail> {
    let unchanged = b"define i8 @sw(i8 %x) {
p:
  switch i8 %x, label %other [
    i8 1, label %join
    i8 2, label %join
  ]

join:
  %r = phi i8 [ %x, %p ], [ %x, %p ]
  ret i8 %r

other:
  ret i8 0
}
";
    check_prints(&rt, unchanged, unchanged)
}

#[test]
fn freeze_of_what_is_never_poison(rt: HostRuntime) -> Result<(), Fail> {
    check_prints(
        &rt,
        b"define i8 @fr(i8 noundef %x, i8 %y) {
  %a = freeze i8 %x
  %b = freeze i8 %y
  %c = xor i8 %a, %b
  ret i8 %c
}
",
        b"define i8 @fr(i8 noundef %x, i8 %y) {
  %b = freeze i8 %y
  %c = xor i8 %x, %b
  ret i8 %c
}
",
    )
}

// A signed division of numbers below 100 and below 50.
#[test]
fn a_division_at_a_lesser_width(rt: HostRuntime) -> Result<(), Fail> {
    check_prints(
        &rt,
        b"define i32 @quot(i32 %x, i32 %y) {
entry:
  %cx = icmp ult i32 %x, 100
  %d = add i32 %y, -1
  %cy = icmp ult i32 %d, 49
  %both = and i1 %cx, %cy
  br i1 %both, label %go, label %no

go:
  %q = sdiv i32 %x, %y
  ret i32 %q

no:
  ret i32 0
}
",
        b"define i32 @quot(i32 %x, i32 %y) {
entry:
  %cx = icmp ult i32 %x, 100
  %d = add i32 %y, -1
  %cy = icmp ult i32 %d, 49
  %both = and i1 %cx, %cy
  br i1 %both, label %go, label %no

go:
  %0 = trunc i32 %x to i8
  %1 = trunc i32 %y to i8
  %2 = udiv i8 %0, %1
  %q = zext i8 %2 to i32
  ret i32 %q

no:
  ret i32 0
}
",
    )
}

#[test]
fn bits_that_nobody_asks_for(rt: HostRuntime) -> Result<(), Fail> {
    check_prints(
        &rt,
        b"define i8 @low(i32 %x, i32 %y) {
  %a = and i32 %x, 65535
  %s = add nsw i32 %a, %y
  %t = trunc i32 %s to i8
  ret i8 %t
}
",
        b"define i8 @low(i32 %x, i32 %y) {
  %s = add i32 %x, %y
  %t = trunc i32 %s to i8
  ret i8 %t
}
",
    )
}

#[test]
fn behind_an_assumption_that_fails(rt: HostRuntime) -> Result<(), Fail> {
    check_prints(
        &rt,
        b"define i8 @dead(i8 %x) {
entry:
  call void @llvm.assume(i1 false)
  br label %next

next:
  ret i8 %x
}
",
        b"define i8 @dead(i8 %x) {
entry:
  call void @llvm.assume(i1 false)
  unreachable
}
",
    )
}

#[test]
fn an_overflow_that_is_decided(rt: HostRuntime) -> Result<(), Fail> {
    check_prints(
        &rt,
        b"define i8 @ov(i8 %x) {
  %a = and i8 %x, 15
  %p = call { i8, i1 } @llvm.uadd.with.overflow.i8(i8 %a, i8 1)
  %o = extractvalue { i8, i1 } %p, 1
  %s = extractvalue { i8, i1 } %p, 0
  %r = select i1 %o, i8 0, i8 %s
  ret i8 %r
}
",
        b"define i8 @ov(i8 %x) {
  %a = and i8 %x, 15
  %s = add nuw nsw i8 %a, 1
  ret i8 %s
}
",
    )
}

// A division by what may be 0 stays, though nobody uses it.
#[test]
fn divisions_that_may_be_undefined(rt: HostRuntime) -> Result<(), Fail> {
    let unchanged = b"define i8 @keep(i8 %x, i8 noundef %y) {
  %q = udiv i8 1, %y
  ret i8 %x
}
";
    check_prints(&rt, unchanged, unchanged)?;
    check_prints(
        &rt,
        b"define i8 @keep(i8 %x, i8 noundef %y) {
  %q = udiv i8 %x, 3
  ret i8 %x
}
",
        b"define i8 @keep(i8 %x, i8 noundef %y) {
  ret i8 %x
}
",
    )
}

// Words that LLVM has had since its release 18.
#[test]
fn newer_words(rt: HostRuntime) -> Result<(), Fail> {
    check_prints(
        &rt,
        b"define i32 @low4(i32 %x, i8 noundef %y) {
  %a = and i32 %x, 240
  %b = or i32 %a, 3
  %t = trunc i32 %b to i8
  %n = and i8 %y, 15
  %z = zext i8 %n to i32
  %w = zext i8 %t to i32
  %s = xor i32 %z, %w
  ret i32 %s
}
",
        b"define i32 @low4(i32 %x, i8 noundef %y) {
  %a = and i32 %x, 240
  %b = or disjoint i32 %a, 3
  %t = trunc nuw i32 %b to i8
  %n = and i8 %y, 15
  %z = zext nneg i8 %n to i32
  %w = zext i8 %t to i32
  %s = xor i32 %z, %w
  ret i32 %s
}
",
    )
}

// A call stays, and is made with numbers where they are known.
#[test]
fn calls(rt: HostRuntime) -> Result<(), Fail> {
    check_prints(
        &rt,
        b"define i8 @h(i8 %x) {
  %a = and i8 %x, 15
  %b = and i8 %a, -16
  %r = call i8 @g(i8 %b)
  %z = call i8 @g(i8 %r)
  ret i8 %b
}
",
        b"define i8 @h(i8 %x) {
  %r = call i8 @g(i8 0)
  %z = call i8 @g(i8 %r)
  ret i8 0
}
",
    )?;
    let unchanged = b"define i8 @nu(i8 %x) {
  %r = call noundef i8 @g(i8 noundef %x)
  ret i8 %r
}
";
    check_prints(&rt, unchanged, unchanged)
}
