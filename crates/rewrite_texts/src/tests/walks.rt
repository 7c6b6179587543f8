//! What rewriting makes of edges, loops and blocks.

use super::*;

#[test]
fn the_end_of_a_counter_is_known_behind_its_loop(rt: HostRuntime) -> Result<(), Fail> {
    let alloc = rt.alloc();
    check_rewritten(
        &rt,
        alloc,
        b"define i32 @count() {
entry:
  br label %head

head:
  %i = phi i32 [ 0, %entry ], [ %n, %body ]
  %c = icmp ult i32 %i, 10
  br i1 %c, label %body, label %exit

body:
  %n = add i32 %i, 1
  br label %head

exit:
  ret i32 %i
}",
        b"define i32 @count() {
entry:
  br label %head

head:
  %i = phi i32 [ 0, %entry ], [ %n, %body ]
  %c = icmp samesign ult i32 %i, 10
  br i1 %c, label %body, label %exit

body:
  %n = add nuw nsw i32 %i, 1
  br label %head

exit:
  ret i32 10
}",
    )
}

#[test]
fn a_comparison_of_the_turn_before_decides_nothing(rt: HostRuntime) -> Result<(), Fail> {
    let alloc = rt.alloc();
    let unchanged = b"define i8 @stale(i8 %k) {
entry:
  br label %head

head:
  %a = phi i8 [ 0, %entry ], [ %b, %head ]
  %c = phi i1 [ true, %entry ], [ %d, %head ]
  %b = add i8 %a, %k
  %d = icmp ult i8 %a, 5
  br i1 %c, label %head, label %exit

exit:
  ret i8 %a
}";
    check_rewritten(&rt, alloc, unchanged, unchanged)
}

#[test]
fn two_edges_from_one_block_keep_two_entries(rt: HostRuntime) -> Result<(), Fail> {
    let alloc = rt.alloc();
    let unchanged = b"define i8 @sw(i8 %x) {
p:
  switch i8 %x, label %other [
    i8 1, label %join
    i8 2, label %join
  ]

join:
  %r = phi i8 [ %x, %p ], [ %x, %p ]
  ret i8 %r

other:
  ret i8 0
}";
    check_rewritten(&rt, alloc, unchanged, unchanged)
}

#[test]
fn a_branch_that_is_decided_goes_and_numbered_names_count_anew(
    rt: HostRuntime,
) -> Result<(), Fail> {
    let alloc = rt.alloc();
    check_rewritten(
        &rt,
        alloc,
        b"define dso_local noundef i32 @f(i32 noundef %0) local_unnamed_addr #0 {
  %2 = and i32 %0, 255
  %3 = icmp ult i32 %2, 256
  br i1 %3, label %4, label %6

4:                                                ; preds = %1
  %5 = add nsw i32 %2, 1
  br label %8

6:                                                ; preds = %1
  %7 = sub i32 0, %0
  br label %8

8:                                                ; preds = %6, %4
  %9 = phi i32 [ %5, %4 ], [ %7, %6 ]
  ret i32 %9
}",
        b"define dso_local noundef i32 @f(i32 noundef %0) local_unnamed_addr #0 {
  %2 = and i32 %0, 255
  br label %3

3:
  %4 = add nuw nsw i32 %2, 1
  br label %5

5:
  %6 = phi i32 [ %4, %3 ]
  ret i32 %6
}",
    )
}

#[test]
fn nothing_is_left_behind_an_assumption_that_fails(rt: HostRuntime) -> Result<(), Fail> {
    let alloc = rt.alloc();
    check_rewritten(
        &rt,
        alloc,
        b"define i8 @dead(i8 %x) {
entry:
  call void @llvm.assume(i1 false)
  br label %next

next:
  ret i8 %x
}",
        b"define i8 @dead(i8 %x) {
entry:
  call void @llvm.assume(i1 false)
  unreachable
}",
    )
}
