//! What is printed in place of functions.
use super::*;

const LINES: &[u8] = b"source_filename = \"a.c\"

; no function
";

// What clang writes, shortened.
pub const CLANG: &[u8] = b"; ModuleID = 'a.c'
source_filename = \"a.c\"
target datalayout = \"e-m:e-i64:64\"
target triple = \"x86_64-unknown-linux-gnu\"

; Function Attrs: nounwind
define dso_local noundef i32 @f(i32 noundef %0) local_unnamed_addr #0 {
  %2 = and i32 %0, 255
  %3 = icmp ult i32 %2, 256
  br i1 %3, label %4, label %6

4:                                                ; preds = %1
  %5 = add nsw i32 %2, 1
  br label %8

6:                                                ; preds = %1
  %7 = sub i32 0, %0
  br label %8

8:                                                ; preds = %6, %4
  %9 = phi i32 [ %5, %4 ], [ %7, %6 ]
  ret i32 %9
}

define dso_local i32 @g(ptr noundef %0) #0 {
  %2 = load i32, ptr %0, align 4
  ret i32 %2
}

attributes #0 = { nounwind }
!llvm.ident = !{!0}
!0 = !{!\"clang\"}
";

const CLANG_PRINTED: &[u8] = b"; ModuleID = 'a.c'
source_filename = \"a.c\"
target datalayout = \"e-m:e-i64:64\"
target triple = \"x86_64-unknown-linux-gnu\"

; Function Attrs: nounwind
define dso_local noundef i32 @f(i32 noundef %0) local_unnamed_addr #0 {
  %2 = and i32 %0, 255
  br label %3

3:
  %4 = add nuw nsw i32 %2, 1
  br label %5

5:
  %6 = phi i32 [ %4, %3 ]
  ret i32 %6
}

define dso_local i32 @g(ptr noundef %0) #0 {
  %2 = load i32, ptr %0, align 4
  ret i32 %2
}

attributes #0 = { nounwind }
!llvm.ident = !{!0}
!0 = !{!\"clang\"}
";

#[test]
fn copies_lines(rt: HostRuntime) -> Result<(), Fail> {
    check_prints(&rt, b"", b"")?;
    check_prints(&rt, LINES, LINES)
}

#[test]
fn simplifies(rt: HostRuntime) -> Result<(), Fail> {
    let cases: [(&[u8], &[u8]); 5] = [
        (MASK, MASKED),
        (
            b"define i8 @f(i8 %x) {
entry:
  %a = and i8 %x, 255
  %b = and i8 %a, -16
  ret i8 %b
}
",
            b"define i8 @f(i8 %x) {
entry:
  %b = and i8 %x, -16
  ret i8 %b
}
",
        ),
        (
            b"define i8 @f(i8 %x) {
  %a = or i8 %x, -1
  ret i8 %a
}
",
            b"define i8 @f(i8 %x) {
  ret i8 -1
}
",
        ),
        (
            b"define i8 @f(i8 %x) {
  %a = xor i8 %x, %x
  ret i8 %a
}
",
            b"define i8 @f(i8 %x) {
  %a = xor i8 %x, %x
  ret i8 %a
}
",
        ),
        (
            b"; one
define i8 @f(i8 %x) { ret i8 %x } ; two
",
            b"; one
define i8 @f(i8 %x) {
  ret i8 %x
} ; two
",
        ),
    ];
    for (input, out) in cases {
        check_prints(&rt, input, out)?;
    }
    Ok(())
}

#[test]
fn prints_other_functions(rt: HostRuntime) -> Result<(), Fail> {
    let cases: [(&[u8], &[u8]); 4] = [
        (
            b"define i8 @f(i8 %x) {
  %a = add i8 %x, 15
  %b = and i8 %a, -16
  ret i8 %b
}
",
            b"define i8 @f(i8 %x) {
  %a = add i8 %x, 15
  %b = and i8 %a, -16
  ret i8 %b
}
",
        ),
        // An intrinsic is known by its bytes, quoted or not, and `tail` is dropped.
        (
            b"define i8 @f(i8 %x, i8 %y) {
  %a = tail call i8 @\"llvm.umin.i8\"(i8 %x, i8 %y)
  ret i8 %a, !dbg !5
}
",
            b"define i8 @f(i8 %x, i8 %y) {
  %a = call i8 @llvm.umin.i8(i8 %x, i8 %y)
  ret i8 %a
}
",
        ),
        (
            b"define i1 @f(i1 %x) {
  %a = xor i1 %x, -1
  ret i1 %a
}
",
            b"define i1 @f(i1 %x) {
  %a = xor i1 %x, true
  ret i1 %a
}
",
        ),
        // The bytes of a tail are kept, comments among them.
        (
            b"define i1 @f(i1 %x)   nounwind ; a comment
  #0 {
  ret i1 %x
}
",
            b"define i1 @f(i1 %x) nounwind ; a comment
  #0 {
  ret i1 %x
}
",
        ),
    ];
    for (input, out) in cases {
        check_prints(&rt, input, out)?;
    }
    Ok(())
}

// Words and calls that LLVM has had since its release 20.
#[test]
fn prints_newer_words_and_calls(rt: HostRuntime) -> Result<(), Fail> {
    let unchanged = b"define i8 @w(i16 noundef %x) {
  %a = zext nneg i16 %x to i32
  %c = icmp samesign ult i32 %a, 7
  %t = trunc nuw nsw i16 %x to i8
  call void @tell(i1 %c)
  %r = call noundef i8 @g(i8 noundef %t, i16 %x)
  ret i8 %r
}
";
    check_prints(&rt, unchanged, unchanged)?;
    check_prints(
        &rt,
        b"define i8 @f(i8 %x) {
  %a = or disjoint i8 %x, -1
  ret i8 %a
}
",
        b"define i8 @f(i8 %x) {
  ret i8 -1
}
",
    )
}

#[test]
fn prints_what_clang_writes(rt: HostRuntime) -> Result<(), Fail> {
    let want = End {
        status: Status::Done,
        out: CLANG_PRINTED,
        err: b"note: @g carried: Shape at line 25\n",
    };
    check_opt(&rt, CLANG, want)
}
