//! Tests of whole modules, of their failures and of each prefix of a define.

use super::*;
use std::alloc::Global;

fn splits(alloc: Global, text: &[u8], want: &[Item]) -> bool {
    if text.len() > 1_000_000 {
        return false;
    }
    match split(alloc, text) {
        Ok(items) => items.as_slice() == want,
        Err(_) => false,
    }
}

fn fails(alloc: Global, text: &[u8], want: SplitFault) -> bool {
    if text.len() > 1_000_000 {
        return false;
    }
    match split(alloc, text) {
        Ok(_) => false,
        Err(fault) => fault == want,
    }
}

const MASKS: &[u8] = b"define i8 @f(i8 %x) {
entry:
  %a = and i8 %x, 15
  %b = and i8 %a, -16
  ret i8 %b
}
";

const MODULE: &[u8] = b"; ModuleID = 'a.c'
source_filename = \"a.c\"
target datalayout = \"e-m:e-i64:64\"
target triple = \"x86_64-unknown-linux-gnu\"

; Function Attrs: nounwind
define dso_local noundef i32 @f(i32 noundef %0) local_unnamed_addr #0 {
  %2 = and i32 %0, 255
  %3 = icmp ult i32 %2, 256
  br i1 %3, label %4, label %6

4:                                                ; preds = %1
  %5 = add nsw i32 %2, 1
  br label %8

6:                                                ; preds = %1
  %7 = sub i32 0, %0
  br label %8

8:                                                ; preds = %6, %4
  %9 = phi i32 [ %5, %4 ], [ %7, %6 ]
  ret i32 %9
}

define dso_local i32 @g(ptr noundef %0) #0 {
  %2 = load i32, ptr %0, align 4
  ret i32 %2
}

attributes #0 = { nounwind }
!llvm.ident = !{!0}
!0 = !{!\"clang\"}
";

#[test]
fn texts_without_a_define(rt: HostRuntime) {
    assert!(rt; splits(rt.alloc(), b"", &[]));
    assert!(rt; splits(rt.alloc(), b"define", &[Item::Lines { start: 0, end: 6 }]));
    assert!(rt;
        splits(
            rt.alloc(),
            b"x define \n",
            &[Item::Lines { start: 0, end: 10 }]
        )
    );
}

#[test]
fn a_define_and_its_lines(rt: HostRuntime) {
    let whole = [
        Item::Define {
            start: 0,
            end: 85,
            line: 1,
        },
        Item::Lines { start: 85, end: 86 },
    ];
    assert!(rt; splits(rt.alloc(), MASKS, &whole));
    assert!(rt;
        splits(
            rt.alloc(),
            &MASKS[..85],
            &[Item::Define {
                start: 0,
                end: 85,
                line: 1
            }]
        )
    );
    let braces = b"\n \tdefine { i8, i1 } @\"}{\"({ i8 } %p) ) \"{\" { ; }\n{ } } ; c\n";
    let parts = [
        Item::Lines { start: 0, end: 3 },
        Item::Define {
            start: 3,
            end: 55,
            line: 2,
        },
        Item::Lines { start: 55, end: 60 },
    ];
    assert!(rt; splits(rt.alloc(), braces, &parts));
}

#[test]
fn brackets_in_strings_and_comments_are_none(rt: HostRuntime) {
    let text = b"define i8 @ { } ; @g {
@\"f}\" ; {
(\"{\" %\"}\") { c\"}\" ; }
\"}\":
} ; c
";
    let parts = [
        Item::Define {
            start: 0,
            end: 61,
            line: 1,
        },
        Item::Lines { start: 61, end: 66 },
    ];
    assert!(rt; splits(rt.alloc(), text, &parts));
    assert!(rt; fails(rt.alloc(), b"define i8 @ { }\n", SplitFault::Unclosed(0)));
    assert!(rt;
        fails(
            rt.alloc(),
            b"define @f() { %\" }\n",
            SplitFault::Unclosed(0)
        )
    );
    assert!(rt;
        fails(
            rt.alloc(),
            b"define @f() { \"\n\n\" } x\n",
            SplitFault::BadLine(3)
        )
    );
}

#[test]
fn the_first_failure(rt: HostRuntime) {
    assert!(rt; fails(rt.alloc(), &MASKS[..7], SplitFault::Unclosed(0)));
    assert!(rt; fails(rt.alloc(), &MASKS[..84], SplitFault::Unclosed(0)));
    assert!(rt; fails(rt.alloc(), b"define i8 @\"f", SplitFault::Unclosed(0)));
    assert!(rt; fails(rt.alloc(), b"\n  define i8 @f((((", SplitFault::Unclosed(3)));
    assert!(rt;
        fails(
            rt.alloc(),
            b"define i8 @f(i8 %x) {\n  ret i8 %x\n",
            SplitFault::Unclosed(0)
        )
    );
    assert!(rt;
        fails(
            rt.alloc(),
            b"define i8 @f(i8 %x) {\n  ret i8 %x\n} x\n",
            SplitFault::BadLine(3)
        )
    );
    assert!(rt;
        fails(
            rt.alloc(),
            b"define i8 @f() { } x\ndefine ",
            SplitFault::BadLine(1)
        )
    );
}

#[test]
fn each_prefix_of_a_text(rt: HostRuntime) {
    for k in 1..7 {
        assert!(rt; splits(rt.alloc(), &MASKS[..k], &[Item::Lines { start: 0, end: k }]));
    }
    for k in 7..85 {
        assert!(rt; fails(rt.alloc(), &MASKS[..k], SplitFault::Unclosed(0)));
    }
    assert!(rt;
        splits(
            rt.alloc(),
            &MASKS[..85],
            &[Item::Define {
                start: 0,
                end: 85,
                line: 1
            }]
        )
    );
}

#[test]
fn a_module_of_two_functions(rt: HostRuntime) {
    let parts = [
        Item::Lines { start: 0, end: 149 },
        Item::Define {
            start: 149,
            end: 625,
            line: 7,
        },
        Item::Lines {
            start: 625,
            end: 627,
        },
        Item::Define {
            start: 627,
            end: 719,
            line: 25,
        },
        Item::Lines {
            start: 719,
            end: 787,
        },
    ];
    assert!(rt; splits(rt.alloc(), MODULE, &parts));
}

#[test]
fn open_parentheses_by_the_hundred_thousand(rt: HostRuntime) {
    let mut text = Vec::from_slice(rt.alloc(), b"define i8 @f").expect(&rt, "memory");
    for _ in 0..100_000 {
        text.push(b'(').expect(&rt, "memory");
    }
    assert!(rt; fails(rt.alloc(), text.as_slice(), SplitFault::Unclosed(0)));
}

const HALF: &[u8] = b"define i8 @half(i1 %c, i8 %x) {
entry:
  br i1 %c, label %l, label %r
l:
  %v = add i8 %x, 1
  br label %r
r:
  ret i8 %v
}
";

#[test]
fn a_define_of_three_blocks(rt: HostRuntime) {
    let whole = [
        Item::Define {
            start: 0,
            end: 123,
            line: 1,
        },
        Item::Lines {
            start: 123,
            end: 124,
        },
    ];
    assert!(rt; splits(rt.alloc(), HALF, &whole));
}
