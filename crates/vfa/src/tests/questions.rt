//! Questions about one value at one place: the answers of `ask`, and why there is none.
use super::*;

/// A function, and others that stay as they are. The first block of `@half` has no name, and no walk reaches its last two.
const HALF: &[u8] = b"define ptr @p(ptr %p) {
  ret ptr %p
}

define i8 @half(i8 %0, i1 %c) {
  %2 = and i8 %0, 7
  br i1 %c, label %a, label %b

a:
  %y = add i8 %2, 1
  br label %b

b:
  %3 = phi i8 [ 9, %1 ], [ %y, %a ]
  ret i8 %3

lost:
  br label %b2

b2:
  ret i8 %2
}

define { i8, i1 } @q(i8 %x) {
  ret { i8, i1 } undef
}

define i8 @pair(i8 %x) {
entry:
  %p = call { i8, i1 } @llvm.uadd.with.overflow.i8(i8 %x, i8 1)
  br label %next

next:
  %s = extractvalue { i8, i1 } %p, 0
  ret i8 %s
}
";

const HALF_NOTES: &[u8] =
    b"note: @p carried: Shape at line 1\nnote: @q carried: Shape at line 24\n";

const SUM: &[u8] = b"define i8 @w(i8 %x) {
entry:
  %y = add i8 %x, -10
  %c = icmp ult i8 %y, 5
  br i1 %c, label %in, label %out

in:
  ret i8 %x

out:
  ret i8 %x
}
";

const STALE: &[u8] = b"define i8 @stale(i8 %k) {
entry:
  br label %head

head:
  %a = phi i8 [ 0, %entry ], [ %b, %head ]
  %c = phi i1 [ true, %entry ], [ %d, %head ]
  %b = add i8 %a, %k
  %d = icmp ult i8 %a, 5
  br i1 %c, label %head, label %exit

exit:
  ret i8 %a
}
";

const SWITCH: &[u8] = b"define i8 @sw(i8 %x) {
p:
  switch i8 %x, label %other [
    i8 1, label %join
    i8 2, label %join
  ]

join:
  %r = phi i8 [ %x, %p ], [ %x, %p ]
  ret i8 %r

other:
  ret i8 0
}
";

const COUNT: &[u8] = b"define i32 @count() {
entry:
  br label %head

head:
  %i = phi i32 [ 0, %entry ], [ %n, %body ]
  %c = icmp ult i32 %i, 10
  br i1 %c, label %body, label %exit

body:
  %n = add i32 %i, 1
  br label %head

exit:
  ret i32 %i
}
";

const DEAD: &[u8] = b"define i8 @dead(i8 %x) {
entry:
  call void @llvm.assume(i1 false)
  br label %next

next:
  ret i8 %x
}
";

/// A question; without a block that is come from, that name is empty.
#[derive(Clone, Copy)]
struct Asked<'a> {
    function: &'a str,
    value: &'a str,
    block: &'a str,
    from: &'a str,
}

fn at<'a>(function: &'a str, value: &'a str, block: &'a str) -> Asked<'a> {
    Asked {
        function,
        value,
        block,
        from: "",
    }
}

fn between<'a>(function: &'a str, value: &'a str, from: &'a str, block: &'a str) -> Asked<'a> {
    Asked {
        function,
        value,
        block,
        from,
    }
}

/// Asks the question over the input.
fn check_ask<R: AllocGlobal + Abort + Threads + Sync>(
    rt: &R,
    input: &[u8],
    asked: Asked,
    want: End,
) -> Result<(), Fail> {
    let words = [
        "ask",
        "--function",
        asked.function,
        "--value",
        asked.value,
        "--block",
        asked.block,
        "--from",
        asked.from,
    ];
    let ends = roomy(rt, input, 4096)?;
    if asked.from.is_empty() {
        return check_words(rt, &words[..7], ends, want);
    }
    check_words(rt, &words, ends, want)
}

/// The question over an input of one function has this answer.
fn check_answer<R: AllocGlobal + Abort + Threads + Sync>(
    rt: &R,
    input: &[u8],
    asked: Asked,
    out: &[u8],
) -> Result<(), Fail> {
    let status = Status::Done;
    check_ask(
        rt,
        input,
        asked,
        End {
            status,
            out,
            err: b"",
        },
    )
}

/// The question over the input is refused with this message.
fn check_no_answer<R: AllocGlobal + Abort + Threads + Sync>(
    rt: &R,
    input: &[u8],
    asked: Asked,
    err: &[u8],
) -> Result<(), Fail> {
    let status = Status::Refused;
    check_ask(
        rt,
        input,
        asked,
        End {
            status,
            out: b"",
            err,
        },
    )
}

/// The question over the function with carried ones beside it has this answer, and the notes on these.
fn check_half<R: AllocGlobal + Abort + Threads + Sync>(
    rt: &R,
    asked: Asked,
    out: &[u8],
) -> Result<(), Fail> {
    let status = Status::Done;
    check_ask(
        rt,
        HALF,
        asked,
        End {
            status,
            out,
            err: HALF_NOTES,
        },
    )
}

#[test]
fn a_condition_on_a_sum(rt: HostRuntime) -> Result<(), Fail> {
    check_answer(
        &rt,
        SUM,
        at("w", "x", "in"),
        b"%x i8 00001??? [10,15) never-poison\n",
    )?;
    check_answer(
        &rt,
        SUM,
        at("w", "x", "out"),
        b"%x i8 ???????? full never-poison\n",
    )
}

#[test]
fn a_comparison_of_the_turn_before(rt: HostRuntime) -> Result<(), Fail> {
    check_answer(
        &rt,
        STALE,
        at("stale", "a", "exit"),
        b"%a i8 ???????? full maybe-poison\n",
    )
}

#[test]
fn all_edges_between_two_blocks(rt: HostRuntime) -> Result<(), Fail> {
    check_answer(
        &rt,
        SWITCH,
        between("sw", "x", "p", "join"),
        b"%x i8 000000?? [1,3) never-poison\n",
    )
}

#[test]
fn a_counter(rt: HostRuntime) -> Result<(), Fail> {
    check_answer(
        &rt,
        COUNT,
        at("count", "i", "exit"),
        b"%i i32 00000000000000000000000000001010 [10,11) never-poison\n",
    )?;
    check_answer(
        &rt,
        COUNT,
        at("count", "i", "body"),
        b"%i i32 0000000000000000000000000000???? [0,10) never-poison\n",
    )?;
    check_answer(
        &rt,
        COUNT,
        between("count", "n", "body", "head"),
        b"%n i32 0000000000000000000000000000???? [1,11) never-poison\n",
    )
}

#[test]
fn no_answer_about_a_counter(rt: HostRuntime) -> Result<(), Fail> {
    check_no_answer(
        &rt,
        COUNT,
        at("count", "n", "exit"),
        b"refused: NotDefined %n at %exit\n",
    )?;
    check_no_answer(
        &rt,
        COUNT,
        at("count", "zz", "exit"),
        b"refused: NoValue %zz\n",
    )?;
    check_no_answer(
        &rt,
        COUNT,
        at("count", "i", "zz"),
        b"refused: NoBlock %zz\n",
    )?;
    check_no_answer(
        &rt,
        COUNT,
        at("zz", "i", "exit"),
        b"refused: NoFunction @zz\n",
    )
}

#[test]
fn a_place_that_no_run_comes_to(rt: HostRuntime) -> Result<(), Fail> {
    check_answer(&rt, DEAD, at("dead", "x", "next"), b"never-reached\n")?;
    check_half(&rt, at("half", "y", "lost"), b"never-reached\n")?;
    check_half(&rt, between("half", "y", "lost", "b2"), b"never-reached\n")
}

// Values and blocks without a name are shown by their numbers, and both parts of a pair are told.
#[test]
fn what_is_shown_by_a_number_and_a_pair(rt: HostRuntime) -> Result<(), Fail> {
    check_half(
        &rt,
        at("half", "2", "b"),
        b"%2 i8 00000??? [0,8) maybe-poison\n",
    )?;
    check_half(
        &rt,
        at("half", "0", "1"),
        b"%0 i8 ???????? full maybe-poison\n",
    )?;
    check_half(
        &rt,
        at("pair", "p", "next"),
        b"%p[0] i8 ???????? full maybe-poison\n%p[1] i1 ? full maybe-poison\n",
    )
}

#[test]
fn a_value_is_defined_on_every_walk_to_its_place(rt: HostRuntime) -> Result<(), Fail> {
    check_half(
        &rt,
        between("half", "y", "a", "b"),
        b"%y i8 0000???? [1,9) maybe-poison\n",
    )?;
    let missed = b"refused: NotDefined %y at %b\n";
    check_no_answer(&rt, HALF, at("half", "y", "b"), missed)?;
    check_no_answer(&rt, HALF, between("half", "y", "1", "b"), missed)
}

#[test]
fn a_carried_function_is_none_to_ask_about(rt: HostRuntime) -> Result<(), Fail> {
    check_no_answer(&rt, HALF, at("p", "p", "0"), b"refused: NoFunction @p\n")?;
    check_no_answer(&rt, HALF, at("q", "x", "0"), b"refused: NoFunction @q\n")
}

// A block is no value, a value no block, and a number that a block has is no value's.
#[test]
fn names_of_another_kind(rt: HostRuntime) -> Result<(), Fail> {
    check_no_answer(&rt, HALF, at("half", "a", "b"), b"refused: NoValue %a\n")?;
    check_no_answer(&rt, HALF, at("half", "1", "b"), b"refused: NoValue %1\n")?;
    check_no_answer(&rt, HALF, at("half", "4", "b"), b"refused: NoValue %4\n")?;
    check_no_answer(&rt, HALF, at("half", "y", "y"), b"refused: NoBlock %y\n")
}

// Names are given without sigil and quotes; a message shows them as they are printed.
#[test]
fn a_name_is_its_bytes(rt: HostRuntime) -> Result<(), Fail> {
    check_no_answer(
        &rt,
        HALF,
        at("\"half\"", "2", "b"),
        b"refused: NoFunction @\"\\22half\\22\"\n",
    )?;
    check_no_answer(
        &rt,
        HALF,
        at("half", "\"2\"", "b"),
        b"refused: NoValue %\"\\222\\22\"\n",
    )?;
    check_no_answer(
        &rt,
        HALF,
        at("half", "%2", "b"),
        b"refused: NoValue %\"%2\"\n",
    )
}

// An edge leads from the one block to the other.
#[test]
fn a_block_that_is_no_predecessor(rt: HostRuntime) -> Result<(), Fail> {
    check_no_answer(
        &rt,
        HALF,
        between("half", "y", "b", "a"),
        b"refused: NoBlock %b\n",
    )?;
    check_no_answer(
        &rt,
        HALF,
        between("half", "y", "zz", "a"),
        b"refused: NoBlock %zz\n",
    )
}

// Of several reasons the first is given: the function, the value, the block, and then the one that is come from.
#[test]
fn the_first_reason_is_given(rt: HostRuntime) -> Result<(), Fail> {
    check_no_answer(
        &rt,
        HALF,
        between("half", "y", "yy", "zz"),
        b"refused: NoBlock %zz\n",
    )?;
    check_no_answer(
        &rt,
        HALF,
        between("half", "zz", "yy", "zz"),
        b"refused: NoValue %zz\n",
    )?;
    check_no_answer(
        &rt,
        HALF,
        between("zz", "zz", "yy", "zz"),
        b"refused: NoFunction @zz\n",
    )
}

// That a function stays as it is, is a reason before all about the question.
#[test]
fn strict_goes_before_the_question(rt: HostRuntime) -> Result<(), Fail> {
    let words = [
        "--strict",
        "ask",
        "--function=zz",
        "--block=zz",
        "--value",
        "zz",
    ];
    let want = End {
        status: Status::Refused,
        out: b"",
        err: b"refused: Strict @p: Shape at line 1\n",
    };
    check_words(&rt, &words, roomy(&rt, HALF, 4096)?, want)
}

#[test]
fn a_repeated_name_goes_before_the_question(rt: HostRuntime) -> Result<(), Fail> {
    let mut twice = MASK.to_vec(rt.alloc())?;
    twice.extend_from_slice(MASK)?;
    check_no_answer(
        &rt,
        &twice,
        at("zz", "x", "entry"),
        b"refused: DuplicateFunction @f\n",
    )?;
    check_no_answer(
        &rt,
        b"define i8 @f",
        at("zz", "x", "entry"),
        b"refused: Unclosed at byte 0\n",
    )
}

#[test]
fn a_question_about_no_bytes(rt: HostRuntime) -> Result<(), Fail> {
    check_no_answer(&rt, b"", at("f", "x", "0"), b"refused: NoFunction @f\n")
}
