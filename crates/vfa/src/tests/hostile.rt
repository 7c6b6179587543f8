//! Streams that fail at a call, a long switch, numbers at the ends of their types, and text that nests deeply.
use super::checked::HALF;
use super::limits::{Size, large};
use super::*;

const HALF_NOTE: &[u8] = b"note: @half carried: Undefined %v at %r\n";

const MASK_REPORT: &[u8] = b"function @f
  param %x i8 ???????? full maybe-poison
  block %entry
    in %x i8 ???????? full maybe-poison
    def %a i8 0000???? [0,16) maybe-poison
    def %b i8 00000000 [0,1) maybe-poison
";

/// A function that prints as it stands, and one outside the profile.
const BOTH: &[u8] = b"define i8 @f(i8 %x) {
  ret i8 %x
}
define ptr @p(ptr %p) {
  ret ptr %p
}
";

const BOTH_NOTE: &[u8] = b"note: @p carried: Shape at line 4\n";

const BOTH_REPORT: &[u8] = b"function @f
  param %x i8 ???????? full maybe-poison
  block %0
    in %x i8 ???????? full maybe-poison
";

/// A module whose define has no end, and the message on it.
const OPEN: &[u8] = b"define i8 @f(i8 %x) {
  ret i8 %x
";

const OPEN_MESSAGE: &[u8] = b"refused: Unclosed at byte 0\n";

/// A run that ends so, and of which no stream got anything.
fn silent(status: Status) -> End<'static> {
    End {
        status,
        out: b"",
        err: b"",
    }
}

/// A run of which all is written.
fn done<'a>(out: &'a [u8], err: &'a [u8]) -> End<'a> {
    End {
        status: Status::Done,
        out,
        err,
    }
}

/// A run over a module whose define has no end.
fn refused() -> End<'static> {
    End {
        status: Status::Refused,
        out: b"",
        err: OPEN_MESSAGE,
    }
}

/// Each call of the source before this one fails in turn. They are all that are made, so this one fails nothing.
fn check_read_faults<R: AllocGlobal + Abort + Threads + Sync>(
    rt: &R,
    job: &str,
    input: &[u8],
    behind: u32,
    want: End,
) -> Result<(), Fail> {
    for call in 1..behind {
        let fault = End {
            status: Status::ReadFault,
            out: b"",
            err: b"fault: read\n",
        };
        check_run(rt, job, failing_source(rt, input, call)?, fault)?;
    }
    check_run(rt, job, failing_source(rt, input, behind)?, want)
}

// Pieces of 8 bytes, and a call that gives nothing. What the input says comes behind.
#[test]
fn a_read_fault_comes_before_all_that_the_input_says(rt: HostRuntime) -> Result<(), Fail> {
    check_read_faults(&rt, "opt", b"", 2, done(b"", b""))?;
    check_read_faults(&rt, "opt", OPEN, 7, refused())?;
    check_read_faults(&rt, "facts", BOTH, 12, done(BOTH_REPORT, BOTH_NOTE))
}

#[test]
fn words_that_are_no_command_read_nothing(rt: HostRuntime) -> Result<(), Fail> {
    let want = End {
        status: Status::Usage,
        out: b"",
        err: USAGE_LINE,
    };
    check_run(&rt, "", failing_source(&rt, MASK, 1)?, want)
}

/// A sink that fails at its first call.
fn failing_sink<R: AllocGlobal>(rt: &R) -> Result<MemSink, Fail> {
    Ok(MemSink::new(rt.alloc(), 4096, [1].to_vec(rt.alloc())?)?)
}

/// A source over the input, and an out that fails at its first call.
fn out_fails<R: AllocGlobal>(rt: &R, input: &[u8]) -> Result<Ends, Fail> {
    let mut ends = roomy(rt, input, 4096)?;
    ends.out = failing_sink(rt)?;
    Ok(ends)
}

/// A source over the input, and an err that fails at its first call.
fn err_fails<R: AllocGlobal>(rt: &R, input: &[u8]) -> Result<Ends, Fail> {
    let mut ends = roomy(rt, input, 4096)?;
    ends.err = failing_sink(rt)?;
    Ok(ends)
}

// No note is written then.
#[test]
fn where_out_fails_nothing_is_written(rt: HostRuntime) -> Result<(), Fail> {
    let want = silent(Status::WriteFault);
    check_run(&rt, "opt", out_fails(&rt, HALF)?, want)?;
    for job in ["opt", "facts"] {
        check_run(&rt, job, out_fails(&rt, MASK)?, want)?;
        check_run(&rt, job, out_fails(&rt, BOTH)?, want)?;
        check_run(&rt, job, out_fails(&rt, OPEN)?, refused())?;
    }
    Ok(())
}

// There is no report on a carried function.
#[test]
fn out_that_is_asked_nothing_fails_nothing(rt: HostRuntime) -> Result<(), Fail> {
    check_run(&rt, "opt", out_fails(&rt, b"")?, done(b"", b""))?;
    check_run(&rt, "facts", out_fails(&rt, HALF)?, done(b"", HALF_NOTE))
}

#[test]
fn where_a_note_fails_the_text_is_written(rt: HostRuntime) -> Result<(), Fail> {
    let cases: [(&str, &[u8], &[u8]); 4] = [
        ("opt", HALF, HALF),
        ("opt", BOTH, BOTH),
        ("facts", HALF, b""),
        ("facts", BOTH, BOTH_REPORT),
    ];
    for (job, input, out) in cases {
        let want = End {
            status: Status::WriteFault,
            out,
            err: b"",
        };
        check_run(&rt, job, err_fails(&rt, input)?, want)?;
    }
    Ok(())
}

#[test]
fn err_that_is_asked_nothing_fails_nothing(rt: HostRuntime) -> Result<(), Fail> {
    check_run(&rt, "opt", err_fails(&rt, MASK)?, done(MASKED, b""))?;
    check_run(&rt, "facts", err_fails(&rt, MASK)?, done(MASK_REPORT, b""))
}

#[test]
fn a_message_that_err_refuses_leaves_the_status(rt: HostRuntime) -> Result<(), Fail> {
    for job in ["opt", "facts"] {
        check_run(&rt, job, err_fails(&rt, OPEN)?, silent(Status::Refused))?;
        let mut ends = failing_source(&rt, MASK, 1)?;
        ends.err = failing_sink(&rt)?;
        check_run(&rt, job, ends, silent(Status::ReadFault))?;
    }
    check_run(&rt, "", err_fails(&rt, MASK)?, silent(Status::Usage))?;
    check_words(
        &rt,
        &["opt", "--strict"],
        err_fails(&rt, HALF)?,
        silent(Status::Refused),
    )
}

/// A function of one switch of so many cases.
fn switching<R: AllocGlobal>(rt: &R, cases: u32) -> Result<Vec<u8>, Fail> {
    let size = Size {
        results: 0,
        blocks: 2,
        cases,
    };
    large(rt, size)
}

#[test]
fn a_switch_has_at_most_1024_cases(rt: HostRuntime) -> Result<(), Fail> {
    let report = b"function @s
  param %x i32 ???????????????????????????????? full maybe-poison
  block %0
    in %x i32 ???????????????????????????????? full maybe-poison
  block %b1
";
    let input = switching(&rt, 1024)?;
    check_prints(&rt, &input, &input)?;
    check_run(&rt, "facts", roomy(&rt, &input, 4096)?, done(report, b""))?;
    let note = b"note: @s carried: TooMany cases\n";
    let longer = switching(&rt, 1025)?;
    check_run(&rt, "facts", roomy(&rt, &longer, 4096)?, done(b"", note))
}

/// A function that answers this number of the type.
fn answering<R: AllocGlobal>(rt: &R, int: &str, number: &str) -> Result<String, Fail> {
    Ok(format!(in rt.alloc(); "define {int} @f() {{\n  ret {int} {number}\n}}\n")?)
}

// A number from the least signed one to the greatest unsigned one is read, however it is written, and prints as signed.
#[test]
fn numbers_of_their_type_are_read(rt: HostRuntime) -> Result<(), Fail> {
    let cases: [(&str, &str, &str); 7] = [
        ("i1", "1", "true"),
        ("i8", "-128", "-128"),
        ("i8", "255", "-1"),
        ("i8", "-0", "0"),
        ("i8", "0000000000000000000000000000000000000000015", "15"),
        (
            "i128",
            "-170141183460469231731687303715884105728",
            "-170141183460469231731687303715884105728",
        ),
        ("i128", "340282366920938463463374607431768211455", "-1"),
    ];
    for (int, number, printed) in cases {
        let input = answering(&rt, int, number)?;
        let out = answering(&rt, int, printed)?;
        check_prints(&rt, input.as_bytes(), out.as_bytes())?;
    }
    Ok(())
}

#[test]
fn numbers_of_no_such_type_are_carried(rt: HostRuntime) -> Result<(), Fail> {
    let cases: [(&str, &str); 9] = [
        ("i1", "-2"),
        ("i8", "-129"),
        ("i8", "256"),
        ("i8", "1111111111111111111111111111111111111111"),
        ("i8", "--1"),
        ("i8", "0x10"),
        ("i128", "-170141183460469231731687303715884105729"),
        ("i128", "340282366920938463463374607431768211456"),
        ("i128", "1111111111111111111111111111111111111111"),
    ];
    for (int, number) in cases {
        let input = answering(&rt, int, number)?;
        check_carried(
            &rt,
            input.as_bytes(),
            b"note: @f carried: Shape at line 2\n",
        )?;
    }
    Ok(())
}

/// How often a mark stands in the texts below.
const MANY: usize = 100000;

/// The mark that often between two texts.
fn with_many<R: AllocGlobal>(
    rt: &R,
    before: &[u8],
    mark: u8,
    after: &[u8],
) -> Result<Vec<u8>, Fail> {
    let mut text = before.to_vec(rt.alloc())?;
    let marks = vec![in rt.alloc(); mark; MANY]?;
    text.extend_from_slice(&marks)?;
    text.extend_from_slice(after)?;
    Ok(text)
}

#[test]
fn numbers_of_many_digits_are_read(rt: HostRuntime) -> Result<(), Fail> {
    let zero = with_many(&rt, b"define i8 @f() {\n  ret i8 ", b'0', b"\n}\n")?;
    check_prints(&rt, &zero, b"define i8 @f() {\n  ret i8 0\n}\n")?;
    let ones = with_many(&rt, b"define i8 @f() {\n  ret i8 ", b'1', b"\n}\n")?;
    check_carried(&rt, &ones, b"note: @f carried: Shape at line 2\n")
}

/// A mark that opens, and the one that closes it.
#[derive(Clone, Copy)]
struct Pair {
    open: u8,
    close: u8,
}

const PARENTHESES: Pair = Pair {
    open: b'(',
    close: b')',
};

const BRACES: Pair = Pair {
    open: b'{',
    close: b'}',
};

/// Pairs within pairs between two texts.
fn nested<R: AllocGlobal>(
    rt: &R,
    before: &[u8],
    pair: Pair,
    after: &[u8],
) -> Result<Vec<u8>, Fail> {
    let opened = with_many(rt, before, pair.open, b"")?;
    with_many(rt, &opened, pair.close, after)
}

#[test]
fn nested_pairs_outside_of_defines_are_copied(rt: HostRuntime) -> Result<(), Fail> {
    for pair in [PARENTHESES, BRACES] {
        let alone = nested(&rt, b"", pair, b"")?;
        check_prints(&rt, &alone, &alone)?;
        let line = nested(&rt, b"@g = global ", pair, b"\n")?;
        check_prints(&rt, &line, &line)?;
    }
    Ok(())
}

#[test]
fn nested_parentheses_in_a_tail_are_kept(rt: HostRuntime) -> Result<(), Fail> {
    let input = nested(&rt, b"define i8 @f() ", PARENTHESES, b" {\n  ret i8 0\n}\n")?;
    check_prints(&rt, &input, &input)
}

// Braces before the name and braces in parentheses open no body.
#[test]
fn nested_pairs_elsewhere_in_a_define_are_carried(rt: HostRuntime) -> Result<(), Fail> {
    let cases: [(&[u8], &[u8]); 3] = [
        (b"define ", b" i8 @f() {\n  ret i8 0\n}\n"),
        (b"define i8 @f(", b") {\n  ret i8 0\n}\n"),
        (b"define i8 @f() {", b"}\n"),
    ];
    for (before, after) in cases {
        for pair in [PARENTHESES, BRACES] {
            let input = nested(&rt, before, pair, after)?;
            check_carried(&rt, &input, b"note: @f carried: Shape at line 1\n")?;
        }
    }
    Ok(())
}

// A parenthesis that is open before the name holds the body back, and a closing one that none opens counts for nothing.
#[test]
fn marks_without_their_other_half_open_and_close_nothing(rt: HostRuntime) -> Result<(), Fail> {
    let cases: [(&[u8], u8, &[u8], &[u8]); 3] = [
        (b"define ", b'(', b" i8 @f() {\n}\n", OPEN_MESSAGE),
        (b"define i8 @f() {", b'{', b"}\n", OPEN_MESSAGE),
        (
            b"define i8 @f() {",
            b'}',
            b"\n",
            b"refused: BadLine at line 1\n",
        ),
    ];
    for (before, mark, after, message) in cases {
        check_refused(&rt, &with_many(&rt, before, mark, after)?, message)?;
    }
    let input = with_many(&rt, b"define i8 @f", b')', b"() {\n  ret i8 0\n}\n")?;
    check_carried(&rt, &input, b"note: @f carried: Shape at line 1\n")
}
