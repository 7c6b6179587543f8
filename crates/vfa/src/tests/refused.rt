//! Inputs and words that are refused.
use super::*;

#[test]
fn refuses_what_is_no_module(rt: HostRuntime) -> Result<(), Fail> {
    let cases: [(&[u8], &[u8]); 5] = [
        (
            b"define i8 @f(i8 %x) {
  ret i8 %x
",
            b"refused: Unclosed at byte 0\n",
        ),
        (
            b"define i8 @f(i8 %x) {
  ret i8 %x
} x
",
            b"refused: BadLine at line 3\n",
        ),
        (
            b"\ndefine i8 @f(i8 %x) {\n",
            b"refused: Unclosed at byte 1\n",
        ),
        (
            b"\ndefine i8 @f() { ret i8 0 } x\n",
            b"refused: BadLine at line 2\n",
        ),
        (b"define i8 @\"f", b"refused: Unclosed at byte 0\n"),
    ];
    for (input, message) in cases {
        check_refused(&rt, input, message)?;
    }
    Ok(())
}

#[test]
fn refuses_open_parentheses(rt: HostRuntime) -> Result<(), Fail> {
    let mut input = b"define i8 @f".to_vec(rt.alloc())?;
    for _ in 0..100000 {
        input.push(b'(')?;
    }
    check_refused(&rt, &input, b"refused: Unclosed at byte 0\n")
}

// A name is its bytes, quoted or not.
#[test]
fn refuses_a_repeated_name(rt: HostRuntime) -> Result<(), Fail> {
    let mut twice = MASK.to_vec(rt.alloc())?;
    twice.extend_from_slice(MASK)?;
    check_refused(&rt, &twice, b"refused: DuplicateFunction @f\n")?;
    let quoted = b"define i8 @f(i8 %x) {
  ret i8 %x
}
define i8 @\"f\"(i8 %y) {
  ret i8 %y
}
";
    check_refused(&rt, quoted, b"refused: DuplicateFunction @f\n")
}

// The module of one function, cut after each of its bytes: before the word `define` ends there is no define, from
// there on it has no end, and at last only the line feed is missing.
#[test]
fn reads_prefixes_of_a_module(rt: HostRuntime) -> Result<(), Fail> {
    for cut in 0..MASK.len() {
        let input = &MASK[..cut];
        if cut < 7 {
            check_prints(&rt, input, input)?;
        } else if cut < 85 {
            check_refused(&rt, input, b"refused: Unclosed at byte 0\n")?;
        } else {
            check_prints(&rt, input, &MASKED[..MASKED.len() - 1])?;
        }
    }
    Ok(())
}

#[test]
fn shows_the_usage(rt: HostRuntime) -> Result<(), Fail> {
    let usage = USAGE_LINE;
    let want = End {
        status: Status::Usage,
        out: b"",
        err: usage,
    };
    check_run(&rt, "ask", roomy(&rt, MASK, 4096)?, want)?;
    check_run(&rt, "", roomy(&rt, MASK, 4096)?, want)
}
