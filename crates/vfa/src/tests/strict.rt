//! Commands that refuse a module with a function that stays as it is.
use super::printed::CLANG;
use super::*;

/// Runs the words over the input, which is refused with this message.
fn check_strict<R: AllocGlobal + Abort + Threads + Sync>(
    rt: &R,
    words: &[&str],
    input: &[u8],
    message: &[u8],
) -> Result<(), Fail> {
    let want = End {
        status: Status::Refused,
        out: b"",
        err: message,
    };
    check_words(rt, words, roomy(rt, input, 4096)?, want)
}

// The option stands before the job or behind it, and behind `--` no word is an option.
#[test]
fn refuses_a_carried_function(rt: HostRuntime) -> Result<(), Fail> {
    let message = b"refused: Strict @g: Shape at line 25\n";
    check_strict(&rt, &["opt", "--strict"], CLANG, message)?;
    check_strict(&rt, &["--strict", "opt"], CLANG, message)?;
    check_strict(&rt, &["--strict", "--", "opt"], CLANG, message)
}

#[test]
fn names_the_first_carried_function(rt: HostRuntime) -> Result<(), Fail> {
    let input = b"define i8 @f(i8 %x) {
  ret i8 %x
}

define i8 @\"g h\"(i8 %x) {
  ret i8 %y
}

define ptr @p(ptr %p) {
  ret ptr %p
}
";
    check_strict(
        &rt,
        &["opt", "--strict"],
        input,
        b"refused: Strict @\"g h\": Unknown %y\n",
    )
}

// A module that does not split, or that has a function twice, is refused for that.
#[test]
fn refuses_for_other_reasons_first(rt: HostRuntime) -> Result<(), Fail> {
    let mut twice = POINTER.to_vec(rt.alloc())?;
    twice.extend_from_slice(MASK)?;
    twice.extend_from_slice(MASK)?;
    check_strict(
        &rt,
        &["opt", "--strict"],
        &twice,
        b"refused: DuplicateFunction @f\n",
    )?;
    let mut open = POINTER.to_vec(rt.alloc())?;
    open.extend_from_slice(b"define i8 @g() {\n")?;
    check_strict(
        &rt,
        &["opt", "--strict"],
        &open,
        b"refused: Unclosed at byte 39\n",
    )?;
    let mut followed = POINTER.to_vec(rt.alloc())?;
    followed.extend_from_slice(b"define i8 @g() { ret i8 0 } x\n")?;
    check_strict(
        &rt,
        &["opt", "--strict"],
        &followed,
        b"refused: BadLine at line 4\n",
    )
}

#[test]
fn prints_what_has_no_carried_function(rt: HostRuntime) -> Result<(), Fail> {
    let want = End {
        status: Status::Done,
        out: MASKED,
        err: b"",
    };
    check_words(&rt, &["opt", "--strict"], roomy(&rt, MASK, 4096)?, want)
}

#[test]
fn shows_the_usage_for_other_words(rt: HostRuntime) -> Result<(), Fail> {
    let want = End {
        status: Status::Usage,
        out: b"",
        err: USAGE_LINE,
    };
    let cases: [&[&str]; 9] = [
        &[],
        &["--strict"],
        &["opt", "opt"],
        &["opt", "--strict", "--strict"],
        &["opt", "--strict=x"],
        &["opt", "--", "--strict"],
        &["opt", "--", "--"],
        &["opt", "-"],
        &["--", "--"],
    ];
    for words in cases {
        check_words(&rt, words, roomy(&rt, MASK, 4096)?, want)?;
    }
    Ok(())
}
