//! Words outside the form.
use super::*;

/// Runs the words, which are no command.
fn check_usage<R: AllocGlobal + Abort + Threads + Sync>(
    rt: &R,
    words: &[&str],
) -> Result<(), Fail> {
    let want = End {
        status: Status::Usage,
        out: b"",
        err: USAGE_LINE,
    };
    check_words(rt, words, roomy(rt, MASK, 4096)?, want)
}

/// Runs each of the lists of words, which are no command.
fn check_usages<R: AllocGlobal + Abort + Threads + Sync>(
    rt: &R,
    cases: &[&[&str]],
) -> Result<(), Fail> {
    for words in cases {
        check_usage(rt, words)?;
    }
    Ok(())
}

#[test]
fn there_are_1_to_64_workers(rt: HostRuntime) -> Result<(), Fail> {
    check_usage(&rt, &["opt", "--workers", "0"])?;
    check_usage(&rt, &["facts", "--workers", "0"])?;
    check_usage(&rt, &["opt", "--workers=65"])
}

#[test]
fn a_number_of_workers_has_no_sign(rt: HostRuntime) -> Result<(), Fail> {
    check_usage(&rt, &["opt", "--workers", "+1"])?;
    check_usage(&rt, &["opt", "--workers", "-1"])?;
    check_usage(&rt, &["opt", "--workers=-1"])
}

#[test]
fn a_number_of_workers_has_one_to_ten_digits(rt: HostRuntime) -> Result<(), Fail> {
    check_usage(&rt, &["opt", "--workers", ""])?;
    check_usage(&rt, &["opt", "--workers="])?;
    check_usage(&rt, &["opt", "--workers"])?;
    check_usage(&rt, &["opt", "--workers", "00000000001"])?;
    check_usage(&rt, &["opt", "--workers=0x4"])
}

#[test]
fn a_number_of_workers_is_given_once(rt: HostRuntime) -> Result<(), Fail> {
    check_usage(&rt, &["opt", "--workers", "2", "--workers", "2"])?;
    check_usage(&rt, &["--workers=2", "opt", "--workers=2"])
}

#[test]
fn one_job_is_given(rt: HostRuntime) -> Result<(), Fail> {
    check_usages(
        &rt,
        &[
            &["opt", "facts"],
            &["facts", "facts"],
            &["Facts"],
            &["ask", "ask", "--function=f", "--value=x", "--block=b"],
            &["opt", "ask", "--function=f", "--value=x", "--block=b"],
            &["self", "self", "--seed=1"],
            &["self", "--seed=1", "facts"],
        ],
    )
}

// The order, and whether `=` or a blank stands before the number, change nothing.
#[test]
fn each_option_is_given_once(rt: HostRuntime) -> Result<(), Fail> {
    check_usages(
        &rt,
        &[
            &["opt", "--strict", "--strict"],
            &["--strict", "facts", "--strict"],
            &["opt", "--workers", "2", "--workers=2"],
            &["opt", "--workers=2", "--workers", "2"],
            &["--workers=2", "--strict", "opt", "--workers=3"],
        ],
    )
}

#[test]
fn strict_has_no_value(rt: HostRuntime) -> Result<(), Fail> {
    check_usages(
        &rt,
        &[
            &["opt", "--strict=x"],
            &["opt", "--strict="],
            &["opt", "--strict", "x"],
            &["--strict", "", "opt"],
        ],
    )
}

#[test]
fn a_number_of_workers_is_from_1_to_64_in_both_forms(rt: HostRuntime) -> Result<(), Fail> {
    check_usages(
        &rt,
        &[
            &["opt", "--workers=0"],
            &["opt", "--workers", "65"],
            &["opt", "--workers=10000000001"],
            &["opt", "--workers", "10000000001"],
            &["opt", "--workers=00000000001"],
            &["opt", "--workers", "4294967297"],
            &["opt", "--workers=99999999999999999999999"],
        ],
    )
}

// A value that begins with `-` and is not `-` alone is none, and `-` is no number.
#[test]
fn a_value_is_no_option(rt: HostRuntime) -> Result<(), Fail> {
    check_usages(
        &rt,
        &[
            &["opt", "--workers", "--"],
            &["opt", "--workers", "--", "4"],
            &["--workers", "--workers", "4", "opt"],
            &["--workers", "--workers=4", "opt"],
            &["opt", "--workers", "-"],
            &["opt", "--workers=-"],
            &["opt", "--workers=--strict"],
        ],
    )
}

#[test]
fn behind_two_hyphens_no_word_is_an_option(rt: HostRuntime) -> Result<(), Fail> {
    check_usages(
        &rt,
        &[
            &["--"],
            &["opt", "--", "--strict"],
            &["--", "opt", "--strict"],
            &["--", "opt", "--"],
            &["--", "--", "opt"],
            &["--", "--workers", "4", "opt"],
            &["--", "--workers=4"],
        ],
    )
}

// The program gives `vfa_run` no words where one is not UTF-8.
#[test]
fn no_job_is_given(rt: HostRuntime) -> Result<(), Fail> {
    check_usages(
        &rt,
        &[
            &[],
            &[""],
            &["-"],
            &["--strict"],
            &["--workers=4"],
            &["--workers", "opt"],
            &["--seed=1"],
            &["--function=f", "--value=x", "--block=b"],
            &["--function", "ask", "--value=x", "--block=b"],
            &["opt", ""],
            &["opt", "-"],
        ],
    )
}

// Options of other jobs, and none at all; there is no short form, no help and no version.
#[test]
fn other_options_are_in_no_command(rt: HostRuntime) -> Result<(), Fail> {
    check_usages(
        &rt,
        &[
            &["opt", "--function", "f"],
            &["opt", "--function="],
            &["opt", "--function", ""],
            &["opt", "--value", "x"],
            &["opt", "--from", "entry"],
            &["opt", "--seed=1"],
            &["opt", "--seed", "1", "--seed", "1"],
            &["facts", "--block=entry"],
            &["ask", "--function=f", "--value=x", "--block=b", "--to=a"],
            &["ask", "--function=f", "--value=x", "--block=b", "-f"],
            &["self", "--seed=1", "--seeds=1"],
            &["opt", "--workers", "--strict"],
            &["opt", "--strict=", "--workers=1"],
            &["opt", "-w", "1"],
            &["opt", "-s"],
            &["opt", "--worker=1"],
            &["opt", "--worker", "1"],
            &["opt", "--stric"],
            &["opt", "--=1"],
            &["opt", "---strict"],
            &["opt", "-strict"],
            &["opt", "--help"],
            &["-h"],
            &["help"],
            &["opt", "--version"],
            &["-V"],
            &["--", "opt", "--workers=1"],
        ],
    )
}

#[test]
fn a_question_names_a_function_a_value_and_a_block(rt: HostRuntime) -> Result<(), Fail> {
    check_usages(
        &rt,
        &[
            &["ask"],
            &["ask", "--from=a"],
            &["ask", "--value", "x", "--block", "b"],
            &["ask", "--function", "f", "--block", "b"],
            &["ask", "--function", "f", "--value", "x"],
            &["ask", "--function", "f", "--value", "x", "--block"],
            &["ask", "--function", "f", "--value", "--block", "b"],
            &["ask", "--function=f", "--value=x", "--", "--block=b"],
        ],
    )
}

#[test]
fn a_name_is_not_empty(rt: HostRuntime) -> Result<(), Fail> {
    check_usages(
        &rt,
        &[
            &["ask", "--function=", "--value=x", "--block=b"],
            &["ask", "--function", "", "--value=x", "--block=b"],
            &["ask", "--function=f", "--value=", "--block=b"],
            &["ask", "--function=f", "--value", "", "--block=b"],
            &["ask", "--function=f", "--value=x", "--block="],
            &["ask", "--function=f", "--value=x", "--block", ""],
            &["ask", "--function=f", "--value=x", "--block=b", "--from="],
            &[
                "ask",
                "--function=f",
                "--value=x",
                "--block=b",
                "--from",
                "",
            ],
        ],
    )
}

#[test]
fn a_name_is_given_once(rt: HostRuntime) -> Result<(), Fail> {
    check_usages(
        &rt,
        &[
            &[
                "ask",
                "--function=f",
                "--function=f",
                "--value=x",
                "--block=b",
            ],
            &[
                "ask",
                "--function=f",
                "--value",
                "x",
                "--value",
                "x",
                "--block=b",
            ],
            &[
                "ask",
                "--function=f",
                "--value=x",
                "--block=b",
                "--block",
                "b",
            ],
            &[
                "ask",
                "--from=a",
                "--function=f",
                "--value=x",
                "--block=b",
                "--from=a",
            ],
        ],
    )
}

#[test]
fn a_question_is_for_ask_alone(rt: HostRuntime) -> Result<(), Fail> {
    check_usages(
        &rt,
        &[
            &["opt", "--function=f", "--value=x", "--block=b"],
            &["facts", "--function=f", "--value=x", "--block=b"],
            &["self", "--seed=1", "--function=f", "--value=x", "--block=b"],
            &["opt", "--from=a"],
            &["facts", "--from", "a"],
            &["self", "--seed=1", "--from=a"],
        ],
    )
}

#[test]
fn a_seed_is_for_self_alone(rt: HostRuntime) -> Result<(), Fail> {
    check_usages(
        &rt,
        &[
            &["opt", "--seed=1"],
            &["facts", "--seed", "1"],
            &["ask", "--function=f", "--value=x", "--block=b", "--seed=1"],
        ],
    )
}

#[test]
fn self_has_one_seed_and_is_not_strict(rt: HostRuntime) -> Result<(), Fail> {
    check_usages(
        &rt,
        &[
            &["self"],
            &["self", "--workers=2"],
            &["self", "--seed"],
            &["self", "--seed", "1", "--seed", "1"],
            &["self", "--seed=1", "--seed=1"],
            &["self", "--strict", "--seed=1"],
            &["self", "--seed", "1", "--strict"],
        ],
    )
}

#[test]
fn a_seed_is_from_0_to_4294967295_in_one_to_ten_digits(rt: HostRuntime) -> Result<(), Fail> {
    check_usages(
        &rt,
        &[
            &["self", "--seed", ""],
            &["self", "--seed="],
            &["self", "--seed", "00000000001"],
            &["self", "--seed=00000000000"],
            &["self", "--seed", "4294967296"],
            &["self", "--seed=4294967296"],
            &["self", "--seed=9999999999"],
            &["self", "--seed=18446744073709551617"],
            &["self", "--seed", "-1"],
            &["self", "--seed=-1"],
            &["self", "--seed", "+1"],
            &["self", "--seed=+1"],
            &["self", "--seed", "-"],
            &["self", "--seed=0x1"],
            &["self", "--seed= 1"],
        ],
    )
}

#[test]
fn ask_and_self_have_1_to_64_workers_too(rt: HostRuntime) -> Result<(), Fail> {
    check_usages(
        &rt,
        &[
            &[
                "ask",
                "--function=f",
                "--value=x",
                "--block=b",
                "--workers=0",
            ],
            &[
                "ask",
                "--function=f",
                "--value=x",
                "--block=b",
                "--workers",
                "65",
            ],
            &["self", "--seed=1", "--workers=65"],
            &["self", "--seed=1", "--workers=1", "--workers=1"],
        ],
    )
}
