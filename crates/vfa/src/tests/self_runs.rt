//! Runs of `self`, which reads no source.
use super::*;

const SEVEN: &[u8] = b"seed 7\nfunctions 256\nread 316369 bytes\nprinted 50317 bytes\ncarried 0\n";

/// The words are those of `self`, and its run writes these lines, whatever the source would give.
fn check_self<R: AllocGlobal + Abort + Threads + Sync>(
    rt: &R,
    words: &[&str],
    ends: Ends,
    out: &[u8],
) -> Result<(), Fail> {
    let want = End {
        status: Status::Done,
        out,
        err: b"",
    };
    check_words(rt, words, ends, want)
}

#[test]
fn a_run_is_the_same_each_time(rt: HostRuntime) -> Result<(), Fail> {
    check_self(&rt, &["self", "--seed", "7"], roomy(&rt, b"", 4096)?, SEVEN)?;
    check_self(
        &rt,
        &["--seed=7", "--workers", "4", "self"],
        roomy(&rt, b"", 4096)?,
        SEVEN,
    )
}

#[test]
fn the_least_and_the_greatest_seed(rt: HostRuntime) -> Result<(), Fail> {
    check_self(
        &rt,
        &["self", "--seed", "0"],
        roomy(&rt, b"", 4096)?,
        b"seed 0\nfunctions 256\nread 315986 bytes\nprinted 50009 bytes\ncarried 0\n",
    )?;
    check_self(
        &rt,
        &["self", "--seed", "4294967295"],
        roomy(&rt, b"", 4096)?,
        b"seed 4294967295\nfunctions 256\nread 315434 bytes\nprinted 52115 bytes\ncarried 0\n",
    )
}

// A source that fails at its first call, and one that is no module.
#[test]
fn the_source_is_not_read(rt: HostRuntime) -> Result<(), Fail> {
    check_self(
        &rt,
        &["self", "--seed", "7"],
        failing_source(&rt, MASK, 1)?,
        SEVEN,
    )?;
    check_self(
        &rt,
        &["self", "--seed", "7"],
        roomy(&rt, b"define i8 @f", 4096)?,
        SEVEN,
    )
}

#[test]
fn a_sink_that_fails(rt: HostRuntime) -> Result<(), Fail> {
    let mut ends = roomy(&rt, b"", 4096)?;
    ends.out = MemSink::new(rt.alloc(), 4096, [1u32].to_vec(rt.alloc())?)?;
    let want = End {
        status: Status::WriteFault,
        out: b"",
        err: b"",
    };
    check_words(&rt, &["self", "--seed", "7"], ends, want)
}
