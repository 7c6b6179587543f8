//! The limits of functions and of the input.
use super::*;

/// A function of so many results, `%a1 = xor i8 %x, 1` and so on, of which none is used.
fn unused_results<R: AllocGlobal>(rt: &R, count: u32) -> Result<Vec<u8>, Fail> {
    let mut text = b"define i8 @n(i8 %x) {\n".to_vec(rt.alloc())?;
    for k in 1..=count {
        let line = format!(in rt.alloc(); "  %a{k} = xor i8 %x, 1\n")?;
        text.extend_from_slice(line.as_bytes())?;
    }
    text.extend_from_slice(b"  ret i8 %x\n}\n")?;
    Ok(text)
}

#[test]
fn reads_as_many_names_as_allowed(rt: HostRuntime) -> Result<(), Fail> {
    let printed = b"define i8 @n(i8 %x) {
  ret i8 %x
}
";
    check_prints(&rt, &unused_results(&rt, 4095)?, printed)?;
    check_carried(
        &rt,
        &unused_results(&rt, 4096)?,
        b"note: @n carried: TooMany names\n",
    )
}

/// How large a function is.
#[derive(Clone, Copy)]
pub struct Size {
    pub results: u32,
    pub blocks: u32,
    pub cases: u32,
}

/// A function of this size: unused results, blocks that do nothing, and one switch.
pub fn large<R: AllocGlobal>(rt: &R, size: Size) -> Result<Vec<u8>, Fail> {
    let mut text = b"define i32 @s(i32 %x) {\n".to_vec(rt.alloc())?;
    for k in 0..size.results {
        let line = format!(in rt.alloc(); "  %a{k} = xor i32 %x, 1\n")?;
        text.extend_from_slice(line.as_bytes())?;
    }
    text.extend_from_slice(b"  switch i32 %x, label %b1 [\n")?;
    for k in 0..size.cases {
        let line = format!(in rt.alloc(); "    i32 {k}, label %b1\n")?;
        text.extend_from_slice(line.as_bytes())?;
    }
    text.extend_from_slice(b"  ]\n")?;
    for k in 1..size.blocks {
        let block = format!(in rt.alloc(); "\nb{k}:\n  unreachable\n")?;
        text.extend_from_slice(block.as_bytes())?;
    }
    text.extend_from_slice(b"}\n")?;
    Ok(text)
}

// Unused results go, and so do blocks that no edge leads to.
#[test]
fn optimises_a_function_at_the_limits(rt: HostRuntime) -> Result<(), Fail> {
    let input = Size {
        results: 4095,
        blocks: 1024,
        cases: 1024,
    };
    let printed = Size {
        results: 0,
        blocks: 2,
        cases: 1024,
    };
    check_prints(&rt, &large(&rt, input)?, &large(&rt, printed)?)
}

// Names go before blocks, and blocks before cases.
#[test]
fn keeps_the_limits(rt: HostRuntime) -> Result<(), Fail> {
    let cases: [(u32, u32, u32, &[u8]); 4] = [
        (0, 2, 1025, b"note: @s carried: TooMany cases\n"),
        (0, 1025, 0, b"note: @s carried: TooMany blocks\n"),
        (0, 1025, 1025, b"note: @s carried: TooMany blocks\n"),
        (4096, 1025, 1025, b"note: @s carried: TooMany names\n"),
    ];
    for (results, blocks, cases, note) in cases {
        let size = Size {
            results,
            blocks,
            cases,
        };
        check_carried(&rt, &large(&rt, size)?, note)?;
    }
    Ok(())
}

#[test]
fn copies_the_longest_input(rt: HostRuntime) -> Result<(), Fail> {
    let input = vec![in rt.alloc(); b'\n'; 16777216]?;
    let want = End {
        status: Status::Done,
        out: &input,
        err: b"",
    };
    check_run(&rt, "opt", roomy(&rt, &input, 16777216)?, want)
}

#[test]
fn refuses_long_input(rt: HostRuntime) -> Result<(), Fail> {
    let input = vec![in rt.alloc(); b'\n'; 16777217]?;
    check_refused(&rt, &input, b"refused: TooLong\n")
}
