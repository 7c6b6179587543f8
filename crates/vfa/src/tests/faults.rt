//! Sources and sinks that fail.
use super::*;

// The module is read in 12 calls, the last of which gives nothing.
#[test]
fn reports_each_read_fault(rt: HostRuntime) -> Result<(), Fail> {
    for call in 1..=12 {
        let want = End {
            status: Status::ReadFault,
            out: b"",
            err: b"fault: read\n",
        };
        check_run(&rt, "opt", failing_source(&rt, MASK, call)?, want)?;
    }
    let want = End {
        status: Status::Done,
        out: MASKED,
        err: b"",
    };
    check_run(&rt, "opt", failing_source(&rt, MASK, 13)?, want)
}

// The input is longer than allowed before its source fails.
#[test]
fn refuses_long_input_before_a_fault(rt: HostRuntime) -> Result<(), Fail> {
    let input = vec![in rt.alloc(); b'\n'; 16777217]?;
    let ends = Ends {
        source: MemSource::new(input, 65536, [4098].to_vec(rt.alloc())?),
        out: MemSink::new(rt.alloc(), 4096, Vec::new(rt.alloc()))?,
        err: MemSink::new(rt.alloc(), 4096, Vec::new(rt.alloc()))?,
    };
    let want = End {
        status: Status::Refused,
        out: b"",
        err: b"refused: TooLong\n",
    };
    check_run(&rt, "opt", ends, want)
}

/// A source over the input, an out with so much room and an err with so much, of which the first calls fail where there
/// is none.
fn small<R: AllocGlobal>(rt: &R, input: &[u8], out: usize, err: usize) -> Result<Ends, Fail> {
    Ok(Ends {
        source: MemSource::new(input.to_vec(rt.alloc())?, 4096, Vec::new(rt.alloc())),
        out: MemSink::new(rt.alloc(), out, Vec::new(rt.alloc()))?,
        err: MemSink::new(rt.alloc(), err, Vec::new(rt.alloc()))?,
    })
}

#[test]
fn stops_at_write_faults(rt: HostRuntime) -> Result<(), Fail> {
    let status = Status::WriteFault;
    let nothing = End {
        status,
        out: b"",
        err: b"",
    };
    check_run(&rt, "opt", small(&rt, MASK, 0, 4096)?, nothing)?;
    let in_text = End {
        status,
        out: b"define i",
        err: b"",
    };
    check_run(&rt, "opt", small(&rt, MASK, 8, 4096)?, in_text)?;
    let before_notes = End {
        status,
        out: POINTER,
        err: b"",
    };
    check_run(&rt, "opt", small(&rt, POINTER, 4096, 0)?, before_notes)?;
    let in_notes = End {
        status,
        out: POINTER,
        err: b"note: @f",
    };
    check_run(&rt, "opt", small(&rt, POINTER, 4096, 8)?, in_notes)
}

// A call that failed is not tried again, though a second one would not fail.
#[test]
fn writes_nothing_after_a_fault(rt: HostRuntime) -> Result<(), Fail> {
    let ends = Ends {
        source: MemSource::new(MASK.to_vec(rt.alloc())?, 4096, Vec::new(rt.alloc())),
        out: MemSink::new(rt.alloc(), 4096, [1].to_vec(rt.alloc())?)?,
        err: MemSink::new(rt.alloc(), 4096, Vec::new(rt.alloc()))?,
    };
    let want = End {
        status: Status::WriteFault,
        out: b"",
        err: b"",
    };
    check_run(&rt, "opt", ends, want)
}

// A message that err does not take leaves the status as it is.
#[test]
fn keeps_the_status_where_a_message_fails(rt: HostRuntime) -> Result<(), Fail> {
    let want = End {
        status: Status::Refused,
        out: b"",
        err: b"",
    };
    check_run(
        &rt,
        "opt",
        small(&rt, b"define i8 @f(i8 %x) {", 4096, 0)?,
        want,
    )
}
