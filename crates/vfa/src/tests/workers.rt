//! Runs with several workers.
use super::*;
use std::sync::atomic::{AtomicU32, Ordering};
use vfa_par::Gate;

/// A loop that counts to ten, behind the name of its function.
const COUNT: &[u8] = b"() {
entry:
  br label %head

head:
  %i = phi i32 [ 0, %entry ], [ %n, %body ]
  %c = icmp ult i32 %i, 10
  br i1 %c, label %body, label %exit

body:
  %n = add i32 %i, 1
  br label %head

exit:
  ret i32 %i
}
";

/// The same, as it is printed.
const COUNT_PRINTED: &[u8] = b"() {
entry:
  br label %head

head:
  %i = phi i32 [ 0, %entry ], [ %n, %body ]
  %c = icmp samesign ult i32 %i, 10
  br i1 %c, label %body, label %exit

body:
  %n = add nuw nsw i32 %i, 1
  br label %head

exit:
  ret i32 10
}
";

/// So many functions of this body, named f0 and so on, each before an empty line but the first.
fn counts<R: AllocGlobal>(rt: &R, functions: u32, body: &[u8]) -> Result<Vec<u8>, Fail> {
    let mut text = Vec::new(rt.alloc());
    for number in 0..functions {
        if number > 0 {
            text.extend_from_slice(b"\n")?;
        }
        let name = format!(in rt.alloc(); "define i32 @f{number}")?;
        text.extend_from_slice(name.as_bytes())?;
        text.extend_from_slice(body)?;
    }
    Ok(text)
}

/// The words of `opt` with so many workers give this end.
fn check_workers<R: AllocGlobal + Abort + Threads + Sync>(
    rt: &R,
    workers: &[&str],
    input: &[u8],
    want: End,
) -> Result<(), Fail> {
    for number in workers {
        check_words(
            rt,
            &["opt", "--workers", *number],
            roomy(rt, input, 1 << 16)?,
            want,
        )?;
    }
    Ok(())
}

#[test]
fn the_text_is_the_same_for_every_number_of_workers(rt: HostRuntime) -> Result<(), Fail> {
    let input = counts(&rt, 64, COUNT)?;
    let printed = counts(&rt, 64, COUNT_PRINTED)?;
    let want = End {
        status: Status::Done,
        out: &printed,
        err: b"",
    };
    check_workers(&rt, &["1", "4", "64"], &input, want)
}

#[test]
fn the_first_repeated_name_is_the_same_for_every_number_of_workers(
    rt: HostRuntime,
) -> Result<(), Fail> {
    let input = b"define i8 @a(i8 %x) { ret i8 %x }
define i8 @a(i8 %x) { ret i8 %x }
define i8 @b(i8 %x) { ret i8 %x }
define i8 @c(i8 %x) { ret i8 %x }
define i8 @b(i8 %x) { ret i8 %x }
";
    let want = End {
        status: Status::Refused,
        out: b"",
        err: b"refused: DuplicateFunction @a\n",
    };
    check_workers(&rt, &["1", "4", "64"], input, want)
}

/// Numbers of workers whose shares of five items have five, three, two, two, one and one.
const NUMBERS: [&str; 6] = ["1", "2", "3", "4", "5", "64"];

// Three functions and the line feeds between them are five items. But for one worker, the name stands in two shares.
#[test]
fn a_name_is_repeated_across_shares(rt: HostRuntime) -> Result<(), Fail> {
    let input = b"define i8 @a(i8 %x) { ret i8 %x }
define i8 @b(i8 %x) { ret i8 %x }
define i8 @a(i8 %x) { ret i8 %x }";
    let want = End {
        status: Status::Refused,
        out: b"",
        err: b"refused: DuplicateFunction @a\n",
    };
    check_workers(&rt, &NUMBERS, input, want)
}

#[test]
fn notes_are_in_text_order_across_shares(rt: HostRuntime) -> Result<(), Fail> {
    let input = b"define i8 @a(i8 %x) { ret i8 %y }
define i8 @b(i8 %x) { ret i8 %x1 }
define i8 @c(i8 %x) { ret i8 %z }";
    let want = End {
        status: Status::Done,
        out: input,
        err: b"note: @a carried: Unknown %y
note: @b carried: Unknown %x1
note: @c carried: Unknown %z
",
    };
    check_workers(&rt, &NUMBERS, input, want)
}

#[test]
fn workers_are_given_in_either_form_of_an_option(rt: HostRuntime) -> Result<(), Fail> {
    let done = End {
        status: Status::Done,
        out: MASKED,
        err: b"",
    };
    check_words(&rt, &["--workers=4", "opt"], roomy(&rt, MASK, 4096)?, done)?;
    check_words(
        &rt,
        &["--workers", "0000000064", "--strict", "--", "opt"],
        roomy(&rt, MASK, 4096)?,
        done,
    )?;
    Ok(())
}

/// Holds each piece until two have started. It gives up after many turns.
#[derive(Drop)]
struct Meeting {
    started: AtomicU32,
    gave_up: AtomicU32,
}

const MOST_TURNS: u32 = 1_000_000_000;

impl Gate for Meeting {
    fn start(&self, _piece: u32) {
        self.started.fetch_add(1, Ordering::SeqCst);
        for _ in 0..MOST_TURNS {
            if self.started.load(Ordering::SeqCst) >= 2 {
                return;
            }
        }
        self.gave_up.fetch_add(1, Ordering::SeqCst);
    }
}

#[test]
fn two_pieces_of_a_module_meet_at_the_gate(rt: HostRuntime) -> Result<(), Fail> {
    let input = counts(&rt, 2, COUNT)?;
    let printed = counts(&rt, 2, COUNT_PRINTED)?;
    let mut ends = roomy(&rt, &input, 1 << 16)?;
    let gate = Meeting {
        started: AtomicU32::new(0),
        gave_up: AtomicU32::new(0),
    };
    let mut words = Vec::new(rt.alloc());
    for word in ["opt", "--workers", "2"] {
        words.push(String::from_str(rt.alloc(), word)?)?;
    }
    assert_eq!(rt;
        vfa_run(
            &rt,
            &words,
            &mut ends.source,
            &mut ends.out,
            &mut ends.err,
            &gate
        ),
        Status::Done
    );
    assert_eq!(rt; ends.out.bytes(), printed.as_slice());
    assert_eq!(rt; gate.gave_up.load(Ordering::SeqCst), 0);
    Ok(())
}
