//! The work on all inputs, with the results known.
ghost use Rattle.std.specs.Prelude.{◌≡◌, ◌*◌, ◌≤◌};

use super::*;
use std::alloc::{AllocError, AllocGlobal, Global};
use std::process::Abort;
use std::sync::atomic::{AtomicBool, AtomicU64, Ordering};
use std::test::Fail;
use std::thread::Threads;

/// Doubles a number; it wants memory where the number is this one.
#[derive(Clone, Copy)]
struct Doubling {
    wanting: Option<u32>,
}

impl Work for Doubling {
    type In = u32;

    type Out = u64;

    ghost can_run = { λ work x. Unit {0} };

    ghost is_result = { λ work x y. y ≡ 2 * x };

    fn run(&self, _alloc: Global, input: &u32) -> Result<u64, AllocError> {
        if self.wanting == Some(*input) {
            return Err(AllocError);
        }
        Ok(2 * u64::from(*input))
    }
}

/// Counts the pieces, and adds up their numbers.
#[derive(Drop)]
struct Counting {
    pieces: AtomicU64,
    numbers: AtomicU64,
}

impl Gate for Counting {
    fn start(&self, piece: u32) {
        self.pieces.fetch_add(1, Ordering::SeqCst);
        self.numbers.fetch_add(u64::from(piece), Ordering::SeqCst);
    }
}

/// Holds each of the pieces 0 and 1 until both have started. It gives up after many turns.
#[derive(Drop)]
struct Meeting {
    first: AtomicBool,
    second: AtomicBool,
    gave_up: AtomicBool,
}

const MOST_TURNS: u32 = 1_000_000_000;

impl Meeting {
    fn new() -> Meeting {
        Meeting {
            first: AtomicBool::new(false),
            second: AtomicBool::new(false),
            gave_up: AtomicBool::new(false),
        }
    }

    fn both_started(&self) -> bool {
        self.first.load(Ordering::SeqCst) && self.second.load(Ordering::SeqCst)
    }

    fn wait(&self) {
        for _ in 0..MOST_TURNS {
            if self.both_started() {
                return;
            }
        }
        self.gave_up.store(true, Ordering::SeqCst);
    }
}

impl Gate for Meeting {
    fn start(&self, piece: u32) {
        match piece {
            0 => self.first.store(true, Ordering::SeqCst),
            1 => self.second.store(true, Ordering::SeqCst),
            _ => return,
        }
        self.wait();
    }
}

/// The numbers below this one.
fn below<R: AllocGlobal>(rt: &R, count: u32) -> Result<Vec<u32>, AllocError> {
    let mut all = Vec::new(rt.alloc());
    for number in 0..count {
        all.push(number)?;
    }
    Ok(all)
}

/// So many workers double 0 to 4, in so many pieces.
fn check_doubled<R: AllocGlobal + Threads + Abort + Sync>(
    rt: &R,
    workers: u32,
    pieces: u64,
    numbers: u64,
) -> Result<(), Fail>
    requires { (1 ≤ workers) × (workers ≤ 64) }
{
    let inputs = below(rt, 5)?;
    let work = Doubling { wanting: None };
    let gate = Counting {
        pieces: AtomicU64::new(0),
        numbers: AtomicU64::new(0),
    };
    let results = each(rt, rt.alloc(), workers, &inputs, &work, &gate)?;
    assert_eq!(rt; results.as_slice(), [0, 2, 4, 6, 8].as_slice());
    assert_eq!(rt; gate.pieces.load(Ordering::SeqCst), pieces);
    assert_eq!(rt; gate.numbers.load(Ordering::SeqCst), numbers);
    Ok(())
}

#[test]
fn results_are_in_the_order_of_the_inputs(rt: HostRuntime) -> Result<(), Fail> {
    check_doubled(&rt, 1, 1, 0)?;
    check_doubled(&rt, 2, 2, 1)?;
    check_doubled(&rt, 4, 3, 3)?;
    check_doubled(&rt, 64, 5, 10)?;
    Ok(())
}

#[test]
fn no_inputs_are_no_piece(rt: HostRuntime) -> Result<(), Fail> {
    let work = Doubling { wanting: None };
    let gate = Counting {
        pieces: AtomicU64::new(0),
        numbers: AtomicU64::new(0),
    };
    let results = each(&rt, rt.alloc(), 64, &[], &work, &gate)?;
    assert!(rt; results.is_empty());
    assert_eq!(rt; gate.pieces.load(Ordering::SeqCst), 0);
    Ok(())
}

/// So many workers double 0 to 99, of which one wants memory. All pieces start, and the inputs stay.
fn check_wanting<R: AllocGlobal + Threads + Abort + Sync>(
    rt: &R,
    workers: u32,
    pieces: u64,
    wanting: u32,
) -> Result<(), Fail>
    requires { (1 ≤ workers) × (workers ≤ 64) }
{
    let inputs = below(rt, 100)?;
    let work = Doubling {
        wanting: Some(wanting),
    };
    let gate = Counting {
        pieces: AtomicU64::new(0),
        numbers: AtomicU64::new(0),
    };
    assert!(rt; each(rt, rt.alloc(), workers, &inputs, &work, &gate).is_err());
    assert_eq!(rt; gate.pieces.load(Ordering::SeqCst), pieces);
    assert_eq!(rt; inputs.as_slice(), below(rt, 100)?.as_slice());
    Ok(())
}

#[test]
fn want_of_memory_of_one_input(rt: HostRuntime) -> Result<(), Fail> {
    for wanting in [0, 50, 99] {
        check_wanting(&rt, 1, 1, wanting)?;
        check_wanting(&rt, 2, 2, wanting)?;
        check_wanting(&rt, 64, 50, wanting)?;
    }
    Ok(())
}

#[test]
fn two_pieces_meet_at_the_gate(rt: HostRuntime) -> Result<(), Fail> {
    let work = Doubling { wanting: None };
    let gate = Meeting::new();
    let results = each(&rt, rt.alloc(), 2, &[3, 4], &work, &gate)?;
    assert_eq!(rt; results.as_slice(), [6, 8].as_slice());
    assert!(rt; gate.both_started());
    assert!(rt; !gate.gave_up.load(Ordering::SeqCst));
    Ok(())
}
