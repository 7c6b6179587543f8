//! The work on all inputs.

ghost use Rattle.std.specs.Prelude.{◌≡◌, ◌*◌, ◌<◌, ◌≤◌, All, IfOk, length, map};
ghost use Rattle.std.specs.List.{AllZip};
ghost use denote.Param.Send.{IsSync, IsSend};

use crate::gate::Gate;
use crate::pieces::{joined, piece_number, piece_results, piece_size};
use crate::work::Work;
use std::alloc::{AllocError, Global};
use std::thread;
use std::thread::Threads;

/// The results of the work on the inputs, in the order of the inputs, whatever the number of workers and whatever the gate.
///
/// The inputs are cut into contiguous pieces of their number divided by that of the workers, rounded up, the last one
/// perhaps shorter; without inputs there is no piece. Each piece first calls the gate's `start` with its number, from 0.
/// Want of memory comes where a piece has it, after all pieces have ended.
///
/// Where the work doubles a number, the answer on 1, 2 and 3 is 2, 4 and 6: with two workers the first piece has 1 and 2.
pub fn each<R: Threads + Sync, K: Work, G: Gate>(
    rt: &R,
    alloc: Global,
    workers: u32,
    inputs: &[K::In],
    work: &K,
    gate: &G,
) -> Result<Vec<K::Out>, AllocError>
    requires workers { (1 ≤ workers) × (workers ≤ 64) }
    requires inputs { All (K.can_run work.now) inputs.now }
    ensures results { IfOk result (λ all. AllZip (K.is_result work.now) inputs.now all.items) }
    ensures mapped { (f : K.In → K.Out) → ((x : K.In) (y : K.Out) → K.is_result work.now x y → y ≡ f x) →
        IfOk result (λ all. all.items ≡ map f inputs.now) }
{
    if inputs.is_empty() {
        return Ok(Vec::new(alloc));
    }
    let size = piece_size(inputs.len(), workers);
    let results = |start: usize, piece: &[K::In]| -> Result<Vec<K::Out>, AllocError>
        requires { (0 < size) × (start < size * workers) × All (K.can_run work.now) piece.now }
        ensures { IfOk result (λ all. AllZip (K.is_result work.entry.now) piece.now all.items) }
    {
        let number = piece_number(start, size, workers);
        piece_results(alloc, number, piece, work, gate)
    };
    let pieces = thread::map_chunks(rt, alloc, inputs, size, &results)?;
    joined(alloc, inputs.len(), pieces)
}
