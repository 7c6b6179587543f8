//! Contiguous pieces of the inputs, and their results put together.

ghost use Rattle.std.specs.Prelude.{◌≡◌, ◌+◌, ◌*◌, ◌/◌, ◌%◌, ◌<◌, ◌≤◌, min, All, IfOk, OnOk};
ghost use Rattle.std.specs.List.{AllZip, AllByRecursion, flat_map};
ghost use Rattle.vfa_par.specs.Pieces.{IsDone, results_of};

use crate::gate::Gate;
use crate::work::Work;
use std::alloc::{AllocError, Global};

/// How many inputs a piece has: the number of all inputs divided by that of the workers, rounded up.
pub fn piece_size(inputs: usize, workers: u32) -> usize
    requires { 0 < workers }
    ensures size { result ≡ inputs / workers + min 1 (inputs % workers) }
    ensures holds_all { inputs ≤ result * workers }
{
    inputs.div_ceil(workers as usize)
}

/// The number, from 0, of the piece that begins with this input.
pub fn piece_number(start: usize, size: usize, workers: u32) -> u32
    requires size { 0 < size }
    requires within { start < size * workers }
    ensures { result ≡ start / size }
{
    (start / size) as u32
}

/// Passes the gate, and does the work on the inputs of the piece, one after another.
pub fn piece_results<K: Work, G: Gate>(
    alloc: Global,
    piece: u32,
    inputs: &[K::In],
    work: &K,
    gate: &G,
) -> Result<Vec<K::Out>, AllocError>
    requires { All (K.can_run work.now) inputs.now }
    ensures { IfOk result (λ all. AllZip (K.is_result work.now) inputs.now all.items) }
{
    gate.start(piece);
    let mut all = Vec::with_capacity(alloc, inputs.len())?;
    'inputs: for input in inputs {
        let result = work.run(alloc, input)?;
        all.push(result)?;
    }
    Ok(all)
}

/// The results of all pieces, in the order of the pieces. Want of memory where a piece had it.
pub fn joined<T: Drop>(
    alloc: Global,
    inputs: usize,
    pieces: Vec<Result<Vec<T>, AllocError>>,
) -> Result<Vec<T>, AllocError>
    ensures whole { OnOk result (AllByRecursion IsDone pieces.items) }
    ensures results { IfOk result (λ all. all.items ≡ flat_map results_of pieces.items) }
{
    let mut all = Vec::with_capacity(alloc, inputs)?;
    'pieces: for piece in pieces {
        let mut results = piece?;
        all.append(&mut results)?;
    }
    Ok(all)
}
