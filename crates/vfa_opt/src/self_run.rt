//! The run on the generated text.

ghost use Rattle.std.specs.Prelude.{◌≡◌, ◌≤◌, ◌⊎◌, List, IfOk, IfErr, OnOk};
ghost use Rattle.vfa_opt.specs.Generated.{generated_text};
ghost use Rattle.vfa_opt.specs.Module.{Piece, IsModule, IsModuleText};
ghost use Rattle.vfa_opt.specs.Refusals.{IsModuleRefusal};
ghost use Rattle.vfa_opt.specs.Sound.{IsSoundFor};
ghost use Rattle.vfa_opt.specs.declared.jobs.Job.TheVariants.{SelfRun};
ghost use Rattle.vfa_opt.specs.declared.refusals.Refused.TheVariants.{Memory};

use crate::generator::{generated, summary};
use crate::joined::Text;
use crate::refusals::Refused;
use crate::writings::Writing;
use crate::written::worked_out;
use std::alloc::AllocGlobal;
use std::thread::Threads;
use vfa_par::Gate;

/// What `self` prints for a seed, and the notes on the generated text; or why that is refused.
pub fn self_out<R: AllocGlobal + Threads + Sync, G: Gate>(
    rt: &R,
    seed: u32,
    workers: u32,
    strict: bool,
    gate: &G,
) -> Result<Text, Refused>
    requires { (1 ≤ workers) × (workers ≤ 64) }
    ensures text { IfOk result (λ text. IsModuleText (SelfRun seed) strict (generated_text seed) text.out.items text.notes.items) }
    ensures sound { OnOk result ((pieces : List Piece) × IsModule strict (generated_text seed) pieces × IsSoundFor (SelfRun seed) pieces) }
    ensures refused { IfErr result (λ e. (e ≡ Memory) ⊎ IsModuleRefusal strict (generated_text seed) e) }
{
    let alloc = rt.alloc();
    let text = generated(alloc, seed)?;
    let printed = worked_out(rt, Writing::Optimised, workers, strict, &text, gate)?;
    let out = summary(alloc, seed, text.len(), printed.out.len(), printed.carried)?;
    Ok(Text {
        out,
        notes: printed.notes,
    })
}
