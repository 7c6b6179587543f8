//! What is written for the functions of a whole module.

ghost use Rattle.std.specs.Prelude.{◌≡◌, ◌≤◌, ◌⊎◌, ◌^◌, Bool, true, All, [], None, length, Ok, IfOk, IfErr, OnOk};
ghost use Rattle.vfa_ir.specs.DefinedNames.{first_repeated};
ghost use Rattle.vfa_module.specs.Split.{split_of};
ghost use Rattle.vfa_opt.specs.Refusals.{IsModuleRefusal};
ghost use Rattle.vfa_opt.specs.Works.{ArePortions, IsMade, IsPlaced, IsRefusedFor, IsWritten, names_of};
ghost use Rattle.vfa_opt.specs.declared.refusals.Refused.TheVariants.{Memory};

use crate::joined::joined;
use crate::names::repeated_name;
use crate::portions::Portion;
use crate::refusals::Refused;
use crate::share_work::{ShareWork, shares};
use crate::writings::Writing;
use std::alloc::{AllocError, AllocGlobal, Global};
use std::thread::Threads;
use vfa_module::{Item, SplitFault, split};
use vfa_par::{Gate, each};

/// The items of a module's text.
fn items_of(alloc: Global, bytes: &[u8]) -> Result<Vec<Item>, Refused>
    requires { length bytes.now ≤ 16777216 }
    ensures items { IfOk result (λ items. split_of bytes.now ≡ Ok items.items) }
    ensures places { IfOk result (λ items. All (IsPlaced bytes.now) items.items) }
    ensures refused { (strict : Bool) → IfErr result (λ e. (e ≡ Memory) ⊎ IsModuleRefusal strict bytes.now e) }
{
    match split(alloc, bytes) {
        Ok(items) => Ok(items),
        Err(SplitFault::Unclosed(start)) => Err(Refused::Unclosed(start)),
        Err(SplitFault::BadLine(line)) => Err(Refused::BadLine(line)),
        Err(SplitFault::Memory) => Err(Refused::Memory),
    }
}

/// What is made of the items by so many workers, each of which has a share of them.
fn portions<R: AllocGlobal + Threads + Sync, G: Gate>(
    rt: &R,
    writing: Writing,
    workers: u32,
    bytes: &[u8],
    items: &[Item],
    gate: &G,
) -> Result<Vec<Portion>, AllocError>
    requires places { All (IsPlaced bytes.now) items.now }
    requires limit { length bytes.now ≤ 16777216 }
    requires workers { (1 ≤ workers) × (workers ≤ 64) }
    ensures { IfOk result (λ all. ArePortions writing bytes.now items.now all.items) }
{
    let alloc = rt.alloc();
    let shares = shares(alloc, workers, items)?;
    let work = ShareWork { writing, bytes };
    each(rt, alloc, workers, &shares, &work, gate)
}

/// What is made of all items of a module by so many workers, or why it has none.
fn made<R: AllocGlobal + Threads + Sync, G: Gate>(
    rt: &R,
    writing: Writing,
    workers: u32,
    bytes: &[u8],
    gate: &G,
) -> Result<Portion, Refused>
    requires limit { length bytes.now ≤ 16777216 }
    requires workers { (1 ≤ workers) × (workers ≤ 64) }
    ensures made { IfOk result (IsMade writing bytes.now) }
    ensures refused { (strict : Bool) → IfErr result (λ e. (e ≡ Memory) ⊎ IsModuleRefusal strict bytes.now e) }
{
    let alloc = rt.alloc();
    let items = items_of(alloc, bytes)?;
    let portions = portions(rt, writing, workers, bytes, &items, gate)?;
    // A long module has many items, and they are not read again.
    drop(items);
    Ok(joined(alloc, portions)?)
}

/// What is made of a module, unless it is refused.
///
/// `DuplicateFunction` comes exactly where two accepted functions have one name, for the first that stands a second time;
/// `Strict` exactly where none have, a function stays as it is and `strict` holds, for the first.
fn unless_refused(alloc: Global, strict: bool, mut whole: Portion) -> Result<Portion, Refused>
    ensures same { IfOk result (λ out. out ≡ whole) }
    ensures distinct { OnOk result (first_repeated [] (names_of whole.accepted.items) ≡ None) }
    ensures whole { OnOk result (strict ≡ true → whole.first_carried ≡ None) }
    ensures refused { IfErr result (λ e. (e ≡ Memory) ⊎ IsRefusedFor strict whole e) }
{
    if let Some(name) = repeated_name(alloc, &whole.accepted)? {
        return Err(Refused::DuplicateFunction(name));
    }
    if strict {
        if let Some(function) = whole.first_carried.take() {
            return Err(Refused::Strict(function.name, function.reason));
        }
    }
    Ok(whole)
}

/// What is written for a module by so many workers, or why the input is none.
pub fn worked_out<R: AllocGlobal + Threads + Sync, G: Gate>(
    rt: &R,
    writing: Writing,
    workers: u32,
    strict: bool,
    bytes: &[u8],
    gate: &G,
) -> Result<Portion, Refused>
    requires limit { length bytes.now ≤ 2 ^ 24 }
    requires workers { (1 ≤ workers) × (workers ≤ 64) }
    ensures written { IfOk result (IsWritten writing strict bytes.now) }
    ensures refused { IfErr result (λ e. (e ≡ Memory) ⊎ IsModuleRefusal strict bytes.now e) }
{
    let whole = made(rt, writing, workers, bytes, gate)?;
    unless_refused(rt.alloc(), strict, whole)
}
