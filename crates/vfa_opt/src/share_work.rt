//! The work on shares of a module's items, as workers do it.

ghost use Rattle.std.specs.Prelude.{◌≡◌, ◌*◌, ◌<◌, ◌≤◌, All, length, IfOk};
ghost use Rattle.vfa_opt.specs.Works.{IsPlaced, IsPortion, items_in};

use crate::portions::{Portion, portion_of};
use crate::writings::Writing;
use std::alloc::{AllocError, Global};
use vfa_module::Item;
use vfa_par::Work;

/// How many items a share has: their number divided by that of the workers, rounded up, and at least one.
fn share_size(items: usize, workers: u32) -> usize
    requires { 1 ≤ workers }
    ensures some { 0 < result }
    ensures holds_all { items ≤ result * workers }
{
    items.div_ceil(workers as usize).max(1)
}

/// The items in shares of consecutive ones, at most one for each worker.
pub fn shares<'a>(
    alloc: Global,
    workers: u32,
    items: &'a [Item],
) -> Result<Vec<&'a [Item]>, AllocError>
    requires { 1 ≤ workers }
    ensures whole { IfOk result (λ all. items_in all.items ≡ items.now) }
    ensures few { IfOk result (λ all. length all.items ≤ workers) }
{
    let size = share_size(items.len(), workers);
    let mut all = Vec::new(alloc);
    'shares: for share in items.chunks(size) {
        all.push(share)?;
    }
    Ok(all)
}

/// What is written for items, and the text of their module.
#[derive(Clone, Copy)]
pub struct ShareWork<'a> {
    /// What is written.
    pub writing: Writing,
    /// The text of the module.
    pub bytes: &'a [u8],
}

impl<'a> Work for ShareWork<'a> {
    type In = &'a [Item];

    type Out = Portion;

    ghost can_run = { λ work items. All (IsPlaced work.bytes.now) items.now × (length work.bytes.now ≤ 16777216) };

    ghost is_result = { λ work items portion. IsPortion work.writing work.bytes.now items.now portion };

    fn run(&self, alloc: Global, input: &&'a [Item]) -> Result<Portion, AllocError> {
        portion_of(alloc, self.writing, self.bytes, input)
    }
}
