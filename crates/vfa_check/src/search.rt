//! The search for the names in scope: ends are sent along edges until no entry loses a name.

ghost use Rattle.std.specs.Prelude.{◌≡◌, ◌<◌, ℕ, true, false, length, All};
ghost use Rattle.vfa_cfg.specs.Order.{IsOrder};
ghost use Rattle.vfa_cfg.specs.Sizes.{HasFewBlocks};
ghost use Rattle.vfa_check.specs.Flow.{IsFlow, IsSettled, is_sent, sent_edges, weight};
ghost use Rattle.vfa_check.specs.Within.{IsWithin};
ghost use Rattle.vfa_ir.specs.Walks.{successors};

use crate::flow::Flow;
use crate::narrowing::{narrow, renew};
use vfa_cfg::successor;
use vfa_ir::{BlockId, Function};

/// Sends the end of a block along its edges. Whether an entry has lost anything.
fn send_along(flow: &mut Flow, f: &Function, from: BlockId) -> bool
    requires flow { IsFlow f.now (sent_edges f.now from.0 0) flow.old }
    requires within { IsWithin f.now }
    requires few { HasFewBlocks f.now }
    requires block { from.0 < length f.now.blocks }
    ensures flow { IsFlow f.now (successors f.now) flow.new }
    ensures sent { result ≡ false → flow.new.unsent.items ≡ flow.old.unsent.items }
    ensures same { result ≡ false → weight flow.new.entries.items ≡ weight flow.old.entries.items }
    ensures less { result ≡ true → weight flow.new.entries.items < weight flow.old.entries.items }
{
    let mut lost = false;
    let mut k: usize = 0;
    'edges: while let Some(to) = successor(f, from, k) {
        let lost_here = narrow(flow, f, from, to);
        lost |= lost_here;
        k += 1;
    }
    lost
}

/// Sends the end of a block along its edges, if the block has lost names since that was done last. Whether an entry has
/// lost anything.
fn send(flow: &mut Flow, f: &Function, from: BlockId) -> bool
    requires flow { IsFlow f.now (successors f.now) flow.old }
    requires within { IsWithin f.now }
    requires few { HasFewBlocks f.now }
    requires block { from.0 < length f.now.blocks }
    ensures flow { IsFlow f.now (successors f.now) flow.new }
    ensures sent { result ≡ false → is_sent flow.new from.0 ≡ true }
    ensures others { result ≡ false → (b : ℕ) → is_sent flow.old b ≡ true → is_sent flow.new b ≡ true }
    ensures same { result ≡ false → weight flow.new.entries.items ≡ weight flow.old.entries.items }
    ensures less { result ≡ true → weight flow.new.entries.items < weight flow.old.entries.items }
{
    if !flow.unsent[from.0 as usize] {
        return false;
    }
    renew(flow, f, from);
    send_along(flow, f, from)
}

/// Goes once through the order. Whether an entry has lost anything.
fn send_all(flow: &mut Flow, f: &Function, order: &[BlockId]) -> bool
    requires flow { IsFlow f.now (successors f.now) flow.old }
    requires within { IsWithin f.now }
    requires few { HasFewBlocks f.now }
    requires order { IsOrder f.now order.now }
    ensures flow { IsFlow f.now (successors f.now) flow.new }
    ensures settled { result ≡ false → IsSettled order.now flow.new }
    ensures less { result ≡ true → weight flow.new.entries.items < weight flow.old.entries.items }
{
    let mut lost = false;
    'places: for b in order {
        let lost_here = send(flow, f, *b);
        lost |= lost_here;
    }
    lost
}

/// Goes through the order until no entry loses a name.
pub(crate) fn settle(flow: &mut Flow, f: &Function, order: &[BlockId])
    requires flow { IsFlow f.now (successors f.now) flow.old }
    requires within { IsWithin f.now }
    requires few { HasFewBlocks f.now }
    requires order { IsOrder f.now order.now }
    ensures flow { IsFlow f.now (successors f.now) flow.new }
    ensures settled { IsSettled order.now flow.new }
{
    'rounds: while send_all(flow, f, order) {}
}
