//! Where names are defined.

ghost use Rattle.std.specs.Prelude.{◌≡◌, MatchBool};
ghost use Rattle.std.specs.List.{list_any};
ghost use Rattle.vfa_ir.specs.Defined.{line_count};
ghost use Rattle.vfa_ir.specs.Walks.{IsDefinedAt, IsMissedAt};
ghost use Rattle.vfa_mean.specs.FreshOperands.{IsDefinedAtPlace};
ghost use Rattle.vfa_lazy.specs.Giving.{block_gives, gives_name};
ghost use Rattle.vfa_lazy.specs.Questions.{IsMissed, place_of};

use crate::questions::Place;
use vfa_check::Checked;
use vfa_ir::{BlockId, Function, Inst, ValueId};

/// Whether the name is the result of the instruction.
fn gives_name(inst: &Inst, v: ValueId) -> bool
    ensures { result ≡ gives_name v.0 inst.now }
{
    match inst.result {
        Some(given) => v.0 == given.0,
        None => false,
    }
}

/// Whether the name is the result of one of these instructions.
fn give_name(insts: &[Inst], v: ValueId) -> bool
    ensures { result ≡ list_any (gives_name v.0) insts.now }
{
    insts.iter().any(|inst| gives_name(inst, v))
}

/// Whether the name is the result of an instruction of the block, phis aside.
fn block_gives(f: &Function, b: BlockId, v: ValueId) -> bool
    ensures { result ≡ block_gives f.now b.0 v.0 }
{
    match f.blocks.as_slice().get(b.0 as usize) {
        Some(block) => give_name(block.insts.as_slice(), v),
        None => false,
    }
}

/// Whether the name is defined on every walk to the end of the block.
fn is_defined_behind(f: &Checked, b: BlockId, v: ValueId) -> bool
    ensures { MatchBool result (IsDefinedAt f.now b.0 (line_count f.now b.0) v.0) (IsMissedAt f.now b.0 (line_count f.now b.0) v.0) }
{
    if f.defined(b, v) {
        return true;
    }
    block_gives(f.function(), b, v)
}

/// Whether the name is defined on every walk to the place.
pub(crate) fn is_defined(f: &Checked, v: ValueId, place: Place) -> bool
    ensures { MatchBool result (IsDefinedAtPlace f.now (place_of place) v.0) (IsMissed f.now place v.0) }
{
    match place {
        Place::Entry(b) => f.defined(b, v),
        Place::Pair(from, _) => is_defined_behind(f, from, v),
    }
}
