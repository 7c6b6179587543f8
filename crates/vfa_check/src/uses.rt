//! The first use that some walk reaches without a definition of the name.

ghost use Rattle.std.specs.Prelude.{◌≡◌, ◌++◌, length, flat_map, IfNone, IfOk, MatchOption, Some, slice_get};
ghost use Rattle.vfa_cfg.specs.Sizes.{HasFewBlocks};
ghost use Rattle.vfa_check.specs.MissedUses.{IsFirstMissed};
ghost use Rattle.vfa_check.specs.NameRows.{IsRow};
ghost use Rattle.vfa_check.specs.Scopes.{AreScopes};
ghost use Rattle.vfa_check.specs.Uses.{IsScopeAt, Tells};
ghost use Rattle.vfa_check.specs.Within.{IsWithin};
ghost use Rattle.vfa_ir.specs.Defined.{Defined, block_uses, inst_uses, line_count, operand_names, phi_uses, term_names, uses_at, uses_of};

use crate::missed_names::{missed_in_op, missed_in_term};
use crate::name_rows::NameRow;
use crate::results::add_result;
use crate::scopes::Scopes;
use std::alloc::AllocError;
use vfa_ir::{Block, BlockId, Function, Operand, Phi, ValueId};

/// A use of a name.
#[derive(Clone, Copy, Debug, PartialEq, Eq)]
pub struct MissedUse {
    /// The name.
    pub name: ValueId,
    /// The block in which it is used; of the operand of a phi its predecessor.
    pub block: BlockId,
}

/// The use of an operand at the end of a block, if it is not defined on every walk there.
fn missed_behind(scopes: &Scopes, f: &Function, a: Operand, block: BlockId) -> Option<MissedUse>
    requires { AreScopes f.now scopes.now }
    ensures { Tells f.now (uses_at block.0 (line_count f.now block.0) (operand_names a)) result }
{
    let Operand::Value(name) = a else {
        return None;
    };
    if scopes.defined_behind(block, name) {
        return None;
    }
    Some(MissedUse { name, block })
}

/// The first missed use of a phi.
fn missed_in_phi(scopes: &Scopes, f: &Function, phi: &Phi) -> Option<MissedUse>
    requires { AreScopes f.now scopes.now }
    ensures { Tells f.now (phi_uses f.now phi.now) result }
{
    'entries: for entry in phi.entries.as_slice() {
        let missed = missed_behind(scopes, f, entry.0, entry.1);
        if missed.is_some() {
            return missed;
        }
    }
    None
}

/// The first missed use of phis.
fn missed_in_phis(scopes: &Scopes, f: &Function, phis: &[Phi]) -> Option<MissedUse>
    requires { AreScopes f.now scopes.now }
    ensures { Tells f.now (flat_map (phi_uses f.now) phis.now) result }
{
    'phis: for phi in phis {
        let missed = missed_in_phi(scopes, f, phi);
        if missed.is_some() {
            return missed;
        }
    }
    None
}

/// The first missed use of the instructions of a block. The set has the names in scope before the first of them, and then,
/// where all are defined, those before the terminator.
fn missed_in_insts(here: &mut NameRow, f: &Function, b: BlockId, block: &Block) -> Option<MissedUse>
    requires scope { IsScopeAt f.now b.0 0 here.old }
    requires row { IsRow (length f.now.values) here.old }
    requires within { IsWithin f.now }
    requires block { slice_get f.now.blocks b.0 ≡ Some block.now }
    ensures tells { Tells f.now (inst_uses f.now b.0 0 block.now.insts) result }
    ensures scope { IfNone result (IsScopeAt f.now b.0 (length block.now.insts) here.new) }
{
    'insts: for inst in block.insts.as_slice() {
        if let Some(name) = missed_in_op(here, f, &inst.op) {
            return Some(MissedUse { name, block: b });
        }
        add_result(here, inst);
    }
    None
}

/// The first missed use of the instructions and of the terminator of a block.
fn missed_in_lines(here: &mut NameRow, f: &Function, b: BlockId, block: &Block) -> Option<MissedUse>
    requires scope { IsScopeAt f.now b.0 0 here.old }
    requires row { IsRow (length f.now.values) here.old }
    requires within { IsWithin f.now }
    requires block { slice_get f.now.blocks b.0 ≡ Some block.now }
    ensures { Tells f.now (inst_uses f.now b.0 0 block.now.insts ++ uses_at b.0 (length block.now.insts) (term_names block.now.term)) result }
{
    let missed = missed_in_insts(here, f, b, block);
    if missed.is_some() {
        return missed;
    }
    match missed_in_term(here, &block.term) {
        Some(name) => Some(MissedUse { name, block: b }),
        None => None,
    }
}

/// The first missed use of a block.
fn missed_in_block(
    scopes: &Scopes,
    f: &Function,
    b: BlockId,
    block: &Block,
) -> Result<Option<MissedUse>, AllocError>
    requires scopes { AreScopes f.now scopes.now }
    requires within { IsWithin f.now }
    requires block { slice_get f.now.blocks b.0 ≡ Some block.now }
    ensures { IfOk result (Tells f.now (block_uses f.now b.0 block.now)) }
{
    let missed = missed_in_phis(scopes, f, block.phis.as_slice());
    if missed.is_some() {
        return Ok(missed);
    }
    let mut here = scopes.entry(b)?;
    Ok(missed_in_lines(&mut here, f, b, block))
}

/// The first use in text order of a name that is not defined on every walk to the use, or none where all names are used
/// only where they are defined. The operand of a phi is used at the end of its predecessor, and that is the block of the
/// use. Uses in blocks that no walk reaches are free.
///
/// In `entry: br i1 %c, label %a, label %b`, `a: %x = add i8 %p, 1`, `br label %b`, `b: ret i8 %x` it is `%x` in b.
pub(crate) fn undefined_use(f: &Function, scopes: &Scopes) -> Result<Option<MissedUse>, AllocError>
    requires scopes { AreScopes f.now scopes.now }
    requires within { IsWithin f.now }
    requires few { HasFewBlocks f.now }
    ensures { IfOk result (λ found. MatchOption found (Defined f.now) (IsFirstMissed f.now (uses_of f.now))) }
{
    let mut b: u32 = 0;
    'each: for block in f.blocks.as_slice() {
        let missed = missed_in_block(scopes, f, BlockId(b), block)?;
        if missed.is_some() {
            return Ok(missed);
        }
        b += 1;
    }
    Ok(None)
}
