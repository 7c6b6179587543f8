//! The names that a block defines, added to a set.

ghost use Rattle.std.specs.Prelude.{◌≡◌, ◌<◌, ◌||◌, ◌∷◌, [], ℕ, All, map};
ghost use Rattle.vfa_check.specs.NameRows.{IsRow, has_name};
ghost use Rattle.vfa_ir.specs.Printable.{block_ids, inst_ids};
ghost use Rattle.vfa_ir.specs.Walks.{is_in};

use crate::name_rows::NameRow;
use vfa_ir::{Block, Inst, Param, Phi};

/// Adds the parameters.
pub(crate) fn add_parameters(row: &mut NameRow, params: &[Param])
    requires row { IsRow row.old.names row.old }
    requires names { All (λ v. v < row.old.names) (map (λ p. p.value.0) params.now) }
    ensures row { (count : ℕ) → IsRow count row.old → IsRow count row.new }
    ensures added { (v : ℕ) → has_name row.new v ≡ (is_in v (map (λ p. p.value.0) params.now) || has_name row.old v) }
{
    'params: for param in params {
        row.add(param.value);
    }
}

/// Adds the results of phis.
pub(crate) fn add_phis(row: &mut NameRow, phis: &[Phi])
    requires row { IsRow row.old.names row.old }
    requires names { All (λ v. v < row.old.names) (map (λ p. p.result.0) phis.now) }
    ensures row { (count : ℕ) → IsRow count row.old → IsRow count row.new }
    ensures added { (v : ℕ) → has_name row.new v ≡ (is_in v (map (λ p. p.result.0) phis.now) || has_name row.old v) }
{
    'phis: for phi in phis {
        row.add(phi.result);
    }
}

/// Adds the result of an instruction, if it has one.
pub(crate) fn add_result(row: &mut NameRow, inst: &Inst)
    requires row { IsRow row.old.names row.old }
    requires names { All (λ v. v < row.old.names) (inst_ids (inst.now ∷ [])) }
    ensures row { (count : ℕ) → IsRow count row.old → IsRow count row.new }
    ensures added { (v : ℕ) → has_name row.new v ≡ (is_in v (inst_ids (inst.now ∷ [])) || has_name row.old v) }
{
    if let Some(v) = inst.result {
        row.add(v);
    }
}

fn add_insts(row: &mut NameRow, insts: &[Inst])
    requires row { IsRow row.old.names row.old }
    requires names { All (λ v. v < row.old.names) (inst_ids insts.now) }
    ensures row { (count : ℕ) → IsRow count row.old → IsRow count row.new }
    ensures added { (v : ℕ) → has_name row.new v ≡ (is_in v (inst_ids insts.now) || has_name row.old v) }
{
    'insts: for inst in insts {
        add_result(row, inst);
    }
}

/// Adds all results of a block.
pub(crate) fn add_results(row: &mut NameRow, block: &Block)
    requires row { IsRow row.old.names row.old }
    requires names { All (λ v. v < row.old.names) (block_ids block.now) }
    ensures row { (count : ℕ) → IsRow count row.old → IsRow count row.new }
    ensures added { (v : ℕ) → has_name row.new v ≡ (is_in v (block_ids block.now) || has_name row.old v) }
{
    add_phis(row, block.phis.as_slice());
    add_insts(row, block.insts.as_slice());
}
