//! The blocks of a function by their ids.

ghost use Rattle.std.specs.Prelude.{◌≡◌, slice_get};
ghost use Rattle.std.specs.Option.{option_map};

use vfa_ir::{Block, BlockId, Function};

/// The block of this id; None where the function has none.
pub(crate) fn block_at(f: &Function, b: BlockId) -> Option<&Block>
    ensures { option_map (λ x. x.now) result ≡ slice_get f.now.blocks b.0 }
{
    f.blocks.as_slice().get(b.0 as usize)
}
