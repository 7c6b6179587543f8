//! Phis, with ids in place of names.

ghost use Rattle.std.specs.Prelude.{map, flat_map, All};
ghost use Rattle.vfa_ir.specs.DefinedNames.{phi_uses};
ghost use Rattle.vfa_ir.specs.Grammar.{FitsPhi, FitsValue, IsWidth};
ghost use Rattle.vfa_ir.specs.Resolution.{phi_of};
ghost use Rattle.vfa_read.specs.Resolving.{entry_of, entry_uses, Resolves};

use super::table::SymbolTable;
use smallvec::SmallVec;
use std::alloc::Global;
use vfa_ir::syntax::{Incoming, PhiNode};
use vfa_ir::{BlockId, Few, Operand, Outside, Phi};

impl SymbolTable {
    fn entry(
        &self,
        alloc: Global,
        incoming: &Incoming,
        width: u32,
    ) -> Result<(Operand, BlockId), Outside>
        requires width { IsWidth width }
        requires fits { FitsValue width incoming.now.value }
        ensures { Resolves self.now (entry_uses incoming.now) (entry_of self.now width incoming.now) result }
    {
        let value = self.operand(alloc, &incoming.value, width)?;
        let block = self.block(alloc, &incoming.block)?;
        Ok((value, block))
    }

    fn entries(
        &self,
        alloc: Global,
        entries: &[Incoming],
        width: u32,
    ) -> Result<Few<(Operand, BlockId)>, Outside>
        requires width { IsWidth width }
        requires fits { All (λ i. FitsValue width i.value) entries.now }
        ensures { Resolves self.now (flat_map entry_uses entries.now) (map (entry_of self.now width) entries.now) result }
    {
        let mut list: SmallVec<(Operand, BlockId), 4> = SmallVec::new(alloc);
        'each: for incoming in entries {
            let item = self.entry(alloc, incoming, width)?;
            list.push(item)?;
        }
        Ok(Few(list))
    }

    /// The phi of ids.
    pub fn phi(&self, alloc: Global, phi: &PhiNode) -> Result<Phi, Outside>
        requires { FitsPhi phi.now }
        ensures { Resolves self.now (phi_uses phi.now) (phi_of self.now phi.now) result }
    {
        let entries = self.entries(alloc, phi.entries.as_slice(), phi.width)?;
        Ok(Phi {
            result: self.defined_value(&phi.result),
            width: phi.width,
            entries,
        })
    }
}
