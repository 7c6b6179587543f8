//! Operands: names become ids, literals their bits.

ghost use Rattle.std.specs.Prelude.{◌++◌};
ghost use Rattle.vfa_ir.specs.DefinedNames.{value_uses};
ghost use Rattle.vfa_ir.specs.Grammar.{FitsPair, FitsValue, IsWidth};
ghost use Rattle.vfa_ir.specs.Resolution.{operand_of};
ghost use Rattle.vfa_read.specs.Resolving.{Resolves};

use super::literals::literal_bits;
use super::table::SymbolTable;
use std::alloc::Global;
use vfa_ir::syntax::Written;
use vfa_ir::{Operand, Outside};

impl SymbolTable {
    /// The operand of a width.
    pub fn operand(&self, alloc: Global, written: &Written, width: u32) -> Result<Operand, Outside>
        requires width { IsWidth width }
        requires fits { FitsValue width written.now }
        ensures { Resolves self.now (value_uses written.now) (operand_of self.now width written.now) result }
    {
        match written {
            Written::Local(name) => Ok(Operand::Value(self.value(alloc, name)?)),
            Written::Literal(literal) => Ok(Operand::Literal(literal_bits(literal, width))),
            Written::Poison => Ok(Operand::Poison),
        }
    }

    /// Two operands of one width.
    pub fn operands(
        &self,
        alloc: Global,
        a: &Written,
        b: &Written,
        width: u32,
    ) -> Result<(Operand, Operand), Outside>
        requires { FitsPair width a.now b.now }
        ensures { Resolves self.now (value_uses a.now ++ value_uses b.now) (operand_of self.now width a.now, operand_of self.now width b.now) result }
    {
        let first = self.operand(alloc, a, width)?;
        let second = self.operand(alloc, b, width)?;
        Ok((first, second))
    }
}
