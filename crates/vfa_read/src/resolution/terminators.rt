//! Terminators, with ids in place of names.

ghost use Rattle.std.specs.Prelude.{[], ◌∷◌, map, All};
ghost use Rattle.vfa_ir.specs.DefinedNames.{terminator_uses};
ghost use Rattle.vfa_ir.specs.DefinedNames.Use.{of_block};
ghost use Rattle.vfa_ir.specs.Grammar.{FitsLiteral, FitsTerminatorKind, IsWidth};
ghost use Rattle.vfa_ir.specs.Resolution.{block_id, literal_bits as bits_of_literal, term_of};
ghost use Rattle.vfa_read.specs.Resolving.{Resolves};

use super::literals::literal_bits;
use super::table::SymbolTable;
use smallvec::SmallVec;
use std::alloc::Global;
use vfa_ir::syntax::{SwitchCase, TerminatorKind};
use vfa_ir::{BlockId, Few, Outside, Term};

impl SymbolTable {
    fn case(&self, alloc: Global, case: &SwitchCase, width: u32) -> Result<(u128, BlockId), Outside>
        requires width { IsWidth width }
        requires fits { FitsLiteral width case.now.number }
        ensures { Resolves self.now (of_block case.now.block ∷ []) (bits_of_literal width case.now.number, block_id self.now case.now.block) result }
    {
        let block = self.block(alloc, &case.block)?;
        Ok((literal_bits(&case.number, width), block))
    }

    fn cases(
        &self,
        alloc: Global,
        cases: &[SwitchCase],
        width: u32,
    ) -> Result<Few<(u128, BlockId)>, Outside>
        requires width { IsWidth width }
        requires fits { All (λ c. FitsLiteral width c.number) cases.now }
        ensures { Resolves self.now (map (λ c. of_block c.block) cases.now)
            (map (λ c. (bits_of_literal width c.number, block_id self.now c.block)) cases.now) result }
    {
        let mut list: SmallVec<(u128, BlockId), 4> = SmallVec::new(alloc);
        'each: for case in cases {
            let item = self.case(alloc, case, width)?;
            list.push(item)?;
        }
        Ok(Few(list))
    }

    /// The terminator of ids.
    pub fn terminator(&self, alloc: Global, kind: &TerminatorKind) -> Result<Term, Outside>
        requires { FitsTerminatorKind kind.now }
        ensures { Resolves self.now (terminator_uses kind.now) (term_of self.now kind.now) result }
    {
        match kind {
            TerminatorKind::Return { width, a } => {
                let a = self.operand(alloc, a, *width)?;
                Ok(Term::Ret { width: *width, a })
            }
            TerminatorKind::Always(to) => Ok(Term::Br(self.block(alloc, to)?)),
            TerminatorKind::Condition { c, yes, no } => {
                let c = self.operand(alloc, c, 1)?;
                let yes = self.block(alloc, yes)?;
                let no = self.block(alloc, no)?;
                Ok(Term::CondBr { c, yes, no })
            }
            TerminatorKind::Switch {
                width,
                on,
                other,
                cases,
            } => {
                let on = self.operand(alloc, on, *width)?;
                let other = self.block(alloc, other)?;
                let cases = self.cases(alloc, cases.as_slice(), *width)?;
                Ok(Term::Switch {
                    width: *width,
                    on,
                    other,
                    cases,
                })
            }
            TerminatorKind::Unreachable => Ok(Term::Unreachable),
        }
    }
}
