//! The values and blocks that a function defines.

ghost use Rattle.std.specs.Prelude.{◌≡◌, ◌≤◌, ◌<◌, ◌+◌, [], ◌∷◌, length, filter_map, map, false, unwrap_or, decimal, if◌then◌else◌, IfOk, IfErr};
ghost use Rattle.vfa_ir.specs.DefinedNames.{block_results, parameter_names, is_numbered as parameter_is_numbered};
ghost use Rattle.vfa_ir.specs.DefinedNames.Use.{of_value, of_block};
ghost use Rattle.vfa_ir.specs.Limits.{most_blocks, most_names};
ghost use Rattle.vfa_ir.specs.Resolution.{Scope, value_id, block_id};
ghost use Rattle.vfa_ir.specs.Words.{is_among};
ghost use Rattle.vfa_read.specs.Resolving.{defined_in, label_of, names_of_block, names_of_blocks, only_values, one_block, no_names, Left, IsRepeated, Resolves};

use super::symbols::Symbols;
use std::alloc::{AllocError, Global};
use std::marker::Model;
use vfa_ir::syntax::{BasicBlock, Instruction, Parameter, PhiNode};
use vfa_ir::{BlockId, Name, Outside, ValueId, is_digits};

fn block_label(alloc: Global, numbered: usize, block: &BasicBlock) -> Result<Name, AllocError>
    ensures { IfOk result (λ name. name ≡ label_of numbered block.now) }
{
    match &block.label {
        Some(name) => name.copied(alloc),
        None => Name::decimal(alloc, numbered),
    }
}

fn parameter_name(alloc: Global, numbered: usize, parameter: &Parameter) -> Result<Name, AllocError>
    ensures { IfOk result (λ name. name ≡ unwrap_or parameter.now.name (decimal numbered)) }
{
    match &parameter.name {
        Some(name) => name.copied(alloc),
        None => Name::decimal(alloc, numbered),
    }
}

/// Whether a parameter is numbered: it has no name, or one of digits alone.
pub fn is_numbered(parameter: &Parameter) -> bool
    ensures { result ≡ parameter_is_numbered parameter.now }
{
    match &parameter.name {
        Some(name) => is_digits(name.bytes()),
        None => true,
    }
}

/// The values and the blocks of a function, each in text order. Contracts see what its names mean.
#[derive(Drop)]
pub struct SymbolTable {
    values: Symbols,
    blocks: Symbols,
}

impl Model for SymbolTable {
    ghost Value = { Scope };

    ghost view = { λ t. record { values = t.values; blocks = t.blocks } };

    ghost invariant = { λ t. (length t.values ≤ most_names) × (length t.blocks ≤ most_blocks) };
}

impl SymbolTable {
    /// No names.
    pub fn new(alloc: Global) -> SymbolTable
        ensures { result ≡ record { values = []; blocks = [] } }
    {
        SymbolTable {
            values: Symbols::new(alloc),
            blocks: Symbols::new(alloc),
        }
    }

    /// That a name is new; else the error that it is defined twice.
    fn check_new(&self, alloc: Global, name: &[u8]) -> Result<(), Outside>
        ensures ok { IfOk result (λ _. is_among name.now (defined_in self.now) ≡ false) }
        ensures err { IfErr result (λ e. IsRepeated self.now (name.now ∷ []) e) }
    {
        if self.values.has(name) {
            return Err(Outside::Duplicate(Name::of(alloc, name)?));
        }
        if self.blocks.has(name) {
            return Err(Outside::Duplicate(Name::of(alloc, name)?));
        }
        Ok(())
    }

    /// Defines a value.
    pub fn define_value(&mut self, alloc: Global, name: &[u8]) -> Result<(), Outside>
        requires { length self.old.values < most_names }
        ensures ok { IfOk result (λ _. Left self.old (only_values (name.now ∷ [])) self.new no_names) }
        ensures err { IfErr result (λ e. IsRepeated self.old (name.now ∷ []) e) }
    {
        self.check_new(alloc, name)?;
        self.values.add(alloc, name)?;
        Ok(())
    }

    /// Defines a block.
    pub fn define_block(&mut self, alloc: Global, name: &[u8]) -> Result<(), Outside>
        requires { length self.old.blocks < most_blocks }
        ensures ok { IfOk result (λ _. Left self.old (one_block name.now) self.new no_names) }
        ensures err { IfErr result (λ e. IsRepeated self.old (name.now ∷ []) e) }
    {
        self.check_new(alloc, name)?;
        self.blocks.add(alloc, name)?;
        Ok(())
    }

    /// The value of a name.
    pub fn value(&self, alloc: Global, name: &Name) -> Result<ValueId, Outside>
        ensures { Resolves self.now (of_value name.now ∷ []) (value_id self.now name.now) result }
    {
        match self.values.place(name.bytes()) {
            Some(place) => Ok(ValueId(place as u32)),
            None => Err(Outside::Unknown(name.copied(alloc)?)),
        }
    }

    /// The value of a name that is defined.
    pub fn defined_value(&self, name: &Name) -> ValueId
        ensures { result ≡ value_id self.now name.now }
    {
        match self.values.place(name.bytes()) {
            Some(place) => ValueId(place as u32),
            None => ValueId(0),
        }
    }

    /// The block of a name.
    pub fn block(&self, alloc: Global, name: &Name) -> Result<BlockId, Outside>
        ensures { Resolves self.now (of_block name.now ∷ []) (block_id self.now name.now) result }
    {
        match self.blocks.place(name.bytes()) {
            Some(place) => Ok(BlockId(place as u32)),
            None => Err(Outside::Unknown(name.copied(alloc)?)),
        }
    }

    fn define_instruction(
        &mut self,
        alloc: Global,
        instruction: &Instruction,
    ) -> Result<(), Outside>
        requires { length self.old.values + length (filter_map (λ i. i.result) (instruction.now ∷ [])) ≤ most_names }
        ensures ok { IfOk result (λ _. Left self.old (only_values (filter_map (λ i. i.result) (instruction.now ∷ []))) self.new no_names) }
        ensures err { IfErr result (λ e. IsRepeated self.old (filter_map (λ i. i.result) (instruction.now ∷ [])) e) }
    {
        match &instruction.result {
            Some(name) => self.define_value(alloc, name.bytes()),
            None => Ok(()),
        }
    }

    fn define_phi(&mut self, alloc: Global, phi: &PhiNode) -> Result<(), Outside>
        requires { length self.old.values + length (map (λ p. p.result) (phi.now ∷ [])) ≤ most_names }
        ensures ok { IfOk result (λ _. Left self.old (only_values (map (λ p. p.result) (phi.now ∷ []))) self.new no_names) }
        ensures err { IfErr result (λ e. IsRepeated self.old (map (λ p. p.result) (phi.now ∷ [])) e) }
    {
        self.define_value(alloc, phi.result.bytes())
    }

    fn define_phis(&mut self, alloc: Global, phis: &[PhiNode]) -> Result<(), Outside>
        requires { length self.old.values + length (map (λ p. p.result) phis.now) ≤ most_names }
        ensures ok { IfOk result (λ _. Left self.old (only_values (map (λ p. p.result) phis.now)) self.new no_names) }
        ensures err { IfErr result (λ e. IsRepeated self.old (map (λ p. p.result) phis.now) e) }
    {
        'each: for phi in phis {
            self.define_phi(alloc, phi)?;
        }
        Ok(())
    }

    fn define_instructions(
        &mut self,
        alloc: Global,
        instructions: &[Instruction],
    ) -> Result<(), Outside>
        requires { length self.old.values + length (filter_map (λ i. i.result) instructions.now) ≤ most_names }
        ensures ok { IfOk result (λ _. Left self.old (only_values (filter_map (λ i. i.result) instructions.now)) self.new no_names) }
        ensures err { IfErr result (λ e. IsRepeated self.old (filter_map (λ i. i.result) instructions.now) e) }
    {
        'each: for instruction in instructions {
            self.define_instruction(alloc, instruction)?;
        }
        Ok(())
    }

    fn define_results(&mut self, alloc: Global, block: &BasicBlock) -> Result<(), Outside>
        requires { length self.old.values + length (block_results block.now) ≤ most_names }
        ensures ok { IfOk result (λ _. Left self.old (only_values (block_results block.now)) self.new no_names) }
        ensures err { IfErr result (λ e. IsRepeated self.old (block_results block.now) e) }
    {
        self.define_phis(alloc, block.phis.as_slice())?;
        self.define_instructions(alloc, block.instructions.as_slice())
    }

    /// Defines a block and its results, where so many parameters are numbered.
    fn define_with_results(
        &mut self,
        alloc: Global,
        numbered: usize,
        block: &BasicBlock,
    ) -> Result<(), Outside>
        requires values { length self.old.values + length (block_results block.now) ≤ most_names }
        requires blocks { length self.old.blocks < most_blocks }
        ensures ok { IfOk result (λ _. Left self.old (names_of_block numbered block.now) self.new no_names) }
        ensures err { IfErr result (λ e. IsRepeated self.old (label_of numbered block.now ∷ block_results block.now) e) }
    {
        let label = block_label(alloc, numbered, block)?;
        self.define_block(alloc, label.bytes())?;
        self.define_results(alloc, block)?;
        Ok(())
    }

    /// Defines the blocks and their results, where so many parameters are numbered.
    pub fn define_blocks(
        &mut self,
        alloc: Global,
        numbered: usize,
        blocks: &[BasicBlock],
    ) -> Result<(), Outside>
        requires values { length self.old.values + length (names_of_blocks numbered blocks.now).values ≤ most_names }
        requires blocks { length self.old.blocks + length (names_of_blocks numbered blocks.now).blocks ≤ most_blocks }
        ensures ok { IfOk result (λ _. Left self.old (names_of_blocks numbered blocks.now) self.new no_names) }
        ensures err { IfErr result (λ e. IsRepeated self.old (names_of_blocks numbered blocks.now).all e) }
    {
        'each: for block in blocks {
            self.define_with_results(alloc, numbered, block)?;
        }
        Ok(())
    }

    /// Defines a parameter, before which so many are numbered. Answers how many are then.
    fn define_parameter(
        &mut self,
        alloc: Global,
        numbered: usize,
        parameter: &Parameter,
    ) -> Result<usize, Outside>
        requires values { length self.old.values < most_names }
        requires few { numbered < most_names }
        ensures ok { IfOk result (λ _. Left self.old (only_values (unwrap_or parameter.now.name (decimal numbered) ∷ [])) self.new no_names) }
        ensures next { IfOk result (λ n. n ≡ (if parameter_is_numbered parameter.now then numbered + 1 else numbered)) }
        ensures err { IfErr result (λ e. IsRepeated self.old (unwrap_or parameter.now.name (decimal numbered) ∷ []) e) }
    {
        let name = parameter_name(alloc, numbered, parameter)?;
        self.define_value(alloc, name.bytes())?;
        if is_numbered(parameter) {
            return Ok(numbered + 1);
        }
        Ok(numbered)
    }

    /// Defines the parameters.
    pub fn define_parameters(
        &mut self,
        alloc: Global,
        parameters: &[Parameter],
    ) -> Result<(), Outside>
        requires { length self.old.values + length (parameter_names 0 parameters.now) ≤ most_names }
        ensures ok { IfOk result (λ _. Left self.old (only_values (parameter_names 0 parameters.now)) self.new no_names) }
        ensures err { IfErr result (λ e. IsRepeated self.old (parameter_names 0 parameters.now) e) }
    {
        let mut numbered = 0;
        'each: for parameter in parameters {
            numbered = self.define_parameter(alloc, numbered, parameter)?;
        }
        Ok(())
    }
}
