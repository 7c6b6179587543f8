//! Readers of the header of a function.

ghost use Rattle.std.specs.Prelude.{◌≡◌, ◌∷◌, drop};
ghost use Rattle.std.specs.Str.{byte};
ghost use Rattle.vfa_read.specs.Headers.{starts_name, optional_name, parameter, parameters, header};
ghost use Rattle.vfa_read.specs.Productions.{after_commas};
ghost use Rattle.vfa_read.specs.Readers.{Gives, made, skip, next_passes};
ghost use Rattle.vfa_read.specs.Seen.{all_of};
ghost use Rattle.vfa_read.specs.Tables.{the_mark};
ghost use Rattle.vfa_read.specs.Trees.{header_of};

use crate::source::{Seen, Source};
use crate::stops::Stop;
use std::alloc::Global;
use vfa_ir::syntax::Parameter;
use vfa_ir::{Items, Name};

/// What stands before the tail of a function.
#[derive(Drop)]
pub struct FunctionHeader {
    /// The words between `define` and the type of the result.
    pub lead: Items<Name>,
    /// The width of the result.
    pub width: u32,
    /// The name of the function.
    pub name: Name,
    /// The parameters.
    pub parameters: Items<Parameter>,
}

impl<'a> Source<'a> {
    #[tactic(auto, using(crate::proofs::Starts::name_starts))]
    fn has_name(&self, at: usize) -> bool
        ensures { result ≡ next_passes starts_name (drop at (all_of self.now)) }
    {
        match self.seen(at) {
            Some(Seen::Local(_)) => true,
            _ => false,
        }
    }

    fn optional_name(&self, alloc: Global, at: usize) -> Result<(Option<Name>, usize), Stop>
        ensures { Gives (all_of self.now) result (optional_name (drop at (all_of self.now))) }
    {
        if self.has_name(at) {
            let (name, at) = self.local(alloc, at)?;
            return Ok((Some(name), at));
        }
        Ok((None, at))
    }

    /// A parameter.
    #[tactic(auto, unfolding(crate::specs::Headers::parameter))]
    pub fn parameter(&self, alloc: Global, at: usize) -> Result<(Parameter, usize), Stop>
        ensures { Gives (all_of self.now) result (parameter (drop at (all_of self.now))) }
    {
        let (width, at) = self.width(at)?;
        let (words, at) = self.attributes(alloc, at)?;
        let (name, at) = self.optional_name(alloc, at)?;
        Ok((Parameter { width, words, name }, at))
    }

    /// `, T %name`
    fn further_parameter(&self, alloc: Global, at: usize) -> Result<(Parameter, usize), Stop>
        ensures { Gives (all_of self.now) result (skip (the_mark (byte ",")) parameter (drop at (all_of self.now))) }
    {
        let at = self.mark(at, b',')?;
        self.parameter(alloc, at)
    }

    /// A parameter and those after it.
    fn parameters_after(
        &self,
        alloc: Global,
        first: Parameter,
        from: usize,
    ) -> Result<(Items<Parameter>, usize), Stop>
        ensures { Gives (all_of self.now) result (made (λ more. first ∷ more) (after_commas parameter) (drop from (all_of self.now))) }
    {
        let mut list = Vec::new(alloc);
        list.push(first)?;
        let mut at = from;
        'list: while self.has_mark(at, b',') {
            let (parameter, next) = self.further_parameter(alloc, at)?;
            list.push(parameter)?;
            at = next;
        }
        Ok((Items(list), at))
    }

    /// The parameters of a function.
    #[tactic(auto, unfolding(crate::specs::Headers::parameters))]
    fn parameters(&self, alloc: Global, at: usize) -> Result<(Items<Parameter>, usize), Stop>
        ensures { Gives (all_of self.now) result (parameters (drop at (all_of self.now))) }
    {
        if self.has_any_word(at) {
            let (first, at) = self.parameter(alloc, at)?;
            return self.parameters_after(alloc, first, at);
        }
        Ok((Items(Vec::new(alloc)), at))
    }

    /// The header of a function.
    #[tactic(auto, unfolding(crate::specs::Headers::header))]
    pub fn header(&self, alloc: Global, at: usize) -> Result<(FunctionHeader, usize), Stop>
        ensures { Gives (all_of self.now) result (made header_of header (drop at (all_of self.now))) }
    {
        let at = self.word(at, b"define")?;
        let (lead, at) = self.lead_words(alloc, at)?;
        let (width, at) = self.width(at)?;
        let (name, at) = self.global(alloc, at)?;
        let at = self.mark(at, b'(')?;
        let (parameters, at) = self.parameters(alloc, at)?;
        let at = self.mark(at, b')')?;
        Ok((
            FunctionHeader {
                lead,
                width,
                name,
                parameters,
            },
            at,
        ))
    }
}
