//! Readers of phis.

ghost use Rattle.std.specs.Prelude.{◌≡◌, ◌≤◌, [], ◌∷◌, ◌++◌, drop, true, IfOk};
ghost use Rattle.vfa_read.specs.Items.{attachments_of, entries_of, parts_after};
ghost use Rattle.vfa_read.specs.Productions.{incoming, part_reader, phi_part, phi_parts, phi_rest, still_operands};
ghost use Rattle.vfa_read.specs.Readers.{Gives, made};
ghost use Rattle.vfa_read.specs.Seen.{all_of};

use crate::lines::Line;
use crate::source::Source;
use crate::stops::Stop;
use std::alloc::{AllocError, Global};
use vfa_ir::syntax::{Attachment, Incoming, PhiNode};
use vfa_ir::{Items, Name};

/// What stands after a comma of a phi.
#[derive(Drop)]
pub enum PhiPart {
    /// A further operand.
    Entry(Incoming),
    /// Metadata.
    Attached(Attachment),
}

/// The operands of a phi, and its metadata.
#[derive(Drop)]
pub struct PhiParts {
    /// The operands.
    pub entries: Items<Incoming>,
    /// The metadata.
    pub attached: Items<Attachment>,
}

impl PhiParts {
    /// A first operand alone.
    fn of_first(alloc: Global, first: Incoming) -> Result<PhiParts, AllocError>
        ensures { IfOk result (λ parts. parts ≡ parts_after first []) }
    {
        let mut entries = Vec::new(alloc);
        entries.push(first)?;
        Ok(PhiParts {
            entries: Items(entries),
            attached: Items(Vec::new(alloc)),
        })
    }

    /// Puts a part last.
    fn push(&mut self, part: PhiPart) -> Result<(), AllocError>
        ensures entries { IfOk result (λ _. self.new.entries ≡ self.old.entries ++ entries_of (part ∷ [])) }
        ensures attached { IfOk result (λ _. self.new.attached ≡ self.old.attached ++ attachments_of (part ∷ [])) }
    {
        match part {
            PhiPart::Entry(incoming) => self.entries.0.push(incoming)?,
            PhiPart::Attached(attachment) => self.attached.0.push(attachment)?,
        }
        Ok(())
    }
}

/// Whether operands of the phi may still follow.
fn still_operands(operands: bool, part: &PhiPart) -> bool
    ensures { result ≡ still_operands operands part.now }
{
    match part {
        PhiPart::Entry(_) => operands,
        PhiPart::Attached(_) => false,
    }
}

impl<'a> Source<'a> {
    /// `[ V , %name ]`
    #[tactic(auto, unfolding(crate::specs::Productions::incoming))]
    fn incoming(&self, alloc: Global, at: usize, width: u32) -> Result<(Incoming, usize), Stop>
        requires least { 1 ≤ width }
        requires most { width ≤ 128 }
        ensures { Gives (all_of self.now) result (incoming width (drop at (all_of self.now))) }
    {
        let at = self.mark(at, b'[')?;
        let (value, at) = self.value(alloc, at, width)?;
        let at = self.mark(at, b',')?;
        let (block, at) = self.local(alloc, at)?;
        let at = self.mark(at, b']')?;
        Ok((Incoming { value, block }, at))
    }

    fn part_reader(
        &self,
        alloc: Global,
        at: usize,
        width: u32,
        operands: bool,
    ) -> Result<(PhiPart, usize), Stop>
        requires least { 1 ≤ width }
        requires most { width ≤ 128 }
        ensures { Gives (all_of self.now) result (part_reader width operands (drop at (all_of self.now))) }
    {
        if operands {
            if self.has_mark(at, b'[') {
                let (entry, at) = self.incoming(alloc, at, width)?;
                return Ok((PhiPart::Entry(entry), at));
            }
        }
        let (attachment, at) = self.metadata_pair(alloc, at)?;
        Ok((PhiPart::Attached(attachment), at))
    }

    /// What stands after a comma of a phi.
    #[tactic(auto, unfolding(crate::specs::Productions::phi_part))]
    fn phi_part(
        &self,
        alloc: Global,
        at: usize,
        width: u32,
        operands: bool,
    ) -> Result<(PhiPart, usize), Stop>
        requires least { 1 ≤ width }
        requires most { width ≤ 128 }
        ensures { Gives (all_of self.now) result (phi_part width operands (drop at (all_of self.now))) }
    {
        let at = self.mark(at, b',')?;
        self.part_reader(alloc, at, width, operands)
    }

    /// The operands of a phi from the first on, and the metadata after them.
    fn parts_after(
        &self,
        alloc: Global,
        first: Incoming,
        from: usize,
        width: u32,
    ) -> Result<(PhiParts, usize), Stop>
        requires least { 1 ≤ width }
        requires most { width ≤ 128 }
        ensures { Gives (all_of self.now) result (made (parts_after first) (phi_parts width true) (drop from (all_of self.now))) }
    {
        let mut parts = PhiParts::of_first(alloc, first)?;
        let mut at = from;
        let mut operands = true;
        'list: while self.has_mark(at, b',') {
            let (part, next) = self.phi_part(alloc, at, width, operands)?;
            operands = still_operands(operands, &part);
            parts.push(part)?;
            at = next;
        }
        Ok((parts, at))
    }

    /// A phi, after its word.
    #[tactic(auto, unfolding(crate::specs::Productions::phi_rest))]
    pub fn phi_rest(
        &self,
        alloc: Global,
        at: usize,
        result_name: Name,
    ) -> Result<(Line, usize), Stop>
        ensures { Gives (all_of self.now) result (phi_rest result_name (drop at (all_of self.now))) }
    {
        let (width, at) = self.width(at)?;
        let (first, at) = self.incoming(alloc, at, width)?;
        let (parts, at) = self.parts_after(alloc, first, at, width)?;
        let phi = PhiNode {
            result: result_name,
            width,
            entries: parts.entries,
            attached: parts.attached,
        };
        Ok((Line::Phi(phi), at))
    }
}
