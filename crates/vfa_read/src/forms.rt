//! The words that operations and terminators begin with.

ghost use Rattle.std.specs.Prelude.{◌≡◌, drop};
ghost use Rattle.vfa_ir.specs.Words.{keyword};
ghost use Rattle.vfa_read.specs.Productions.{forms, form_rest, form_word, operation, endings, ending_rest, ending_word, terminator_kind, terminator, marked_call};
ghost use Rattle.vfa_read.specs.Readers.{Gives, one};
ghost use Rattle.vfa_read.specs.Seen.{all_of};
ghost use Rattle.vfa_read.specs.Tables.{keyword_in};

use crate::source::{Seen, Source};
use crate::stops::Stop;
use std::alloc::Global;
use vfa_ir::syntax::{Operation, Terminator, TerminatorKind};
use vfa_ir::{Bin, Cast, Keyword, Name, keyword_of};

/// What an operation begins with.
#[derive(Clone, Copy)]
pub enum Form {
    /// The word of a binary operation.
    Binary(Bin),
    /// `icmp`
    Compare,
    /// `select`
    Select,
    /// The word of a conversion.
    Convert(Cast),
    /// `freeze`
    Freeze,
    /// `extractvalue`
    Extract,
    /// `call`
    Call,
    /// `tail`, before `call`.
    Tail,
    /// `notail`, before `call`.
    Notail,
}

/// What a terminator begins with.
#[derive(Clone, Copy)]
pub enum Ending {
    /// `ret`
    Return,
    /// `br`
    Branch,
    /// `switch`
    Switch,
    /// `unreachable`
    Unreachable,
}

impl Keyword for Form {
    ghost spelled = { form_word };

    fn word(self) -> &'static [u8] {
        match self {
            Form::Binary(bin) => bin.word(),
            Form::Compare => b"icmp",
            Form::Select => b"select",
            Form::Convert(cast) => cast.word(),
            Form::Freeze => b"freeze",
            Form::Extract => b"extractvalue",
            Form::Call => b"call",
            Form::Tail => b"tail",
            Form::Notail => b"notail",
        }
    }
}

/// The forms that are no binary operation and no conversion.
const OTHER_FORMS: [Form; 7] = [
    Form::Compare,
    Form::Select,
    Form::Freeze,
    Form::Extract,
    Form::Call,
    Form::Tail,
    Form::Notail,
];

impl Keyword for Ending {
    ghost spelled = { ending_word };

    fn word(self) -> &'static [u8] {
        match self {
            Ending::Return => b"ret",
            Ending::Branch => b"br",
            Ending::Switch => b"switch",
            Ending::Unreachable => b"unreachable",
        }
    }
}

const ENDINGS: [Ending; 4] = [
    Ending::Return,
    Ending::Branch,
    Ending::Switch,
    Ending::Unreachable,
];

/// The operation that begins with a word.
#[tactic(auto, using(crate::proofs::KeywordTables::binary_form, crate::proofs::KeywordTables::convert_form, crate::proofs::KeywordTables::other_form))]
fn form_of(text: &[u8]) -> Option<Form>
    ensures { result ≡ keyword form_word forms text.now }
{
    if let Some(bin) = keyword_of(&Bin::ALL, text) {
        return Some(Form::Binary(bin));
    }
    if let Some(cast) = keyword_of(&Cast::ALL, text) {
        return Some(Form::Convert(cast));
    }
    keyword_of(&OTHER_FORMS, text)
}

impl<'a> Source<'a> {
    fn form(&self, at: usize) -> Result<(Form, usize), Stop>
        ensures { Gives (all_of self.now) result (one (keyword_in form_word forms) (drop at (all_of self.now))) }
    {
        if let Some(Seen::Word(found)) = self.seen(at) {
            if let Some(form) = form_of(found) {
                return Ok((form, at + 1));
            }
        }
        Err(Stop::At(at))
    }

    fn ending(&self, at: usize) -> Result<(Ending, usize), Stop>
        ensures { Gives (all_of self.now) result (one (keyword_in ending_word endings) (drop at (all_of self.now))) }
    {
        if let Some(Seen::Word(found)) = self.seen(at) {
            if let Some(ending) = keyword_of(&ENDINGS, found) {
                return Ok((ending, at + 1));
            }
        }
        Err(Stop::At(at))
    }

    fn marked_call(
        &self,
        alloc: Global,
        at: usize,
        marker: &[u8],
    ) -> Result<(Operation, usize), Stop>
        ensures { Gives (all_of self.now) result (marked_call marker.now (drop at (all_of self.now))) }
    {
        let at = self.word(at, b"call")?;
        let marker = Name::of(alloc, marker)?;
        self.call(alloc, at, Some(marker))
    }

    fn form_rest(&self, alloc: Global, at: usize, form: Form) -> Result<(Operation, usize), Stop>
        ensures { Gives (all_of self.now) result (form_rest form (drop at (all_of self.now))) }
    {
        match form {
            Form::Binary(bin) => self.binary(alloc, at, bin),
            Form::Compare => self.compare(alloc, at),
            Form::Select => self.select(alloc, at),
            Form::Convert(cast) => self.convert(alloc, at, cast),
            Form::Freeze => self.freeze(alloc, at),
            Form::Extract => self.extract(alloc, at),
            Form::Call => self.call(alloc, at, None),
            Form::Tail => self.marked_call(alloc, at, b"tail"),
            Form::Notail => self.marked_call(alloc, at, b"notail"),
        }
    }

    /// An operation that has a result.
    #[tactic(auto, unfolding(crate::specs::Productions::operation))]
    pub fn operation(&self, alloc: Global, at: usize) -> Result<(Operation, usize), Stop>
        ensures { Gives (all_of self.now) result (operation (drop at (all_of self.now))) }
    {
        let (form, at) = self.form(at)?;
        self.form_rest(alloc, at, form)
    }

    fn ending_rest(
        &self,
        alloc: Global,
        at: usize,
        ending: Ending,
    ) -> Result<(TerminatorKind, usize), Stop>
        ensures { Gives (all_of self.now) result (ending_rest ending (drop at (all_of self.now))) }
    {
        match ending {
            Ending::Return => self.returned(alloc, at),
            Ending::Branch => self.branch(alloc, at),
            Ending::Switch => self.switch(alloc, at),
            Ending::Unreachable => Ok((TerminatorKind::Unreachable, at)),
        }
    }

    #[tactic(auto, unfolding(crate::specs::Productions::terminator_kind))]
    fn terminator_kind(&self, alloc: Global, at: usize) -> Result<(TerminatorKind, usize), Stop>
        ensures { Gives (all_of self.now) result (terminator_kind (drop at (all_of self.now))) }
    {
        let (ending, at) = self.ending(at)?;
        self.ending_rest(alloc, at, ending)
    }

    /// A terminator with the metadata after it.
    #[tactic(auto, unfolding(crate::specs::Productions::terminator))]
    pub fn terminator(&self, alloc: Global, at: usize) -> Result<(Terminator, usize), Stop>
        ensures { Gives (all_of self.now) result (terminator (drop at (all_of self.now))) }
    {
        let (kind, at) = self.terminator_kind(alloc, at)?;
        let (attached, at) = self.attachments(alloc, at)?;
        Ok((Terminator { kind, attached }, at))
    }
}
