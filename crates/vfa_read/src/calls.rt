//! Readers of calls, after the word `call`.

ghost use Rattle.std.specs.Prelude.{◌≡◌, ◌≤◌, ◌∷◌, drop};
ghost use Rattle.std.specs.Str.{byte};
ghost use Rattle.vfa_ir.specs.Words.{over_word, overs};
ghost use Rattle.vfa_read.specs.Productions.{after_commas, arguments, argument, assume_call, call, call_argument, call_arguments, callee_call, comma_list, groups, is_any_word, is_group, named_call, one_call, other_call, over_call, plain_call, strict_argument, two_call, void_call, void_callee_call};
ghost use Rattle.vfa_read.specs.Readers.{Gives, made, next_passes, one, skip};
ghost use Rattle.vfa_read.specs.Seen.{all_of};
ghost use Rattle.vfa_read.specs.Tables.{callee_after, callee_in, the_mark, void_after};

use crate::intrinsics::{Callee, Intrinsic, VoidCallee, callee_of, over_of, void_callee_of};
use crate::names::written_name;
use crate::source::{Seen, Source};
use crate::stops::Stop;
use std::alloc::Global;
use vfa_ir::syntax::{Argument, CallWords, Literal, Operation, Written};
use vfa_ir::{Fun1, Fun2, Items, Name, Over};

impl<'a> Source<'a> {
    /// `( T V , T V )`
    fn arguments(
        &self,
        alloc: Global,
        at: usize,
        width: u32,
    ) -> Result<((Written, Written), usize), Stop>
        requires least { 1 ≤ width }
        requires most { width ≤ 128 }
        ensures { Gives (all_of self.now) result (arguments width (drop at (all_of self.now))) }
    {
        let at = self.mark(at, b'(')?;
        let at = self.type_of_width(at, width)?;
        let (values, at) = self.typed_operands(alloc, at, width)?;
        let at = self.mark(at, b')')?;
        Ok((values, at))
    }

    /// `, i1 L`, but for `ctpop`.
    fn strict_argument(
        &self,
        alloc: Global,
        at: usize,
        fun: Fun1,
    ) -> Result<(Option<Literal>, usize), Stop>
        ensures { Gives (all_of self.now) result (strict_argument fun (drop at (all_of self.now))) }
    {
        if let Fun1::Ctpop = fun {
            return Ok((None, at));
        }
        let at = self.mark(at, b',')?;
        let at = self.type_of_width(at, 1)?;
        let (literal, at) = self.literal(alloc, at, 1)?;
        Ok((Some(literal), at))
    }

    /// `( T V )` or `( T V , i1 L )`
    fn argument(
        &self,
        alloc: Global,
        at: usize,
        width: u32,
        fun: Fun1,
    ) -> Result<((Written, Option<Literal>), usize), Stop>
        requires least { 1 ≤ width }
        requires most { width ≤ 128 }
        ensures { Gives (all_of self.now) result (argument width fun (drop at (all_of self.now))) }
    {
        let at = self.mark(at, b'(')?;
        let at = self.type_of_width(at, width)?;
        let (a, at) = self.value(alloc, at, width)?;
        let (strict, at) = self.strict_argument(alloc, at, fun)?;
        let at = self.mark(at, b')')?;
        Ok(((a, strict), at))
    }

    /// Whether an attribute group stands at a place.
    fn has_group(&self, at: usize) -> bool
        ensures { result ≡ next_passes is_group (drop at (all_of self.now)) }
    {
        if let Some(Seen::Group(_)) = self.seen(at) {
            return true;
        }
        false
    }

    /// The attribute groups after the arguments.
    fn groups(&self, alloc: Global, from: usize) -> Result<(Items<Name>, usize), Stop>
        ensures { Gives (all_of self.now) result (groups (drop from (all_of self.now))) }
    {
        let mut list = Vec::new(alloc);
        let mut at = from;
        'list: while self.has_group(at) {
            let (digits, next) = self.group(alloc, at)?;
            list.push(digits)?;
            at = next;
        }
        Ok((Items(list), at))
    }

    #[tactic(auto, unfolding(crate::specs::Productions::two_call))]
    fn two_call(
        &self,
        alloc: Global,
        at: usize,
        marker: Option<Name>,
        width: u32,
        fun: Fun2,
    ) -> Result<(Operation, usize), Stop>
        requires least { 1 ≤ width }
        requires most { width ≤ 128 }
        ensures { Gives (all_of self.now) result (two_call marker width fun (drop at (all_of self.now))) }
    {
        let ((a, b), at) = self.arguments(alloc, at, width)?;
        let (groups, at) = self.groups(alloc, at)?;
        let call = CallWords { marker, groups };
        Ok((
            Operation::Two {
                call,
                fun,
                width,
                a,
                b,
            },
            at,
        ))
    }

    #[tactic(auto, unfolding(crate::specs::Productions::one_call))]
    fn one_call(
        &self,
        alloc: Global,
        at: usize,
        marker: Option<Name>,
        width: u32,
        fun: Fun1,
    ) -> Result<(Operation, usize), Stop>
        requires least { 1 ≤ width }
        requires most { width ≤ 128 }
        ensures { Gives (all_of self.now) result (one_call marker width fun (drop at (all_of self.now))) }
    {
        let ((a, strict), at) = self.argument(alloc, at, width, fun)?;
        let (groups, at) = self.groups(alloc, at)?;
        let call = CallWords { marker, groups };
        Ok((
            Operation::One {
                call,
                fun,
                width,
                a,
                strict,
            },
            at,
        ))
    }

    /// What is called, after these words and a type.
    fn callee(
        &self,
        alloc: Global,
        at: usize,
        words: &[Name],
        width: u32,
    ) -> Result<(Callee, usize), Stop>
        requires least { 1 ≤ width }
        requires most { width ≤ 128 }
        ensures { Gives (all_of self.now) result (one (callee_after words.now width) (drop at (all_of self.now))) }
    {
        if let Some(Seen::Global(text)) = self.seen(at) {
            if let Some(name) = written_name(alloc, text)? {
                if let Some(callee) = callee_of(words, name, width) {
                    return Ok((callee, at + 1));
                }
            }
        }
        Err(Stop::At(at))
    }

    /// What is called, after these words and `void`.
    fn void_callee(
        &self,
        alloc: Global,
        at: usize,
        words: &[Name],
    ) -> Result<(VoidCallee, usize), Stop>
        ensures { Gives (all_of self.now) result (one (void_after words.now) (drop at (all_of self.now))) }
    {
        if let Some(Seen::Global(text)) = self.seen(at) {
            if let Some(name) = written_name(alloc, text)? {
                if let Some(callee) = void_callee_of(words, name) {
                    return Ok((callee, at + 1));
                }
            }
        }
        Err(Stop::At(at))
    }

    /// The intrinsic with overflow that is called.
    fn over(&self, alloc: Global, at: usize, width: u32) -> Result<(Over, usize), Stop>
        requires least { 1 ≤ width }
        requires most { width ≤ 128 }
        ensures { Gives (all_of self.now) result (one (callee_in over_word overs width) (drop at (all_of self.now))) }
    {
        if let Some(Seen::Global(text)) = self.seen(at) {
            if let Some(name) = written_name(alloc, text)? {
                if let Some(over) = over_of(name.bytes(), width) {
                    return Ok((over, at + 1));
                }
            }
        }
        Err(Stop::At(at))
    }

    /// `T`, attributes, `V`
    #[tactic(auto, unfolding(crate::specs::Productions::call_argument))]
    fn call_argument(&self, alloc: Global, at: usize) -> Result<(Argument, usize), Stop>
        ensures { Gives (all_of self.now) result (call_argument (drop at (all_of self.now))) }
    {
        let (width, at) = self.width(at)?;
        let (words, at) = self.attributes(alloc, at)?;
        let (value, at) = self.value(alloc, at, width)?;
        Ok((
            Argument {
                width,
                words,
                value,
            },
            at,
        ))
    }

    /// A comma and an argument.
    fn further_argument(&self, alloc: Global, at: usize) -> Result<(Argument, usize), Stop>
        ensures { Gives (all_of self.now) result (skip (the_mark (byte ",")) call_argument (drop at (all_of self.now))) }
    {
        let at = self.mark(at, b',')?;
        self.call_argument(alloc, at)
    }

    /// An argument and those after it.
    fn arguments_after(
        &self,
        alloc: Global,
        first: Argument,
        from: usize,
    ) -> Result<(Items<Argument>, usize), Stop>
        ensures { Gives (all_of self.now) result (made (λ more. first ∷ more) (after_commas call_argument) (drop from (all_of self.now))) }
    {
        let mut list = Vec::new(alloc);
        list.push(first)?;
        let mut at = from;
        'list: while self.has_mark(at, b',') {
            let (argument, next) = self.further_argument(alloc, at)?;
            list.push(argument)?;
            at = next;
        }
        Ok((Items(list), at))
    }

    fn argument_list(&self, alloc: Global, at: usize) -> Result<(Items<Argument>, usize), Stop>
        ensures { Gives (all_of self.now) result (comma_list is_any_word call_argument (drop at (all_of self.now))) }
    {
        if self.has_any_word(at) {
            let (first, at) = self.call_argument(alloc, at)?;
            return self.arguments_after(alloc, first, at);
        }
        Ok((Items(Vec::new(alloc)), at))
    }

    /// The arguments of a call, in parentheses.
    #[tactic(auto, unfolding(crate::specs::Productions::call_arguments))]
    fn call_arguments(&self, alloc: Global, at: usize) -> Result<(Items<Argument>, usize), Stop>
        ensures { Gives (all_of self.now) result (call_arguments (drop at (all_of self.now))) }
    {
        let at = self.mark(at, b'(')?;
        let (arguments, at) = self.argument_list(alloc, at)?;
        let at = self.mark(at, b')')?;
        Ok((arguments, at))
    }

    /// A call of a function that is no intrinsic, after its name.
    #[tactic(auto, unfolding(crate::specs::Productions::other_call))]
    fn other_call(
        &self,
        alloc: Global,
        at: usize,
        marker: Option<Name>,
        words: Items<Name>,
        width: Option<u32>,
        callee: Name,
    ) -> Result<(Operation, usize), Stop>
        ensures { Gives (all_of self.now) result (other_call marker words width callee (drop at (all_of self.now))) }
    {
        let (arguments, at) = self.call_arguments(alloc, at)?;
        let (groups, at) = self.groups(alloc, at)?;
        let call = CallWords { marker, groups };
        Ok((
            Operation::Call {
                call,
                words,
                width,
                callee,
                arguments,
            },
            at,
        ))
    }

    fn callee_call(
        &self,
        alloc: Global,
        at: usize,
        marker: Option<Name>,
        words: Items<Name>,
        width: u32,
        callee: Callee,
    ) -> Result<(Operation, usize), Stop>
        requires least { 1 ≤ width }
        requires most { width ≤ 128 }
        ensures { Gives (all_of self.now) result (callee_call marker words width callee (drop at (all_of self.now))) }
    {
        match callee {
            Callee::Known(Intrinsic::Two(fun)) => self.two_call(alloc, at, marker, width, fun),
            Callee::Known(Intrinsic::One(fun)) => self.one_call(alloc, at, marker, width, fun),
            Callee::Other(name) => self.other_call(alloc, at, marker, words, Some(width), name),
        }
    }

    /// A call with a result, after its words.
    fn named_call(
        &self,
        alloc: Global,
        at: usize,
        marker: Option<Name>,
        words: Items<Name>,
    ) -> Result<(Operation, usize), Stop>
        ensures { Gives (all_of self.now) result (named_call marker words (drop at (all_of self.now))) }
    {
        let (width, at) = self.width(at)?;
        let (callee, at) = self.callee(alloc, at, words.as_slice(), width)?;
        self.callee_call(alloc, at, marker, words, width, callee)
    }

    #[tactic(auto, unfolding(crate::specs::Productions::plain_call))]
    fn plain_call(
        &self,
        alloc: Global,
        at: usize,
        marker: Option<Name>,
    ) -> Result<(Operation, usize), Stop>
        ensures { Gives (all_of self.now) result (plain_call marker (drop at (all_of self.now))) }
    {
        let (words, at) = self.call_words(alloc, at)?;
        self.named_call(alloc, at, marker, words)
    }

    #[tactic(auto, unfolding(crate::specs::Productions::over_call))]
    fn over_call(
        &self,
        alloc: Global,
        at: usize,
        marker: Option<Name>,
    ) -> Result<(Operation, usize), Stop>
        ensures { Gives (all_of self.now) result (over_call marker (drop at (all_of self.now))) }
    {
        let (width, at) = self.pair_type(at)?;
        let (over, at) = self.over(alloc, at, width)?;
        let ((a, b), at) = self.arguments(alloc, at, width)?;
        let (groups, at) = self.groups(alloc, at)?;
        let call = CallWords { marker, groups };
        Ok((
            Operation::Over {
                call,
                over,
                width,
                a,
                b,
            },
            at,
        ))
    }

    #[tactic(auto, unfolding(crate::specs::Productions::call))]
    pub fn call(
        &self,
        alloc: Global,
        at: usize,
        marker: Option<Name>,
    ) -> Result<(Operation, usize), Stop>
        ensures { Gives (all_of self.now) result (call marker (drop at (all_of self.now))) }
    {
        if self.has_mark(at, b'{') {
            return self.over_call(alloc, at, marker);
        }
        self.plain_call(alloc, at, marker)
    }

    /// A call of `llvm.assume`, after its name.
    #[tactic(auto, unfolding(crate::specs::Productions::assume_call))]
    fn assume_call(
        &self,
        alloc: Global,
        at: usize,
        marker: Option<Name>,
    ) -> Result<(Operation, usize), Stop>
        ensures { Gives (all_of self.now) result (assume_call marker (drop at (all_of self.now))) }
    {
        let at = self.mark(at, b'(')?;
        let at = self.type_of_width(at, 1)?;
        let (c, at) = self.value(alloc, at, 1)?;
        let at = self.mark(at, b')')?;
        let (groups, at) = self.groups(alloc, at)?;
        let call = CallWords { marker, groups };
        Ok((Operation::Assume { call, c }, at))
    }

    fn void_callee_call(
        &self,
        alloc: Global,
        at: usize,
        marker: Option<Name>,
        words: Items<Name>,
        callee: VoidCallee,
    ) -> Result<(Operation, usize), Stop>
        ensures { Gives (all_of self.now) result (void_callee_call marker words callee (drop at (all_of self.now))) }
    {
        match callee {
            VoidCallee::Assume => self.assume_call(alloc, at, marker),
            VoidCallee::Other(name) => self.other_call(alloc, at, marker, words, None, name),
        }
    }

    /// A call without a result.
    #[tactic(auto, unfolding(crate::specs::Productions::void_call))]
    pub fn void_call(
        &self,
        alloc: Global,
        at: usize,
        marker: Option<Name>,
    ) -> Result<(Operation, usize), Stop>
        ensures { Gives (all_of self.now) result (void_call marker (drop at (all_of self.now))) }
    {
        let (words, at) = self.call_words(alloc, at)?;
        let at = self.word(at, b"void")?;
        let (callee, at) = self.void_callee(alloc, at, words.as_slice())?;
        self.void_callee_call(alloc, at, marker, words, callee)
    }
}
