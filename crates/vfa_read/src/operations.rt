//! Readers of operations, after the word that each begins with.

ghost use Rattle.std.specs.Prelude.{◌≡◌, ◌≤◌, drop, IfOk};
ghost use Rattle.vfa_read.specs.Productions.{operands, typed_operands, same_sign, compare, select, cast_flags, converted, convert, freeze, pair_type, extract, optional_word, flag_then, is_wrap_flag, wrap_flags, flags, binary};
ghost use Rattle.vfa_read.specs.Readers.{Gives, next_passes};
ghost use Rattle.vfa_read.specs.Seen.{all_of};

use crate::leaves::same;
use crate::source::{Seen, Source};
use crate::stops::Stop;
use std::alloc::Global;
use vfa_ir::syntax::{Operation, Written};
use vfa_ir::{Bin, Cast, Items, Name};

impl<'a> Source<'a> {
    /// `V , V`
    pub fn operands(
        &self,
        alloc: Global,
        at: usize,
        width: u32,
    ) -> Result<((Written, Written), usize), Stop>
        requires least { 1 ≤ width }
        requires most { width ≤ 128 }
        ensures { Gives (all_of self.now) result (operands width (drop at (all_of self.now))) }
    {
        let (a, at) = self.value(alloc, at, width)?;
        let at = self.mark(at, b',')?;
        let (b, at) = self.value(alloc, at, width)?;
        Ok(((a, b), at))
    }

    /// `V , T V`
    pub fn typed_operands(
        &self,
        alloc: Global,
        at: usize,
        width: u32,
    ) -> Result<((Written, Written), usize), Stop>
        requires least { 1 ≤ width }
        requires most { width ≤ 128 }
        ensures { Gives (all_of self.now) result (typed_operands width (drop at (all_of self.now))) }
    {
        let (a, at) = self.value(alloc, at, width)?;
        let at = self.mark(at, b',')?;
        let at = self.type_of_width(at, width)?;
        let (b, at) = self.value(alloc, at, width)?;
        Ok(((a, b), at))
    }

    /// Whether `samesign` stands at a place, and the place after it.
    fn same_sign(&self, at: usize) -> Result<(bool, usize), Stop>
        ensures { Gives (all_of self.now) result (same_sign (drop at (all_of self.now))) }
    {
        if !self.has_word(at, b"samesign") {
            return Ok((false, at));
        }
        let at = self.word(at, b"samesign")?;
        Ok((true, at))
    }

    #[tactic(auto, unfolding(crate::specs::Productions::compare))]
    pub fn compare(&self, alloc: Global, at: usize) -> Result<(Operation, usize), Stop>
        ensures { Gives (all_of self.now) result (compare (drop at (all_of self.now))) }
    {
        let (samesign, at) = self.same_sign(at)?;
        let (pred, at) = self.pred(at)?;
        let (width, at) = self.width(at)?;
        let ((a, b), at) = self.operands(alloc, at, width)?;
        Ok((
            Operation::Compare {
                samesign,
                pred,
                width,
                a,
                b,
            },
            at,
        ))
    }

    #[tactic(auto, unfolding(crate::specs::Productions::select))]
    pub fn select(&self, alloc: Global, at: usize) -> Result<(Operation, usize), Stop>
        ensures { Gives (all_of self.now) result (select (drop at (all_of self.now))) }
    {
        let at = self.type_of_width(at, 1)?;
        let (c, at) = self.value(alloc, at, 1)?;
        let at = self.mark(at, b',')?;
        let (width, at) = self.width(at)?;
        let ((a, b), at) = self.typed_operands(alloc, at, width)?;
        Ok((Operation::Select { c, width, a, b }, at))
    }

    #[tactic(auto, unfolding(crate::specs::Productions::freeze))]
    pub fn freeze(&self, alloc: Global, at: usize) -> Result<(Operation, usize), Stop>
        ensures { Gives (all_of self.now) result (freeze (drop at (all_of self.now))) }
    {
        let (width, at) = self.width(at)?;
        let (a, at) = self.value(alloc, at, width)?;
        Ok((Operation::Freeze { width, a }, at))
    }

    /// `{ iN, i1 }`
    #[tactic(auto, unfolding(crate::specs::Productions::pair_type))]
    pub fn pair_type(&self, at: usize) -> Result<(u32, usize), Stop>
        ensures gives { Gives (all_of self.now) result (pair_type (drop at (all_of self.now))) }
        ensures in_range { IfOk result (λ p. (1 ≤ p.0) × (p.0 ≤ 128)) }
    {
        let at = self.mark(at, b'{')?;
        let (width, at) = self.width(at)?;
        let at = self.mark(at, b',')?;
        let at = self.type_of_width(at, 1)?;
        let at = self.mark(at, b'}')?;
        Ok((width, at))
    }

    #[tactic(auto, unfolding(crate::specs::Productions::extract))]
    pub fn extract(&self, alloc: Global, at: usize) -> Result<(Operation, usize), Stop>
        ensures { Gives (all_of self.now) result (extract (drop at (all_of self.now))) }
    {
        let (width, at) = self.pair_type(at)?;
        let (pair, at) = self.local(alloc, at)?;
        let at = self.mark(at, b',')?;
        let (index, at) = self.part(at)?;
        Ok((Operation::Extract { width, pair, index }, at))
    }

    /// A word that may lack.
    fn optional_word(
        &self,
        alloc: Global,
        at: usize,
        word: &[u8],
    ) -> Result<(Items<Name>, usize), Stop>
        ensures { Gives (all_of self.now) result (optional_word word.now (drop at (all_of self.now))) }
    {
        let mut words = Vec::new(alloc);
        if !self.has_word(at, word) {
            return Ok((Items(words), at));
        }
        let at = self.word(at, word)?;
        words.push(Name::of(alloc, word)?)?;
        Ok((Items(words), at))
    }

    /// A flag, and after it one that may lack.
    fn flag_then(
        &self,
        alloc: Global,
        at: usize,
        flag: &[u8],
        other: &[u8],
    ) -> Result<(Items<Name>, usize), Stop>
        ensures { Gives (all_of self.now) result (flag_then flag.now other.now (drop at (all_of self.now))) }
    {
        let at = self.word(at, flag)?;
        let mut words = Vec::new(alloc);
        words.push(Name::of(alloc, flag)?)?;
        if !self.has_word(at, other) {
            return Ok((Items(words), at));
        }
        let at = self.word(at, other)?;
        words.push(Name::of(alloc, other)?)?;
        Ok((Items(words), at))
    }

    /// Whether `nuw` or `nsw` stands at a place.
    fn has_wrap_flag(&self, at: usize) -> bool
        ensures { result ≡ next_passes is_wrap_flag (drop at (all_of self.now)) }
    {
        if let Some(Seen::Word(found)) = self.seen(at) {
            if same(found, b"nuw") {
                return true;
            }
            return same(found, b"nsw");
        }
        false
    }

    /// `nuw` and `nsw` in either order, each at most once.
    fn wrap_flags(&self, alloc: Global, at: usize) -> Result<(Items<Name>, usize), Stop>
        ensures { Gives (all_of self.now) result (wrap_flags (drop at (all_of self.now))) }
    {
        if !self.has_wrap_flag(at) {
            return Ok((Items(Vec::new(alloc)), at));
        }
        if self.has_word(at, b"nuw") {
            return self.flag_then(alloc, at, b"nuw", b"nsw");
        }
        self.flag_then(alloc, at, b"nsw", b"nuw")
    }

    /// The flags of a binary operation.
    fn flags(&self, alloc: Global, at: usize, bin: Bin) -> Result<(Items<Name>, usize), Stop>
        ensures { Gives (all_of self.now) result (flags bin (drop at (all_of self.now))) }
    {
        match bin {
            Bin::Add | Bin::Sub | Bin::Mul | Bin::Shl => self.wrap_flags(alloc, at),
            Bin::Udiv | Bin::Sdiv | Bin::Lshr | Bin::Ashr => {
                self.optional_word(alloc, at, b"exact")
            }
            Bin::Or => self.optional_word(alloc, at, b"disjoint"),
            Bin::Urem | Bin::Srem | Bin::And | Bin::Xor => Ok((Items(Vec::new(alloc)), at)),
        }
    }

    #[tactic(auto, unfolding(crate::specs::Productions::binary))]
    pub fn binary(&self, alloc: Global, at: usize, bin: Bin) -> Result<(Operation, usize), Stop>
        ensures { Gives (all_of self.now) result (binary bin (drop at (all_of self.now))) }
    {
        let (flags, at) = self.flags(alloc, at, bin)?;
        let (width, at) = self.width(at)?;
        let ((a, b), at) = self.operands(alloc, at, width)?;
        Ok((
            Operation::Binary {
                bin,
                flags,
                width,
                a,
                b,
            },
            at,
        ))
    }

    /// The flags of a conversion.
    fn cast_flags(&self, alloc: Global, at: usize, cast: Cast) -> Result<(Items<Name>, usize), Stop>
        ensures { Gives (all_of self.now) result (cast_flags cast (drop at (all_of self.now))) }
    {
        match cast {
            Cast::Zext => self.optional_word(alloc, at, b"nneg"),
            Cast::Sext => Ok((Items(Vec::new(alloc)), at)),
            Cast::Trunc => self.wrap_flags(alloc, at),
        }
    }

    /// `T V to T`
    #[tactic(auto, unfolding(crate::specs::Productions::converted))]
    fn converted(&self, alloc: Global, at: usize) -> Result<((u32, (Written, u32)), usize), Stop>
        ensures { Gives (all_of self.now) result (converted (drop at (all_of self.now))) }
    {
        let (from, at) = self.width(at)?;
        let (a, at) = self.value(alloc, at, from)?;
        let at = self.word(at, b"to")?;
        let (to, at) = self.width(at)?;
        Ok(((from, (a, to)), at))
    }

    #[tactic(auto, unfolding(crate::specs::Productions::convert))]
    pub fn convert(&self, alloc: Global, at: usize, cast: Cast) -> Result<(Operation, usize), Stop>
        ensures { Gives (all_of self.now) result (convert cast (drop at (all_of self.now))) }
    {
        let (flags, at) = self.cast_flags(alloc, at, cast)?;
        let ((from, (a, to)), at) = self.converted(alloc, at)?;
        Ok((
            Operation::Convert {
                cast,
                flags,
                from,
                a,
                to,
            },
            at,
        ))
    }
}
