//! The names of functions that are called.

ghost use Rattle.std.specs.Prelude.{◌≡◌, ◌++◌, ◌≤◌, MatchOption, Some, bytes_eq, ℕ, List, if◌then◌else◌};
ghost use Rattle.vfa_ir.specs.Words.{callee, is_intrinsic as begins_intrinsic, over_word, overs};
ghost use Rattle.vfa_read.specs.declared.intrinsics.Callee.TheVariants.{Other};
ghost use Rattle.vfa_read.specs.declared.intrinsics.VoidCallee.TheVariants.{Other as OtherVoid};
ghost use Rattle.vfa_read.specs.Tables.{intrinsic_in, intrinsic_word, intrinsics, known_callee, known_void};

use crate::leaves::same;
use crate::numbers::type_width;
use vfa_ir::{Fun1, Fun2, Keyword, Name, Over};

/// An intrinsic whose result is of the type of its arguments.
#[derive(Clone, Copy)]
pub enum Intrinsic {
    /// Of two arguments.
    Two(Fun2),
    /// Of one argument.
    One(Fun1),
}

impl Keyword for Intrinsic {
    ghost spelled = { intrinsic_word };

    fn word(self) -> &'static [u8] {
        match self {
            Intrinsic::Two(fun) => fun.word(),
            Intrinsic::One(fun) => fun.word(),
        }
    }
}

/// What a call with a result calls.
#[derive(Drop)]
pub enum Callee {
    /// An intrinsic.
    Known(Intrinsic),
    /// The function of this name.
    Other(Name),
}

/// What a call without a result calls.
#[derive(Drop)]
pub enum VoidCallee {
    /// `llvm.assume`
    Assume,
    /// The function of this name.
    Other(Name),
}

/// What stands after a prefix.
fn after<'a>(text: &'a [u8], prefix: &[u8]) -> Option<&'a [u8]>
    ensures { MatchOption result ((rest : List ℕ) → text.now ≡ prefix.now ++ rest → ⊥) (λ rest. text.now ≡ prefix.now ++ rest.now) }
{
    text.strip_prefix(prefix)
}

/// Whether a name is that of an intrinsic at a width.
fn is_callee(name: &[u8], intrinsic: &[u8], width: u32) -> bool
    requires least { 1 ≤ width }
    requires most { width ≤ 128 }
    ensures { result ≡ bytes_eq name.now (callee intrinsic.now width) }
{
    let Some(name) = after(name, b"llvm.") else {
        return false;
    };
    let Some(name) = after(name, intrinsic) else {
        return false;
    };
    let Some(name) = after(name, b".") else {
        return false;
    };
    match type_width(name) {
        Some(found) => found == width,
        None => false,
    }
}

/// The first of these intrinsics that has this name at a width; none where none has.
fn named_intrinsic<K: Keyword>(all: &[K], name: &[u8], width: u32) -> Option<K>
    requires least { 1 ≤ width }
    requires most { width ≤ 128 }
    ensures { result ≡ intrinsic_in K.spelled all.now width name.now }
{
    'each: for intrinsic in all {
        if is_callee(name, intrinsic.word(), width) {
            return Some(*intrinsic);
        }
    }
    None
}

/// The intrinsic of a name at a width, whose result is of the type of its arguments; none where it is another name.
#[tactic(auto, using(crate::proofs::KeywordTables::two_named, crate::proofs::KeywordTables::one_named, crate::proofs::KeywordTables::none_named))]
fn intrinsic_of(name: &[u8], width: u32) -> Option<Intrinsic>
    requires least { 1 ≤ width }
    requires most { width ≤ 128 }
    ensures { result ≡ intrinsic_in intrinsic_word intrinsics width name.now }
{
    if let Some(fun) = named_intrinsic(&Fun2::ALL, name, width) {
        return Some(Intrinsic::Two(fun));
    }
    if let Some(fun) = named_intrinsic(&Fun1::ALL, name, width) {
        return Some(Intrinsic::One(fun));
    }
    None
}

/// The intrinsic with overflow of a name at a width; none where it is another name.
pub fn over_of(name: &[u8], width: u32) -> Option<Over>
    requires least { 1 ≤ width }
    requires most { width ≤ 128 }
    ensures { result ≡ intrinsic_in over_word overs width name.now }
{
    named_intrinsic(&Over::ALL, name, width)
}

/// Whether a name is one of an intrinsic, known or not.
fn is_intrinsic(name: &[u8]) -> bool
    ensures { result ≡ begins_intrinsic name.now }
{
    same(&name[..name.len().min(5)], b"llvm.")
}

/// The intrinsic of a name that is one, where no words stand before the type of the call.
fn known_after(words: &[Name], name: &[u8], width: u32) -> Option<Callee>
    requires least { 1 ≤ width }
    requires most { width ≤ 128 }
    ensures { result ≡ known_callee words.now width name.now }
{
    if !words.is_empty() {
        return None;
    }
    let known = intrinsic_of(name, width)?;
    Some(Callee::Known(known))
}

/// What a call of this name calls, after these words and a type; none where no such call can stand there.
pub fn callee_of(words: &[Name], name: Name, width: u32) -> Option<Callee>
    requires least { 1 ≤ width }
    requires most { width ≤ 128 }
    ensures { result ≡ if begins_intrinsic name then known_callee words.now width name else Some (Other name) }
{
    if is_intrinsic(name.bytes()) {
        return known_after(words, name.bytes(), width);
    }
    Some(Callee::Other(name))
}

/// `llvm.assume`, where no words stand before `void`.
fn void_after(words: &[Name], name: &[u8]) -> Option<VoidCallee>
    ensures { result ≡ known_void words.now name.now }
{
    if !words.is_empty() {
        return None;
    }
    if same(name, b"llvm.assume") {
        return Some(VoidCallee::Assume);
    }
    None
}

/// The same without a result, after `void`.
pub fn void_callee_of(words: &[Name], name: Name) -> Option<VoidCallee>
    ensures { result ≡ if begins_intrinsic name then known_void words.now name else Some (OtherVoid name) }
{
    if is_intrinsic(name.bytes()) {
        return void_after(words, name.bytes());
    }
    Some(VoidCallee::Other(name))
}
