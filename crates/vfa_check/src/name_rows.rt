//! Sets of names as rows of bits.

ghost use Rattle.std.specs.Prelude.{◌≡◌, ◌<◌, ◌≤◌, ◌+◌, ◌/◌, ◌^◌, ◌&&◌, ◌||◌, ℕ, nat_eq, true, false, IfOk, IsTrue, bit_and, length, slice_index, sum};
ghost use Rattle.vfa_check.specs.NameRows.{IsRow, has_name};

use std::alloc::{AllocError, Global};
use vfa_ir::ValueId;

/// The bits of a word.
const WORD_BITS: usize = 64;

/// A set of names of a function.
#[derive(Drop)]
pub struct NameRow {
    names: usize,
    words: Vec<u64>,
}

/// Takes from words the bits that others do not have. Whether a bit was taken.
fn cut(words: &mut [u64], others: &[u64]) -> bool
    requires { length others.now ≡ length words.old }
    ensures both { (k : ℕ) → slice_index words.new k ≡ bit_and (slice_index words.old k) (slice_index others.now k) }
    ensures kept { result ≡ false → words.new ≡ words.old }
    ensures lost { result ≡ true → sum words.new < sum words.old }
{
    let mut lost = false;
    'bits: for k in 0..words.len() {
        let word = words[k];
        let kept = word & others[k];
        words[k] = kept;
        lost |= kept != word;
    }
    lost
}

impl NameRow {
    /// The set of all numbers.
    pub(crate) fn full(alloc: Global, names: usize) -> Result<NameRow, AllocError>
        ensures row { IfOk result (IsRow names) }
        ensures all { IfOk result (λ row. (v : ℕ) → has_name row v ≡ true) }
    {
        Ok(NameRow {
            names,
            words: vec![in alloc; u64::MAX; names / WORD_BITS + 1]?,
        })
    }

    /// The set of no number.
    pub(crate) fn empty(alloc: Global, names: usize) -> Result<NameRow, AllocError>
        ensures row { IfOk result (IsRow names) }
        ensures none { IfOk result (λ row. (v : ℕ) → has_name row v ≡ false) }
    {
        Ok(NameRow {
            names,
            words: vec![in alloc; 0; names / WORD_BITS + 1]?,
        })
    }

    /// The same set in memory of its own.
    pub(crate) fn copy(&self) -> Result<NameRow, AllocError>
        ensures row { IfOk result (λ row. (count : ℕ) → IsRow count self.now → IsRow count row) }
        ensures same { IfOk result (λ row. (v : ℕ) → has_name row v ≡ has_name self.now v) }
    {
        Ok(NameRow {
            names: self.names,
            words: self.words.clone()?,
        })
    }

    /// Whether the set has a name.
    pub(crate) fn has(&self, v: ValueId) -> bool
        ensures { result ≡ has_name self.now v.0 }
    {
        let place = (v.0 as usize).min(self.names);
        match self.words.get(place / WORD_BITS) {
            Some(word) => (*word >> (place % WORD_BITS)) & 1 == 1,
            None => false,
        }
    }

    /// Adds a name.
    pub(crate) fn add(&mut self, v: ValueId)
        requires row { IsRow self.old.names self.old }
        requires name { v.0 < self.old.names }
        ensures row { (count : ℕ) → IsRow count self.old → IsRow count self.new }
        ensures added { (w : ℕ) → has_name self.new w ≡ (nat_eq w v.0 || has_name self.old w) }
    {
        let place = v.0 as usize;
        self.words[place / WORD_BITS] |= 1 << (place % WORD_BITS);
    }

    /// Takes away what the other set does not have. Whether the set has lost anything.
    pub(crate) fn intersect(&mut self, other: &NameRow) -> bool
        requires names { other.now.names ≡ self.old.names }
        requires words { length other.now.words.items ≡ length self.old.words.items }
        ensures row { (count : ℕ) → IsRow count self.old → IsRow count self.new }
        ensures both { (v : ℕ) → has_name self.new v ≡ (has_name self.old v && has_name other.now v) }
        ensures kept { result ≡ false → self.new.words.items ≡ self.old.words.items }
        ensures lost { result ≡ true → sum self.new.words.items < sum self.old.words.items }
    {
        cut(self.words.as_mut_slice(), other.words.as_slice())
    }

    /// Becomes the same set as the other.
    pub(crate) fn copy_from(&mut self, other: &NameRow)
        requires { length other.now.words.items ≡ length self.old.words.items }
        ensures row { (count : ℕ) → IsRow count other.now → IsRow count self.new }
        ensures same { (v : ℕ) → has_name self.new v ≡ has_name other.now v }
    {
        self.names = other.names;
        self.words.copy_from_slice(other.words.as_slice());
    }
}
