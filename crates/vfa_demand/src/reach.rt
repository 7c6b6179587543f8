//! What some numbers lead to, step by step.

ghost use Rattle.std.specs.Prelude.{◌≡◌, ◌<◌, ◌↔◌, ◌∷◌, [], ℕ, true, IfOk, get_or, length};
ghost use Rattle.vfa_demand.specs.Reach.{AreTaken, IsLedTo};
ghost use Rattle.vfa_mean.specs.Kept.{is_marked};
ghost use Rattle.vfa_ir.specs.Words.{is_in};

use std::alloc::{AllocError, Global};
use vfa_ir::Items;

/// The numbers that were come to, and those of them whose steps are still to be taken.
#[derive(Drop)]
struct Search {
    marks: Vec<bool>,
    ahead: Vec<u32>,
}

impl Search {
    /// Comes to a number.
    fn take(&mut self, number: u32) -> Result<(), AllocError>
        requires { number < length self.old.marks.items }
        ensures { IfOk result (λ _.
            AreTaken (number ∷ []) self.old.marks.items self.new.marks.items self.old.ahead.items self.new.ahead.items) }
    {
        if self.marks[number as usize] {
            return Ok(());
        }
        self.marks[number as usize] = true;
        self.ahead.push(number)?;
        Ok(())
    }

    /// Comes to some numbers.
    fn take_each(&mut self, numbers: &[u32]) -> Result<(), AllocError>
        requires { (v : ℕ) → is_in v numbers.now ≡ true → v < length self.old.marks.items }
        ensures { IfOk result (λ _.
            AreTaken numbers.now self.old.marks.items self.new.marks.items self.old.ahead.items self.new.ahead.items) }
    {
        'each: for number in numbers {
            self.take(*number)?;
        }
        Ok(())
    }
}

/// Which numbers some first ones lead to, in any number of steps: a mark for each of them. `leads` has for each number those
/// that it leads to in one step. An error says that memory was wanting.
///
/// Where 0 leads to 2 and the others to none, 0 and 2 are marked from 0.
pub fn led_to(alloc: Global, first: &[u32], leads: &[Items<u32>]) -> Result<Vec<bool>, AllocError>
    requires first { (v : ℕ) → is_in v first.now ≡ true → v < length leads.now }
    requires leads { (v w : ℕ) → is_in w (get_or leads.now v []) ≡ true → w < length leads.now }
    ensures exact { IfOk result (λ marks. (v : ℕ) → (is_marked marks.items v ≡ true) ↔ IsLedTo first.now leads.now v) }
    ensures length { IfOk result (λ marks. length marks.items ≡ length leads.now) }
{
    let mut search = Search {
        marks: vec![in alloc; false; leads.len()]?,
        ahead: Vec::new(alloc),
    };
    search.take_each(first)?;
    'steps: while let Some(number) = search.ahead.pop() {
        search.take_each(leads[number as usize].as_slice())?;
    }
    Ok(search.marks)
}
