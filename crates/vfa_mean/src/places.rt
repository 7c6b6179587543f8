//! The places of numbers in a list, each found in one step.

ghost use Rattle.std.specs.Prelude.{◌≡◌, ◌-◌, ◌<◌, ◌^◌, ℕ, IfOk, IsTrue, length, min, nat_eq};
ghost use Rattle.std.specs.List.{IsDistinct};
ghost use Rattle.vfa_ir.specs.Walks.{is_in};
ghost use Rattle.vfa_mean.specs.Places.{ArePlaces, no_place};
ghost use Rattle.vfa_mean.specs.Renaming.{place_among};

use std::alloc::{AllocError, Global};
use std::marker::Model;

/// Distinct numbers, and the place of each among them. Contracts see the list of the numbers.
#[derive(Drop)]
pub(crate) struct Places {
    numbers: Vec<u32>,
    table: Vec<u32>,
}

impl Model for Places {
    ghost use Rattle.std.specs.Prelude.{ℕ, List};
    ghost use Rattle.vfa_mean.specs.Places.{ArePlaces};

    ghost Value = { List ℕ };

    ghost view = { λ p. p.numbers.items };

    ghost invariant = { λ p. ArePlaces p.numbers.items p.table.items };
}

/// How many numbers there are, which is the place of one that is not there; where they are all of their type, there is none.
fn no_place(numbers: &[u32]) -> u32
    ensures { result ≡ no_place numbers.now }
{
    numbers.len().min(u32::MAX as usize) as u32
}

/// For each number below the count its place.
fn table_of(alloc: Global, numbers: &[u32], count: usize) -> Result<Vec<u32>, AllocError>
    requires within { (n : ℕ) → IsTrue (is_in n numbers.now) → n < count }
    requires once { IsDistinct nat_eq numbers.now }
    ensures { IfOk result (λ table. ArePlaces numbers.now table.items) }
{
    let mut table = vec![in alloc; no_place(numbers); count]?;
    'each: for place in (0..numbers.len()).rev() {
        table[numbers[place] as usize] = place as u32;
    }
    Ok(table)
}

impl Places {
    /// The places of distinct numbers, all below the count.
    pub(crate) fn of(alloc: Global, numbers: Vec<u32>, count: usize) -> Result<Places, AllocError>
        requires within { (n : ℕ) → IsTrue (is_in n numbers.items) → n < count }
        requires once { IsDistinct nat_eq numbers.items }
        ensures { IfOk result (λ places. places ≡ numbers.items) }
    {
        let table = table_of(alloc, numbers.as_slice(), count)?;
        Ok(Places { numbers, table })
    }

    /// The numbers in order.
    pub(crate) fn numbers(&self) -> &[u32]
        ensures { result.now ≡ self.now }
    {
        self.numbers.as_slice()
    }

    /// The place of a number; of one that is not there it is their count.
    pub(crate) fn place(&self, number: u32) -> u32
        ensures { result ≡ place_among self.now number }
    {
        let none = no_place(self.numbers.as_slice());
        self.table.get(number as usize).copied().unwrap_or(none)
    }
}
