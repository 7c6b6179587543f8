//! The landmarks of the widths of a function, in ascending order.

ghost use Rattle.std.specs.Prelude.{◌≡◌, ◌<◌, ◌≤◌, ◌+◌, ◌-◌, ◌^◌, ◌++◌, ℕ, [], Contains, IfOk, get_or, map};
ghost use Rattle.std.specs.List.Sorted.{IsStrictlyIncreasing};
ghost use Rattle.vfa_ir.specs.Printable.{IsPrintable};
ghost use Rattle.vfa_word.specs.Numbers.{IsWidth};
ghost use Rattle.vfa_walk.specs.Landmarks.{ends_of, landmarks};
ghost use Rattle.vfa_walk.specs.Marks.{AreMarksOf};

use crate::landmarks::add_literals;
use crate::ready::printable;
use std::alloc::{AllocError, Global};
use std::marker::Model;
use vfa_check::Checked;
use vfa_ir::Function;

/// The landmarks of each width, by the width.
#[derive(Drop)]
pub struct Marks {
    of_width: Vec<Vec<u128>>,
}

impl Model for Marks {
    ghost use Rattle.std.specs.Prelude.{List, map, ℕ};

    ghost Value = { List (List ℕ) };

    ghost view = { λ m. map (λ v. v.items) m.of_width.items };
}

/// The least number of the width that is negative in the signed reading.
fn half(width: u32) -> u128
    requires { IsWidth width }
    ensures half { result ≡ 2 ^ (width - 1) }
    ensures some { 1 ≤ result }
    ensures twice { result + result ≡ 2 ^ width }
    ensures room { result ≤ 2 ^ 127 }
{
    1 << (width - 1)
}

/// Adds the least and the greatest number of the width, unsigned and signed.
fn add_ends(marks: &mut Vec<u128>, width: u32) -> Result<(), AllocError>
    requires { IsWidth width }
    ensures { IfOk result (λ _. marks.new.items ≡ marks.old.items ++ ends_of width) }
{
    let half = half(width);
    marks.push(0)?;
    marks.push(half - 1)?;
    marks.push(half)?;
    marks.push(half - 1 + half)?;
    Ok(())
}

/// Puts numbers in ascending order, each once.
fn put_in_order(marks: &mut Vec<u128>) -> Result<(), AllocError>
    ensures rises { IfOk result (λ _. IsStrictlyIncreasing marks.new.items) }
    ensures keeps { IfOk result (λ _. (x : ℕ) → Contains marks.old.items x → Contains marks.new.items x) }
    ensures adds_none { IfOk result (λ _. (x : ℕ) → Contains marks.new.items x → Contains marks.old.items x) }
{
    marks.sort()?;
    marks.dedup();
    Ok(())
}

/// The landmarks of a width.
fn landmarks(alloc: Global, f: &Function, width: u32) -> Result<Vec<u128>, AllocError>
    requires width { IsWidth width }
    requires printable { IsPrintable f.now }
    ensures { IfOk result (λ marks. marks.items ≡ landmarks f.now width) }
{
    let mut marks: Vec<u128> = Vec::new(alloc);
    add_literals(&mut marks, f, width)?;
    add_ends(&mut marks, width)?;
    put_in_order(&mut marks)?;
    Ok(marks)
}

/// The landmarks of each width, by the width; no number has width 0.
fn all_landmarks(alloc: Global, f: &Function) -> Result<Vec<Vec<u128>>, AllocError>
    requires { IsPrintable f.now }
    ensures { IfOk result (λ all. (w : ℕ) → IsWidth w → get_or (map (λ v. v.items) all.items) w [] ≡ landmarks f.now w) }
{
    let mut all: Vec<Vec<u128>> = Vec::new(alloc);
    all.push(Vec::new(alloc))?;
    'widths: for width in 1u32..129 {
        all.push(landmarks(alloc, f, width)?)?;
    }
    Ok(all)
}

impl Marks {
    /// The landmarks of the widths of a function: for each width the ends of both readings and the literals of the width.
    ///
    /// In a function whose literals of type `i8` are 10 and 1 those of width 8 are 0, 1, 10, 127, 128 and 255.
    pub fn of(alloc: Global, f: &Checked) -> Result<Marks, AllocError>
        ensures { IfOk result (AreMarksOf f.now) }
    {
        Ok(Marks {
            of_width: all_landmarks(alloc, printable(f))?,
        })
    }

    /// The landmarks of a width.
    pub(crate) fn at(&self, width: u32) -> &[u128]
        ensures { result.now ≡ get_or self.now width [] }
    {
        match self.of_width.get(width as usize) {
            Some(marks) => marks.as_slice(),
            None => &[],
        }
    }
}
