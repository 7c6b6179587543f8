//! Facts without a pattern, the same in each run.

ghost use Rattle.vfa_word.specs.Numbers.{IsWidth};

use std::alloc::{AllocError, Global};
use vfa_dom::Domain;
use vfa_fact::{Cell, Fact, Parts, Test};
use vfa_known::Known;
use vfa_word::Word;
use vfa_wrap::Wrapped;
use vfa_xfer::AnyFact;

/// Numbers without a pattern.
#[derive(Drop)]
pub struct Numbers {
    state: u64,
}

impl Numbers {
    /// Numbers that are the same in each run.
    pub fn new() -> Numbers {
        Numbers {
            state: 0x9e3779b97f4a7c15,
        }
    }

    fn next(&mut self) -> u64 {
        let mut x = self.state;
        x ^= x << 13;
        x ^= x >> 7;
        x ^= x << 17;
        self.state = x;
        x
    }

    fn word<const W: u32>(&mut self) -> Word<W>
        requires { IsWidth W }
    {
        let high = self.next() as u128;
        Word::cut(high << 64 | self.next() as u128)
    }

    fn known<const W: u32>(&mut self) -> Known<W>
        requires { IsWidth W }
    {
        let fixed: Word<W> = self.word();
        let more: Word<W> = self.word();
        let bits: Word<W> = self.word();
        let mask = fixed.bits() & more.bits();
        match Known::new(mask & !bits.bits(), mask & bits.bits()) {
            Some(known) => known,
            None => Known::any(),
        }
    }

    fn arc<const W: u32>(&mut self) -> Wrapped<W>
        requires { IsWidth W }
    {
        let first: Word<W> = self.word();
        let last: Word<W> = self.word();
        Wrapped::new(first, last)
    }

    /// A number below the width.
    fn amount<const W: u32>(&mut self) -> u128
        requires { IsWidth W }
    {
        self.next() as u128 % u128::from(W)
    }

    fn amounts<const W: u32>(&mut self) -> Wrapped<W>
        requires { IsWidth W }
    {
        let one = self.amount::<W>();
        let two = self.amount::<W>();
        Wrapped::new(Word::cut(one.min(two)), Word::cut(one.max(two)))
    }
}

/// The test of the numbers of an arc.
pub fn inside<const W: u32>(arc: Wrapped<W>) -> Test<W>
    requires { IsWidth W }
{
    Test {
        cube: Known::any(),
        one: arc,
        two: arc,
    }
}

/// What one call of `sharp` takes.
#[derive(Clone, Copy)]
pub struct Case<const W: u32> {
    /// The known bits.
    pub known: Known<W>,
    /// The arc, also for the test.
    pub arc: Wrapped<W>,
}

/// So many cases, what the calls of `sharp` take.
pub fn cases<const W: u32>(
    alloc: Global,
    numbers: &mut Numbers,
    count: usize,
) -> Result<Vec<Case<W>>, AllocError>
    requires { IsWidth W }
{
    let mut list = Vec::new(alloc);
    'each: for _ in 0..count {
        let known = numbers.known();
        let arc = numbers.arc();
        list.push(Case { known, arc })?;
    }
    Ok(list)
}

/// The facts of the cases that have one.
pub fn facts<const W: u32>(alloc: Global, cases: &[Case<W>]) -> Result<Vec<Fact<W>>, AllocError>
    requires { IsWidth W }
{
    let mut list = Vec::new(alloc);
    'each: for case in cases {
        let test = inside(case.arc);
        if let Some(fact) = Fact::sharp(case.known, case.arc, &test) {
            list.push(fact)?;
        }
    }
    Ok(list)
}

/// The cells of the facts.
pub fn cells<const W: u32>(alloc: Global, facts: &[Fact<W>]) -> Result<Vec<Cell>, AllocError>
    requires { IsWidth W }
{
    let mut list = Vec::new(alloc);
    'each: for fact in facts {
        list.push(Cell::of(fact, true))?;
    }
    Ok(list)
}

/// The fact of a number, never poison.
fn mark<const W: u32>(fact: &Fact<W>) -> AnyFact
    requires { IsWidth W }
{
    AnyFact {
        parts: Parts::One(Cell::of(fact, true)),
    }
}

/// What the facts say, of values that are never poison.
pub fn marked<const W: u32>(alloc: Global, facts: &[Fact<W>]) -> Result<Vec<AnyFact>, AllocError>
    requires { IsWidth W }
{
    let mut list = Vec::new(alloc);
    'each: for fact in facts {
        list.push(mark(fact))?;
    }
    Ok(list)
}

/// Facts of so many amounts below the width, of values that are never poison.
pub fn marked_amounts<const W: u32>(
    alloc: Global,
    numbers: &mut Numbers,
    count: usize,
) -> Result<Vec<AnyFact>, AllocError>
    requires { IsWidth W }
{
    let mut list = Vec::new(alloc);
    'each: for _ in 0..count {
        if let Some(fact) = Fact::sharp(Known::<W>::any(), numbers.amounts(), &Test::any()) {
            list.push(mark(&fact))?;
        }
    }
    Ok(list)
}

/// The fact of a pair of such a number and any bit.
fn paired(fact: &AnyFact) -> AnyFact {
    match &fact.parts {
        Parts::One(cell) => AnyFact {
            parts: Parts::Two(*cell, Cell::any(1, true)),
        },
        Parts::Two(_, _) => *fact,
    }
}

/// Facts of pairs of the numbers of the facts and any bit.
pub fn pairs(alloc: Global, facts: &[AnyFact]) -> Result<Vec<AnyFact>, AllocError> {
    let mut list = Vec::new(alloc);
    'each: for fact in facts {
        list.push(paired(fact))?;
    }
    Ok(list)
}
