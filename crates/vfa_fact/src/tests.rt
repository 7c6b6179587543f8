ghost use Rattle.std.specs.Prelude.{IsTrue};
ghost use Rattle.vfa_word.specs.Numbers.{IsWidth};

use super::*;
use std::alloc::{AllocError, Global};
use std::process::Abort;
use std::test::Fail;
use vfa_dom::{Domain, SetOf};
use vfa_known::Known;
use vfa_word::{Word, most};
use vfa_wrap::Wrapped;

/// The arc between two numbers, cut to the width.
fn arc<const W: u32>(first: u128, last: u128) -> Wrapped<W>
    requires { IsWidth W }
{
    Wrapped::new(Word::cut(first), Word::cut(last))
}

/// The fact of the numbers of a cube in an arc.
fn fact<const W: u32>(zeros: u128, ones: u128, first: u128, last: u128) -> Result<Fact<W>, Fail>
    requires { IsWidth W }
{
    let known = Known::new(zeros, ones).ok_or("no known bits")?;
    let test = Test {
        cube: known,
        one: arc(first, last),
        two: Wrapped::any(),
    };
    Ok(Fact::sharp(known, arc(first, last), &test).ok_or("no numbers")?)
}

/// The plain numbers of a fact: masks, and ends of the arc.
pub(crate) fn shown<const W: u32>(fact: &Fact<W>) -> Numbers {
    Numbers {
        zeros: fact.known().zeros(),
        ones: fact.known().ones(),
        first: fact.arc().first().bits(),
        last: fact.arc().last().bits(),
    }
}

/// The fact that has these numbers; None where there is none.
fn fact_of<const W: u32>(numbers: &Numbers) -> Option<Fact<W>>
    requires { IsWidth W }
{
    let known = Known::new(numbers.zeros, numbers.ones)?;
    let arc = Wrapped::new(Word::cut(numbers.first), Word::cut(numbers.last));
    let fact = Fact::sharp(known, arc, &Test::inside(arc))?;
    if shown(&fact) != *numbers {
        return None;
    }
    Some(fact)
}

/// Adds the facts with these masks.
fn add_facts<const W: u32>(
    facts: &mut Vec<Fact<W>>,
    zeros: u128,
    ones: u128,
) -> Result<(), AllocError>
    requires { IsWidth W }
{
    let most = most::<W>();
    'firsts: for first in 0..=most {
        'lasts: for last in 0..=most {
            let numbers = Numbers {
                zeros,
                ones,
                first,
                last,
            };
            if let Some(fact) = fact_of(&numbers) {
                facts.push(fact)?;
            }
        }
    }
    Ok(())
}

/// Each fact of a width, once.
pub(crate) fn all_facts<const W: u32>(alloc: Global) -> Result<Vec<Fact<W>>, AllocError>
    requires { IsWidth W }
{
    let most = most::<W>();
    let mut facts = Vec::new(alloc);
    'zeros: for zeros in 0..=most {
        'ones: for ones in 0..=most {
            add_facts(&mut facts, zeros, ones)?;
        }
    }
    Ok(facts)
}

/// The numbers of the fact of the numbers that agree, lie in the arc and pass, by a list of all numbers of the width, going
/// up from the arc's first.
pub(crate) fn listed<const W: u32>(
    known: &Known<W>,
    arc: &Wrapped<W>,
    test: &Test<W>,
) -> Option<Numbers>
    requires { IsWidth W }
{
    let most = most::<W>();
    let mut found: Option<Numbers> = None;
    for step in 0..=most {
        let x = arc.first().add(Word::cut(step));
        let bits = x.bits();
        let passes = test.cube.has(x) && test.one.has(x) && test.two.has(x);
        if passes && known.has(x) && arc.has(x) {
            let before = found.unwrap_or(Numbers {
                zeros: most,
                ones: most,
                first: bits,
                last: bits,
            });
            found = Some(Numbers {
                zeros: before.zeros & (most ^ bits),
                ones: before.ones & bits,
                first: before.first,
                last: bits,
            });
        }
    }
    found
}

/// The sharp facts of a cube in all arcs, cut by two arcs that begin with each other's last number.
fn sharp_in_all_arcs<const W: u32>(rt: &impl Abort, known: &Known<W>, first: u128, last: u128)
    requires { IsWidth W }
{
    let most = most::<W>();
    for from in 0..=most {
        for upto in 0..=most {
            let test = Test {
                cube: Known::any(),
                one: arc(from, upto),
                two: arc(upto, last),
            };
            let within = arc(first, last);
            let sharp = Fact::sharp(*known, within, &test).map(|fact| shown(&fact));
            assert!(rt; sharp == listed(known, &within, &test));
        }
    }
}

/// The sharp facts of a cube.
fn sharp_in_cube<const W: u32>(rt: &impl Abort, known: &Known<W>)
    requires { IsWidth W }
{
    let most = most::<W>();
    for first in 0..=most {
        for last in 0..=most {
            sharp_in_all_arcs(rt, known, first, last);
        }
    }
}

fn sharp_facts_of_width<const W: u32>(rt: &impl Abort)
    requires { IsWidth W }
{
    let most = most::<W>();
    for zeros in 0..=most {
        for ones in 0..=most {
            if let Some(known) = Known::<W>::new(zeros, ones) {
                sharp_in_cube(rt, &known);
            }
        }
    }
}

#[test]
fn sharp_facts_against_lists(rt: HostRuntime) {
    sharp_facts_of_width::<1>(&rt);
    sharp_facts_of_width::<2>(&rt);
    sharp_facts_of_width::<3>(&rt);
}

#[test]
fn ends_of_even_numbers(rt: HostRuntime) -> Result<(), Fail> {
    let ends = fact::<8>(1, 0, 250, 5)?.ends();
    assert_eq!(rt; (ends.lo, ends.hi), (0, 254));
    assert_eq!(rt; (ends.slo, ends.shi), (-6, 4));
    let bit = fact::<1>(0, 0, 0, 1)?.ends();
    assert_eq!(rt; (bit.lo, bit.hi), (0, 1));
    assert_eq!(rt; (bit.slo, bit.shi), (-1, 0));
    Ok(())
}

#[test]
fn joins_and_parts(rt: HostRuntime) -> Result<(), Fail> {
    let join = Fact::<8>::only(Word::cut(4)).join(&Fact::only(Word::cut(12)));
    let numbers = shown(&join);
    assert_eq!(rt; (numbers.zeros, numbers.ones), (0xf3, 4));
    assert_eq!(rt; (numbers.first, numbers.last), (4, 12));
    let even = fact::<8>(1, 0, 0, 8)?;
    assert!(rt; even.includes(&fact::<8>(0xf9, 2, 0, 255)?));
    assert!(rt; !even.includes(&join.join(&Fact::only(Word::cut(5)))));
    // 0 and 8 lie in the arc from 8 up to 0, and the numbers between them do not
    assert!(rt; fact::<8>(7, 0, 8, 0)?.includes(&fact::<8>(0xf7, 0, 0, 8)?));
    Ok(())
}

/// Whether a join has what its left side has, known of every domain.
fn joined_has<const W: u32, D: Domain<W>>(one: &D, two: &D, x: Word<W>) -> bool
    requires { D.holds one.now x }
    ensures { IsTrue result }
{
    one.join(two).has(x)
}

/// The calls of a domain, at the sets of all numbers, of `x` alone and of `x` and 0.
fn domain_calls<const W: u32, D: Domain<W>>(rt: &impl Abort, x: Word<W>, zero: Word<W>)
    requires { IsWidth W }
{
    let all = D::any();
    let one = D::only(x);
    let two = one.join(&D::only(zero));
    assert!(rt; all.has(x) && one.has(x) && two.has(zero));
    assert!(rt; !one.has(zero));
    assert!(rt; joined_has(&one, &all, x));
    assert!(rt; two.includes(&one) && !one.includes(&two));
    assert_eq!(rt; one.single().map(|only| only.bits()), Some(x.bits()));
    assert!(rt; two.single().is_none());
}

#[test]
fn facts_are_a_domain(rt: HostRuntime) {
    domain_calls::<1, Fact<1>>(&rt, Word::cut(1), Word::cut(0));
    domain_calls::<64, Fact<64>>(&rt, Word::cut(9), Word::cut(0));
    domain_calls::<128, Fact<128>>(&rt, Word::cut(u128::MAX), Word::cut(0));
}

#[test]
fn even_numbers_of_an_arc(rt: HostRuntime) -> Result<(), Fail> {
    let even = Known::<8>::new(1, 0).ok_or("no known bits")?;
    let all = Test {
        cube: Known::any(),
        one: Wrapped::any(),
        two: Wrapped::any(),
    };
    let numbers = shown(&Fact::sharp(even, arc(3, 9), &all).ok_or("no numbers")?);
    assert_eq!(rt; (numbers.zeros, numbers.ones), (0xf1, 0));
    assert_eq!(rt; (numbers.first, numbers.last), (4, 8));
    assert!(rt; Fact::sharp(even, arc(3, 3), &all).is_none());
    Ok(())
}
