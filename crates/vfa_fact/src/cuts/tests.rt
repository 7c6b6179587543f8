ghost use Rattle.vfa_word.specs.Numbers.{IsWidth};

use crate::tests::{all_facts, listed, shown};
use crate::{Cell, CellAmounts, CellEnds, Fact, Test};
use std::process::Abort;
use std::test::Fail;
use vfa_dom::{Domain, SetOf};
use vfa_word::{Word, most};
use vfa_wrap::Wrapped;

/// The ends of the members from `low` up to `high`, by a list of these numbers.
fn listed_ends<const W: u32>(fact: &Fact<W>, low: u128, high: u128) -> Option<CellEnds>
    requires { IsWidth W }
{
    let mut found: Option<CellEnds> = None;
    'numbers: for n in low..=high {
        let x = Word::cut(n);
        if fact.has(x) {
            let reading = x.signed();
            let before = found.unwrap_or(CellEnds {
                lo: n,
                hi: n,
                slo: reading,
                shi: reading,
            });
            found = Some(CellEnds {
                lo: before.lo.min(n),
                hi: before.hi.max(n),
                slo: before.slo.min(reading),
                shi: before.shi.max(reading),
            });
        }
    }
    found
}

/// The members below the width, by a list of these numbers.
fn listed_amounts<const W: u32>(fact: &Fact<W>) -> Option<CellAmounts>
    requires { IsWidth W }
{
    let ends = listed_ends(fact, 0, u128::from(W - 1))?;
    let mut mask = 0;
    'amounts: for amount in 0..W {
        if fact.has(Word::cut(u128::from(amount))) {
            mask |= 1 << amount;
        }
    }
    Some(CellAmounts { mask, ends })
}

/// Compares the parts of a fact with lists.
fn parts_against_lists<const W: u32>(rt: &impl Abort, fact: &Fact<W>)
    requires { IsWidth W }
{
    let most = most::<W>();
    'lows: for low in 0..=most {
        'highs: for high in low..=most {
            let arc = Wrapped::new(Word::cut(low), Word::cut(high));
            let numbers = listed(&fact.known(), &arc, &Test::inside(fact.arc()));
            assert!(rt; fact.part(low, high) == numbers);
            assert!(rt; low == high || fact.part(high, low).is_none());
        }
    }
}

/// Compares the members of a cell with those of its fact, and the cells of single numbers with their facts.
fn members_against_lists<const W: u32>(rt: &impl Abort, fact: &Fact<W>)
    requires { IsWidth W }
{
    let cell = Cell::of(fact, true);
    'numbers: for n in 0..=most::<W>() {
        assert!(rt; cell.has(n) == fact.has(Word::cut(n)));
        let only = Fact::<W>::only(Word::cut(n));
        assert!(rt; Cell::literal(W, n).numbers == Some(shown(&only)));
    }
    assert!(rt; !cell.has(u128::MAX));
    assert!(rt; cell.single() == fact.single().map(|x| x.bits()));
}

/// Compares the ends of all facts of a width with lists of members.
fn ends_against_lists<const W: u32>(rt: &impl Abort, facts: &[Fact<W>])
    requires { IsWidth W }
{
    let most = most::<W>();
    'facts: for fact in facts {
        let cell = Cell::of(fact, false);
        assert!(rt; cell.ends() == listed_ends(fact, 0, most));
        assert!(rt; cell.divisors() == listed_ends(fact, 1, most));
        assert!(rt; cell.amounts() == listed_amounts(fact));
        parts_against_lists(rt, fact);
        members_against_lists(rt, fact);
    }
}

#[test]
fn all_facts_of_small_widths(rt: HostRuntime) -> Result<(), Fail> {
    ends_against_lists(&rt, &all_facts::<1>(rt.alloc())?);
    ends_against_lists(&rt, &all_facts::<2>(rt.alloc())?);
    ends_against_lists(&rt, &all_facts::<3>(rt.alloc())?);
    Ok(())
}

#[test]
fn amounts_of_a_turned_arc(rt: HostRuntime) {
    let arc = Wrapped::new(Word::cut(3), Word::cut(1));
    let any: Fact<6> = Fact::any();
    let fact = Fact::sharp(any.known(), arc, &Test::inside(arc)).expect(&rt, "an arc has numbers");
    let amounts = Cell::of(&fact, true)
        .amounts()
        .expect(&rt, "3 to 5, 0 and 1");
    assert_eq!(rt; amounts.mask, 0b111011);
    assert_eq!(rt; (amounts.ends.lo, amounts.ends.hi), (0, 5));
    // the fact of these amounts has more numbers than they are
    let below = Test::inside(Wrapped::new(Word::cut(0), Word::cut(5)));
    let sharpened = Fact::sharp(fact.known(), fact.arc(), &below).expect(&rt, "3 to 5, 0 and 1");
    assert_eq!(rt; sharpened.ends().hi, 7);
}

#[test]
fn divisors_on_both_sides_of_zero(rt: HostRuntime) {
    let arc = Wrapped::new(Word::cut(254), Word::cut(3));
    let any: Fact<8> = Fact::any();
    let fact = Fact::sharp(any.known(), arc, &Test::inside(arc)).expect(&rt, "an arc has numbers");
    let ends = Cell::of(&fact, true)
        .divisors()
        .expect(&rt, "-2, -1 and 1 to 3");
    assert_eq!(rt; (ends.lo, ends.hi), (1, 255));
    assert_eq!(rt; (ends.slo, ends.shi), (-2, 3));
    assert!(rt; Cell::literal(8, 0).divisors().is_none());
    assert!(rt; Cell::none(8).divisors().is_none() && Cell::none(8).amounts().is_none());
    assert!(rt; Cell::literal(8, 8).amounts().is_none());
}
