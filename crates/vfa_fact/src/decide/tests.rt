ghost use Rattle.vfa_word.specs.Numbers.{IsWidth};

use crate::tests::{all_facts, shown};
use crate::{Fact, Numbers, Test};
use std::process::Abort;
use std::test::Fail;
use vfa_dom::{Domain, SetOf};
use vfa_ir::Pred;
use vfa_word::{Word, most};
use vfa_wrap::Wrapped;

/// The fact of the numbers of an arc.
fn between<const W: u32>(rt: &impl Abort, first: u128, last: u128) -> Fact<W>
    requires { IsWidth W }
{
    let arc = Wrapped::new(Word::cut(first), Word::cut(last));
    let any: Fact<W> = Fact::any();
    Fact::sharp(any.known(), arc, &Test::inside(arc)).expect(rt, "an arc has numbers")
}

/// Whether the comparison of two numbers is true.
fn is_true<const W: u32>(pred: Pred, x: Word<W>, y: Word<W>) -> bool
    requires { IsWidth W }
{
    let (a, b) = (x.bits(), y.bits());
    let (c, d) = (x.signed(), y.signed());
    match pred {
        Pred::Eq => a == b,
        Pred::Ne => a != b,
        Pred::Ugt => a > b,
        Pred::Uge => a >= b,
        Pred::Ult => a < b,
        Pred::Ule => a <= b,
        Pred::Sgt => c > d,
        Pred::Sge => c >= d,
        Pred::Slt => c < d,
        Pred::Sle => c <= d,
    }
}

/// Whether the comparison of `x` with some member of `b` has the answer.
fn is_met<const W: u32>(pred: Pred, x: Word<W>, b: &Fact<W>, answer: bool) -> bool
    requires { IsWidth W }
{
    let mut some = false;
    'numbers: for n in 0..=most::<W>() {
        let y = Word::cut(n);
        some |= b.has(y) && is_true(pred, x, y) == answer;
    }
    some
}

/// Whether the comparison of some member of `a` with some member of `b` has the answer.
fn is_found<const W: u32>(pred: Pred, a: &Fact<W>, b: &Fact<W>, answer: bool) -> bool
    requires { IsWidth W }
{
    let mut some = false;
    'numbers: for n in 0..=most::<W>() {
        let x = Word::cut(n);
        some |= a.has(x) && is_met(pred, x, b, answer);
    }
    some
}

/// What the comparison answers, by looking at each pair of members.
fn decided<const W: u32>(pred: Pred, a: &Fact<W>, b: &Fact<W>) -> Option<bool>
    requires { IsWidth W }
{
    match (is_found(pred, a, b, true), is_found(pred, a, b, false)) {
        (true, false) => Some(true),
        (false, true) => Some(false),
        _ => None,
    }
}

/// The numbers of the fact of the members of `a` that have a partner in `b`, by a list of all numbers of the width, going
/// up from the first number of the arc of `a`.
fn kept<const W: u32>(pred: Pred, a: &Fact<W>, b: &Fact<W>) -> Option<Numbers>
    requires { IsWidth W }
{
    let most = most::<W>();
    let mut found: Option<Numbers> = None;
    'steps: for step in 0..=most {
        let x = a.arc().first().add(Word::cut(step));
        let bits = x.bits();
        if a.has(x) && is_met(pred, x, b, true) {
            let before = found.unwrap_or(Numbers {
                zeros: most,
                ones: most,
                first: bits,
                last: bits,
            });
            found = Some(Numbers {
                zeros: before.zeros & (most ^ bits),
                ones: before.ones & bits,
                first: before.first,
                last: bits,
            });
        }
    }
    found
}

const PREDS: [Pred; 10] = [
    Pred::Eq,
    Pred::Ne,
    Pred::Ugt,
    Pred::Uge,
    Pred::Ult,
    Pred::Ule,
    Pred::Sgt,
    Pred::Sge,
    Pred::Slt,
    Pred::Sle,
];

/// Compares what the ten predicates give at two facts with lists of members.
fn compare_with_lists<const W: u32>(rt: &impl Abort, a: &Fact<W>, b: &Fact<W>)
    requires { IsWidth W }
{
    'predicates: for pred in PREDS {
        assert!(rt; Fact::decide(pred, a, b) == decided(pred, a, b));
        let rest = a.restrict(pred, b).map(|fact| shown(&fact));
        assert!(rt; rest == kept(pred, a, b));
    }
}

/// Compares what the predicates give at all pairs of the facts, of which there are `count`.
fn compare_pairs<const W: u32>(rt: &impl Abort, facts: &[Fact<W>], count: usize)
    requires { IsWidth W }
{
    assert_eq!(rt; facts.len(), count);
    'left: for a in facts {
        'right: for b in facts {
            compare_with_lists(rt, a, b);
        }
    }
}

#[test]
fn all_facts_of_small_widths(rt: HostRuntime) -> Result<(), Fail> {
    compare_pairs(&rt, &all_facts::<1>(rt.alloc())?, 3);
    compare_pairs(&rt, &all_facts::<2>(rt.alloc())?, 17);
    compare_pairs(&rt, &all_facts::<3>(rt.alloc())?, 115);
    Ok(())
}

#[test]
fn decides_by_ends_and_bits(rt: HostRuntime) {
    let low = between::<8>(&rt, 0, 4);
    let high = between::<8>(&rt, 5, 9);
    assert_eq!(rt; Fact::decide(Pred::Ult, &low, &high), Some(true));
    assert_eq!(rt; Fact::decide(Pred::Ult, &high, &low), Some(false));
    assert_eq!(rt; Fact::decide(Pred::Ule, &low, &between(&rt, 3, 9)), None);
    assert_eq!(rt;
        Fact::decide(Pred::Slt, &between::<8>(&rt, 200, 255), &low),
        Some(true)
    );
    assert_eq!(rt; Fact::decide(Pred::Eq, &low, &high), Some(false));
    assert_eq!(rt;
        Fact::decide(Pred::Ne, &between::<128>(&rt, 7, 7), &between(&rt, 7, 7)),
        Some(false)
    );
}

#[test]
fn restricts_to_the_numbers_left(rt: HostRuntime) {
    let wide = between::<8>(&rt, 0, 200);
    let rest = wide
        .restrict(Pred::Ugt, &between(&rt, 9, 20))
        .expect(&rt, "some are above 9");
    assert_eq!(rt;
        (rest.arc().first().bits(), rest.arc().last().bits()),
        (10, 200)
    );
    assert!(rt;
        between::<8>(&rt, 0, 9)
            .restrict(Pred::Ugt, &between(&rt, 9, 20))
            .is_none()
    );
    assert!(rt; wide.restrict(Pred::Ult, &between(&rt, 0, 0)).is_none());
}
