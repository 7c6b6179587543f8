ghost use Rattle.std.specs.Prelude.{◌≡◌, nat_eq, not};
ghost use Rattle.std.specs.Option.{option_map};
ghost use Rattle.vfa_dom.specs.Sets.{meets};
ghost use Rattle.vfa_fact.specs.Compare.{decided, decide_of};
ghost use Rattle.vfa_fact.specs.Order.{base_of, comes_before, relates};
ghost use Rattle.vfa_fact.specs.Views.{in_fact};

use crate::Fact;
use crate::order::{Order, Relation, first_place_of, last_place_of, relation_of};
use vfa_dom::Domain;
use vfa_ir::Pred;

/// The one answer of "comes before" over all pairs; None where there is none.
fn precedes<const W: u32>(order: Order, a: &Fact<W>, b: &Fact<W>) -> Option<bool>
    ensures { result ≡ decided W (comes_before W (base_of W order)) (in_fact W a.now) (in_fact W b.now) }
{
    let last_of_a = last_place_of(a, order);
    let first_of_b = first_place_of(b, order);
    if last_of_a < first_of_b {
        return Some(true);
    }
    let first_of_a = first_place_of(a, order);
    let last_of_b = last_place_of(b, order);
    if last_of_b <= first_of_a {
        return Some(false);
    }
    None
}

/// Whether the two have a common number.
fn meet<const W: u32>(a: &Fact<W>, b: &Fact<W>) -> bool
    ensures { result ≡ meets W (in_fact W a.now) (in_fact W b.now) }
{
    a.common(b).is_some()
}

/// The one answer of "is the same as" over all pairs; None where there is none.
fn equal<const W: u32>(a: &Fact<W>, b: &Fact<W>) -> Option<bool>
    ensures { result ≡ decided W nat_eq (in_fact W a.now) (in_fact W b.now) }
{
    if !meet(a, b) {
        return Some(false);
    }
    if a.single().is_none() {
        return None;
    }
    if b.single().is_none() {
        return None;
    }
    Some(true)
}

/// The other answer, where there is one.
fn negated(answer: Option<bool>) -> Option<bool>
    ensures { result ≡ option_map not answer }
{
    match answer {
        Some(yes) => Some(!yes),
        None => None,
    }
}

/// The one answer of the relation over all pairs; None where there is none.
fn decide_by<const W: u32>(relation: Relation, a: &Fact<W>, b: &Fact<W>) -> Option<bool>
    ensures { result ≡ decided W (relates W relation) (in_fact W a.now) (in_fact W b.now) }
{
    match relation {
        Relation::Equal => equal(a, b),
        Relation::Unequal => negated(equal(a, b)),
        Relation::Before(order) => precedes(order, a, b),
        Relation::From(order) => negated(precedes(order, a, b)),
        Relation::After(order) => precedes(order, b, a),
        Relation::UpTo(order) => negated(precedes(order, b, a)),
    }
}

impl<const W: u32> Fact<W> {
    /// What the comparison answers for all pairs of a number of `a` and one of `b`: Some(true) exactly where all pairs
    /// satisfy it, Some(false) exactly where none does, else None.
    ///
    /// As ConstantRange::icmp, which knows no bits: at width 8, `ult` of 0 to 4 and 5 to 9 is Some(true), and `eq` of
    /// the even numbers and the odd ones is Some(false).
    pub fn decide(pred: Pred, a: &Fact<W>, b: &Fact<W>) -> Option<bool>
        ensures { result ≡ decide_of W pred (in_fact W a.now) (in_fact W b.now) }
    {
        decide_by(relation_of(pred), a, b)
    }
}

#[cfg(test)]
mod tests;
