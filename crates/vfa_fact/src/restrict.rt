ghost use Rattle.std.specs.Prelude.{◌≡◌, ℕ, IsTrue, IsSomeAnd};
ghost use Rattle.std.specs.Bool.{OnTrue};
ghost use Rattle.std.specs.Option.{option_map};
ghost use Rattle.vfa_dom.specs.Sets.{meet};
ghost use Rattle.vfa_fact.specs.Compare.{restrict_of, satisfies};
ghost use Rattle.vfa_fact.specs.Fact.{span_in};
ghost use Rattle.vfa_fact.specs.Sharp.{sharp_in};
ghost use Rattle.vfa_fact.specs.Views.{numbers_of, in_fact};
ghost use Rattle.vfa_wrap.specs.Wrapped.{in_arc};

use crate::order::{Relation, relation_of};
use crate::partners::{arc_after, arc_before, arc_from, arc_unequal, arc_up_to};
use crate::sharp::numbers_in_both;
use crate::{Fact, Numbers};
use vfa_dom::Domain;
use vfa_ir::Pred;
use vfa_wrap::Wrapped;

impl<const W: u32> Fact<W> {
    /// Whether the known bits and the arc take in those of another fact: a yes means that they have each of its members.
    fn takes_in(&self, other: &Fact<W>) -> bool
        ensures { OnTrue result ((x : ℕ) → IsTrue (in_fact W other.now x) → IsTrue (in_fact W self.now x)) }
    {
        if !self.known.includes(&other.known) {
            return false;
        }
        self.arc.includes(&other.arc)
    }

    /// The plain numbers of the fact of the common members; None exactly where there is none.
    pub(crate) fn common(&self, other: &Fact<W>) -> Option<Numbers>
        ensures { result ≡ sharp_in W (span_in (numbers_of self.now)) (meet (in_fact W self.now) (in_fact W other.now)) }
    {
        if other.takes_in(self) {
            return Some(self.numbers());
        }
        let cube = self.known.agree(&other.known)?;
        numbers_in_both(&cube, &other.arc, &self.arc)
    }

    /// The plain numbers of the fact of the members in the arc; None exactly where there is none.
    fn within(&self, arc: &Wrapped<W>) -> Option<Numbers>
        ensures { result ≡ sharp_in W (span_in (numbers_of self.now)) (meet (in_fact W self.now) (in_arc W arc.now)) }
    {
        if arc.includes(&self.arc) {
            return Some(self.numbers());
        }
        numbers_in_both(&self.known, arc, &self.arc)
    }

    /// The plain numbers of what `restrict` gives.
    pub(crate) fn restricted(&self, pred: Pred, other: &Fact<W>) -> Option<Numbers>
        ensures { result ≡ restrict_of W pred (numbers_of self.now) (in_fact W other.now) }
    {
        match relation_of(pred) {
            Relation::Equal => self.common(other),
            Relation::Unequal => self.within(&arc_unequal(other)),
            Relation::Before(order) => self.within(&arc_before(order, other)?),
            Relation::UpTo(order) => self.within(&arc_up_to(order, other)),
            Relation::After(order) => self.within(&arc_after(order, other)?),
            Relation::From(order) => self.within(&arc_from(order, other)),
        }
    }

    /// The fact of the numbers of `self` that satisfy the comparison with some number of `other`; None exactly where
    /// there is none.
    ///
    /// As ConstantRange::makeAllowedICmpRegion, intersected with the numbers of `self`: at width 8, 0 to 200 restricted
    /// by `ugt` of 9 to 20 is 10 to 200, and 0 to 9 restricted by it is None.
    pub fn restrict(&self, pred: Pred, other: &Fact<W>) -> Option<Fact<W>>
        ensures exact { option_map numbers_of result ≡ restrict_of W pred (numbers_of self.now) (in_fact W other.now) }
        ensures keeps { (x y : ℕ) → IsTrue (in_fact W self.now x) → IsTrue (in_fact W other.now y) →
            IsTrue (satisfies W pred x y) → IsSomeAnd result (λ fact. IsTrue (in_fact W fact x)) }
    {
        let numbers = self.restricted(pred, other)?;
        Some(Fact::from_numbers(&numbers))
    }
}
