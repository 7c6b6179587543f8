//! Restriction of states by conditions.

ghost use Rattle.std.specs.Prelude.{◌≡◌, ℕ, IsSome, IsTrue, Some, slice_get};
ghost use Rattle.vfa_ir.specs.declared.operations.Operand.{Operand};
ghost use Rattle.vfa_ir.specs.declared.operations.Ty.TheVariants.{Int};
ghost use Rattle.vfa_mean.specs.FreshOperands.{DefinesOnce};
ghost use Rattle.vfa_mean.specs.Outcomes.{type_of};
ghost use Rattle.vfa_mean.specs.Values.{Env, operand_value};
ghost use Rattle.vfa_values.specs.Conditions.{IsInteger, IsOf, width_of};
ghost use Rattle.vfa_cond.specs.Changes.{AreChangesOf, restored};
ghost use Rattle.vfa_cond.specs.Conditions.{HasTypedEquations, AreFacts, IsNumberOperand, FitsConsequence};
ghost use Rattle.vfa_cond.specs.Narrowing.{Becomes, deepest, narrowed, narrowed_operand, narrowed_both, operand_fact, held, carried_out, followed};
ghost use Rattle.vfa_cond.specs.Places.{place_in, found};
ghost use Rattle.vfa_cond.specs.States.{AbstractState, known, with_fact, KeepsNames, KeepsRoom};
ghost use Rattle.vfa_cond.specs.Truth.{IsTrueState, IsWantedValue, HoldsBetween};
ghost use Rattle.vfa_cond.specs.Wants.{IsWantFor};
ghost use Rattle.vfa_cond.specs.declared.want.Want.{Want};

use crate::changes::{Changes, Forgetful, Journal};
use crate::consequence::{Consequence, consequence_of};
use crate::equations::equation;
use crate::predicates::exchanged;
use crate::state::State;
use crate::want::Want;
use vfa_ir::{Function, Operand, Pred, Ty, ValueId};
use vfa_values::Values;

/// How many equations are followed, one behind the other.
const DEEPEST: u32 = 4;

impl<V: Values> State<V> {
    /// The fact of an operand of this width; None exactly where it is a name that has none.
    fn operand_fact(&self, f: &Function, width: u32, operand: Operand) -> Option<V>
        requires { IsNumberOperand f.now width operand }
        ensures { result ≡ operand_fact V.answers width (known self.now) operand }
    {
        match operand {
            Operand::Value(v) => self.fact(v),
            Operand::Literal(bits) => Some(V::literal(width, bits)),
            Operand::Poison => Some(V::poison(Ty::Int(width))),
        }
    }

    /// Narrows the name to the wanted numbers, and through its live equation the operands that they depend on, to a depth of
    /// four equations. A yes means that the state is the narrowed one; a no that it is met by no values any more, and then it
    /// is to be dropped. A name without a fact is left alone.
    ///
    /// The state has facts of the types of their names, the name is of an integer type, and so is what is wanted.
    ///
    /// Where the state is true of the values that the names have, and the name's value is a wanted number, the answer is yes
    /// and the new state is true of them too.
    pub fn narrow(&mut self, f: &Function, v: ValueId, want: &Want<V>) -> bool
        requires function { HasTypedEquations f.now }
        requires once { DefinesOnce f.now }
        requires facts { AreFacts V.ty V.proper f.now (known self.old) }
        requires integer { IsInteger (type_of f.now v) }
        requires wanted { IsWantFor V.ty V.proper (type_of f.now v) want.now }
        ensures becomes { Becomes (narrowed V.answers f.now deepest v.0 want.now (known self.old)) result (known self.new) }
        ensures truth { (env : Env) → IsTrueState V.holds f.now (known self.old) env →
            IsWantedValue V.holds (width_of (type_of f.now v)) want.now (env v.0) → IsTrue result × IsTrueState V.holds f.now (known self.new) env }
        ensures facts { IsTrue result → AreFacts V.ty V.proper f.now (known self.new) }
        ensures names { IsTrue result → KeepsNames (known self.old) (known self.new) }
        ensures room { KeepsRoom self.old self.new }
    {
        self.narrow_within(f, v, want, DEEPEST, &mut Forgetful)
    }

    /// Does what `narrow` does, and notes what the facts were. Whatever the answer is, `undo` gives the state that it would have
    /// given before. The changes are of this state.
    pub fn narrow_noting(
        &mut self,
        f: &Function,
        v: ValueId,
        want: &Want<V>,
        changes: &mut Changes<V>,
    ) -> bool
        requires function { HasTypedEquations f.now }
        requires once { DefinesOnce f.now }
        requires facts { AreFacts V.ty V.proper f.now (known self.old) }
        requires integer { IsInteger (type_of f.now v) }
        requires wanted { IsWantFor V.ty V.proper (type_of f.now v) want.now }
        requires changes { AreChangesOf changes.old self.old }
        ensures becomes { Becomes (narrowed V.answers f.now deepest v.0 want.now (known self.old)) result (known self.new) }
        ensures truth { (env : Env) → IsTrueState V.holds f.now (known self.old) env →
            IsWantedValue V.holds (width_of (type_of f.now v)) want.now (env v.0) → IsTrue result × IsTrueState V.holds f.now (known self.new) env }
        ensures facts { IsTrue result → AreFacts V.ty V.proper f.now (known self.new) }
        ensures names { IsTrue result → KeepsNames (known self.old) (known self.new) }
        ensures room { KeepsRoom self.old self.new }
        ensures changes { AreChangesOf changes.new self.new }
        ensures undone { restored changes.new (known self.new) ≡ restored changes.old (known self.old) }
    {
        self.narrow_within(f, v, want, DEEPEST, changes)
    }

    /// Narrows both operands, which are of type `iN`, N being `width`, so that the predicate may hold of them: each by the fact
    /// that the other one had before, and as `narrow` does. Where one is a name without a fact nothing changes. The answer is
    /// that of `narrow`.
    ///
    /// Where the state is true of the values that the names have, and the operands are numbers of which the predicate holds,
    /// the answer is yes and the new state is true of them too.
    pub fn hold(&mut self, f: &Function, a: Operand, pred: Pred, b: Operand, width: u32) -> bool
        requires function { HasTypedEquations f.now }
        requires once { DefinesOnce f.now }
        requires facts { AreFacts V.ty V.proper f.now (known self.old) }
        requires first { IsNumberOperand f.now width a }
        requires second { IsNumberOperand f.now width b }
        ensures becomes { Becomes (held V.answers (narrowed V.answers f.now deepest) a pred b width (known self.old)) result (known self.new) }
        ensures truth { (env : Env) → IsTrueState V.holds f.now (known self.old) env →
            HoldsBetween pred width (operand_value env a) (operand_value env b) → IsTrue result × IsTrueState V.holds f.now (known self.new) env }
        ensures facts { IsTrue result → AreFacts V.ty V.proper f.now (known self.new) }
        ensures names { IsTrue result → KeepsNames (known self.old) (known self.new) }
        ensures room { KeepsRoom self.old self.new }
    {
        self.hold_within(f, a, pred, b, width, DEEPEST, &mut Forgetful)
    }

    /// Does what `hold` does, and notes what the facts were, as `narrow_noting` does.
    pub fn hold_noting(
        &mut self,
        f: &Function,
        a: Operand,
        pred: Pred,
        b: Operand,
        width: u32,
        changes: &mut Changes<V>,
    ) -> bool
        requires function { HasTypedEquations f.now }
        requires once { DefinesOnce f.now }
        requires facts { AreFacts V.ty V.proper f.now (known self.old) }
        requires first { IsNumberOperand f.now width a }
        requires second { IsNumberOperand f.now width b }
        requires changes { AreChangesOf changes.old self.old }
        ensures becomes { Becomes (held V.answers (narrowed V.answers f.now deepest) a pred b width (known self.old)) result (known self.new) }
        ensures truth { (env : Env) → IsTrueState V.holds f.now (known self.old) env →
            HoldsBetween pred width (operand_value env a) (operand_value env b) → IsTrue result × IsTrueState V.holds f.now (known self.new) env }
        ensures facts { IsTrue result → AreFacts V.ty V.proper f.now (known self.new) }
        ensures names { IsTrue result → KeepsNames (known self.old) (known self.new) }
        ensures room { KeepsRoom self.old self.new }
        ensures changes { AreChangesOf changes.new self.new }
        ensures undone { restored changes.new (known self.new) ≡ restored changes.old (known self.old) }
    {
        self.hold_within(f, a, pred, b, width, DEEPEST, changes)
    }

    /// Narrows a name through so many equations.
    #[cycle(narrowing)]
    fn narrow_within<J: Journal<V>>(
        &mut self,
        f: &Function,
        v: ValueId,
        want: &Want<V>,
        left: u32,
        journal: &mut J,
    ) -> bool
        requires function { HasTypedEquations f.now }
        requires once { DefinesOnce f.now }
        requires facts { AreFacts V.ty V.proper f.now (known self.old) }
        requires integer { IsInteger (type_of f.now v) }
        requires wanted { IsWantFor V.ty V.proper (type_of f.now v) want.now }
        requires serves { J.serves journal.old self.old }
        ensures becomes { Becomes (narrowed V.answers f.now left v.0 want.now (known self.old)) result (known self.new) }
        ensures facts { IsTrue result → AreFacts V.ty V.proper f.now (known self.new) }
        ensures room { KeepsRoom self.old self.new }
        ensures serves { J.serves journal.new self.new }
        ensures was { (s : AbstractState V) → J.was journal.old (known self.old) s → J.was journal.new (known self.new) s }
    {
        let place = self.place_of(v);
        let Some(fact) = self.at(v, place) else {
            return true;
        };
        let Some(kept) = want.keep(fact) else {
            return false;
        };
        self.narrow_to(f, v, place, &kept, left, journal)
    }

    /// Narrows a name that belongs at this place so that the predicate may hold of it and another fact.
    #[cycle(narrowing)]
    fn narrow_by<J: Journal<V>>(
        &mut self,
        f: &Function,
        v: ValueId,
        place: usize,
        pred: Pred,
        other: &V,
        left: u32,
        journal: &mut J,
    ) -> bool
        requires function { HasTypedEquations f.now }
        requires once { DefinesOnce f.now }
        requires facts { AreFacts V.ty V.proper f.now (known self.old) }
        requires belongs { place ≡ place_in self.old.entries v.0 }
        requires found { (known self.old).fact v.0 ≡ found v.0 (slice_get self.old.entries place) }
        requires integer { IsInteger (type_of f.now v) }
        requires other { IsOf V.ty V.proper (type_of f.now v) other.now }
        requires serves { J.serves journal.old self.old }
        ensures becomes { Becomes (narrowed V.answers f.now left v.0 (Want.Compare pred other.now) (known self.old)) result (known self.new) }
        ensures facts { IsTrue result → AreFacts V.ty V.proper f.now (known self.new) }
        ensures room { KeepsRoom self.old self.new }
        ensures serves { J.serves journal.new self.new }
        ensures was { (s : AbstractState V) → J.was journal.old (known self.old) s → J.was journal.new (known self.new) s }
    {
        let Some(fact) = self.at(v, place) else {
            return true;
        };
        let Some(kept) = fact.compare(pred, other) else {
            return false;
        };
        self.narrow_to(f, v, place, &kept, left, journal)
    }

    /// Gives a name that stands at this place what is kept of its fact, and does what follows from that.
    #[cycle(narrowing)]
    fn narrow_to<J: Journal<V>>(
        &mut self,
        f: &Function,
        v: ValueId,
        place: usize,
        kept: &V,
        left: u32,
        journal: &mut J,
    ) -> bool
        requires function { HasTypedEquations f.now }
        requires once { DefinesOnce f.now }
        requires facts { AreFacts V.ty V.proper f.now (known self.old) }
        requires some { IsSome ((known self.old).fact v.0) }
        requires belongs { place ≡ place_in self.old.entries v.0 }
        requires found { (known self.old).fact v.0 ≡ found v.0 (slice_get self.old.entries place) }
        requires own { IsOf V.ty V.proper (type_of f.now v) kept.now }
        requires serves { J.serves journal.old self.old }
        ensures becomes { Becomes (followed V.answers f.now left v.0 kept.now (with_fact (known self.old) v.0 (Some kept.now))) result (known self.new) }
        ensures facts { IsTrue result → AreFacts V.ty V.proper f.now (known self.new) }
        ensures room { KeepsRoom self.old self.new }
        ensures serves { J.serves journal.new self.new }
        ensures was { (s : AbstractState V) → J.was journal.old (known self.old) s → J.was journal.new (known self.new) s }
    {
        journal.replace(self, v, place, kept);
        self.follow(f, v, kept, left, journal)
    }

    /// Does what follows from a new fact of a name.
    #[cycle(narrowing)]
    fn follow<J: Journal<V>>(
        &mut self,
        f: &Function,
        v: ValueId,
        fact: &V,
        left: u32,
        journal: &mut J,
    ) -> bool
        requires function { HasTypedEquations f.now }
        requires once { DefinesOnce f.now }
        requires facts { AreFacts V.ty V.proper f.now (known self.old) }
        requires own { IsOf V.ty V.proper (type_of f.now v) fact.now }
        requires serves { J.serves journal.old self.old }
        ensures becomes { Becomes (followed V.answers f.now left v.0 fact.now (known self.old)) result (known self.new) }
        ensures facts { IsTrue result → AreFacts V.ty V.proper f.now (known self.new) }
        ensures room { KeepsRoom self.old self.new }
        ensures serves { J.serves journal.new self.new }
        ensures was { (s : AbstractState V) → J.was journal.old (known self.old) s → J.was journal.new (known self.new) s }
    {
        if left == 0 {
            return true;
        }
        if !self.live(v) {
            return true;
        }
        match equation(f, v) {
            None => true,
            Some(op) => self.carry_out(f, &consequence_of(&op, fact), left - 1, journal),
        }
    }

    /// Does to operands what a fact says of them.
    #[cycle(narrowing)]
    fn carry_out<J: Journal<V>>(
        &mut self,
        f: &Function,
        consequence: &Consequence<V>,
        left: u32,
        journal: &mut J,
    ) -> bool
        requires function { HasTypedEquations f.now }
        requires once { DefinesOnce f.now }
        requires facts { AreFacts V.ty V.proper f.now (known self.old) }
        requires fits { FitsConsequence V.ty V.proper f.now consequence.now }
        requires serves { J.serves journal.old self.old }
        ensures becomes { Becomes (carried_out V.answers (narrowed V.answers f.now left) consequence.now (known self.old)) result (known self.new) }
        ensures facts { IsTrue result → AreFacts V.ty V.proper f.now (known self.new) }
        ensures room { KeepsRoom self.old self.new }
        ensures serves { J.serves journal.new self.new }
        ensures was { (s : AbstractState V) → J.was journal.old (known self.old) s → J.was journal.new (known self.new) s }
    {
        match consequence {
            Consequence::Nothing => true,
            Consequence::Contradiction => false,
            Consequence::One {
                operand,
                width,
                want,
            } => self.narrow_operand(f, *operand, *width, want, left, journal),
            Consequence::Both {
                first,
                second,
                want,
            } => self.narrow_both(f, *first, *second, want, left, journal),
            Consequence::Holds {
                first,
                pred,
                second,
                width,
            } => self.hold_within(f, *first, *pred, *second, *width, left, journal),
        }
    }

    /// Narrows two operands of type `i1`, one after the other.
    #[cycle(narrowing)]
    fn narrow_both<J: Journal<V>>(
        &mut self,
        f: &Function,
        first: Operand,
        second: Operand,
        want: &Want<V>,
        left: u32,
        journal: &mut J,
    ) -> bool
        requires function { HasTypedEquations f.now }
        requires once { DefinesOnce f.now }
        requires facts { AreFacts V.ty V.proper f.now (known self.old) }
        requires first { IsNumberOperand f.now 1 first }
        requires second { IsNumberOperand f.now 1 second }
        requires wanted { IsWantFor V.ty V.proper (Int 1) want.now }
        requires serves { J.serves journal.old self.old }
        ensures becomes { Becomes (narrowed_both V.answers (narrowed V.answers f.now left) first second want.now (known self.old)) result (known self.new) }
        ensures facts { IsTrue result → AreFacts V.ty V.proper f.now (known self.new) }
        ensures room { KeepsRoom self.old self.new }
        ensures serves { J.serves journal.new self.new }
        ensures was { (s : AbstractState V) → J.was journal.old (known self.old) s → J.was journal.new (known self.new) s }
    {
        if !self.narrow_operand(f, first, 1, want, left, journal) {
            return false;
        }
        self.narrow_operand(f, second, 1, want, left, journal)
    }

    /// Narrows an operand of this width.
    #[cycle(narrowing)]
    fn narrow_operand<J: Journal<V>>(
        &mut self,
        f: &Function,
        operand: Operand,
        width: u32,
        want: &Want<V>,
        left: u32,
        journal: &mut J,
    ) -> bool
        requires function { HasTypedEquations f.now }
        requires once { DefinesOnce f.now }
        requires facts { AreFacts V.ty V.proper f.now (known self.old) }
        requires operand { IsNumberOperand f.now width operand }
        requires wanted { IsWantFor V.ty V.proper (Int width) want.now }
        requires serves { J.serves journal.old self.old }
        ensures becomes { Becomes (narrowed_operand V.answers (narrowed V.answers f.now left) operand width want.now (known self.old)) result (known self.new) }
        ensures facts { IsTrue result → AreFacts V.ty V.proper f.now (known self.new) }
        ensures room { KeepsRoom self.old self.new }
        ensures serves { J.serves journal.new self.new }
        ensures was { (s : AbstractState V) → J.was journal.old (known self.old) s → J.was journal.new (known self.new) s }
    {
        match operand {
            Operand::Value(v) => self.narrow_within(f, v, want, left, journal),
            Operand::Literal(bits) => want.keep(&V::literal(width, bits)).is_some(),
            Operand::Poison => false,
        }
    }

    /// Narrows an operand of this width so that the predicate may hold of it and another fact.
    #[cycle(narrowing)]
    fn narrow_operand_by<J: Journal<V>>(
        &mut self,
        f: &Function,
        operand: Operand,
        width: u32,
        pred: Pred,
        other: &V,
        left: u32,
        journal: &mut J,
    ) -> bool
        requires function { HasTypedEquations f.now }
        requires once { DefinesOnce f.now }
        requires facts { AreFacts V.ty V.proper f.now (known self.old) }
        requires operand { IsNumberOperand f.now width operand }
        requires other { IsOf V.ty V.proper (Int width) other.now }
        requires serves { J.serves journal.old self.old }
        ensures becomes { Becomes (narrowed_operand V.answers (narrowed V.answers f.now left) operand width (Want.Compare pred other.now) (known self.old)) result (known self.new) }
        ensures facts { IsTrue result → AreFacts V.ty V.proper f.now (known self.new) }
        ensures room { KeepsRoom self.old self.new }
        ensures serves { J.serves journal.new self.new }
        ensures was { (s : AbstractState V) → J.was journal.old (known self.old) s → J.was journal.new (known self.new) s }
    {
        match operand {
            Operand::Value(v) => {
                let place = self.place_of(v);
                self.narrow_by(f, v, place, pred, other, left, journal)
            }
            Operand::Literal(bits) => V::literal(width, bits).compare(pred, other).is_some(),
            Operand::Poison => false,
        }
    }

    /// Narrows two operands of this width so that the predicate may hold of them.
    #[cycle(narrowing)]
    fn hold_within<J: Journal<V>>(
        &mut self,
        f: &Function,
        a: Operand,
        pred: Pred,
        b: Operand,
        width: u32,
        left: u32,
        journal: &mut J,
    ) -> bool
        requires function { HasTypedEquations f.now }
        requires once { DefinesOnce f.now }
        requires facts { AreFacts V.ty V.proper f.now (known self.old) }
        requires first { IsNumberOperand f.now width a }
        requires second { IsNumberOperand f.now width b }
        requires serves { J.serves journal.old self.old }
        ensures becomes { Becomes (held V.answers (narrowed V.answers f.now left) a pred b width (known self.old)) result (known self.new) }
        ensures facts { IsTrue result → AreFacts V.ty V.proper f.now (known self.new) }
        ensures room { KeepsRoom self.old self.new }
        ensures serves { J.serves journal.new self.new }
        ensures was { (s : AbstractState V) → J.was journal.old (known self.old) s → J.was journal.new (known self.new) s }
    {
        let Operand::Value(x) = a else {
            return self.hold_operands(f, a, pred, b, width, left, journal);
        };
        let Operand::Value(y) = b else {
            return self.hold_operands(f, a, pred, b, width, left, journal);
        };
        self.hold_names(f, x, pred, y, left, journal)
    }

    /// Does what `hold_within` does for two names of one integer type.
    #[cycle(narrowing)]
    fn hold_names<J: Journal<V>>(
        &mut self,
        f: &Function,
        x: ValueId,
        pred: Pred,
        y: ValueId,
        left: u32,
        journal: &mut J,
    ) -> bool
        requires function { HasTypedEquations f.now }
        requires once { DefinesOnce f.now }
        requires facts { AreFacts V.ty V.proper f.now (known self.old) }
        requires integer { IsInteger (type_of f.now x) }
        requires alike { type_of f.now y ≡ type_of f.now x }
        requires serves { J.serves journal.old self.old }
        ensures becomes { (width : ℕ) → Becomes (held V.answers (narrowed V.answers f.now left) (Operand.Value x) pred (Operand.Value y) width (known self.old)) result (known self.new) }
        ensures facts { IsTrue result → AreFacts V.ty V.proper f.now (known self.new) }
        ensures room { KeepsRoom self.old self.new }
        ensures serves { J.serves journal.new self.new }
        ensures was { (s : AbstractState V) → J.was journal.old (known self.old) s → J.was journal.new (known self.new) s }
    {
        let place = self.place_of(x);
        let Some(fact) = self.at(x, place) else {
            return true;
        };
        let near = self.place_of(y);
        let Some(other) = self.at(y, near) else {
            return true;
        };
        let Some(kept) = fact.compare(pred, other) else {
            return false;
        };
        let first = *fact;
        if !self.narrow_to(f, x, place, &kept, left, journal) {
            return false;
        }
        let near = self.place_near(y, near);
        self.narrow_by(f, y, near, exchanged(pred), &first, left, journal)
    }

    /// Does what `hold_within` does for any operands.
    #[cycle(narrowing)]
    fn hold_operands<J: Journal<V>>(
        &mut self,
        f: &Function,
        a: Operand,
        pred: Pred,
        b: Operand,
        width: u32,
        left: u32,
        journal: &mut J,
    ) -> bool
        requires function { HasTypedEquations f.now }
        requires once { DefinesOnce f.now }
        requires facts { AreFacts V.ty V.proper f.now (known self.old) }
        requires first { IsNumberOperand f.now width a }
        requires second { IsNumberOperand f.now width b }
        requires serves { J.serves journal.old self.old }
        ensures becomes { Becomes (held V.answers (narrowed V.answers f.now left) a pred b width (known self.old)) result (known self.new) }
        ensures facts { IsTrue result → AreFacts V.ty V.proper f.now (known self.new) }
        ensures room { KeepsRoom self.old self.new }
        ensures serves { J.serves journal.new self.new }
        ensures was { (s : AbstractState V) → J.was journal.old (known self.old) s → J.was journal.new (known self.new) s }
    {
        let Some(first) = self.operand_fact(f, width, a) else {
            return true;
        };
        let Some(second) = self.operand_fact(f, width, b) else {
            return true;
        };
        if !self.narrow_operand_by(f, a, width, pred, &second, left, journal) {
            return false;
        }
        self.narrow_operand_by(f, b, width, exchanged(pred), &first, left, journal)
    }
}
