//! What facts were before they changed, so that a restriction can be undone in place.

ghost use Rattle.std.specs.Prelude.{◌≡◌, ◌<◌, IfOk, IsSome, Some, length, slice_get, slice_set, ◌⊎◌};
ghost use Rattle.vfa_cond.specs.Changes.{AreChangesOf, AreNone, fact_before, noting, restored, with_back};
ghost use Rattle.vfa_cond.specs.Places.{place_in, found};
ghost use Rattle.vfa_cond.specs.States.{AbstractState, Stored, known, name_count, with_fact, KeepsRoom};

use crate::state::State;
use std::alloc::{AllocError, Global};
use std::marker::Model;
use vfa_ir::{Function, ValueId};
use vfa_values::Values;

/// The facts that names of a function had before they were narrowed, since the last `undo`.
///
/// It has room for every name, so narrowing and undoing take no memory, however often.
#[derive(Drop)]
pub struct Changes<V: Values> {
    before: Vec<Option<V>>,
    changed: Vec<ValueId>,
}

impl<V: Values> Model for Changes<V> {
    ghost use Rattle.std.specs.Prelude.{List, Option, vec_capacity};
    ghost use Rattle.vfa_cond.specs.Changes.{AreListed};

    ghost Value = { List (Option V) };

    ghost view = { λ c. c.before.items };

    ghost invariant = { λ c. AreListed c.before.items c.changed.items (vec_capacity c.changed) };
}

impl<V: Values> Changes<V> {
    /// No changes, of names of this function.
    pub fn of(alloc: Global, f: &Function) -> Result<Changes<V>, AllocError>
        ensures none { IfOk result AreNone }
        ensures names { IfOk result (λ c. length c ≡ length f.now.values) }
    {
        let names = f.values.as_slice().len();
        Ok(Changes {
            before: vec![in alloc; None; names]?,
            changed: Vec::with_capacity(alloc, names)?,
        })
    }

    /// Notes the fact of a name that stands at this place of the state, unless an earlier one is noted.
    fn note_at(&mut self, state: &State<V>, v: ValueId, place: usize)
        requires names { length self.old ≡ name_count state.now }
        requires belongs { place ≡ place_in state.now.entries v.0 }
        requires found { (known state.now).fact v.0 ≡ found v.0 (slice_get state.now.entries place) }
        requires some { IsSome ((known state.now).fact v.0) }
        ensures range { v.0 < length self.old }
        ensures noted { (d : V) → (known state.now).fact v.0 ≡ Some d → self.new ≡ noting self.old v.0 d }
    {
        match state.at(v, place) {
            Some(fact) => self.note(v, fact),
            None => unreachable!(),
        }
    }

    /// Notes the fact that a name has before it changes, unless an earlier one is noted.
    fn note(&mut self, v: ValueId, fact: &V)
        requires { v.0 < length self.old }
        ensures { self.new ≡ noting self.old v.0 fact.now }
    {
        let place = v.0 as usize;
        if self.before[place].is_some() {
            return;
        }
        match self.changed.push(v) {
            Ok(()) => {}
            Err(_) => unreachable!(),
        }
        self.before[place] = Some(*fact);
    }
}

/// How a fact of a state is replaced.
pub(crate) trait Journal<V: Values> {
    /// The state is one that it serves.
    ghost serves: { Self → Stored V → Type 0 };

    /// The first state is that of now, and the second one that before the changes.
    ghost was: { Self → AbstractState V → AbstractState V → Type 0 };

    /// Gives a name that has a fact, and stands at this place, another one.
    fn replace(&mut self, state: &mut State<V>, v: ValueId, place: usize, fact: &V)
        requires some { IsSome ((known state.old).fact v.0) }
        requires belongs { place ≡ place_in state.old.entries v.0 }
        requires found { (known state.old).fact v.0 ≡ found v.0 (slice_get state.old.entries place) }
        requires serves { serves self.old state.old }
        ensures change { known state.new ≡ with_fact (known state.old) v.0 (Some fact.now) }
        ensures room { KeepsRoom state.old state.new }
        ensures serves { serves self.new state.new }
        ensures was { (s : AbstractState V) → was self.old (known state.old) s → was self.new (known state.new) s };
}

/// Keeps nothing.
#[derive(Clone, Copy, Debug)]
pub(crate) struct Forgetful;

impl<V: Values> Journal<V> for Forgetful {
    ghost serves = { λ j s. Unit {0} };

    ghost was = { λ j s t. Unit {0} };

    fn replace(&mut self, state: &mut State<V>, v: ValueId, place: usize, fact: &V) {
        state.replace_at(v, place, fact);
    }
}

impl<V: Values> Journal<V> for Changes<V> {
    ghost serves = { λ c s. AreChangesOf c s };

    ghost was = { λ c s t. restored c s ≡ t };

    fn replace(&mut self, state: &mut State<V>, v: ValueId, place: usize, fact: &V) {
        self.note_at(state, v, place);
        state.replace_at(v, place, fact);
    }
}

impl<V: Values> State<V> {
    /// Takes the changes back: each name that changed has the fact again that it had before, and no changes are left. The
    /// changes are of this state.
    pub fn undo(&mut self, changes: &mut Changes<V>)
        requires { AreChangesOf changes.old self.old }
        ensures state { known self.new ≡ restored changes.old (known self.old) }
        ensures none { AreNone changes.new }
        ensures names { length changes.new ≡ length changes.old }
        ensures room { KeepsRoom self.old self.new }
    {
        'changed: while let Some(v) = changes.changed.pop() {
            let place = v.0 as usize;
            let fact = changes.before[place];
            changes.before[place] = None;
            self.give_back(v, fact);
        }
    }

    /// Gives the name this fact, if there is one, in place of the one that it has.
    fn give_back(&mut self, v: ValueId, fact: Option<V>)
        requires { IsSome fact → IsSome ((known self.old).fact v.0) }
        ensures change { known self.new ≡ with_back (known self.old) v.0 fact }
        ensures room { KeepsRoom self.old self.new }
    {
        if let Some(fact) = fact {
            self.replace(v, &fact);
        }
    }
}
