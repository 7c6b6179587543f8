//! States: facts of names, and the names whose equations are live.

ghost use Rattle.std.specs.Prelude.{◌≡◌, ◌<◌, ◌≤◌, All, [], IfOk, IsSome, IsTrue, MatchOption, Some, false, length, slice_get};
ghost use Rattle.vfa_cond.specs.declared.state.Entry.{Entry};
ghost use Rattle.vfa_cond.specs.Places.{place_in, found};
ghost use Rattle.vfa_cond.specs.States.{known, name_count, fact_in, IsRoomy, KeepsRoom, with_fact, with_live, given, AreGiven};

use std::alloc::{AllocError, Global};
use std::marker::Model;
use vfa_ir::{Function, ValueId};
use vfa_values::Values;

/// A name with its fact.
#[derive(Clone, Copy, Debug)]
pub struct Entry<V> {
    /// The name.
    pub name: ValueId,
    /// What is known of it.
    pub fact: V,
}

/// What is known of the names of a function at a place: a fact for each of some names, and the set of the names whose
/// equations are live. The equation of a name is the operation whose result it is; it is live where the name's value is one
/// that the operation gives of the values that its operands have now.
///
/// A state has room for some number of facts. One that `of` and `copied` give has room for a fact of every name of its
/// function; no call but these two takes memory.
#[derive(Drop)]
pub struct State<V: Values> {
    entries: Vec<Entry<V>>,
    live: Vec<bool>,
}

impl<V: Values> Model for State<V> {
    ghost use Rattle.std.specs.Prelude.{length, vec_capacity};
    ghost use Rattle.vfa_cond.specs.States.{Stored, Ascends};

    ghost Value = { Stored V };

    ghost view = { λ s. record { entries = s.entries.items; live = s.live.items; room = vec_capacity s.entries } };

    ghost invariant = { λ s. Ascends 0 (length s.live.items) s.entries.items };
}

impl<V: Values> State<V> {
    /// The state with these facts and these live equations. The names of the facts differ, and all names are the function's.
    pub fn of(
        alloc: Global,
        f: &Function,
        facts: &[(ValueId, V)],
        live: &[ValueId],
    ) -> Result<State<V>, AllocError>
        requires facts { AreGiven (length f.now.values) facts.now }
        requires live { All (λ v. v.0 < length f.now.values) live.now }
        ensures state { IfOk result (λ s. known s ≡ given facts.now live.now) }
        ensures names { IfOk result (λ s. name_count s ≡ length f.now.values) }
        ensures room { IfOk result IsRoomy }
    {
        let mut state = State::empty(alloc, f.values.as_slice().len())?;
        'facts: for pair in facts {
            state.put(pair.0, Some(pair.1));
        }
        'live: for name in live {
            state.set_live(*name, true);
        }
        Ok(state)
    }

    /// The state of so many names that knows nothing.
    fn empty(alloc: Global, names: usize) -> Result<State<V>, AllocError>
        ensures state { IfOk result (λ s. known s ≡ given [] []) }
        ensures names { IfOk result (λ s. name_count s ≡ names) }
        ensures room { IfOk result IsRoomy }
    {
        Ok(State {
            entries: Vec::with_capacity(alloc, names)?,
            live: vec![in alloc; false; names]?,
        })
    }

    /// The same state once more, with room for a fact of every name.
    pub fn copied(&self, alloc: Global) -> Result<State<V>, AllocError>
        ensures state { IfOk result (λ s. known s ≡ known self.now) }
        ensures names { IfOk result (λ s. name_count s ≡ name_count self.now) }
        ensures room { IfOk result IsRoomy }
    {
        let mut entries = Vec::with_capacity(alloc, self.live.len())?;
        entries.extend_from_slice(self.entries.as_slice())?;
        Ok(State {
            entries,
            live: Vec::from_slice(alloc, self.live.as_slice())?,
        })
    }

    /// The name's fact; None exactly where it has none.
    pub fn fact(&self, v: ValueId) -> Option<V>
        ensures { result ≡ (known self.now).fact v.0 }
    {
        let place = self.place_of(v);
        self.fact_at(v, place)
    }

    /// The name's fact; None exactly where it has none. Whatever stands in `near`, the answer is that of `fact`, which is quick
    /// where the last name that was looked up by the same `near` is the next one, above or below.
    pub fn fact_near(&self, v: ValueId, near: &mut usize) -> Option<V>
        ensures { result ≡ (known self.now).fact v.0 }
    {
        let place = self.place_near(v, *near);
        *near = place;
        self.fact_at(v, place)
    }

    /// Whether the name's equation is live.
    pub fn live(&self, v: ValueId) -> bool
        ensures { result ≡ (known self.now).live v.0 }
    {
        self.live.get(v.0 as usize).copied().unwrap_or(false)
    }

    /// Gives the name this fact, or none, and changes nothing else. The name is the function's, and where it has no fact yet
    /// there is room for one.
    pub fn put(&mut self, v: ValueId, fact: Option<V>)
        requires range { v.0 < name_count self.old }
        requires room { (known self.old).fact v.0 ≡ None → IsSome fact → IsRoomy self.old }
        ensures change { known self.new ≡ with_fact (known self.old) v.0 fact }
        ensures room { KeepsRoom self.old self.new }
    {
        let place = self.place_of(v);
        self.put_at(v, fact, place);
    }

    /// Gives the name this fact, or none, and changes nothing else. Whatever stands in `near`, it does what `put` does, quickly
    /// where the last name that was looked up by the same `near` is this one, or the next one, above or below.
    pub fn put_near(&mut self, v: ValueId, fact: Option<V>, near: &mut usize)
        requires range { v.0 < name_count self.old }
        requires room { (known self.old).fact v.0 ≡ None → IsSome fact → IsRoomy self.old }
        ensures change { known self.new ≡ with_fact (known self.old) v.0 fact }
        ensures room { KeepsRoom self.old self.new }
    {
        let place = self.place_near(v, *near);
        *near = place;
        self.put_at(v, fact, place);
    }

    /// Makes the name's equation live or ends it, and changes nothing else. The name is the function's.
    pub fn set_live(&mut self, v: ValueId, live: bool)
        requires { v.0 < name_count self.old }
        ensures change { known self.new ≡ with_live (known self.old) v.0 live }
        ensures room { KeepsRoom self.old self.new }
    {
        self.live[v.0 as usize] = live;
    }

    /// How many names that have a fact stand before the name.
    pub(crate) fn place_of(&self, v: ValueId) -> usize
        ensures place { result ≡ place_in self.now.entries v.0 }
        ensures found { (known self.now).fact v.0 ≡ found v.0 (slice_get self.now.entries result) }
    {
        self.entries.partition_point(|entry| entry.name.0 < v.0)
    }

    /// Whether a name below this one stands at this place.
    fn is_lesser(&self, v: ValueId, place: usize) -> bool
        ensures some { IsTrue result → (e : Entry V) × (slice_get self.now.entries place ≡ Some e) × (e.name.0 < v.0) }
        ensures none { result ≡ false → (e : Entry V) → slice_get self.now.entries place ≡ Some e → v.0 ≤ e.name.0 }
    {
        match self.entries.get(place) {
            Some(entry) => entry.name.0 < v.0,
            None => false,
        }
    }

    /// Whether the names that stand before this place are those below the name.
    fn is_place(&self, v: ValueId, place: usize) -> bool
        ensures place { IsTrue result → place ≡ place_in self.now.entries v.0 }
        ensures found { IsTrue result → (known self.now).fact v.0 ≡ found v.0 (slice_get self.now.entries place) }
    {
        let _ = &self.entries;
        if self.is_lesser(v, place) {
            return false;
        }
        if place == 0 {
            return true;
        }
        self.is_lesser(v, place - 1)
    }

    /// How many names that have a fact stand before the name, by a guess that is tried first, and the places beside it.
    pub(crate) fn place_near(&self, v: ValueId, guess: usize) -> usize
        ensures place { result ≡ place_in self.now.entries v.0 }
        ensures found { (known self.now).fact v.0 ≡ found v.0 (slice_get self.now.entries result) }
    {
        if self.is_place(v, guess) {
            return guess;
        }
        let below = guess.saturating_sub(1);
        if self.is_place(v, below) {
            return below;
        }
        let above = guess.saturating_add(1);
        if self.is_place(v, above) {
            return above;
        }
        self.place_of(v)
    }

    /// The fact of the name that belongs at this place.
    fn fact_at(&self, v: ValueId, place: usize) -> Option<V>
        requires { (known self.now).fact v.0 ≡ found v.0 (slice_get self.now.entries place) }
        ensures { result ≡ (known self.now).fact v.0 }
    {
        let entry = self.entries.get(place)?;
        if entry.name != v {
            return None;
        }
        Some(entry.fact)
    }

    /// The fact of the name that belongs at this place, where it stands.
    pub(crate) fn at(&self, v: ValueId, place: usize) -> Option<&V>
        requires belongs { place ≡ place_in self.now.entries v.0 }
        requires found { (known self.now).fact v.0 ≡ found v.0 (slice_get self.now.entries place) }
        ensures fact { MatchOption result ((known self.now).fact v.0 ≡ None) (λ fact. (known self.now).fact v.0 ≡ Some fact.now) }
        ensures range { IsSome result → v.0 < name_count self.now }
    {
        let entry = self.entries.get(place)?;
        if entry.name != v {
            return None;
        }
        Some(&entry.fact)
    }

    /// Gives the name that belongs at this place this fact, or none.
    fn put_at(&mut self, v: ValueId, fact: Option<V>, place: usize)
        requires range { v.0 < name_count self.old }
        requires room { (known self.old).fact v.0 ≡ None → IsSome fact → IsRoomy self.old }
        requires belongs { place ≡ place_in self.old.entries v.0 }
        requires found { (known self.old).fact v.0 ≡ found v.0 (slice_get self.old.entries place) }
        ensures change { known self.new ≡ with_fact (known self.old) v.0 fact }
        ensures room { KeepsRoom self.old self.new }
    {
        match fact {
            Some(fact) => self.give(v, fact, place),
            None => self.drop_fact(v, place),
        }
    }

    /// Gives the name that belongs at this place this fact.
    fn give(&mut self, v: ValueId, fact: V, place: usize)
        requires range { v.0 < name_count self.old }
        requires room { (known self.old).fact v.0 ≡ None → IsRoomy self.old }
        requires belongs { place ≡ place_in self.old.entries v.0 }
        requires found { (known self.old).fact v.0 ≡ found v.0 (slice_get self.old.entries place) }
        ensures change { known self.new ≡ with_fact (known self.old) v.0 (Some fact) }
        ensures room { KeepsRoom self.old self.new }
    {
        match self.fact_at(v, place) {
            Some(_) => self.replace_at(v, place, &fact),
            None => self.add(v, fact, place),
        }
    }

    /// Takes the fact of the name that belongs at this place away, if it has one.
    fn drop_fact(&mut self, v: ValueId, place: usize)
        requires belongs { place ≡ place_in self.old.entries v.0 }
        requires found { (known self.old).fact v.0 ≡ found v.0 (slice_get self.old.entries place) }
        ensures change { known self.new ≡ with_fact (known self.old) v.0 None }
        ensures room { KeepsRoom self.old self.new }
    {
        match self.fact_at(v, place) {
            Some(_) => self.take(v, place),
            None => {}
        }
    }

    /// Gives a name that has a fact this one.
    pub(crate) fn replace(&mut self, v: ValueId, fact: &V)
        requires { IsSome ((known self.old).fact v.0) }
        ensures change { known self.new ≡ with_fact (known self.old) v.0 (Some fact.now) }
        ensures room { KeepsRoom self.old self.new }
    {
        let place = self.place_of(v);
        self.replace_at(v, place, fact);
    }

    /// Gives a name that has a fact, and stands at this place, this one.
    pub(crate) fn replace_at(&mut self, v: ValueId, place: usize, fact: &V)
        requires some { IsSome ((known self.old).fact v.0) }
        requires belongs { place ≡ place_in self.old.entries v.0 }
        requires found { (known self.old).fact v.0 ≡ found v.0 (slice_get self.old.entries place) }
        ensures change { known self.new ≡ with_fact (known self.old) v.0 (Some fact.now) }
        ensures room { KeepsRoom self.old self.new }
    {
        self.entries[place] = Entry {
            name: v,
            fact: *fact,
        };
    }

    /// Gives a name that has no fact, and belongs at this place, this one.
    fn add(&mut self, v: ValueId, fact: V, place: usize)
        requires none { (known self.old).fact v.0 ≡ None }
        requires range { v.0 < name_count self.old }
        requires room { IsRoomy self.old }
        requires belongs { place ≡ place_in self.old.entries v.0 }
        requires found { (known self.old).fact v.0 ≡ found v.0 (slice_get self.old.entries place) }
        ensures change { known self.new ≡ with_fact (known self.old) v.0 (Some fact) }
        ensures room { KeepsRoom self.old self.new }
    {
        match self.entries.insert(place, Entry { name: v, fact }) {
            Ok(()) => {}
            Err(_) => unreachable!(),
        }
    }

    /// Takes the fact of a name that has one, and stands at this place.
    fn take(&mut self, v: ValueId, place: usize)
        requires some { IsSome ((known self.old).fact v.0) }
        requires belongs { place ≡ place_in self.old.entries v.0 }
        requires found { (known self.old).fact v.0 ≡ found v.0 (slice_get self.old.entries place) }
        ensures change { known self.new ≡ with_fact (known self.old) v.0 None }
        ensures room { KeepsRoom self.old self.new }
    {
        let _ = self.entries.remove(place);
    }
}
