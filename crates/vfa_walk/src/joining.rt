//! What covers two states, and what the entry of a block keeps of one.

ghost use Rattle.std.specs.Prelude.{◌≡◌, ◌<◌, ◌≤◌, ◌^◌, ◌&&◌, IsTrue, length, not};
ghost use Rattle.std.specs.Option.{ForSome, option_map};
ghost use Rattle.vfa_values.specs.Conditions.{IsOf};
ghost use Rattle.vfa_cond.specs.Conditions.{AreFacts, name_type};
ghost use Rattle.vfa_cond.specs.States.{known, with_fact, with_live};
ghost use Rattle.vfa_walk.specs.Agreement.{Agrees};
ghost use Rattle.vfa_walk.specs.Joining.{joined};
ghost use Rattle.vfa_walk.specs.Kept.{IsStateOf, taken};
ghost use Rattle.vfa_walk.specs.Passes.{merged};

use vfa_cond::State;
use vfa_ir::{Function, ValueId};
use vfa_values::Values;

/// About where a name stands in two states. Names that are looked up one after another, each next to the one before, are found
/// at once.
#[derive(Clone, Copy, Debug)]
pub(crate) struct Near {
    pub(crate) first: usize,
    pub(crate) second: usize,
}

/// Whether an equation is live in a state and not in another.
fn ends_with<V: Values>(state: &State<V>, other: &State<V>, v: ValueId) -> bool
    ensures { result ≡ ((known state.now).live v.0 && not ((known other.now).live v.0)) }
{
    if !state.live(v) {
        return false;
    }
    !other.live(v)
}

/// Whether a state knows nothing of a name that another one does not know too; then what covers both is there the state.
pub(crate) fn agrees<V: Values>(
    f: &Function,
    state: &State<V>,
    other: &State<V>,
    v: ValueId,
    near: &mut Near,
) -> bool
    requires first { AreFacts V.ty V.proper f.now (known state.now) }
    requires second { AreFacts V.ty V.proper f.now (known other.now) }
    ensures { IsTrue result → Agrees (known state.now) (known other.now) v.0 }
{
    let _ = f;
    if ends_with(state, other, v) {
        return false;
    }
    let Some(first) = state.fact_near(v, &mut near.first) else {
        return true;
    };
    let Some(second) = other.fact_near(v, &mut near.second) else {
        return false;
    };
    first.same(&second)
}

/// What covers the facts that a name has in two states.
fn joined_fact<V: Values>(
    f: &Function,
    a: &State<V>,
    b: &State<V>,
    v: ValueId,
    near: &mut Near,
) -> Option<V>
    requires first { AreFacts V.ty V.proper f.now (known a.now) }
    requires second { AreFacts V.ty V.proper f.now (known b.now) }
    ensures fact { result ≡ (joined V.answers (known a.now) (known b.now)).fact v.0 }
    ensures of_type { ForSome result (IsOf V.ty V.proper (name_type f.now v.0)) }
{
    let _ = f;
    let Some(first) = a.fact_near(v, &mut near.first) else {
        return None;
    };
    let Some(second) = b.fact_near(v, &mut near.second) else {
        return None;
    };
    Some(first.join(&second))
}

/// Gives a name this fact, or none, and makes its equation live or ends it.
pub(crate) fn take_over<V: Values>(
    state: &mut State<V>,
    f: &Function,
    v: ValueId,
    fact: Option<V>,
    live: bool,
    near: &mut usize,
)
    requires state { IsStateOf V.ty V.proper f.now state.old }
    requires name { v.0 < length f.now.values }
    requires fact { ForSome fact (IsOf V.ty V.proper (name_type f.now v.0)) }
    ensures fact { (known state.new).fact ≡ (with_fact (known state.old) v.0 fact).fact }
    ensures live { (known state.new).live ≡ (with_live (known state.old) v.0 live).live }
    ensures state { IsStateOf V.ty V.proper f.now state.new }
{
    state.put_near(v, fact, near);
    state.set_live(v, live);
}

/// Joins what two states know of a name.
fn join_name<V: Values>(
    state: &mut State<V>,
    f: &Function,
    other: &State<V>,
    v: ValueId,
    near: &mut Near,
)
    requires state { IsStateOf V.ty V.proper f.now state.old }
    requires other { IsStateOf V.ty V.proper f.now other.now }
    requires name { v.0 < length f.now.values }
    ensures change { known state.new ≡ taken v.0 (joined V.answers (known state.old) (known other.now)) (known state.old) }
    ensures state { IsStateOf V.ty V.proper f.now state.new }
{
    if agrees(f, state, other, v, near) {
        return;
    }
    let live = state.live(v) & other.live(v);
    let fact = joined_fact(f, state, other, v, near);
    take_over(state, f, v, fact, live, &mut near.first);
}

/// Makes of a state the join with another.
pub(crate) fn join<V: Values>(state: &mut State<V>, f: &Function, other: &State<V>)
    requires state { IsStateOf V.ty V.proper f.now state.old }
    requires other { IsStateOf V.ty V.proper f.now other.now }
    requires few { length f.now.values ≤ 2 ^ 28 }
    ensures change { known state.new ≡ joined V.answers (known state.old) (known other.now) }
    ensures state { IsStateOf V.ty V.proper f.now state.new }
{
    let mut near = Near {
        first: 0,
        second: 0,
    };
    // the last names first, so that what is taken away stands near the end
    'names: for v in (0..f.values.as_slice().len()).rev() {
        join_name(state, f, other, ValueId(v as u32), &mut near);
    }
}

/// The join of two states, of which each may be none: what is not there gives way.
pub(crate) fn merge<V: Values>(
    f: &Function,
    sum: Option<State<V>>,
    next: Option<State<V>>,
) -> Option<State<V>>
    requires sum { ForSome sum (IsStateOf V.ty V.proper f.now) }
    requires next { ForSome next (IsStateOf V.ty V.proper f.now) }
    requires few { length f.now.values ≤ 2 ^ 28 }
    ensures merged { option_map known result ≡ merged (joined V.answers) (option_map known sum) (option_map known next) }
    ensures state { ForSome result (IsStateOf V.ty V.proper f.now) }
{
    let Some(mut sum) = sum else {
        return next;
    };
    let Some(next) = next else {
        return Some(sum);
    };
    join(&mut sum, f, &next);
    Some(sum)
}
