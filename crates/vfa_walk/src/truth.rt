//! Laws of true tables.

ghost use Rattle.std.specs.Prelude.{◌≡◌, ◌≤◌, ℕ, None};
ghost use Rattle.std.specs.Option.{ForSome};
ghost use Rattle.vfa_ir.specs.declared.functions.Function.{Function};
ghost use Rattle.vfa_ir.specs.Printable.{IsPrintable};
ghost use Rattle.vfa_mean.specs.Moments.{Place};
ghost use Rattle.vfa_check.specs.Checked.{IsChecked};
ghost use Rattle.vfa_walk.specs.Passes.{IsPass, pass_next};
ghost use Rattle.vfa_walk.specs.Rounds.{after_rounds, IsStill, IsTable, table_after};
ghost use Rattle.vfa_walk.specs.Analysis.{Layout, IsLayout, flow_of};
ghost use Rattle.vfa_walk.specs.Tables.{States, IsTableOf, state_at, HasShape, IsTrueTable};
ghost use Rattle.vfa_walk.specs.TruthLaws.{HasTypedFacts, IsStateAt, IsTrueAtPlaces, IsTrueAlongEdges, IsNeverMet, CoverNext};

use vfa_values::Values;

/// The table of a checked function is true: whenever a run comes to the entry of a block, its phis done, the block has a
/// state there, each fact of the state holds of its name's value, and each live equation is one of present values. Each fact
/// is of its name's type.
pub fn table_is_true<V: Values>()
    ensures is_true { (f : Function) (t : States V) → IsChecked f → IsPrintable f → IsTableOf V.answers f t → IsTrueTable V.holds f t }
    ensures typed { (f : Function) (t : States V) → IsChecked f → IsPrintable f → IsTableOf V.answers f t → HasTypedFacts V.ty V.proper f t }
{}

/// The table of a checked function has its shape: blocks that no walk reaches have no state, and the others none or one with
/// facts of exactly the names in scope at their entry, each of its name's type. What a table of this shape gives a place is a
/// state with a fact of each name that is defined on every walk there.
pub fn table_has_shape<V: Values>()
    ensures shape { (f : Function) (l : Layout) (t : States V) → IsChecked f → IsPrintable f → IsLayout f l → IsTableOf V.answers f t →
        HasShape V.ty V.proper f l t }
    ensures places { (f : Function) (l : Layout) (t : States V) (place : Place) → IsChecked f → IsPrintable f → IsLayout f l →
        HasShape V.ty V.proper f l t → ForSome (state_at V.answers f t place) (IsStateAt V.ty V.proper f place) }
{}

/// A true table is true everywhere, whichever way it was made: at each place to which a run comes, before phis,
/// instructions and terminators, the state that the table gives it is there and true; and so it is of what an edge makes of
/// the state at the end of its block, whenever a run takes the edge. So no run comes to a place that has no state.
pub fn true_table_is_true_everywhere<V: Values>()
    ensures places { (f : Function) (t : States V) → IsChecked f → IsPrintable f → HasTypedFacts V.ty V.proper f t →
        IsTrueTable V.holds f t → IsTrueAtPlaces V.holds V.answers f t }
    ensures edges { (f : Function) (t : States V) → IsChecked f → IsPrintable f → HasTypedFacts V.ty V.proper f t →
        IsTrueTable V.holds f t → IsTrueAlongEdges V.holds V.answers f t }
    ensures unmet { (f : Function) (t : States V) (place : Place) → IsChecked f → IsPrintable f → HasTypedFacts V.ty V.proper f t →
        IsTrueTable V.holds f t → state_at V.answers f t place ≡ None → IsNeverMet f place }
{}

/// Where states of heads cover what a pass gives the heads, the pass is true, and so is one more pass with what came to
/// the heads: no step is taken to be monotone.
pub fn covering_states_give_true_tables<V: Values>()
    ensures pass { (f : Function) (l : Layout) (x t : States V) → IsChecked f → IsPrintable f → IsLayout f l →
        HasTypedFacts V.ty V.proper f x → CoverNext V.holds f (flow_of V.answers f l) x →
        IsPass (flow_of V.answers f l) x t → IsTrueTable V.holds f t }
    ensures next { (f : Function) (l : Layout) (x t : States V) → IsChecked f → IsPrintable f → IsLayout f l →
        HasTypedFacts V.ty V.proper f x → CoverNext V.holds f (flow_of V.answers f l) x →
        IsPass (flow_of V.answers f l) (pass_next (flow_of V.answers f l) x) t → IsTrueTable V.holds f t }
{}

/// The rounds of a checked function end: some round changes nothing.
pub fn rounds_end<V: Values>()
    ensures { (f : Function) (l : Layout) → IsChecked f → IsPrintable f → IsLayout f l → (n : ℕ) × IsStill (flow_of V.answers f l) n }
{}

/// Any round that changes nothing gives the table of a checked function: the states of heads stay as they are in all later
/// rounds.
pub fn any_still_round_gives_the_table<V: Values>()
    ensures stays { (f : Function) (l : Layout) (n later : ℕ) → IsChecked f → IsPrintable f → IsStill (flow_of V.answers f l) n → n ≤ later →
        (b : ℕ) → after_rounds (flow_of V.answers f l) later b ≡ after_rounds (flow_of V.answers f l) n b }
    ensures table { (f : Function) (l : Layout) (t : States V) (n : ℕ) → IsChecked f → IsPrintable f → IsTable (flow_of V.answers f l) t →
        IsStill (flow_of V.answers f l) n → (b : ℕ) → t b ≡ table_after (flow_of V.answers f l) n b }
{}

/// A function has at most one table.
pub fn one_table_of_a_function<V: Values>()
    ensures { (f : Function) (t u : States V) → IsTableOf V.answers f t → IsTableOf V.answers f u → (b : ℕ) → t b ≡ u b }
{}
