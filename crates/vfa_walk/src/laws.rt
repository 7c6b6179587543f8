//! Laws of passes, rounds and tables.

ghost use Rattle.std.specs.Prelude.{◌≡◌, ℕ, false, None};
ghost use Rattle.vfa_walk.specs.Flow.{Flow, IsForward, Settles};
ghost use Rattle.vfa_walk.specs.Passes.{Entries, pass_table, pass_next, IsPass};
ghost use Rattle.vfa_walk.specs.Rounds.{after_rounds, IsStill, IsTable, table_after};

/// A pass gives the one table that meets its equations: where states go forward, each block of the order has the entry
/// state that the table gives it, and no other table is so.
pub fn one_pass<S>()
    ensures meets { (m : Flow S) (x : Entries S) → IsForward m → IsPass m x (pass_table m x) }
    ensures one { (m : Flow S) (x t : Entries S) → IsForward m → IsPass m x t → (b : ℕ) → t b ≡ pass_table m x b }
{}

/// A flow has at most one table.
pub fn one_table<S>()
    ensures { (m : Flow S) (t u : Entries S) → IsTable m t → IsTable m u → (b : ℕ) → t b ≡ u b }
{}

/// The table meets the equations of a pass with what came to the heads in the last round.
pub fn table_is_pass<S>()
    ensures { (m : Flow S) (t : Entries S) (n : ℕ) → IsForward m → ((b : ℕ) → t b ≡ table_after m n b) →
        IsPass m (pass_next m (after_rounds m n)) t }
{}

/// Where a widening that keeps the old state keeps it later too, any round that changes nothing gives the table.
pub fn still_round_gives_table<S>()
    ensures { (m : Flow S) (t : Entries S) (n : ℕ) → Settles m → IsTable m t → IsStill m n →
        (b : ℕ) → t b ≡ table_after m n b }
{}

/// Without heads one pass gives the table.
pub fn one_pass_without_heads<S>()
    ensures { (m : Flow S) (t : Entries S) → ((b : ℕ) → m.is_head b ≡ false) →
        ((b : ℕ) → t b ≡ pass_table m (λ _. None) b) → IsTable m t }
{}
