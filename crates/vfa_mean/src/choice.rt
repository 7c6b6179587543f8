//! Operations whose result is an operand or a part of one: `select`, `freeze`, `extractvalue`, and `llvm.assume`.

ghost use Rattle.std.specs.Prelude.{◌≡◌};
ghost use Rattle.vfa_mean.specs.Meaning.{chosen, frozen, part_of, assumed};

use crate::{Done, Val};

/// The chosen arm, `a` where the condition is true; poison where the condition is.
pub fn chosen(c: Val, a: Val, b: Val) -> Done
    ensures { result ≡ chosen c a b }
{
    let Val::Number(c) = c else {
        return Done::Is(Val::Poison);
    };
    if c == 0 {
        return Done::Is(b);
    }
    Done::Is(a)
}

/// The number, or any number of the width.
pub fn frozen(width: u32, a: Val) -> Done
    ensures { result ≡ frozen width a }
{
    match a {
        Val::Number(x) => Done::Is(Val::Number(x)),
        _ => Done::AnyOf(width),
    }
}

/// The number of a pair for index 0, else its bit.
pub fn part_of(index: u32, pair: Val) -> Done
    ensures { result ≡ part_of index pair }
{
    let Val::Pair(x, overflowed) = pair else {
        return Done::Is(Val::Poison);
    };
    if index == 0 {
        return Done::Is(Val::Number(x));
    }
    Done::Is(Val::Number(overflowed as u128))
}

/// Undefined behaviour unless the condition is true.
pub fn assumed(c: Val) -> Done
    ensures { result ≡ assumed c }
{
    let Val::Number(c) = c else {
        return Done::Ub;
    };
    if c == 0 {
        return Done::Ub;
    }
    Done::Is(Val::Number(1))
}
