//! Which numbers are wanted of a name.

ghost use Rattle.std.specs.Prelude.{◌≡◌};
ghost use Rattle.vfa_cond.specs.Wants.{kept, IsWantFor};
ghost use Rattle.vfa_values.specs.Conditions.{IsInteger};

use vfa_ir::Pred;
use vfa_values::Values;

/// Numbers that are wanted, in terms of values of a domain.
///
/// `Compare(Pred::Ult, d)` wants the numbers that are less than some number that d holds of.
#[derive(Clone, Copy, Debug)]
pub enum Want<V> {
    /// The numbers x with `x pred y` for some y that the value holds of.
    Compare(Pred, V),
    /// The numbers that agree with `value` on the bits of `mask`. Both are below 2 to the width.
    Bits {
        /// The bits that count.
        mask: u128,
        /// What they are.
        value: u128,
    },
    /// The numbers whose sum with `c`, modulo 2 to the width, `sum` holds of. `c` is below 2 to the width.
    Moved {
        /// A value of the sums.
        sum: V,
        /// What is added.
        c: u128,
    },
}

impl<V: Values> Want<V> {
    /// What is left of a value where these numbers are wanted; None only where it holds of none of them.
    pub(crate) fn keep(&self, fact: &V) -> Option<V>
        requires own { V.proper fact.now }
        requires integer { IsInteger (V.ty fact.now) }
        requires wanted { IsWantFor V.ty V.proper (V.ty fact.now) self.now }
        ensures { result ≡ kept V.answers fact.now self.now }
    {
        match self {
            Want::Compare(pred, other) => fact.compare(*pred, other),
            Want::Bits { mask, value } => fact.with_bits(*mask, *value),
            Want::Moved { sum, c } => fact.moved_from(sum, *c),
        }
    }
}
