ghost use Rattle.std.specs.Prelude.{◌≡◌, ℕ, ◌<◌, ◌≤◌, ◌^◌};
ghost use Rattle.vfa_fact.specs.Compare.{satisfies};
ghost use Rattle.vfa_fact.specs.Order.{base_of, relates, first_place, last_place};
ghost use Rattle.vfa_fact.specs.Views.{in_fact};
ghost use Rattle.vfa_word.specs.Numbers.{IsWidth};
ghost use Rattle.vfa_wrap.specs.Places.{reading_at};

use crate::Fact;
use vfa_ir::Pred;
use vfa_word::Word;

/// An order of the numbers of a width.
#[derive(Clone, Copy)]
pub(crate) enum Order {
    /// By the numbers themselves.
    Unsigned,
    /// By their two's complement readings.
    Signed,
}

/// How two numbers stand to each other.
#[derive(Clone, Copy)]
pub(crate) enum Relation {
    /// They are the same.
    Equal,
    /// They differ.
    Unequal,
    /// The first comes before the second.
    Before(Order),
    /// The first comes before the second or is the same.
    UpTo(Order),
    /// The first comes after the second.
    After(Order),
    /// The first comes after the second or is the same.
    From(Order),
}

/// What a comparison asks of its two numbers.
pub(crate) fn relation_of(pred: Pred) -> Relation
    ensures { (w x y : ℕ) → 1 ≤ w → x < 2 ^ w → y < 2 ^ w → relates w result x y ≡ satisfies w pred x y }
{
    match pred {
        Pred::Eq => Relation::Equal,
        Pred::Ne => Relation::Unequal,
        Pred::Ugt => Relation::After(Order::Unsigned),
        Pred::Uge => Relation::From(Order::Unsigned),
        Pred::Ult => Relation::Before(Order::Unsigned),
        Pred::Ule => Relation::UpTo(Order::Unsigned),
        Pred::Sgt => Relation::After(Order::Signed),
        Pred::Sge => Relation::From(Order::Signed),
        Pred::Slt => Relation::Before(Order::Signed),
        Pred::Sle => Relation::UpTo(Order::Signed),
    }
}

/// How many steps up from the least signed value a signed reading stands.
fn signed_place<const W: u32>(reading: i128) -> u128
    requires { IsWidth W }
    ensures place { (k : ℕ) → k < 2 ^ W → reading ≡ reading_at W k → result ≡ k }
    ensures fits { result < 2 ^ W }
{
    Word::<W>::wrapped(reading)
        .add(Word::cut(1 << (W - 1)))
        .bits()
}

/// How many steps up from the number that comes first in the order the first member of the fact stands.
pub(crate) fn first_place_of<const W: u32>(fact: &Fact<W>, order: Order) -> u128
    ensures place { result ≡ first_place W (base_of W order) (in_fact W fact.now) }
    ensures fits { result < 2 ^ W }
    ensures width { IsWidth W }
{
    match order {
        Order::Unsigned => fact.least(),
        Order::Signed => signed_place::<W>(fact.least_signed()),
    }
}

/// How many steps up from the number that comes first in the order the last member of the fact stands.
pub(crate) fn last_place_of<const W: u32>(fact: &Fact<W>, order: Order) -> u128
    ensures place { result ≡ last_place W (base_of W order) (in_fact W fact.now) }
    ensures fits { result < 2 ^ W }
    ensures width { IsWidth W }
{
    match order {
        Order::Unsigned => fact.greatest(),
        Order::Signed => signed_place::<W>(fact.greatest_signed()),
    }
}
