ghost use Rattle.std.specs.Prelude.{◌≡◌, ℕ, ◌<◌, ◌≤◌, ◌^◌, nat_eq, nat_le, not, MatchOption, IsTrue};
ghost use Rattle.vfa_dom.specs.Sets.{is_empty};
ghost use Rattle.vfa_fact.specs.Compare.{Agree, partners};
ghost use Rattle.vfa_fact.specs.Order.{base_of, comes_before};
ghost use Rattle.vfa_fact.specs.Views.{in_fact};
ghost use Rattle.vfa_word.specs.Numbers.{IsWidth};
ghost use Rattle.vfa_wrap.specs.Arc.{steps};
ghost use Rattle.vfa_wrap.specs.Wrapped.{in_arc};

use crate::Fact;
use crate::order::{Order, first_place_of, last_place_of};
use vfa_dom::Domain;
use vfa_word::{Word, most};
use vfa_wrap::Wrapped;

/// The number that comes first in the order.
fn base<const W: u32>(order: Order) -> u128
    requires { IsWidth W }
    ensures value { result ≡ base_of W order }
    ensures fits { result < 2 ^ W }
{
    match order {
        Order::Unsigned => 0,
        Order::Signed => 1 << (W - 1),
    }
}

/// The arc of the numbers at most `place` steps up from `base`.
fn up_to<const W: u32>(base: u128, place: u128) -> Wrapped<W>
    requires width { IsWidth W }
    requires base_fits { base < 2 ^ W }
    requires place_fits { place < 2 ^ W }
    ensures { Agree W (in_arc W result) (λ x. nat_le (steps W base x) place) }
{
    let first = Word::cut(base);
    Wrapped::new(first, first.add(Word::cut(place)))
}

/// The arc of the numbers at least `place` steps up from `base`.
fn from_on<const W: u32>(base: u128, place: u128) -> Wrapped<W>
    requires width { IsWidth W }
    requires base_fits { base < 2 ^ W }
    requires place_fits { place < 2 ^ W }
    ensures { Agree W (in_arc W result) (λ x. nat_le place (steps W base x)) }
{
    let start = Word::cut(base);
    Wrapped::new(
        start.add(Word::cut(place)),
        start.add(Word::cut(most::<W>())),
    )
}

/// The arc of the numbers that come before some member; None exactly where there is none.
pub(crate) fn arc_before<const W: u32>(order: Order, fact: &Fact<W>) -> Option<Wrapped<W>>
    ensures { let test = comes_before W (base_of W order) in
        MatchOption result (IsTrue (is_empty W (partners W test (in_fact W fact.now))))
        (λ arc. Agree W (in_arc W arc) (partners W test (in_fact W fact.now))) }
{
    let last = last_place_of(fact, order);
    if last == 0 {
        return None;
    }
    Some(up_to(base::<W>(order), last - 1))
}

/// The arc of the numbers that come before some member or are one.
pub(crate) fn arc_up_to<const W: u32>(order: Order, fact: &Fact<W>) -> Wrapped<W>
    ensures { Agree W (in_arc W result) (partners W (λ x y. not (comes_before W (base_of W order) y x)) (in_fact W fact.now)) }
{
    let last = last_place_of(fact, order);
    up_to(base::<W>(order), last)
}

/// The arc of the numbers that come after some member; None exactly where there is none.
pub(crate) fn arc_after<const W: u32>(order: Order, fact: &Fact<W>) -> Option<Wrapped<W>>
    ensures { let test = λ (x y : ℕ). comes_before W (base_of W order) y x in
        MatchOption result (IsTrue (is_empty W (partners W test (in_fact W fact.now))))
        (λ arc. Agree W (in_arc W arc) (partners W test (in_fact W fact.now))) }
{
    let first = first_place_of(fact, order);
    if first == most::<W>() {
        return None;
    }
    Some(from_on(base::<W>(order), first + 1))
}

/// The arc of the numbers that come after some member or are one.
pub(crate) fn arc_from<const W: u32>(order: Order, fact: &Fact<W>) -> Wrapped<W>
    ensures { Agree W (in_arc W result) (partners W (λ x y. not (comes_before W (base_of W order) x y)) (in_fact W fact.now)) }
{
    let first = first_place_of(fact, order);
    from_on(base::<W>(order), first)
}

/// The arc of the numbers that differ from some member: all but the only one, where there is only one.
pub(crate) fn arc_unequal<const W: u32>(fact: &Fact<W>) -> Wrapped<W>
    ensures { Agree W (in_arc W result) (partners W (λ x y. not (nat_eq x y)) (in_fact W fact.now)) }
{
    match fact.single() {
        Some(only) => from_on(only.bits(), 1),
        None => Wrapped::any(),
    }
}
