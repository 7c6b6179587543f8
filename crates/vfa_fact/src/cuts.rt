ghost use Rattle.std.specs.Prelude.{◌≡◌, ◌≢◌, ℕ, ◌<◌, ◌^◌, Bool, Some, IsTrue, IsSomeAnd, IfSome, MatchOption};
ghost use Rattle.std.specs.Int.{bit_at};
ghost use Rattle.std.specs.Option.{option_map};
ghost use Rattle.vfa_dom.specs.Search.{bits_below};
ghost use Rattle.vfa_dom.specs.Sets.{meet, is_empty};
ghost use Rattle.vfa_fact.specs.Cuts.{ends_in, amounts_in, amounts_of, divisors_of, shown_amounts};
ghost use Rattle.vfa_fact.specs.Fact.{IsFact};
ghost use Rattle.vfa_fact.specs.Interval.{interval, part_of, Reaches};
ghost use Rattle.vfa_fact.specs.Views.{in_fact};
ghost use Rattle.vfa_word.specs.Numbers.{IsWidth};
ghost use Rattle.vfa_wrap.specs.Between.{Between};
ghost use Rattle.vfa_wrap.specs.Ends.{shown_ends};
ghost use Rattle.vfa_wrap.specs.Rows.{AreAmounts, AreDivisors};

use crate::amount_masks::{amounts_in_arc, amounts_in_cube};
use crate::sharp::between_in;
use crate::{Fact, Numbers};
use vfa_dom::{Domain, SetOf};
use vfa_word::{Word, most};
use vfa_wrap::Ends;

/// Numbers below the width by which a shift is possible.
#[derive(Clone, Copy)]
pub struct Amounts<const W: u32> {
    /// Bit t says that the amount t is possible.
    pub mask: u128,
    /// The least and greatest amounts, and the least and greatest signed readings, which are the same.
    pub ends: Ends<W>,
}

/// The ends of the amounts that the mask says, which are so small that their signed readings are the same numbers.
fn amount_ends<const W: u32>(mask: u128) -> Ends<W>
    requires width { IsWidth W }
    requires some { mask ≢ 0 }
    requires fits { mask < 2 ^ W }
    ensures { (S : ℕ → Bool) → mask ≡ bits_below W S → Some (shown_ends result) ≡ ends_in W (amounts_in W S) }
{
    let least = mask.trailing_zeros();
    let greatest = mask.ilog2();
    Ends {
        lo: u128::from(least),
        hi: u128::from(greatest),
        slo: i128::from(least),
        shi: i128::from(greatest),
    }
}

impl<const W: u32> Fact<W> {
    /// The fact of the members from `low` up to `high`, in plain numbers: their best known bits, the least of them and the
    /// greatest. None exactly where no member lies there.
    ///
    /// At width 8, of the multiples of 4 those from 5 up to 17 are 8 to 16, with the bits `000???00`.
    pub fn part(&self, low: u128, high: u128) -> Option<Numbers>
        requires low_fits { low < 2 ^ W }
        requires high_fits { high < 2 ^ W }
        ensures exact { result ≡ part_of W low high (in_fact W self.now) }
        ensures fact { IfSome result (IsFact W) }
        ensures ends { MatchOption result
            (IsTrue (is_empty W (meet (interval low high) (in_fact W self.now))))
            (λ n. Reaches (meet (interval low high) (in_fact W self.now)) n.first n.last) }
    {
        between_in(&self.known, &self.arc, low, high)
    }

    /// The ends of the members from `low` up to `high`; None exactly where no member lies there.
    fn ends_between(&self, low: u128, high: u128) -> Option<Ends<W>>
        requires low_fits { low < 2 ^ W }
        requires high_fits { high < 2 ^ W }
        ensures { option_map shown_ends result ≡ ends_in W (meet (interval low high) (in_fact W self.now)) }
    {
        // the numbers from the middle on have negative signed readings
        let middle = 1 << (W - 1);
        let below = self.part(low, high.min(middle - 1));
        let above = self.part(low.max(middle), high);
        let lower = below.or(above)?;
        let upper = above.or(below)?;
        Some(Ends {
            lo: lower.first,
            hi: upper.last,
            slo: Word::<W>::cut(upper.first).signed(),
            shi: Word::<W>::cut(lower.last).signed(),
        })
    }

    /// The members below the width, which are the amounts by which a shift is possible; None exactly where there is none.
    ///
    /// At width 6, of the arc from 3 up to 1 they are 0, 1, 3, 4 and 5, with the mask `111011`.
    pub fn amounts(&self) -> Option<Amounts<W>>
        ensures exact { option_map shown_amounts result ≡ amounts_of W (in_fact W self.now) }
        ensures usable { IfSome result (λ a. AreAmounts W (shown_ends a.ends)) }
        ensures some { IfSome result (λ a. a.mask ≢ 0) }
        ensures below { IfSome result (λ a. a.mask < 2 ^ W) }
        ensures covers { (t : ℕ) → t < W → IsTrue (in_fact W self.now t) →
            IsSomeAnd result (λ a. Between W (shown_ends a.ends) t × (bit_at a.mask t ≡ 1)) }
    {
        let mask = amounts_in_cube(&self.known) & amounts_in_arc(&self.arc);
        if mask == 0 {
            return None;
        }
        let ends = amount_ends(mask);
        Some(Amounts { mask, ends })
    }

    /// The ends of the members other than 0, by which a division is possible; None exactly where there is none.
    ///
    /// At width 8, of the numbers from 254 up to 3 they are 1 and 255, and -2 and 3.
    pub fn divisors(&self) -> Option<Ends<W>>
        ensures exact { option_map shown_ends result ≡ divisors_of W (in_fact W self.now) }
        ensures usable { IfSome result (λ e. AreDivisors W (shown_ends e)) }
        ensures covers { (y : ℕ) → y ≢ 0 → IsTrue (in_fact W self.now y) → IsSomeAnd result (λ e. Between W (shown_ends e) y) }
    {
        if !self.has(Word::cut(0)) {
            return Some(self.ends());
        }
        self.ends_between(1, most::<W>())
    }
}

#[cfg(test)]
mod tests;
