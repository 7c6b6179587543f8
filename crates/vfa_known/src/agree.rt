ghost use Rattle.std.specs.Prelude.{MatchOption, IsFalse};
ghost use Rattle.vfa_dom.specs.Sets.{meets};

use crate::known::Known;

impl<const W: u32> Known<W> {
    ghost use Rattle.vfa_known.specs.Known.{in_known};
    ghost use Rattle.vfa_known.specs.Agreement.{IsAgreement};

    /// The known bits of the numbers of both; None exactly where no number is in both. `1???` and `?0??` agree on `10??`,
    /// and no number is in `1???` and `0???`.
    pub fn agree(&self, other: &Known<W>) -> Option<Known<W>>
        ensures { MatchOption result
            (IsFalse (meets W (in_known W self.now) (in_known W other.now)))
            (λ k. IsAgreement W self.now other.now k) }
    {
        let zeros = self.zeros | other.zeros;
        let ones = self.ones | other.ones;
        if zeros & ones != 0 {
            return None;
        }
        Some(Known { zeros, ones })
    }
}
