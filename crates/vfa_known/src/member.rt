ghost use Rattle.std.specs.Prelude.{◌≡◌, ◌<◌, ◌^◌};
ghost use Rattle.vfa_dom.specs.Sets.{at_or_after, at_or_before, least_of, greatest_of};

use crate::known::Known;
use vfa_word::most;

impl<const W: u32> Known<W> {
    ghost use Rattle.vfa_known.specs.Known.{in_known};

    /// The least member that is at least `x`; None exactly where there is none. Of `1??0` the first from 9 on is 10, and
    /// there is none from 15 on.
    pub fn first_at_or_after(&self, x: u128) -> Option<u128>
        requires { x < 2 ^ W }
        ensures { result ≡ least_of W (at_or_after x (in_known W self.now)) }
    {
        // A member after x has a one where x has a zero that may be a one, at the highest wrong bit of x or above. The
        // lowest such place gives the least member: x above it, the known ones below.
        let wrong = (x & self.zeros) | (self.ones & !x);
        if wrong == 0 {
            return Some(x);
        }
        let turn = wrong.ilog2();
        let full = x | self.zeros | ((1 << turn) - 1);
        if full == most::<W>() {
            return None;
        }
        let rise = full.trailing_ones();
        let low = (1 << rise) - 1;
        Some((x & !low) | (1 << rise) | (self.ones & low))
    }

    /// The greatest member that is at most `x`; None exactly where there is none. Of `1??0` the last up to 13 is 12, and
    /// there is none up to 7.
    pub fn last_at_or_before(&self, x: u128) -> Option<u128>
        requires { x < 2 ^ W }
        ensures { result ≡ greatest_of W (at_or_before x (in_known W self.now)) }
    {
        // the complements of the members stand in the other order
        let most = most::<W>();
        let turned = self.complement().first_at_or_after(most ^ x)?;
        Some(most ^ turned)
    }
}
