ghost use Rattle.std.specs.Prelude.{◌≡◌, MatchOption};
ghost use Rattle.vfa_word.specs.Numbers.{IsWidth};
ghost use Rattle.vfa_known.specs.Cube.{IsCube};

use vfa_word::most;

/// The known bits of a number of width `W`, with `W` from 1 to 128: a mask of the bits known to be zero and
/// a mask of those known to be one. It stands for its cube, the set of the numbers that agree with both masks.
#[derive(Clone, Copy)]
pub struct Known<const W: u32> {
    pub(crate) zeros: u128,
    pub(crate) ones: u128,
    pub ghost width: { IsWidth W },
    pub ghost cube: { IsCube W zeros ones },
}

impl<const W: u32> Known<W> {
    ghost use Rattle.vfa_known.specs.Known.{masks_of};

    /// The known bits with these masks; None exactly where the masks share a bit or pass the width.
    pub fn new(zeros: u128, ones: u128) -> Option<Known<W>>
        requires { IsWidth W }
        ensures { MatchOption result (¬ IsCube W zeros ones)
            (λ k. masks_of k ≡ record { zeros = zeros; ones = ones }) }
    {
        let most = most::<W>();
        if zeros > most {
            return None;
        }
        if ones > most {
            return None;
        }
        if zeros & ones != 0 {
            return None;
        }
        Some(Known { zeros, ones })
    }

    /// The bits known to be zero.
    pub fn zeros(&self) -> u128
        ensures { result ≡ (masks_of self.now).zeros }
    {
        self.zeros
    }

    /// The bits known to be one.
    pub fn ones(&self) -> u128
        ensures { result ≡ (masks_of self.now).ones }
    {
        self.ones
    }
}
