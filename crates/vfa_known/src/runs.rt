//! Runs of places at the two ends of a mask.

ghost use Rattle.std.specs.Prelude.{◌<◌, ◌^◌};
ghost use Rattle.vfa_known.specs.Runs.{IsLowRun, IsHighRun};
ghost use Rattle.vfa_word.specs.Numbers.{IsWidth};

use vfa_word::most;

/// The places of the mask below which no place is outside it.
pub(crate) fn low_run<const W: u32>(places: u128) -> u128
    requires width { IsWidth W }
    requires fits { places < 2 ^ W }
    ensures { IsLowRun W places result }
{
    let others = most::<W>() ^ places;
    if others == 0 {
        return places;
    }
    (1 << others.trailing_zeros()) - 1
}

/// The places of the mask above which no place of the width is outside it.
pub(crate) fn high_run<const W: u32>(places: u128) -> u128
    requires width { IsWidth W }
    requires fits { places < 2 ^ W }
    ensures { IsHighRun W places result }
{
    let most = most::<W>();
    let others = most ^ places;
    if others == 0 {
        return places;
    }
    let highest = 1 << others.ilog2();
    most - (highest + (highest - 1))
}
