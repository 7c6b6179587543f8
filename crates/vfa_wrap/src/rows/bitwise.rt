ghost use Rattle.std.specs.Prelude.{◌≡◌};
ghost use Rattle.vfa_word.specs.Numbers.{IsWidth};
ghost use Rattle.vfa_wrap.specs.Between.{AreEnds};
ghost use Rattle.vfa_wrap.specs.Ends.{shown_ends};
ghost use Rattle.vfa_wrap.specs.Rows.{and_row, or_row};
ghost use Rattle.vfa_wrap.specs.Wrapped.{span_of};

use crate::arc::Wrapped;
use crate::ends::Ends;
use vfa_word::most;

/// From 0 to the lesser of the two greatest numbers.
#[tactic(auto, unfolding(crate::specs::Rows::and_row))]
pub(crate) fn and<const W: u32>(a: &Ends<W>, b: &Ends<W>) -> Wrapped<W>
    requires width { IsWidth W }
    requires left { AreEnds W (shown_ends a.now) }
    ensures { span_of result ≡ and_row W (shown_ends a.now) (shown_ends b.now) }
{
    Wrapped::between(0, a.hi.min(b.hi))
}

/// From the greater of the two least numbers to the greatest number of the width.
#[tactic(auto, unfolding(crate::specs::Rows::or_row))]
pub(crate) fn or<const W: u32>(a: &Ends<W>, b: &Ends<W>) -> Wrapped<W>
    requires width { IsWidth W }
    requires left { AreEnds W (shown_ends a.now) }
    requires right { AreEnds W (shown_ends b.now) }
    ensures { span_of result ≡ or_row W (shown_ends a.now) (shown_ends b.now) }
{
    Wrapped::between(a.lo.max(b.lo), most::<W>())
}
