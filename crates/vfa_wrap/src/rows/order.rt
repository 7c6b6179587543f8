ghost use Rattle.std.specs.Prelude.{◌≡◌};
ghost use Rattle.vfa_word.specs.Numbers.{IsWidth};
ghost use Rattle.vfa_wrap.specs.Between.{AreEnds};
ghost use Rattle.vfa_wrap.specs.Ends.{shown_ends};
ghost use Rattle.vfa_wrap.specs.Rows.{umin_row, umax_row, smin_row, smax_row};
ghost use Rattle.vfa_wrap.specs.Wrapped.{span_of};

use crate::arc::Wrapped;
use crate::ends::Ends;
use crate::rows::signed::signed_between;

/// From the lesser of the two least numbers to the lesser of the two greatest.
#[tactic(auto, unfolding(crate::specs::Rows::umin_row))]
pub(crate) fn umin<const W: u32>(a: &Ends<W>, b: &Ends<W>) -> Wrapped<W>
    requires width { IsWidth W }
    requires left { AreEnds W (shown_ends a.now) }
    requires right { AreEnds W (shown_ends b.now) }
    ensures { span_of result ≡ umin_row W (shown_ends a.now) (shown_ends b.now) }
{
    Wrapped::between(a.lo.min(b.lo), a.hi.min(b.hi))
}

/// From the greater of the two least numbers to the greater of the two greatest.
#[tactic(auto, unfolding(crate::specs::Rows::umax_row))]
pub(crate) fn umax<const W: u32>(a: &Ends<W>, b: &Ends<W>) -> Wrapped<W>
    requires width { IsWidth W }
    requires left { AreEnds W (shown_ends a.now) }
    requires right { AreEnds W (shown_ends b.now) }
    ensures { span_of result ≡ umax_row W (shown_ends a.now) (shown_ends b.now) }
{
    Wrapped::between(a.lo.max(b.lo), a.hi.max(b.hi))
}

/// The same as `umin` for signed readings.
#[tactic(auto, unfolding(crate::specs::Rows::smin_row))]
pub(crate) fn smin<const W: u32>(a: &Ends<W>, b: &Ends<W>) -> Wrapped<W>
    requires { IsWidth W }
    ensures { span_of result ≡ smin_row W (shown_ends a.now) (shown_ends b.now) }
{
    signed_between(a.slo.min(b.slo), a.shi.min(b.shi))
}

/// The same as `umax` for signed readings.
#[tactic(auto, unfolding(crate::specs::Rows::smax_row))]
pub(crate) fn smax<const W: u32>(a: &Ends<W>, b: &Ends<W>) -> Wrapped<W>
    requires { IsWidth W }
    ensures { span_of result ≡ smax_row W (shown_ends a.now) (shown_ends b.now) }
{
    signed_between(a.slo.max(b.slo), a.shi.max(b.shi))
}
