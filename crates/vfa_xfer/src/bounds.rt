//! Bounds that flags put on results.

ghost use Rattle.std.specs.Prelude.{◌≡◌, Some};
ghost use Rattle.std.specs.Option.{option_map};
ghost use Rattle.vfa_word.specs.Numbers.{IsWidth};
ghost use Rattle.vfa_wrap.specs.Arc.{full_span};
ghost use Rattle.vfa_wrap.specs.Between.{AreEnds};
ghost use Rattle.vfa_wrap.specs.Ends.{shown_ends};
ghost use Rattle.vfa_wrap.specs.WholeSpans.{AreOperandEnds};
ghost use Rattle.vfa_wrap.specs.Wrapped.{span_of};
ghost use Rattle.vfa_known.specs.Known.{masks_of};
ghost use Rattle.vfa_xfer.specs.Bounds.{shown_bounds, no_bounds, bound_if, span_bound, wrap_bounds, row_of, keeps_in_range};
ghost use Rattle.vfa_xfer.specs.Rows.{shown_row};

use crate::rows::Row;
use vfa_dom::Domain;
use vfa_ir::Flags;
use vfa_known::Known;
use vfa_word::Arith;
use vfa_wrap::spans::{bound, fits};
use vfa_wrap::{Ends, Reading, Wrapped};

/// Two bounds; one of all numbers asks for nothing.
#[derive(Clone, Copy)]
pub(crate) struct Bounds<const W: u32> {
    pub one: Wrapped<W>,
    pub two: Wrapped<W>,
}

impl<const W: u32> Bounds<W> {
    /// Bounds that ask for nothing.
    pub(crate) fn none() -> Bounds<W>
        requires { IsWidth W }
        ensures { shown_bounds result ≡ no_bounds W }
    {
        Bounds {
            one: Wrapped::any(),
            two: Wrapped::any(),
        }
    }
}

/// The numbers of the operation's span in the range of the reading, where they are asked for; else all numbers.
fn bound_if<const W: u32>(
    asked: bool,
    op: Arith,
    reading: Reading,
    a: &Ends<W>,
    b: &Ends<W>,
) -> Option<Wrapped<W>>
    requires width { IsWidth W }
    requires left { AreEnds W (shown_ends a.now) }
    requires right { AreOperandEnds op W (shown_ends b.now) }
    ensures { option_map span_of result ≡ bound_if asked W (span_bound op reading W (shown_ends a.now) (shown_ends b.now)) }
{
    if asked {
        return bound(op, reading, a, b);
    }
    Some(Wrapped::any())
}

/// The bounds of the flags `nuw` and `nsw`; None where one of them leaves no number.
#[tactic(auto, unfolding(crate::specs::Bounds::wrap_bounds))]
pub(crate) fn wrap_bounds<const W: u32>(
    op: Arith,
    flags: Flags,
    a: &Ends<W>,
    b: &Ends<W>,
) -> Option<Bounds<W>>
    requires width { IsWidth W }
    requires left { AreEnds W (shown_ends a.now) }
    requires right { AreOperandEnds op W (shown_ends b.now) }
    ensures { option_map shown_bounds result ≡ wrap_bounds op flags W (shown_ends a.now) (shown_ends b.now) }
{
    let one = bound_if(flags.nuw, op, Reading::Unsigned, a, b)?;
    let two = bound_if(flags.nsw, op, Reading::Signed, a, b)?;
    Some(Bounds { one, two })
}

/// Whether no flag of `nuw` and `nsw` is broken by any two numbers between the ends.
#[tactic(auto, unfolding(crate::specs::Bounds::keeps_in_range))]
pub(crate) fn keeps_in_range<const W: u32>(
    op: Arith,
    flags: Flags,
    a: &Ends<W>,
    b: &Ends<W>,
) -> bool
    requires width { IsWidth W }
    requires left { AreEnds W (shown_ends a.now) }
    requires right { AreOperandEnds op W (shown_ends b.now) }
    ensures { result ≡ keeps_in_range op flags W (shown_ends a.now) (shown_ends b.now) }
{
    if flags.nuw && !fits(op, Reading::Unsigned, a, b) {
        return false;
    }
    !flags.nsw || fits(op, Reading::Signed, a, b)
}

/// The row of known bits, an arc and bounds; None where the arc or the bounds are missing.
pub(crate) fn row_of<const W: u32>(
    cube: Known<W>,
    arc: Option<Wrapped<W>>,
    bounds: Option<Bounds<W>>,
) -> Option<Row<W>>
    ensures { option_map shown_row result ≡ row_of (masks_of cube.entry) (option_map span_of arc.entry) (option_map shown_bounds bounds.entry) }
{
    let arc = arc?;
    let bounds = bounds?;
    Some(Row {
        cube,
        arc,
        one: bounds.one,
        two: bounds.two,
    })
}
