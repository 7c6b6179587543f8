//! Whether an operation on numbers of cells overflows.

ghost use Rattle.std.specs.Prelude.{◌≡◌, IfSome};
ghost use Rattle.std.specs.Option.{option_map};
ghost use Rattle.vfa_fact.specs.Views.{in_fact};
ghost use Rattle.vfa_rules.specs.Conditions.{second_of, stays_in_range};
ghost use Rattle.vfa_word.specs.Numbers.{IsWidth};
ghost use Rattle.vfa_wrap.specs.Ends.{shown_ends};
ghost use Rattle.vfa_wrap.specs.WholeSpans.{AreOperandEnds};
ghost use Rattle.vfa_wrap.specs.declared.reading.Reading.{Reading};

use vfa_fact::{Cell, Fact, at_width};
use vfa_word::Arith;
use vfa_wrap::spans::fits;
use vfa_wrap::{Ends, Reading};

/// Whether the whole results of an operation lie in the unsigned range of the width, and in the signed one.
#[derive(Clone, Copy)]
pub(crate) struct RangesKept {
    pub unsigned: bool,
    pub signed: bool,
}

impl RangesKept {
    const NEITHER: RangesKept = RangesKept {
        unsigned: false,
        signed: false,
    };
}

/// The ends of the second operand: for a shift those of the amounts below the width, of which there may be none.
fn second_ends<const W: u32>(op: Arith, b: &Fact<W>) -> Option<Ends<W>>
    requires { IsWidth W }
    ensures exact { option_map shown_ends result ≡ second_of op W (in_fact W b.now) }
    ensures usable { IfSome result (λ e. AreOperandEnds op W (shown_ends e)) }
{
    match op {
        Arith::Shl => match b.amounts() {
            Some(amounts) => Some(amounts.ends),
            None => None,
        },
        Arith::Add | Arith::Sub | Arith::Mul => Some(b.ends()),
    }
}

/// Whether the operation on cells of width `W` stays in the ranges.
fn stays_at<const W: u32>(op: Arith, a: &Cell, b: &Cell) -> RangesKept
    requires width { IsWidth W }
    requires left { a.now.width ≡ W }
    requires right { b.now.width ≡ W }
    ensures { result ≡ record { unsigned = stays_in_range op Reading.Unsigned a.now b.now; signed = stays_in_range op Reading.Signed a.now b.now } }
{
    let Some(one) = a.typed::<W>() else {
        return RangesKept::NEITHER;
    };
    let Some(two) = b.typed::<W>() else {
        return RangesKept::NEITHER;
    };
    let Some(second) = second_ends(op, &two) else {
        return RangesKept::NEITHER;
    };
    let first = one.ends();
    RangesKept {
        unsigned: fits(op, Reading::Unsigned, &first, &second),
        signed: fits(op, Reading::Signed, &first, &second),
    }
}

/// Whether the operation on cells of one width stays in the ranges: at width 8, sums of 200 to 210 and 10 to 45 stay in the
/// unsigned one alone.
pub(crate) fn stays(op: Arith, a: &Cell, b: &Cell) -> RangesKept
    requires { a.now.width ≡ b.now.width }
    ensures { result ≡ record { unsigned = stays_in_range op Reading.Unsigned a.now b.now; signed = stays_in_range op Reading.Signed a.now b.now } }
{
    at_width!(a.width, stays_at, (op, a, b))
}
