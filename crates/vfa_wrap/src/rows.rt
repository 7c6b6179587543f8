//! The arc of the results of an operation by the ends of its operands: one function for each operation.
ghost use Rattle.std.specs.Prelude.{◌≡◌};
ghost use Rattle.std.specs.Option.{option_map};
ghost use Rattle.vfa_word.specs.Numbers.{IsWidth};
ghost use Rattle.vfa_wrap.specs.Between.{AreEnds};
ghost use Rattle.vfa_wrap.specs.Ends.{shown_ends};
ghost use Rattle.vfa_wrap.specs.Rows.{row_by_ends, AreSecondEnds};
ghost use Rattle.vfa_wrap.specs.Wrapped.{span_of};

mod bitwise;
mod division;
mod order;
mod product;
mod shift;
pub(crate) mod signed;

use crate::arc::Wrapped;
use crate::ends::Ends;
use crate::ends_op::EndsOp;
use crate::reading::Reading;
use crate::spans::saturated;
use vfa_word::Arith;

/// The arc of the operation's row; None where the row is empty.
#[tactic(auto, unfolding(crate::specs::Rows::row_by_ends))]
pub(crate) fn row<const W: u32>(op: EndsOp, a: &Ends<W>, b: &Ends<W>) -> Option<Wrapped<W>>
    requires width { IsWidth W }
    requires left { AreEnds W (shown_ends a.now) }
    requires right { AreSecondEnds op W (shown_ends b.now) }
    ensures { option_map span_of result ≡ row_by_ends op W (shown_ends a.now) (shown_ends b.now) }
{
    match op {
        EndsOp::Mul => Some(product::mul(a, b)),
        EndsOp::And => Some(bitwise::and(a, b)),
        EndsOp::Or => Some(bitwise::or(a, b)),
        EndsOp::Shl => Some(shift::shl(a, b)),
        EndsOp::Lshr => Some(shift::lshr(a, b)),
        EndsOp::Ashr => Some(shift::ashr(a, b)),
        EndsOp::Udiv => division::udiv(a, b),
        EndsOp::Sdiv => division::sdiv(a, b),
        EndsOp::Urem => division::urem(a, b),
        EndsOp::Srem => division::srem(a, b),
        EndsOp::Umin => Some(order::umin(a, b)),
        EndsOp::Umax => Some(order::umax(a, b)),
        EndsOp::Smin => Some(order::smin(a, b)),
        EndsOp::Smax => Some(order::smax(a, b)),
        EndsOp::UaddSat => Some(saturated(Arith::Add, Reading::Unsigned, a, b)),
        EndsOp::UsubSat => Some(saturated(Arith::Sub, Reading::Unsigned, a, b)),
        EndsOp::SaddSat => Some(saturated(Arith::Add, Reading::Signed, a, b)),
        EndsOp::SsubSat => Some(saturated(Arith::Sub, Reading::Signed, a, b)),
    }
}
