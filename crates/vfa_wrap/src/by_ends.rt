ghost use Rattle.std.specs.Prelude.{◌≡◌, ◌↔◌, IsNone};
ghost use Rattle.std.specs.Option.{option_map};
ghost use Rattle.vfa_word.specs.Numbers.{IsWidth};
ghost use Rattle.vfa_wrap.specs.Between.{AreEnds};
ghost use Rattle.vfa_wrap.specs.Ends.{shown_ends};
ghost use Rattle.vfa_wrap.specs.Rows.{row_by_ends, AreSecondEnds, HoldsResults, HasNoDivisor};

use crate::arc::Wrapped;
use crate::ends::Ends;
use crate::ends_op::EndsOp;
use crate::rows::row;

impl<const W: u32> Wrapped<W> {
    ghost use Rattle.vfa_wrap.specs.Wrapped.{span_of};

    /// An arc that holds every result of the operation on a number between the ends `a` and one between the ends `b`.
    ///
    /// `a` and `b` are the ends of sets that have a member. For a shift `b` has the ends of the amounts below `W`. For a
    /// division or remainder it has those of the divisors that are not 0, or those of 0 alone where there is no other,
    /// and None comes exactly then.
    ///
    /// At `W` = 8, with `a` of 10 to 20 and `b` of 2 to 5, `Udiv` gives 2 to 10 and `Urem` 0 to 4; with `a` of -3 to -2
    /// and `b` of 4 to 5 `Mul` gives -15 to -8, which are the numbers 241 to 248. Each arc is that of LLVM's
    /// ConstantRange, or a coarser one, with one fixed form for each operation.
    pub fn by_ends(op: EndsOp, a: &Ends<W>, b: &Ends<W>) -> Option<Wrapped<W>>
        requires width { IsWidth W }
        requires left { AreEnds W (shown_ends a.now) }
        requires right { AreSecondEnds op W (shown_ends b.now) }
        ensures row { option_map span_of result ≡ row_by_ends op W (shown_ends a.now) (shown_ends b.now) }
        ensures holds { HoldsResults op W (shown_ends a.now) (shown_ends b.now) (option_map span_of result) }
        ensures none { IsNone result ↔ HasNoDivisor op (shown_ends b.now) }
    {
        row(op, a, b)
    }
}

#[cfg(test)]
mod tests;
