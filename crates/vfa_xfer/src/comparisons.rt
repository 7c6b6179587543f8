//! Facts of `icmp`.

ghost use Rattle.std.specs.Prelude.{◌≡◌, ◌-◌, ◌^◌, ◌&&◌, ◌||◌, true, false, pos, int_le, int_lt, nat_lt, nat_le};
ghost use Rattle.vfa_fact.specs.CellCuts.{cell_ends};
ghost use Rattle.vfa_fact.specs.Cells.{IsCell, in_cell, cell_of};
ghost use Rattle.vfa_fact.specs.Views.{in_fact};
ghost use Rattle.vfa_mean.specs.Meaning.{Allowed, Gave, of_two};
ghost use Rattle.vfa_mean.specs.Rows.{compare};
ghost use Rattle.vfa_mean.specs.declared.value.Val.{Val};
ghost use Rattle.vfa_word.specs.Numbers.{IsWidth};
ghost use Rattle.vfa_word.specs.Operations.{equal, unsigned_less};
ghost use Rattle.vfa_xfer.specs.AnyFacts.{CellHolds};
ghost use Rattle.vfa_xfer.specs.Comparisons.{answers_by, answers_of, answered, compared_cell, signs_alike};
ghost use Rattle.vfa_xfer.specs.Halves.{EndsOfPart, related_by, related_halves};

use vfa_fact::{Cell, CellEnds, Fact, Numbers, at_width};
use vfa_ir::Pred;
use vfa_word::most;

/// Which answers a comparison has over pairs of numbers.
#[derive(Clone, Copy)]
pub(crate) struct Answers {
    /// Some pair satisfies it.
    pub yes: bool,
    /// Some pair does not.
    pub no: bool,
}

/// No answer, where there is no pair.
const NO_ANSWER: Answers = Answers {
    yes: false,
    no: false,
};

impl Answers {
    /// The answers of the negated comparison.
    fn negated(self) -> Answers
        ensures { result ≡ record { yes = self.no; no = self.yes } }
    {
        Answers {
            yes: self.no,
            no: self.yes,
        }
    }

    /// The cell of the answers as numbers of width 1.
    fn cell(self, never_poison: bool) -> Cell
        ensures exact { result ≡ cell_of 1 (answered self) never_poison }
        ensures cell { IsCell result }
    {
        if self.yes && self.no {
            return Cell::any(1, never_poison);
        }
        if self.yes {
            return Cell::literal(1, 1).with_mark(never_poison);
        }
        if self.no {
            return Cell::literal(1, 0).with_mark(never_poison);
        }
        Cell::none(1)
    }
}

/// What a fact has of the numbers that are not negative, and of those that are: known bits, the least and the greatest.
#[derive(Clone, Copy)]
pub(crate) struct Halves {
    /// Those below the middle of the numbers.
    pub low: Option<Numbers>,
    /// Those from the middle on, which are negative.
    pub high: Option<Numbers>,
}

/// The halves of a fact.
fn halves_of<const W: u32>(fact: &Fact<W>) -> Halves
    ensures low { EndsOfPart W (in_fact W fact.now) 0 (2 ^ (W - 1) - 1) result.low }
    ensures high { EndsOfPart W (in_fact W fact.now) (2 ^ (W - 1)) (2 ^ W - 1) result.high }
{
    let middle = 1 << (W - 1);
    Halves {
        low: fact.part(0, middle - 1),
        high: fact.part(middle, most::<W>()),
    }
}

/// Whether some number of the one is less than some number of the other.
fn is_less(a: Option<Numbers>, b: Option<Numbers>) -> bool
    ensures { result ≡ related_by nat_lt a b }
{
    let Some(one) = a else {
        return false;
    };
    let Some(two) = b else {
        return false;
    };
    one.first < two.last
}

/// Whether some number of the one is at most some number of the other.
fn is_at_most(a: Option<Numbers>, b: Option<Numbers>) -> bool
    ensures { result ≡ related_by nat_le a b }
{
    let Some(one) = a else {
        return false;
    };
    let Some(two) = b else {
        return false;
    };
    one.first <= two.last
}

impl Halves {
    /// Whether some number is less than some number of the other of the same sign.
    fn is_less(&self, other: &Halves) -> bool
        ensures { result ≡ related_halves nat_lt self.now other.now }
    {
        is_less(self.low, other.low) || is_less(self.high, other.high)
    }

    /// Whether some number is at most some number of the other of the same sign.
    fn is_at_most(&self, other: &Halves) -> bool
        ensures { result ≡ related_halves nat_le self.now other.now }
    {
        is_at_most(self.low, other.low) || is_at_most(self.high, other.high)
    }
}

impl Halves {
    /// Whether some number is not the same as some number of the other of the same sign.
    fn differs(&self, other: &Halves) -> bool
        ensures { result ≡ (related_halves nat_lt self.now other.now || related_halves nat_lt other.now self.now) }
    {
        self.is_less(other) || other.is_less(self)
    }
}

/// The answers of "is less than" over the pairs of one sign.
fn before<const W: u32>(a: &Fact<W>, b: &Fact<W>) -> Answers
    ensures { result ≡ answers_by true W unsigned_less (in_fact W a.now) (in_fact W b.now) }
{
    let one = halves_of(a);
    let two = halves_of(b);
    Answers {
        yes: one.is_less(&two),
        no: two.is_at_most(&one),
    }
}

/// The answers of "is the same as" over the pairs of one sign; a number of both is a pair of one sign.
fn same<const W: u32>(a: &Fact<W>, b: &Fact<W>) -> Answers
    ensures { result ≡ answers_by true W equal (in_fact W a.now) (in_fact W b.now) }
{
    let one = halves_of(a);
    let two = halves_of(b);
    Answers {
        yes: Fact::decide(Pred::Eq, a, b).unwrap_or(true),
        no: one.differs(&two),
    }
}

/// The answers of a comparison over the pairs of one sign, whose signed order is the unsigned one.
fn answers_of_one_sign<const W: u32>(pred: Pred, a: &Fact<W>, b: &Fact<W>) -> Answers
    ensures { result ≡ answers_of pred true W (in_fact W a.now) (in_fact W b.now) }
{
    match pred {
        Pred::Eq => same(a, b),
        Pred::Ne => same(a, b).negated(),
        Pred::Ult | Pred::Slt => before(a, b),
        Pred::Uge | Pred::Sge => before(a, b).negated(),
        Pred::Ugt | Pred::Sgt => before(b, a),
        Pred::Ule | Pred::Sle => before(b, a).negated(),
    }
}

/// The answers over the pairs of one sign of two cells of width `W`.
fn one_sign_at<const W: u32>(pred: Pred, a: &Cell, b: &Cell) -> Answers
    requires left { a.now.width ≡ W }
    requires right { b.now.width ≡ W }
    ensures { result ≡ answers_of pred true W (in_cell a.now) (in_cell b.now) }
{
    let Some(one) = a.typed::<W>() else {
        return NO_ANSWER;
    };
    let Some(two) = b.typed::<W>() else {
        return NO_ANSWER;
    };
    answers_of_one_sign(pred, &one, &two)
}

/// The answers over the pairs of one sign.
fn one_sign(width: u32, pred: Pred, a: &Cell, b: &Cell) -> Answers
    requires width { IsWidth width }
    requires left { a.now.width ≡ width }
    requires right { b.now.width ≡ width }
    ensures { result ≡ answers_of pred true width (in_cell a.now) (in_cell b.now) }
{
    at_width!(width, one_sign_at, (pred, a, b))
}

/// The answers over all pairs.
fn all_pairs(pred: Pred, a: &Cell, b: &Cell) -> Answers
    requires { a.now.width ≡ b.now.width }
    ensures { result ≡ answers_of pred false a.now.width (in_cell a.now) (in_cell b.now) }
{
    if a.numbers.is_none() {
        return NO_ANSWER;
    }
    if b.numbers.is_none() {
        return NO_ANSWER;
    }
    match Cell::decide(pred, a, b) {
        Some(yes) => Answers { yes, no: !yes },
        None => Answers {
            yes: true,
            no: true,
        },
    }
}

/// Whether no number between either ends is negative, or each between both is.
fn share_sign(a: &CellEnds, b: &CellEnds) -> bool
    ensures { result ≡ (int_le (pos 0) a.now.slo && int_le (pos 0) b.now.slo || int_lt a.now.shi (pos 0) && int_lt b.now.shi (pos 0)) }
{
    if a.slo >= 0 && b.slo >= 0 {
        return true;
    }
    a.shi < 0 && b.shi < 0
}

/// Whether no number of either cell is negative, or each number of both is.
fn are_of_one_sign(a: &Cell, b: &Cell) -> bool
    ensures { result ≡ signs_alike (cell_ends a.now) (cell_ends b.now) }
{
    let Some(one) = a.ends() else {
        return false;
    };
    let Some(two) = b.ends() else {
        return false;
    };
    share_sign(&one, &two)
}

/// The cell of the answers of a comparison.
fn icmp(pred: Pred, samesign: bool, a: &Cell, b: &Cell) -> Cell
    requires { a.now.width ≡ b.now.width }
    ensures exact { result ≡ compared_cell pred samesign a.now b.now }
    ensures cell { IsCell result }
{
    if !samesign {
        return all_pairs(pred, a, b).cell(a.never_poison && b.never_poison);
    }
    let never_poison = a.never_poison && b.never_poison && are_of_one_sign(a, b);
    one_sign(a.width, pred, a, b).cell(never_poison)
}

/// What an `icmp` of two cells of one width gives: 1 where all pairs of their numbers satisfy the predicate, 0 where none
/// does, else both; with `samesign` only pairs of one sign count, and there may be none. It is never poison where both
/// operands are, and with `samesign` no number is negative, or each is.
///
/// At width 8, `ult` of 0 to 4 and 5 to 9 is 1.
pub(crate) fn transfer_icmp(pred: Pred, samesign: bool, a: &Cell, b: &Cell) -> Cell
    requires { a.now.width ≡ b.now.width }
    ensures exact { result ≡ compared_cell pred samesign a.now b.now }
    ensures holds { (x y r : Val) → CellHolds a.now x → CellHolds b.now y →
        Allowed (of_two (compare pred samesign a.now.width) x y) (Gave r) → CellHolds result r }
    ensures cell { IsCell result }
{
    // the prover knows that an operand is a cell once a part of it is read
    let (_left, _right) = (a.width, b.width);
    icmp(pred, samesign, a, b)
}
