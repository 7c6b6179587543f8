//! Comparisons.

ghost use Rattle.std.specs.Prelude.{◌≡◌, ◌<◌, ◌^◌};
ghost use Rattle.vfa_ir.specs.Predicates.{by_order};
ghost use Rattle.vfa_word.specs.Numbers.{IsWidth};
ghost use Rattle.vfa_word.specs.Operations.{equal, unsigned_less, signed_less};
ghost use Rattle.vfa_mean.specs.Meaning.{of_two};
ghost use Rattle.vfa_mean.specs.Rows.{compare, differ_in_sign};
ghost use Rattle.vfa_mean.specs.Values.{AreOfWidth};

use crate::numbers::{Numbers, POISON, both_numbers, number_unless, signed};
use crate::{Done, Val};
use vfa_ir::Pred;

/// Whether the predicate holds.
#[tactic(auto, unfolding(vfa_ir::specs::Predicates::by_order))]
fn satisfies(width: u32, pred: Pred, x: u128, y: u128) -> bool
    requires width { IsWidth width }
    requires left { x < 2 ^ width }
    requires right { y < 2 ^ width }
    ensures { result ≡ by_order pred equal unsigned_less (signed_less width) x y }
{
    match pred {
        Pred::Eq => x == y,
        Pred::Ne => x != y,
        Pred::Ugt => x > y,
        Pred::Uge => x >= y,
        Pred::Ult => x < y,
        Pred::Ule => x <= y,
        Pred::Sgt => signed(width, x) > signed(width, y),
        Pred::Sge => signed(width, x) >= signed(width, y),
        Pred::Slt => signed(width, x) < signed(width, y),
        Pred::Sle => signed(width, x) <= signed(width, y),
    }
}

/// Whether just one of the readings is negative.
fn differ_in_sign(width: u32, x: u128, y: u128) -> bool
    requires width { IsWidth width }
    requires left { x < 2 ^ width }
    requires right { y < 2 ^ width }
    ensures { result ≡ differ_in_sign width x y }
{
    if signed(width, x) < 0 {
        return signed(width, y) >= 0;
    }
    signed(width, y) < 0
}

/// `icmp`.
pub fn compare(width: u32, pred: Pred, samesign: bool, a: Val, b: Val) -> Done
    requires width { IsWidth width }
    requires operands { AreOfWidth width a b }
    ensures { result ≡ of_two (compare pred samesign width) a b }
{
    let Some(Numbers { x, y }) = both_numbers(width, a, b) else {
        return POISON;
    };
    let broken = samesign && differ_in_sign(width, x, y);
    number_unless(broken, satisfies(width, pred, x, y) as u128)
}
