//! Generic code over domains, proved from the laws, and tried at the domain of constants.

ghost use Rattle.std.specs.Prelude.{◌≡◌, ◌<◌, ◌≤◌, ◌^◌, ℕ, All, IsSomeAnd, bit_and};
ghost use Rattle.vfa_ir.specs.declared.operations.Ty.{Ty};
ghost use Rattle.vfa_mean.specs.declared.value.Val.{Val};
ghost use Rattle.vfa_values.specs.Conditions.{IsOf, AreLandmarks};
ghost use Rattle.vfa_word.specs.Numbers.{IsWidth};

use crate::{Constant, Values};
use vfa_ir::{Bin, Flags, Op, Operand, Pred, Ty};

/// A value of any domain that holds of each of the numbers: the join of their literals.
fn covering<V: Values>(width: u32, numbers: &[u128]) -> V
    requires width { IsWidth width }
    requires fit { All (λ x. x < 2 ^ width) numbers.now }
    ensures typed { IsOf V.ty V.proper (Ty.Int width) result }
    ensures covers { All (λ x. V.holds result (Val.Number x)) numbers.now }
{
    let mut all = V::poison(Ty::Int(width));
    for x in numbers {
        all = all.join(&V::literal(width, *x));
    }
    all
}

/// The value widened by `new` until it stays. This ends, since each late widening that changes a value lowers its rank.
fn settled<V: Values>(width: u32, value: V, new: &V, marks: &[u128]) -> V
    requires value { IsOf V.ty V.proper (Ty.Int width) value }
    requires new { IsOf V.ty V.proper (Ty.Int width) new.now }
    requires landmarks { AreLandmarks width marks.now }
    ensures typed { IsOf V.ty V.proper (Ty.Int width) result }
    ensures still { V.answers.widen result new.now 9 marks.now ≡ result }
    ensures covers { (v : Val) → V.holds value v → V.holds result v }
{
    let mut last = value;
    loop {
        let next = last.widen(new, 9, marks);
        if next.same(&last) {
            return last;
        }
        last = next;
    }
}

/// What is left of the value where it is an odd number below another value.
fn odd_below<V: Values>(width: u32, value: &V, bound: &V) -> Option<V>
    requires width { IsWidth width }
    requires value { IsOf V.ty V.proper (Ty.Int width) value.now }
    requires bound { IsOf V.ty V.proper (Ty.Int width) bound.now }
    ensures kept { (x y : ℕ) → V.holds value.now (Val.Number x) → V.holds bound.now (Val.Number y) → x < y →
        bit_and x 1 ≡ 1 → IsSomeAnd result (λ d. V.holds d (Val.Number x)) }
{
    value.compare(Pred::Ult, bound)?.with_bits(1, 1)
}

const BYTE: Ty = Ty::Int(8);

fn byte(bits: u128) -> Constant
    requires { bits < 2 ^ 8 }
    ensures { result ≡ Constant.Only 8 bits }
{
    Constant::literal(8, bits)
}

#[test]
fn generic_code_runs_at_constants(rt: HostRuntime) {
    let none: Constant = covering(8, &[]);
    assert_eq!(rt; none, Constant::Poison(BYTE));
    let some: Constant = covering(8, &[3, 5]);
    assert_eq!(rt; some, Constant::Any(BYTE, false));

    let marks = [0, 127, 128, 255];
    let three = byte(3);
    assert_eq!(rt; settled(8, three, &three, &marks), three);
    assert_eq!(rt;
        settled(8, three, &byte(5), &marks),
        Constant::Any(BYTE, true)
    );
}

#[test]
fn calls_of_constants(rt: HostRuntime) {
    let three = byte(3);
    let any = Constant::any(BYTE, false);
    let poison = Constant::poison(BYTE);
    let freeze = Op::Freeze {
        width: 8,
        a: Operand::Poison,
    };
    assert_eq!(rt;
        Constant::transfer(&freeze, &three, &poison, &poison),
        three
    );
    assert_eq!(rt;
        Constant::transfer(&freeze, &any, &poison, &poison),
        Constant::Any(BYTE, true)
    );
    let sum = Op::Bin {
        bin: Bin::Add,
        flags: Flags::default(),
        width: 8,
        a: Operand::Literal(3),
        b: Operand::Literal(3),
    };
    assert_eq!(rt; Constant::transfer(&sum, &three, &three, &poison), any);
    assert!(rt; any.includes(&poison) && !three.includes(&any));
    assert_eq!(rt; any.compare(Pred::Eq, &three), Some(three));
    assert_eq!(rt; byte(5).compare(Pred::Eq, &three), None);
    assert_eq!(rt; poison.compare(Pred::Ult, &three), None);
    assert_eq!(rt; three.with_bits(1, 1), Some(three));
    assert_eq!(rt; three.with_bits(1, 0), None);
    assert_eq!(rt; any.moved_from(&three, 1), Some(Constant::Any(BYTE, true)));
    assert_eq!(rt; three.single(), Some(3));
    assert_eq!(rt; any.single(), None);
    assert!(rt; any.rank() < three.rank());
}
