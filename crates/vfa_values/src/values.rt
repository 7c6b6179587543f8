//! The trait of lawful domains of values.

ghost use Rattle.std.specs.Prelude.{◌≡◌, ◌<◌, ◌≤◌, ◌^◌, ◌↔◌, IsTrue};
ghost use Rattle.vfa_ir.specs.declared.operations.Ty.{Ty};
ghost use Rattle.vfa_mean.specs.declared.value.Val.{Val};
ghost use Rattle.vfa_mean.specs.Operands.{IsOperation};
ghost use Rattle.vfa_values.specs.Answers.{Answers};
ghost use Rattle.vfa_values.specs.Conditions.{width_of, IsType, IsInteger, AreAlike, AreLandmarks};
ghost use Rattle.vfa_values.specs.Laws.{IsLawful};
ghost use Rattle.vfa_values.specs.Operands.{AreOperandFacts};
ghost use Rattle.vfa_word.specs.Numbers.{IsWidth};

use vfa_ir::{Op, Pred, Ty};

/// A lawful domain of values. Each of its values stands for a set of values of one type: numbers of a width or pairs of a
/// number and a bit, and poison.
///
/// Each call has a defined answer for its arguments and gives it; the laws speak of these answers. No call takes memory.
/// A width is 1 to 128. What is said of values here is said of proper ones: those of the program whose parts fit their
/// type. Each answer of a call is proper.
pub trait Values: Copy {
    /// The value stands for a set in which this one is.
    ghost holds: { Self → Val → Type 0 };

    /// The type that the value is of.
    ghost ty: { Self → Ty };

    /// The value is well formed: its parts are such as a value of its type has.
    ghost proper: { Self → Type 0 };

    /// What the calls answer.
    ghost answers: { Answers Self };

    /// The value of type `iN`, N being `width`, that holds of the number `bits` alone. The number is below 2^N.
    fn literal(width: u32, bits: u128) -> Self
        requires width { IsWidth width }
        requires fits { bits < 2 ^ width }
        ensures { result ≡ answers.literal width bits };

    /// A value that holds of every number or pair of the type, and of poison where `never_poison` is false.
    fn any(of_type: Ty, never_poison: bool) -> Self
        requires { IsType of_type }
        ensures { result ≡ answers.any of_type never_poison };

    /// A value of the type that holds of poison.
    fn poison(of_type: Ty) -> Self
        requires { IsType of_type }
        ensures { result ≡ answers.poison of_type };

    /// A value of the operation's result type, `i1` for an `assume`, that holds of each value that the operation may give
    /// of values of which its arguments hold. They are for the operation's fields of these names, `c` for the pair of an
    /// `extractvalue`; those that it does not have are ignored. The operation is no call, and the arguments that it uses
    /// are of the types that it writes.
    fn transfer(op: &Op, a: &Self, b: &Self, c: &Self) -> Self
        requires operation { IsOperation op.now }
        requires operands { AreOperandFacts ty proper op.now a.now b.now c.now }
        ensures { result ≡ answers.transfer op.now a.now b.now c.now };

    /// A value that holds of all that `self` or `other` holds of. Both are of one type; joined with itself, a value stays.
    fn join(&self, other: &Self) -> Self
        requires { AreAlike ty proper self.now other.now }
        ensures { result ≡ answers.join self.now other.now };

    /// A yes means that `self` holds of all that `other` holds of. Both are of one type.
    fn includes(&self, other: &Self) -> bool
        requires { AreAlike ty proper self.now other.now }
        ensures { result ≡ answers.includes self.now other.now };

    /// A value that holds of all that `self` or `new` holds of. Both are of one type, rounds count from 1, and the marks
    /// are the landmarks of the type's width. From round 9 on it is `self` or has a lesser rank. A value widened by itself
    /// stays, and one that stays in a round stays in every later round.
    fn widen(&self, new: &Self, round: u32, marks: &[u128]) -> Self
        requires alike { AreAlike ty proper self.now new.now }
        requires round { 1 ≤ round }
        requires landmarks { AreLandmarks (width_of (ty self.now)) marks.now }
        ensures { result ≡ answers.widen self.now new.now round marks.now };

    /// A value that holds of each number x that `self` holds of, where `x pred y` for some y that `other` holds of; None
    /// only where there is no such x. Both are of one integer type.
    fn compare(&self, pred: Pred, other: &Self) -> Option<Self>
        requires alike { AreAlike ty proper self.now other.now }
        requires integer { IsInteger (ty self.now) }
        ensures { result ≡ answers.compare self.now pred other.now };

    /// A value that holds of each number x that `self` holds of, where x and `value` agree on the bits of the mask; None
    /// only where there is no such x. The mask and the value are below 2 to the width of the integer type.
    fn with_bits(&self, mask: u128, value: u128) -> Option<Self>
        requires own { proper self.now }
        requires integer { IsInteger (ty self.now) }
        requires mask { mask < 2 ^ width_of (ty self.now) }
        requires value { value < 2 ^ width_of (ty self.now) }
        ensures { result ≡ answers.with_bits self.now mask value };

    /// A value that holds of each number x that `self` holds of, where `sum` holds of x + c modulo 2 to the width; None
    /// only where there is no such x. Both are of one integer type, and c is below 2 to its width.
    fn moved_from(&self, sum: &Self, c: u128) -> Option<Self>
        requires alike { AreAlike ty proper self.now sum.now }
        requires integer { IsInteger (ty self.now) }
        requires fits { c < 2 ^ width_of (ty self.now) }
        ensures { result ≡ answers.moved_from self.now sum.now c };

    /// A yes exactly where both are the same value. Both are of one type.
    fn same(&self, other: &Self) -> bool
        requires { AreAlike ty proper self.now other.now }
        ensures { IsTrue result ↔ (self.now ≡ other.now) };

    /// Some(x) only where the value holds of no number but x, a number of its width.
    fn single(&self) -> Option<u128>
        ensures { result ≡ answers.single self.now };

    /// A number that becomes less whenever a widening of round 9 or later changes the value.
    fn rank(&self) -> u32
        ensures { result ≡ answers.rank self.now };

    /// The laws that the answers meet.
    ghost lawful: { IsLawful holds ty proper answers };
}
