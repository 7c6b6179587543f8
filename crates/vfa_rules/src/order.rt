//! The rules in their order.

ghost use Rattle.std.specs.Prelude.{◌≡◌, ◌↔◌, ◌&&◌, false};
ghost use Rattle.vfa_mean.specs.Moments.{is_call};
ghost use Rattle.vfa_mean.specs.Operands.{IsOperation};
ghost use Rattle.vfa_rules.specs.Order.{IsUnchanged, changed};
ghost use Rattle.vfa_rules.specs.Results.{AreFactsFor, IsSound};
ghost use Rattle.vfa_rules.specs.Ready.{is_division};
ghost use Rattle.vfa_rules.specs.Rules.{without_assume};
ghost use Rattle.vfa_rules.specs.Uses.{is_used, known_in};

use crate::change::{Change, OverflowCall};
use crate::ends::is_only;
use crate::gained::gained_words;
use crate::narrowed::narrow_width;
use crate::parts::{bit_cell, number_cell};
use crate::plain::plain_arithmetic;
use crate::replaced::{chosen_arm, frozen_operand, kept_operand};
use crate::unsigned::unsigned_form;
use crate::uses::{is_used, overflow_call};
use vfa_fact::{Cell, Parts};
use vfa_ir::{Bin, Function, Inst, Op};

/// An `llvm.assume` of a condition whose one number is 1 goes.
fn without_assume(op: &Op, condition: &Cell) -> Change
    ensures { result ≡ without_assume condition.now op.now }
{
    match *op {
        Op::Assume { .. } if is_only(condition, 1) => Change::Gone,
        op => Change::Keep(op),
    }
}

/// What the rules make of an instruction, each applied once to what the earlier ones left.
fn changed(
    op: &Op,
    call: Option<OverflowCall>,
    used: bool,
    a: &Parts,
    b: &Parts,
    c: &Parts,
) -> Change
    requires operation { is_call op.now ≡ false → IsOperation op.now }
    requires facts { AreFactsFor (record { a = a.now; b = b.now; c = c.now; call = call; used = used }) op.now }
    ensures { result ≡ changed (record { a = a.now; b = b.now; c = c.now; call = call; used = used }) op.now }
{
    let condition = number_cell(c);
    if let Some(arm) = chosen_arm(op, condition) {
        return Change::Uses(arm);
    }
    let x = number_cell(a);
    let y = number_cell(b);
    if let Some(kept) = kept_operand(op, x, y) {
        return Change::Uses(kept);
    }
    let plain = plain_arithmetic(op, call, bit_cell(c), x, y);
    let unsigned = unsigned_form(&plain, x, y);
    if let Some(width) = narrow_width(&unsigned, used, x, y) {
        return Change::Narrow(unsigned, width);
    }
    let gained = gained_words(&unsigned, x, y);
    if let Some(frozen) = frozen_operand(&gained, x) {
        return Change::Uses(frozen);
    }
    without_assume(&gained, condition)
}

/// What the rules make of an instruction by what is known where it stands, as `rule` does, with the answers to the two
/// questions on the whole function that `rule` looks up: `call`, the overflow intrinsic whose pair an `extractvalue` takes a
/// part of (`overflow_call`), and `used`, whether the instruction's result is an operand somewhere (`is_used`). Who asks for
/// many instructions of a function can find both for all of them at once. No memory is taken.
pub fn rule_with(
    op: &Op,
    call: Option<OverflowCall>,
    used: bool,
    a: &Parts,
    b: &Parts,
    c: &Parts,
) -> Change
    requires operation { is_call op.now ≡ false → IsOperation op.now }
    requires facts { AreFactsFor (record { a = a.now; b = b.now; c = c.now; call = call; used = used }) op.now }
    ensures exact { result ≡ changed (record { a = a.now; b = b.now; c = c.now; call = call; used = used }) op.now }
    ensures unchanged { (result ≡ Change.Keep op.now) ↔ IsUnchanged (record { a = a.now; b = b.now; c = c.now; call = call; used = used }) op.now }
    ensures sound { IsSound (record { a = a.now; b = b.now; c = c.now; call = call; used = used }) op.now result }
{
    changed(op, call, used, a, b, c)
}

/// Whether the operation divides, or takes a remainder.
fn is_division(op: &Op) -> bool
    ensures { result ≡ is_division op.now }
{
    match *op {
        Op::Bin {
            bin: Bin::Udiv | Bin::Sdiv | Bin::Urem | Bin::Srem,
            ..
        } => true,
        _ => false,
    }
}

/// Whether the instruction divides, and its result is an operand somewhere.
fn is_used_division(f: &Function, inst: &Inst) -> bool
    ensures { result ≡ (is_division inst.now.op && is_used f.now inst.now.result) }
{
    if !is_division(&inst.op) {
        return false;
    }
    is_used(f, inst.result)
}

/// What facts make of an instruction of the function, `a`, `b` and `c` being those of the operands that its operation's
/// fields of these names are. For a part of an overflow intrinsic's pair `a` and `b` are the facts of the intrinsic's
/// operands, and `c` that of the pair.
///
/// The rules are tried in this order, each once, on what the earlier ones left.
///
/// - Chosen arm: the uses of a `select` whose condition is one number become its arm.
/// - Kept operand: the uses of `and`, `or`, `urem`, `umin`, `umax`, `smin` and `smax` become the operand that they give for
///   all numbers of the facts, the first one where they give both.
/// - Plain arithmetic: a saturating intrinsic that never saturates becomes `add` or `sub`, and the number of an overflow
///   intrinsic's pair whose bit is 0 becomes `add`, `sub` or `mul`; they have `nuw` or `nsw`.
/// - Signed to unsigned: `sdiv`, `srem`, `ashr` and `sext` of numbers that are not negative become the unsigned operation, and
///   a signed order of numbers of one sign the unsigned one. The words stay.
/// - Narrowed division: `udiv` and `urem` whose result is used are done at the least of the widths 8, 16, 32 and 64 that all
///   their numbers have, where that is less than their own.
/// - Gained words: `nuw`, `nsw`, `disjoint`, `nneg` and `samesign` are added where no numbers of the facts break them.
/// - Frozen already: the uses of a `freeze` whose operand is never poison become the operand.
/// - Assumed already: an `llvm.assume` whose condition has 1 as its only number goes.
///
/// A condition on numbers fails where an operand that it speaks of has none, or a shift no amount below the width. A call is
/// kept. The result is `Change::Keep` of the same operation exactly where no rule changes it. To find whether the result of a
/// division is used, and the intrinsic of an `extractvalue`, the function is gone through; `rule_with` takes both from the
/// caller. No memory is taken.
///
/// At width 8, `add` of 200 to 210 and 10 to 45 becomes `add nuw`; `and` of 0 to 3 and 15 becomes its first operand.
pub fn rule(f: &Function, inst: &Inst, a: &Parts, b: &Parts, c: &Parts) -> Change
    requires operation { is_call inst.now.op ≡ false → IsOperation inst.now.op }
    requires facts { AreFactsFor (known_in f.now inst.now a.now b.now c.now) inst.now.op }
    ensures exact { result ≡ changed (known_in f.now inst.now a.now b.now c.now) inst.now.op }
    ensures unchanged { (result ≡ Change.Keep inst.now.op) ↔ IsUnchanged (known_in f.now inst.now a.now b.now c.now) inst.now.op }
    ensures sound { IsSound (known_in f.now inst.now a.now b.now c.now) inst.now.op result }
{
    let call = overflow_call(f, &inst.op);
    let used = is_used_division(f, inst);
    changed(&inst.op, call, used, a, b, c)
}
