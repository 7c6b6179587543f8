//! Narrowing at the domain of constants, through each kind of equation.

ghost use Rattle.std.specs.Prelude.{◌≡◌, ◌<◌, ◌^◌, All, IfOk, IsTrue, length};
ghost use Rattle.vfa_ir.specs.declared.functions.Inst.{Inst};
ghost use Rattle.vfa_ir.specs.declared.operations.Op.{Op};
ghost use Rattle.std.specs.Option.{ForSome};
ghost use Rattle.vfa_ir.specs.declared.operations.Ty.TheVariants.{Int};
ghost use Rattle.vfa_ir.specs.Printable.{IsOperand, AreOperands, PrintableOp, op_type};
ghost use Rattle.vfa_ir.specs.Typed.{IsOfType, AreOfWidth, TypedOp};
ghost use Rattle.vfa_ir.specs.Operands.{no_flags};
ghost use Rattle.vfa_mean.specs.FreshOperands.{DefinesOnce};
ghost use Rattle.vfa_mean.specs.Outcomes.{type_of};
ghost use Rattle.vfa_values.specs.Constants.{constant_type, IsConstant};
ghost use Rattle.vfa_values.specs.Conditions.{IsOf, IsInteger};
ghost use Rattle.vfa_word.specs.Numbers.{IsWidth};
ghost use Rattle.vfa_cond.specs.Conditions.{AreFacts, HasTypedEquations, IsNumberOperand};
ghost use Rattle.vfa_cond.specs.States.{known, name_count, IsRoomy};
ghost use Rattle.vfa_cond.specs.Wants.{IsWantFor};
ghost use Rattle.vfa_cond.specs.AscendingNames.{IsAscending};
ghost use Rattle.vfa_cond.specs.TypedLines.{IsTypedLine};

mod conditions;

use crate::{Changes, State, Want};
use std::alloc::{AllocError, Global};
use std::process::Abort;
use std::test::Fail;
use vfa_ir::{
    Bin, Block, Cast, CastFlags, Flags, Function, Inst, Items, Name, Op, Operand, Pred, Term, Ty,
    Value, ValueId,
};
use vfa_values::{Constant, Values};

const BIT: u32 = 1;

const BYTE: u32 = 8;

// The names of the function below.
const A: ValueId = ValueId(0);

const B: ValueId = ValueId(1);

const P: ValueId = ValueId(2);

const Q: ValueId = ValueId(3);

const SUM: ValueId = ValueId(4);

const MASKED: ValueId = ValueId(5);

const LOW: ValueId = ValueId(6);

const SAME: ValueId = ValueId(7);

const BOTH: ValueId = ValueId(8);

const EITHER: ValueId = ValueId(9);

const OPPOSITE: ValueId = ValueId(10);

const BOTH_CHOSEN: ValueId = ValueId(11);

const EITHER_CHOSEN: ValueId = ValueId(12);

const SUM_IS: ValueId = ValueId(13);

const MASKED_IS: ValueId = ValueId(14);

/// The names of a row of conditions; behind each of them stand opposites, one behind the other.
const CONDITIONS: [ValueId; 9] = [
    LOW,
    SAME,
    BOTH,
    EITHER,
    OPPOSITE,
    BOTH_CHOSEN,
    EITHER_CHOSEN,
    SUM_IS,
    MASKED_IS,
];

/// How many opposites stand behind each condition.
const BEHIND: u32 = 4;

/// The first opposite.
const OPPOSITES: u32 = 15;

const NAMES: u32 = 51;

/// The name that stands so many opposites behind a condition.
fn opposite(place: u32, behind: u32) -> ValueId {
    let places = place.wrapping_mul(BEHIND).wrapping_add(behind);
    ValueId(places.wrapping_add(OPPOSITES).wrapping_sub(1))
}

fn width_of(v: ValueId) -> u32 {
    if v == A || v == B || v == SUM || v == MASKED {
        return BYTE;
    }
    BIT
}

fn value(width: u32) -> Value {
    Value {
        name: None,
        ty: Ty::Int(width),
    }
}

fn binary(bin: Bin, width: u32, a: Operand, b: Operand) -> Op {
    Op::Bin {
        bin,
        flags: Flags {
            nuw: false,
            nsw: false,
            exact: false,
            disjoint: false,
        },
        width,
        a,
        b,
    }
}

fn name(v: ValueId) -> Operand {
    Operand::Value(v)
}

fn not(v: ValueId) -> Op {
    binary(Bin::Xor, BIT, name(v), Operand::Literal(1))
}

fn equal(v: ValueId, bits: u128) -> Op {
    Op::Icmp {
        pred: Pred::Eq,
        samesign: false,
        width: BYTE,
        a: name(v),
        b: Operand::Literal(bits),
    }
}

/// The equations of the names behind the four parameters, in order.
fn operations(alloc: Global) -> Result<Vec<Op>, AllocError> {
    let mut ops = Vec::new(alloc);
    ops.push(binary(Bin::Add, BYTE, name(A), Operand::Literal(3)))?;
    ops.push(binary(Bin::And, BYTE, Operand::Literal(15), name(A)))?;
    ops.push(Op::Cast {
        cast: Cast::Trunc,
        flags: CastFlags {
            nuw: false,
            nsw: false,
            nneg: false,
        },
        from: BYTE,
        to: BIT,
        a: name(A),
    })?;
    ops.push(Op::Icmp {
        pred: Pred::Eq,
        samesign: false,
        width: BYTE,
        a: name(A),
        b: name(B),
    })?;
    ops.push(binary(Bin::And, BIT, name(P), name(Q)))?;
    ops.push(binary(Bin::Or, BIT, name(P), name(Q)))?;
    ops.push(binary(Bin::Xor, BIT, Operand::Literal(1), name(P)))?;
    ops.push(Op::Select {
        width: BIT,
        c: name(P),
        a: name(Q),
        b: Operand::Literal(0),
    })?;
    ops.push(Op::Select {
        width: BIT,
        c: name(P),
        a: Operand::Literal(1),
        b: name(Q),
    })?;
    ops.push(equal(SUM, 10))?;
    ops.push(equal(MASKED, 5))?;
    let mut place = 0u32;
    for condition in CONDITIONS {
        ops.push(not(condition))?;
        for behind in 1..BEHIND {
            ops.push(not(opposite(place, behind)))?;
        }
        place = place.wrapping_add(1);
    }
    Ok(ops)
}

fn function(alloc: Global) -> Result<Function, AllocError> {
    let mut values = Vec::new(alloc);
    for v in 0..NAMES {
        values.push(value(width_of(ValueId(v))))?;
    }
    let mut insts = Vec::new(alloc);
    let mut next = 4u32;
    for op in operations(alloc)? {
        insts.push(Inst {
            result: Some(ValueId(next)),
            op,
        })?;
        next = next.saturating_add(1);
    }
    let mut blocks = Vec::new(alloc);
    blocks.push(Block {
        name: None,
        phis: Items(Vec::new(alloc)),
        insts: Items(insts),
        term: Term::Unreachable,
    })?;
    Ok(Function {
        name: Name::of(alloc, b"f")?,
        lead: Items(Vec::new(alloc)),
        width: BYTE,
        params: Items(Vec::new(alloc)),
        tail: Name(Vec::new(alloc)),
        values: Items(values),
        blocks: Items(blocks),
        calls: Items(Vec::new(alloc)),
    })
}

/// Whether the operand is one of the width, which is 8 or 1.
fn operand_fits(f: &Function, width: u32, operand: Operand) -> bool
    ensures range { IsTrue result → IsOperand f.now width operand }
    ensures typed { IsTrue result → IsOfType f.now (Int width) operand }
{
    match operand {
        Operand::Value(v) => match f.values.as_slice().get(v.0 as usize) {
            Some(value) => value.ty == Ty::Int(width),
            None => false,
        },
        Operand::Literal(bits) => literal_fits(width, bits),
        Operand::Poison => true,
    }
}

fn literal_fits(width: u32, bits: u128) -> bool
    ensures width { IsTrue result → IsWidth width }
    ensures fits { IsTrue result → bits < 2 ^ width }
{
    if width == BYTE {
        return bits < 256;
    }
    if width == BIT {
        return bits < 2;
    }
    false
}

fn both_fit(f: &Function, width: u32, a: Operand, b: Operand) -> bool
    ensures range { IsTrue result → AreOperands f.now width a b }
    ensures typed { IsTrue result → AreOfWidth f.now width a b }
{
    if width < 1 {
        return false;
    }
    if width > 128 {
        return false;
    }
    if !operand_fits(f, width, a) {
        return false;
    }
    operand_fits(f, width, b)
}

fn has_no_flags(flags: Flags) -> bool
    ensures { IsTrue result → flags ≡ no_flags }
{
    flags
        == Flags {
            nuw: false,
            nsw: false,
            exact: false,
            disjoint: false,
        }
}

fn cast_fits(f: &Function, cast: Cast, flags: CastFlags, from: u32, to: u32, a: Operand) -> bool
    ensures range { IsTrue result → PrintableOp f.now (Op.Cast cast flags from to a) }
    ensures typed { IsTrue result → TypedOp f.now (Op.Cast cast flags from to a) }
{
    if cast != Cast::Trunc {
        return false;
    }
    if from != BYTE {
        return false;
    }
    if to != BIT {
        return false;
    }
    if flags.nuw {
        return false;
    }
    if flags.nsw {
        return false;
    }
    if flags.nneg {
        return false;
    }
    operand_fits(f, from, a)
}

fn op_fits(f: &Function, op: &Op) -> bool
    ensures range { IsTrue result → PrintableOp f.now op.now }
    ensures typed { IsTrue result → TypedOp f.now op.now }
{
    match *op {
        Op::Bin {
            flags,
            width,
            a,
            b,
            ..
        } => {
            if !has_no_flags(flags) {
                return false;
            }
            both_fit(f, width, a, b)
        }
        Op::Icmp { width, a, b, .. } => both_fit(f, width, a, b),
        Op::Select { width, c, a, b } => {
            if !operand_fits(f, BIT, c) {
                return false;
            }
            both_fit(f, width, a, b)
        }
        Op::Cast {
            cast,
            flags,
            from,
            to,
            a,
        } => cast_fits(f, cast, flags, from, to, a),
        _ => false,
    }
}

fn has_width(f: &Function, v: ValueId, width: u32) -> bool
    ensures { IsTrue result → type_of f.now v ≡ Int width }
{
    match f.values.as_slice().get(v.0 as usize) {
        Some(value) => value.ty == Ty::Int(width),
        None => false,
    }
}

fn result_fits(f: &Function, v: ValueId, op: &Op) -> bool
    ensures { IsTrue result → type_of f.now v ≡ op_type op.now }
{
    match *op {
        Op::Bin { width, .. } => has_width(f, v, width),
        Op::Icmp { .. } => has_width(f, v, BIT),
        Op::Select { width, .. } => has_width(f, v, width),
        Op::Cast { to, .. } => has_width(f, v, to),
        _ => false,
    }
}

fn line_fits(f: &Function, inst: &Inst) -> bool
    ensures { IsTrue result → IsTypedLine f.now inst.now }
{
    if !op_fits(f, &inst.op) {
        return false;
    }
    match inst.result {
        Some(v) => result_fits(f, v, &inst.op),
        None => true,
    }
}

fn lines_fit(f: &Function, lines: &[Inst]) -> bool
    ensures { IsTrue result → All (IsTypedLine f.now) lines.now }
{
    'lines: for line in lines {
        if !line_fits(f, line) {
            return false;
        }
    }
    true
}

fn blocks_fit(f: &Function, blocks: &[Block]) -> bool
    ensures { IsTrue result → All (λ b. All (IsTypedLine f.now) b.insts) blocks.now }
{
    'all: for block in blocks {
        if !lines_fit(f, block.insts.as_slice()) {
            return false;
        }
    }
    true
}

/// Whether each instruction is typed.
fn equations_fit(f: &Function) -> bool
    ensures { IsTrue result → HasTypedEquations f.now }
{
    blocks_fit(f, f.blocks.as_slice())
}

/// Whether the results of the instructions stand in ascending order, from `low` on.
fn ascend(insts: &[Inst], low: u32) -> bool
    ensures { IsTrue result → IsAscending low insts.now }
{
    let Some((first, rest)) = insts.split_first() else {
        return true;
    };
    let Some(v) = first.result else {
        return ascend(rest, low);
    };
    if v.0 < low {
        return false;
    }
    if v.0 >= NAMES {
        return false;
    }
    ascend(rest, v.0 + 1)
}

/// Whether the function has one block, and its instructions alone define names, each once.
fn defines_once(f: &Function) -> bool
    ensures { IsTrue result → DefinesOnce f.now }
{
    if !f.params.as_slice().is_empty() {
        return false;
    }
    let Some((block, rest)) = f.blocks.as_slice().split_first() else {
        return false;
    };
    if !rest.is_empty() {
        return false;
    }
    if !block.phis.as_slice().is_empty() {
        return false;
    }
    ascend(block.insts.as_slice(), 0)
}

fn constant_fits(f: &Function, v: ValueId, fact: Constant) -> bool
    ensures { IsTrue result → IsOf constant_type IsConstant (type_of f.now v) fact }
{
    match fact {
        Constant::Only { width, bits } => {
            if !literal_fits(width, bits) {
                return false;
            }
            has_width(f, v, width)
        }
        Constant::Any(Ty::Int(BYTE), _) => has_width(f, v, BYTE),
        Constant::Any(Ty::Int(BIT), _) => has_width(f, v, BIT),
        _ => false,
    }
}

/// A state of the function with these facts, if they fit it.
fn state(
    alloc: Global,
    f: &Function,
    facts: &[(ValueId, Constant)],
    live: &[ValueId],
) -> Result<Option<State<Constant>>, AllocError>
    ensures { IfOk result (λ o. ForSome o (λ s. AreFacts constant_type IsConstant f.now (known s))) }
{
    let mut state = State::of(alloc, f, &[], &[])?;
    'facts: for pair in facts {
        if !constant_fits(f, pair.0, pair.1) {
            return Ok(None);
        }
        if pair.0.0 as usize >= f.values.as_slice().len() {
            return Ok(None);
        }
        state.put(pair.0, Some(pair.1));
    }
    'live: for name in live {
        if name.0 as usize >= f.values.as_slice().len() {
            return Ok(None);
        }
        state.set_live(*name, true);
    }
    Ok(Some(state))
}

fn want_fits(f: &Function, v: ValueId, want: &Want<Constant>) -> bool
    ensures { IsTrue result → IsWantFor constant_type IsConstant (type_of f.now v) want.now }
{
    match want {
        Want::Compare(_, other) => constant_fits(f, v, *other),
        _ => false,
    }
}

fn is_integer(f: &Function, v: ValueId) -> bool
    ensures { IsTrue result → IsInteger (type_of f.now v) }
{
    if has_width(f, v, BYTE) {
        return true;
    }
    has_width(f, v, BIT)
}

fn equal_to(width: u32, bits: u128) -> Want<Constant> {
    Want::Compare(Pred::Eq, Constant::Only { width, bits })
}

fn any(width: u32) -> Constant {
    Constant::Any(Ty::Int(width), false)
}

fn number(width: u32) -> Constant {
    Constant::Any(Ty::Int(width), true)
}

fn only(width: u32, bits: u128) -> Constant {
    Constant::Only { width, bits }
}

/// What becomes of a state.
#[derive(Drop)]
enum Outcome {
    /// Something does not fit the function.
    Unfit,
    /// No values meet it.
    Bottom,
    /// This state.
    To(State<Constant>),
}

/// The state with these facts in which all equations are live but that of `ended`, where the name is narrowed.
fn narrowed(
    alloc: Global,
    facts: &[(ValueId, Constant)],
    ended: ValueId,
    v: ValueId,
    want: &Want<Constant>,
) -> Result<Outcome, AllocError> {
    let f = function(alloc)?;
    if !equations_fit(&f) {
        return Ok(Outcome::Unfit);
    }
    if !defines_once(&f) {
        return Ok(Outcome::Unfit);
    }
    let mut live = Vec::new(alloc);
    for name in SUM.0..NAMES {
        if name != ended.0 {
            live.push(ValueId(name))?;
        }
    }
    let Some(mut state) = state(alloc, &f, facts, live.as_slice())? else {
        return Ok(Outcome::Unfit);
    };
    if !want_fits(&f, v, want) {
        return Ok(Outcome::Unfit);
    }
    if !is_integer(&f, v) {
        return Ok(Outcome::Unfit);
    }
    if state.narrow(&f, v, want) {
        return Ok(Outcome::To(state));
    }
    Ok(Outcome::Bottom)
}

/// The facts of two names, unless no values meet the state.
#[derive(Clone, Copy, Debug, PartialEq, Eq)]
struct Facts {
    first: Option<Constant>,
    second: Option<Constant>,
}

fn facts_of(
    rt: &impl Abort,
    alloc: Global,
    facts: &[(ValueId, Constant)],
    ended: ValueId,
    v: ValueId,
    bits: u128,
    a: ValueId,
    b: ValueId,
) -> Option<Facts> {
    let width = if v == SUM || v == MASKED { BYTE } else { BIT };
    match narrowed(alloc, facts, ended, v, &equal_to(width, bits)).expect(rt, "memory") {
        Outcome::Unfit => {
            assert!(rt; false);
            None
        }
        Outcome::Bottom => None,
        Outcome::To(state) => Some(Facts {
            first: state.fact(a),
            second: state.fact(b),
        }),
    }
}

fn two(first: Constant, second: Constant) -> Option<Facts> {
    Some(Facts {
        first: Some(first),
        second: Some(second),
    })
}

/// No name's equation is ended.
const NONE: ValueId = ValueId(0);

#[test]
fn a_sum_and_a_mask_restrict_the_operand(rt: HostRuntime) {
    let alloc = rt.alloc();
    let facts = [(A, any(BYTE)), (SUM, any(BYTE)), (MASKED, any(BYTE))];
    assert_eq!(rt;
        facts_of(&rt, alloc, &facts, NONE, SUM, 10, SUM, A),
        two(only(BYTE, 10), number(BYTE))
    );
    assert_eq!(rt;
        facts_of(&rt, alloc, &facts, NONE, MASKED, 5, MASKED, A),
        two(only(BYTE, 5), number(BYTE))
    );
    // 16 has a bit that the mask 15 has not
    assert_eq!(rt;
        facts_of(&rt, alloc, &facts, NONE, MASKED, 16, MASKED, A),
        None
    );
    let facts = [(A, only(BYTE, 22)), (MASKED, any(BYTE))];
    assert_eq!(rt;
        facts_of(&rt, alloc, &facts, NONE, MASKED, 5, MASKED, A),
        None
    );
    assert_eq!(rt;
        facts_of(&rt, alloc, &facts, NONE, MASKED, 6, MASKED, A),
        two(only(BYTE, 6), only(BYTE, 22))
    );
}

#[test]
fn a_comparison_restricts_both_operands_by_the_facts_before(rt: HostRuntime) {
    let alloc = rt.alloc();
    let second = [(A, any(BYTE)), (B, only(BYTE, 7)), (SAME, any(BIT))];
    assert_eq!(rt;
        facts_of(&rt, alloc, &second, NONE, SAME, 1, A, B),
        two(only(BYTE, 7), only(BYTE, 7))
    );
    let first = [(A, only(BYTE, 7)), (B, any(BYTE)), (SAME, any(BIT))];
    assert_eq!(rt;
        facts_of(&rt, alloc, &first, NONE, SAME, 1, A, B),
        two(only(BYTE, 7), only(BYTE, 7))
    );
    assert_eq!(rt;
        facts_of(&rt, alloc, &first, NONE, SAME, 0, A, B),
        two(only(BYTE, 7), number(BYTE))
    );
    let apart = [(A, only(BYTE, 7)), (B, only(BYTE, 8)), (SAME, any(BIT))];
    assert_eq!(rt; facts_of(&rt, alloc, &apart, NONE, SAME, 1, A, B), None);
    // where a name has no fact nothing changes
    let alone = [(A, any(BYTE)), (SAME, any(BIT))];
    let left = Some(Facts {
        first: Some(any(BYTE)),
        second: None,
    });
    assert_eq!(rt; facts_of(&rt, alloc, &alone, NONE, SAME, 1, A, B), left);
}

#[test]
fn an_ended_equation_is_not_followed(rt: HostRuntime) {
    let alloc = rt.alloc();
    let known = [(P, any(BIT)), (Q, any(BIT)), (BOTH, any(BIT))];
    assert_eq!(rt;
        facts_of(&rt, alloc, &known, BOTH, BOTH, 1, BOTH, P),
        two(only(BIT, 1), any(BIT))
    );
    assert_eq!(rt;
        facts_of(&rt, alloc, &known, NONE, BOTH, 1, BOTH, P),
        two(only(BIT, 1), only(BIT, 1))
    );
}

/// Whether the operand is one of the width.
fn is_operand(f: &Function, width: u32, operand: Operand) -> bool
    ensures { IsTrue result → IsNumberOperand f.now width operand }
{
    if width < 1 {
        return false;
    }
    if width > 128 {
        return false;
    }
    operand_fits(f, width, operand)
}

/// What becomes of a state in which the name A has this fact, where the predicate holds of two bytes.
fn held(
    alloc: Global,
    fact: Constant,
    a: Operand,
    pred: Pred,
    b: Operand,
) -> Result<Outcome, AllocError> {
    let f = function(alloc)?;
    if !equations_fit(&f) {
        return Ok(Outcome::Unfit);
    }
    if !defines_once(&f) {
        return Ok(Outcome::Unfit);
    }
    let facts = [(A, fact)];
    let Some(mut state) = state(alloc, &f, &facts, &[])? else {
        return Ok(Outcome::Unfit);
    };
    if !is_operand(&f, BYTE, a) {
        return Ok(Outcome::Unfit);
    }
    if !is_operand(&f, BYTE, b) {
        return Ok(Outcome::Unfit);
    }
    if state.hold(&f, a, pred, b, BYTE) {
        return Ok(Outcome::To(state));
    }
    Ok(Outcome::Bottom)
}

/// The fact of A afterwards; None where no values meet the state.
fn held_fact(
    rt: &impl Abort,
    alloc: Global,
    fact: Constant,
    a: Operand,
    pred: Pred,
    b: Operand,
) -> Option<Option<Constant>> {
    match held(alloc, fact, a, pred, b).expect(rt, "memory") {
        Outcome::Unfit => {
            assert!(rt; false);
            None
        }
        Outcome::Bottom => None,
        Outcome::To(state) => Some(state.fact(A)),
    }
}

#[test]
fn literals_pass_or_fail_and_poison_fails(rt: HostRuntime) {
    let alloc = rt.alloc();
    let seven = Operand::Literal(7);
    let eight = Operand::Literal(8);
    assert_eq!(rt;
        held_fact(&rt, alloc, any(BYTE), name(A), Pred::Eq, seven),
        Some(Some(only(BYTE, 7)))
    );
    assert_eq!(rt;
        held_fact(&rt, alloc, any(BYTE), eight, Pred::Eq, name(A)),
        Some(Some(only(BYTE, 8)))
    );
    assert_eq!(rt;
        held_fact(&rt, alloc, only(BYTE, 7), name(A), Pred::Eq, eight),
        None
    );
    assert_eq!(rt;
        held_fact(&rt, alloc, any(BYTE), seven, Pred::Eq, seven),
        Some(Some(any(BYTE)))
    );
    assert_eq!(rt;
        held_fact(&rt, alloc, any(BYTE), seven, Pred::Eq, eight),
        None
    );
    assert_eq!(rt;
        held_fact(&rt, alloc, any(BYTE), name(A), Pred::Ult, Operand::Poison),
        None
    );
    // both operands are one name
    assert_eq!(rt;
        held_fact(&rt, alloc, any(BYTE), name(A), Pred::Ule, name(A)),
        Some(Some(number(BYTE)))
    );
}

#[test]
fn changes_have_room_for_each_name(rt: HostRuntime) -> Result<(), Fail> {
    let alloc = rt.alloc();
    let f = function(alloc)?;
    let _changes: Changes<Constant> = Changes::of(alloc, &f)?;
    Ok(())
}

#[test]
fn a_copy_is_the_same_state(rt: HostRuntime) {
    let alloc = rt.alloc();
    let f = function(alloc).expect(&rt, "memory");
    let facts = [(B, only(BYTE, 7)), (A, any(BYTE))];
    let live = [SUM];
    let state = state(alloc, &f, &facts, &live)
        .expect(&rt, "memory")
        .expect(&rt, "facts that fit");
    let copy = state.copied(alloc).expect(&rt, "memory");
    assert_eq!(rt; copy.fact(A), Some(any(BYTE)));
    assert_eq!(rt; copy.fact(B), Some(only(BYTE, 7)));
    assert_eq!(rt; copy.fact(P), None);
    assert!(rt; copy.live(SUM) && !copy.live(MASKED) && !copy.live(A));
}
