ghost use Rattle.std.specs.Prelude.{◌<◌, All, IsTrue, length};
ghost use Rattle.vfa_demand.specs.Masks.{number_width, seen_in};
ghost use Rattle.vfa_demand.specs.Usable.{AreUsable, IsNameBelow, IsUsable, IsUsableBlock, IsUsableInst, IsUsablePhi};
ghost use Rattle.vfa_demand.specs.Used.{UsesItsValues};
ghost use Rattle.vfa_ir.specs.Operands.{operands_of};
ghost use Rattle.vfa_word.specs.Numbers.{IsWidth};

use super::*;
use crate::least::least_masks;
use smallvec::SmallVec;
use std::alloc::{AllocError, Global};
use vfa_ir::{
    Bin, Block, BlockId, Cast, CastFlags, Few, Flags, Function, Inst, Items, Name, Op, Operand,
    Param, Phi, Term, Ty, Value, ValueId, operand,
};

/// How many blocks a drawn function has, how many names each of them defines, and how many names there are with two parameters.
const BLOCKS: u32 = 3;

const NAMES_IN_BLOCK: u32 = 4;

const DRAWN_NAMES: u32 = 2 + BLOCKS * NAMES_IN_BLOCK;

const PLAIN: Flags = Flags {
    nuw: false,
    nsw: false,
    exact: false,
    disjoint: false,
};

const NO_FLAGS: CastFlags = CastFlags {
    nuw: false,
    nsw: false,
    nneg: false,
};

fn name(number: u32) -> Operand {
    Operand::Value(ValueId(number))
}

fn binary(bin: Bin, width: u32, a: Operand, b: Operand) -> Op {
    Op::Bin {
        bin,
        flags: PLAIN,
        width,
        a,
        b,
    }
}

fn cast(cast: Cast, from: u32, to: u32) -> Op {
    Op::Cast {
        cast,
        flags: NO_FLAGS,
        from,
        to,
        a: name(0),
    }
}

#[test]
fn carries_ask_for_all_lower_bits(rt: HostRuntime) {
    let add = binary(Bin::Add, 8, name(0), name(1));
    assert!(rt; asked(&add, 8, 0, 20) == 31);
    assert!(rt; asked(&add, 8, 1, 128) == 255);
    assert!(rt; asked(&add, 8, 1, 0) == 0);
    let xor = binary(Bin::Xor, 128, name(0), name(1));
    assert!(rt; asked(&xor, 128, 0, 1 << 127) == 1 << 127);
}

#[test]
fn literals_hide_bits(rt: HostRuntime) {
    let and = binary(Bin::And, 8, Operand::Literal(12), name(0));
    assert!(rt; asked(&and, 8, 1, 10) == 8);
    let or = binary(Bin::Or, 8, name(0), Operand::Literal(12));
    assert!(rt; asked(&or, 8, 0, 10) == 2);
    let both = binary(Bin::And, 8, name(0), name(1));
    assert!(rt; asked(&both, 8, 0, 10) == 10);
}

#[test]
fn shifts_move_what_is_asked_for(rt: HostRuntime) {
    let left = binary(Bin::Shl, 8, name(0), Operand::Literal(2));
    assert!(rt; asked(&left, 8, 0, 15) == 3);
    let far = binary(Bin::Shl, 8, name(0), Operand::Literal(8));
    assert!(rt; asked(&far, 8, 0, 1) == 255);
    let any = binary(Bin::Shl, 64, name(0), name(1));
    assert!(rt; asked(&any, 64, 0, 4) == 7);
    assert!(rt; asked(&any, 64, 1, 4) == u64::MAX as u128);
    let right = binary(Bin::Lshr, 8, name(0), Operand::Literal(2));
    assert!(rt; asked(&right, 8, 0, 255) == 252);
    let signed = binary(Bin::Ashr, 8, name(0), Operand::Literal(2));
    assert!(rt; asked(&signed, 8, 0, 32) == 128);
    assert!(rt; asked(&signed, 8, 0, 64) == 128);
    assert!(rt; asked(&signed, 8, 0, 15) == 60);
}

#[test]
fn casts_ask_below_the_width(rt: HostRuntime) {
    assert!(rt; asked(&cast(Cast::Zext, 8, 16), 8, 0, 0xf10) == 0x10);
    assert!(rt; asked(&cast(Cast::Sext, 8, 16), 8, 0, 0xf10) == 0x90);
    assert!(rt; asked(&cast(Cast::Sext, 8, 16), 8, 0, 0x7f) == 0x7f);
    assert!(rt; asked(&cast(Cast::Sext, 1, 128), 1, 0, 1 << 127) == 1);
    assert!(rt; asked(&cast(Cast::Trunc, 16, 8), 16, 0, 0x81) == 0x81);
}

#[test]
fn each_row_at_its_edges(rt: HostRuntime) {
    // At width 1 the sign is the only bit, and at width 128 it is the last one of a mask.
    let one = binary(Bin::Ashr, 1, name(0), Operand::Literal(0));
    assert!(rt; asked(&one, 1, 0, 1) == 1);
    let last = binary(Bin::Ashr, 128, name(0), Operand::Literal(127));
    assert!(rt; asked(&last, 128, 0, 1) == 1 << 127);
    let far = binary(Bin::Lshr, 64, name(0), Operand::Literal(63));
    assert!(rt; asked(&far, 64, 0, 3) == 1 << 63);
    let whole = binary(Bin::Shl, 128, name(0), Operand::Literal(127));
    assert!(rt; asked(&whole, 128, 0, 1 << 127) == 1);
    let product = binary(Bin::Mul, 128, name(0), name(1));
    assert!(rt; asked(&product, 128, 0, 1 << 127) == u128::MAX);
    assert!(rt; asked(&cast(Cast::Zext, 64, 128), 64, 0, u128::MAX) == u64::MAX as u128);
    assert!(rt; asked(&cast(Cast::Sext, 64, 65), 64, 0, 1 << 64) == 1 << 63);
    assert!(rt; asked(&cast(Cast::Trunc, 128, 1), 128, 0, 1) == 1);
}

#[test]
fn remainders_and_assumptions_need_all_bits(rt: HostRuntime) {
    assert!(rt; needs_all(&binary(Bin::Srem, 8, name(0), name(1))));
    assert!(rt; needs_all(&Op::Assume { c: name(0) }));
    assert!(rt; !needs_all(&binary(Bin::Add, 8, name(0), name(1))));
}

#[test]
fn a_pair_has_the_width_of_its_number(rt: HostRuntime) {
    assert!(rt; number_width(Ty::Pair(8)) == 8);
    assert!(rt; number_width(Ty::Int(128)) == 128);
}

#[test]
fn divisions_and_assumptions_ask_for_all(rt: HostRuntime) {
    let division = binary(Bin::Udiv, 8, name(0), name(1));
    assert!(rt; asked(&division, 8, 0, 0) == 255);
    assert!(rt; asked(&Op::Assume { c: name(0) }, 1, 0, 0) == 1);
}

fn is_below(count: usize, operand: Operand) -> bool
    ensures { IsTrue result → IsNameBelow count operand }
{
    match operand {
        Operand::Value(value) => (value.0 as usize) < count,
        _ => true,
    }
}

fn is_width(width: u32) -> bool
    ensures { IsTrue result → IsWidth width }
{
    1 <= width && width <= 128
}

/// Whether an operation of these tests uses values of the function at a width of the profile.
fn is_usable(f: &Function, op: &Op) -> bool
    ensures { IsTrue result → All (IsUsable (length f.now.values)) (operands_of f.now op.now) }
{
    match *op {
        Op::Cast { from, a, .. } => is_width(from) && is_below(f.values.as_slice().len(), a),
        Op::Bin { width, a, b, .. } => {
            let count = f.values.as_slice().len();
            is_width(width) && is_below(count, a) && is_below(count, b)
        }
        Op::Select { width, c, a, b } => {
            let count = f.values.as_slice().len();
            is_width(width) && is_below(count, c) && is_below(count, a) && is_below(count, b)
        }
        Op::Freeze { width, a } => is_width(width) && is_below(f.values.as_slice().len(), a),
        _ => false,
    }
}

fn are_entries_usable(count: usize, entries: &[(Operand, BlockId)]) -> bool
    ensures { IsTrue result → All (λ e. IsNameBelow count e.0) entries.now }
{
    'each: for entry in entries {
        if !is_below(count, entry.0) {
            return false;
        }
    }
    true
}

fn are_phis_usable(count: usize, phis: &[Phi]) -> bool
    ensures { IsTrue result → All (IsUsablePhi count) phis.now }
{
    'each: for phi in phis {
        if !are_entries_usable(count, phi.entries.as_slice()) {
            return false;
        }
    }
    true
}

fn are_usable(f: &Function, insts: &[Inst]) -> bool
    ensures { IsTrue result → All (IsUsableInst f.now (length f.now.values)) insts.now }
{
    'each: for inst in insts {
        if !is_usable(f, &inst.op) {
            return false;
        }
    }
    true
}

fn is_seen_usable(f: &Function, term: &Term) -> bool
    ensures { IsTrue result → All (IsUsable (length f.now.values)) (seen_in term.now) }
{
    match *term {
        Term::Ret { width, a } => is_width(width) && is_below(f.values.as_slice().len(), a),
        Term::CondBr { c, .. } => is_below(f.values.as_slice().len(), c),
        Term::Br(_) | Term::Unreachable => true,
        Term::Switch { .. } => false,
    }
}

/// Whether the phis, the instructions and the terminator of a block are usable.
fn is_usable_block(f: &Function, block: &Block) -> bool
    ensures { IsTrue result → IsUsableBlock f.now (length f.now.values) block.now }
{
    are_phis_usable(f.values.as_slice().len(), block.phis.as_slice())
        && are_usable(f, block.insts.as_slice())
        && is_seen_usable(f, &block.term)
}

fn are_blocks_usable(f: &Function, blocks: &[Block]) -> bool
    ensures { IsTrue result → All (IsUsableBlock f.now (length f.now.values)) blocks.now }
{
    'each: for block in blocks {
        if !is_usable_block(f, block) {
            return false;
        }
    }
    true
}

fn is_usable_function(f: &Function) -> bool
    ensures { IsTrue result → AreUsable f.now }
{
    are_blocks_usable(f, f.blocks.as_slice())
}

fn uses_its_values(f: &Function) -> bool
    ensures { IsTrue result → UsesItsValues f.now }
{
    is_usable_function(f)
}

fn value(width: u32) -> Value {
    Value {
        name: None,
        ty: Ty::Int(width),
    }
}

/// `%1 = trunc i32 %0 to i8`, `ret i8 %1`, beside a value that nothing uses.
fn truncating(alloc: Global) -> Result<Function, AllocError> {
    let mut values: Vec<Value> = Vec::new(alloc);
    values.push(value(32))?;
    values.push(value(8))?;
    values.push(value(8))?;
    let mut insts: Vec<Inst> = Vec::new(alloc);
    insts.push(Inst {
        result: Some(ValueId(1)),
        op: cast(Cast::Trunc, 32, 8),
    })?;
    let mut blocks: Vec<Block> = Vec::new(alloc);
    blocks.push(Block {
        name: None,
        phis: Items(Vec::new(alloc)),
        insts: Items(insts),
        term: Term::Ret {
            width: 8,
            a: name(1),
        },
    })?;
    let mut params: Vec<Param> = Vec::new(alloc);
    params.push(Param {
        value: ValueId(0),
        words: Items(Vec::new(alloc)),
    })?;
    Ok(Function {
        name: Name::of(alloc, b"f")?,
        lead: Items(Vec::new(alloc)),
        width: 8,
        params: Items(params),
        tail: Name(Vec::new(alloc)),
        values: Items(values),
        blocks: Items(blocks),
        calls: Items(Vec::new(alloc)),
    })
}

#[test]
fn only_bits_that_are_returned_are_asked_for(rt: HostRuntime) {
    let f = truncating(rt.alloc()).expect(&rt, "memory");
    assert!(rt; is_usable_function(&f));
    let masks = least_masks(rt.alloc(), &f).expect(&rt, "memory");
    assert!(rt; masks.as_slice() == [255, 255, 0].as_slice());
}

fn line(name: u32, a: Operand, b: Operand) -> Inst {
    Inst {
        result: Some(ValueId(name)),
        op: binary(Bin::Add, 8, a, b),
    }
}

/// `%2 = add i8 %0, 1`, `%3 = add i8 %1, %1`, `%4 = add i8 %2, 1`, and a return of this name.
fn summing(alloc: Global, returned: u32) -> Result<Function, AllocError> {
    let mut values: Vec<Value> = Vec::new(alloc);
    for _ in 0..5 {
        values.push(value(8))?;
    }
    let mut insts: Vec<Inst> = Vec::new(alloc);
    insts.push(line(2, name(0), Operand::Literal(1)))?;
    insts.push(line(3, name(1), name(1)))?;
    insts.push(line(4, name(2), Operand::Literal(1)))?;
    let mut blocks: Vec<Block> = Vec::new(alloc);
    blocks.push(Block {
        name: None,
        phis: Items(Vec::new(alloc)),
        insts: Items(insts),
        term: Term::Ret {
            width: 8,
            a: name(returned),
        },
    })?;
    let mut params: Vec<Param> = Vec::new(alloc);
    for number in 0..2 {
        params.push(Param {
            value: ValueId(number),
            words: Items(Vec::new(alloc)),
        })?;
    }
    Ok(Function {
        name: Name::of(alloc, b"f")?,
        lead: Items(Vec::new(alloc)),
        width: 8,
        params: Items(params),
        tail: Name(Vec::new(alloc)),
        values: Items(values),
        blocks: Items(blocks),
        calls: Items(Vec::new(alloc)),
    })
}

#[test]
fn definitions_of_used_names_use_theirs(rt: HostRuntime) {
    let f = summing(rt.alloc(), 4).expect(&rt, "memory");
    assert!(rt; uses_its_values(&f));
    let used = used_names(rt.alloc(), &f, &[]).expect(&rt, "memory");
    assert!(rt; used.as_slice() == [true, false, true, false, true].as_slice());
    let behind = names_behind(rt.alloc(), &f).expect(&rt, "memory");
    assert!(rt; behind.as_slice().len() == 5);
    assert!(rt; behind.as_slice()[3].as_slice() == [1, 1].as_slice());
}

#[test]
fn what_stays_uses_its_names(rt: HostRuntime) {
    let f = summing(rt.alloc(), 3).expect(&rt, "memory");
    assert!(rt; uses_its_values(&f));
    let mut last: Vec<bool> = Vec::new(rt.alloc());
    last.push(false).expect(&rt, "memory");
    last.push(false).expect(&rt, "memory");
    last.push(true).expect(&rt, "memory");
    let mut must: Vec<Items<bool>> = Vec::new(rt.alloc());
    must.push(Items(last)).expect(&rt, "memory");
    let used = used_names(rt.alloc(), &f, must.as_slice()).expect(&rt, "memory");
    assert!(rt; used.as_slice() == [true, true, true, true, false].as_slice());
}

#[test]
fn all_names_in_text_order(rt: HostRuntime) {
    let f = summing(rt.alloc(), 4).expect(&rt, "memory");
    let names = names_used(rt.alloc(), &f).expect(&rt, "memory");
    assert!(rt; names.as_slice() == [0, 1, 1, 2, 4].as_slice());
}

/// Numbers that look random, and are the same at each run.
#[derive(Drop)]
struct Draws {
    state: u32,
}

impl Draws {
    fn below(&mut self, count: u32) -> u32
        requires { 0 < count }
    {
        self.state = self
            .state
            .wrapping_mul(1_664_525)
            .wrapping_add(1_013_904_223);
        (self.state >> 8) % count
    }

    /// A name of any block, or a literal.
    fn operand(&mut self) -> Operand {
        if self.below(4) == 0 {
            return Operand::Literal(self.below(256) as u128);
        }
        name(self.below(DRAWN_NAMES))
    }

    fn bin(&mut self) -> Bin {
        match self.below(14) {
            0 => Bin::Add,
            1 => Bin::Mul,
            2 => Bin::And,
            3 => Bin::Or,
            4 => Bin::Lshr,
            5 => Bin::Ashr,
            6 => Bin::Udiv,
            7 => Bin::Xor,
            _ => Bin::Shl,
        }
    }

    fn op(&mut self) -> Op {
        match self.below(6) {
            0 => Op::Select {
                width: 8,
                c: self.operand(),
                a: self.operand(),
                b: self.operand(),
            },
            1 => Op::Freeze {
                width: 8,
                a: self.operand(),
            },
            2 => Op::Cast {
                cast: Cast::Sext,
                flags: NO_FLAGS,
                from: 4,
                to: 8,
                a: self.operand(),
            },
            _ => binary(self.bin(), 8, self.operand(), self.operand()),
        }
    }

    fn term(&mut self) -> Term {
        match self.below(3) {
            0 => Term::Br(BlockId(0)),
            1 => Term::CondBr {
                c: self.operand(),
                yes: BlockId(0),
                no: BlockId(1),
            },
            _ => Term::Ret {
                width: 2,
                a: self.operand(),
            },
        }
    }
}

/// The first name of a drawn block; two parameters stand before the blocks.
fn first_name(block: u32) -> u32
    requires { block < 16 }
    ensures { result < 1000 }
{
    2 + block * NAMES_IN_BLOCK
}

fn drawn_phi(alloc: Global, draws: &mut Draws, defined: u32) -> Result<Phi, AllocError> {
    let mut entries: SmallVec<(Operand, BlockId), 4> = SmallVec::new(alloc);
    for block in 0..2 {
        entries.push((draws.operand(), BlockId(block)))?;
    }
    Ok(Phi {
        result: ValueId(defined),
        width: 8,
        entries: Few(entries),
    })
}

/// A phi and some instructions, whose operands are drawn from all names.
fn drawn_block(alloc: Global, draws: &mut Draws, first: u32) -> Result<Block, AllocError>
    requires { first < 1000 }
{
    let mut phis: Vec<Phi> = Vec::new(alloc);
    phis.push(drawn_phi(alloc, draws, first)?)?;
    let mut insts: Vec<Inst> = Vec::new(alloc);
    for place in 1..NAMES_IN_BLOCK {
        insts.push(Inst {
            result: Some(ValueId(first + place)),
            op: draws.op(),
        })?;
    }
    Ok(Block {
        name: None,
        phis: Items(phis),
        insts: Items(insts),
        term: draws.term(),
    })
}

/// A function of width 8 whose uses name any values, before or after their definitions.
fn drawn(alloc: Global, draws: &mut Draws) -> Result<Function, AllocError> {
    let mut blocks: Vec<Block> = Vec::new(alloc);
    for block in 0..BLOCKS {
        blocks.push(drawn_block(alloc, draws, first_name(block))?)?;
    }
    function(alloc, DRAWN_NAMES, 8, blocks)
}

/// A function of these blocks, whose values have the width.
fn function(
    alloc: Global,
    count: u32,
    width: u32,
    blocks: Vec<Block>,
) -> Result<Function, AllocError> {
    let mut values: Vec<Value> = Vec::new(alloc);
    for _ in 0..count {
        values.push(value(width))?;
    }
    Ok(Function {
        name: Name::of(alloc, b"f")?,
        lead: Items(Vec::new(alloc)),
        width,
        params: Items(Vec::new(alloc)),
        tail: Name(Vec::new(alloc)),
        values: Items(values),
        blocks: Items(blocks),
        calls: Items(Vec::new(alloc)),
    })
}

fn take_in(masks: &mut Vec<u128>, operand: Operand, bits: u128) {
    if let Operand::Value(value) = operand {
        if let Some(mask) = masks.get_mut(value.0 as usize) {
            *mask |= bits;
        }
    }
}

fn mask_of(masks: &[u128], defined: Option<ValueId>) -> u128 {
    match defined {
        Some(value) => masks.get(value.0 as usize).copied().unwrap_or(0),
        None => 0,
    }
}

fn pass_inst(f: &Function, masks: &mut Vec<u128>, inst: &Inst) {
    let mask = mask_of(masks.as_slice(), inst.result);
    for place in 0..3 {
        if let Some((ty, a)) = operand(f, &inst.op, place) {
            let width = number_width(ty);
            if is_width(width) {
                take_in(masks, a, asked(&inst.op, width, place, mask));
            }
        }
    }
}

fn pass_block(f: &Function, masks: &mut Vec<u128>, block: &Block) {
    for phi in block.phis.as_slice() {
        let mask = mask_of(masks.as_slice(), Some(phi.result));
        for entry in phi.entries.as_slice() {
            take_in(masks, entry.0, mask);
        }
    }
    for inst in block.insts.as_slice() {
        pass_inst(f, masks, inst);
    }
    match block.term {
        Term::Ret { a, .. } => take_in(masks, a, 3),
        Term::CondBr { c, .. } => take_in(masks, c, 1),
        _ => {}
    }
}

/// The masks of a drawn function by passes over all uses, of which so many are enough at 8 bits a name.
fn by_passes(alloc: Global, f: &Function) -> Result<Vec<u128>, AllocError> {
    let mut masks = vec![in alloc; 0; f.values.as_slice().len()]?;
    for _ in 0..8 * DRAWN_NAMES {
        for block in f.blocks.as_slice() {
            pass_block(f, &mut masks, block);
        }
    }
    Ok(masks)
}

#[test]
fn masks_are_those_of_plain_passes(rt: HostRuntime) {
    let mut draws = Draws { state: 7 };
    for _ in 0..50 {
        let f = drawn(rt.alloc(), &mut draws).expect(&rt, "memory");
        assert!(rt; is_usable_function(&f));
        let masks = least_masks(rt.alloc(), &f).expect(&rt, "memory");
        let plain = by_passes(rt.alloc(), &f).expect(&rt, "memory");
        assert!(rt; masks.as_slice() == plain.as_slice());
    }
}

/// A block without phis.
fn plain_block(alloc: Global, insts: Vec<Inst>, term: Term) -> Block {
    Block {
        name: None,
        phis: Items(Vec::new(alloc)),
        insts: Items(insts),
        term,
    }
}

fn named(defined: u32, op: Op) -> Inst {
    Inst {
        result: Some(ValueId(defined)),
        op,
    }
}

/// `%1 = xor i8 %0, 1`, `%2 = xor i8 %1, 1` and so on, and a return of the last one, cut to four bits.
fn chain(alloc: Global, length: u32) -> Result<Function, AllocError>
    requires { length < 10000 }
{
    let mut insts: Vec<Inst> = Vec::new(alloc);
    for place in 0..length {
        insts.push(named(
            place + 1,
            binary(Bin::Xor, 8, name(place), Operand::Literal(1)),
        ))?;
    }
    let mut blocks: Vec<Block> = Vec::new(alloc);
    let returned = Term::Ret {
        width: 4,
        a: name(length),
    };
    blocks.push(plain_block(alloc, insts, returned))?;
    function(alloc, length + 1, 8, blocks)
}

#[test]
fn a_chain_hands_on_what_is_asked_for(rt: HostRuntime) {
    let f = chain(rt.alloc(), 500).expect(&rt, "memory");
    assert!(rt; is_usable_function(&f));
    let masks = least_masks(rt.alloc(), &f).expect(&rt, "memory");
    assert!(rt; masks.as_slice().len() == 501);
    for mask in masks.as_slice() {
        assert!(rt; *mask == 15);
    }
}

/// A loop whose phi `%1` is of `%0` and of `%2 = shl i128 %1, 1`, and a return of the highest bit of `%1`.
fn shifting(alloc: Global) -> Result<Function, AllocError> {
    let mut entries: SmallVec<(Operand, BlockId), 4> = SmallVec::new(alloc);
    entries.push((name(0), BlockId(0)))?;
    entries.push((name(2), BlockId(1)))?;
    let mut phis: Vec<Phi> = Vec::new(alloc);
    phis.push(Phi {
        result: ValueId(1),
        width: 128,
        entries: Few(entries),
    })?;
    let mut insts: Vec<Inst> = Vec::new(alloc);
    insts.push(named(2, binary(Bin::Shl, 128, name(1), Operand::Literal(1))))?;
    let mut last: Vec<Inst> = Vec::new(alloc);
    last.push(named(3, binary(Bin::Lshr, 128, name(1), Operand::Literal(127))))?;
    let mut blocks: Vec<Block> = Vec::new(alloc);
    blocks.push(plain_block(alloc, Vec::new(alloc), Term::Br(BlockId(1))))?;
    blocks.push(Block {
        name: None,
        phis: Items(phis),
        insts: Items(insts),
        term: Term::CondBr {
            c: Operand::Poison,
            yes: BlockId(1),
            no: BlockId(2),
        },
    })?;
    let returned = Term::Ret {
        width: 1,
        a: name(3),
    };
    blocks.push(plain_block(alloc, last, returned))?;
    function(alloc, 4, 128, blocks)
}

#[test]
fn a_loop_grows_bit_by_bit(rt: HostRuntime) {
    let f = shifting(rt.alloc()).expect(&rt, "memory");
    assert!(rt; is_usable_function(&f));
    let masks = least_masks(rt.alloc(), &f).expect(&rt, "memory");
    assert!(rt; masks.as_slice() == [u128::MAX, u128::MAX, u128::MAX, 1].as_slice());
}

/// `ret i8 0`, and a block that is not reached, of `%0 = xor i8 %1, 1`, `%1 = xor i8 %0, 2` and this terminator.
fn unreached_cycle(alloc: Global, term: Term) -> Result<Function, AllocError> {
    let mut insts: Vec<Inst> = Vec::new(alloc);
    insts.push(named(0, binary(Bin::Xor, 8, name(1), Operand::Literal(1))))?;
    insts.push(named(1, binary(Bin::Xor, 8, name(0), Operand::Literal(2))))?;
    let returned = Term::Ret {
        width: 8,
        a: Operand::Literal(0),
    };
    let mut blocks: Vec<Block> = Vec::new(alloc);
    blocks.push(plain_block(alloc, Vec::new(alloc), returned))?;
    blocks.push(plain_block(alloc, insts, term))?;
    function(alloc, 2, 8, blocks)
}

#[test]
fn nothing_is_asked_of_a_cycle_by_itself(rt: HostRuntime) {
    let f = unreached_cycle(rt.alloc(), Term::Unreachable).expect(&rt, "memory");
    assert!(rt; is_usable_function(&f));
    let masks = least_masks(rt.alloc(), &f).expect(&rt, "memory");
    assert!(rt; masks.as_slice() == [0, 0].as_slice());
}

#[test]
fn uses_in_unreached_blocks_ask_too(rt: HostRuntime) {
    let returned = Term::Ret {
        width: 3,
        a: name(1),
    };
    let f = unreached_cycle(rt.alloc(), returned).expect(&rt, "memory");
    assert!(rt; is_usable_function(&f));
    let masks = least_masks(rt.alloc(), &f).expect(&rt, "memory");
    assert!(rt; masks.as_slice() == [7, 7].as_slice());
}

/// What a mask asks of the first operand of an operation at this width.
fn first(bin: Bin, width: u32, other: Operand, mask: u128) -> u128
    requires { IsWidth width }
{
    asked(&binary(bin, width, name(0), other), width, 0, mask)
}

/// Each row at the highest bit of a width, and where an amount is the last one below it.
fn has_rows_at_edges(width: u32) -> bool
    requires { IsWidth width }
{
    let all = all_bits(width);
    let highest = 1 << (width - 1);
    let one = Operand::Literal(1);
    let last = Operand::Literal((width - 1) as u128);
    let past = Operand::Literal(width as u128);
    first(Bin::Add, width, one, highest) == all
        && first(Bin::Sub, width, one, highest) == all
        && first(Bin::Mul, width, one, highest) == all
        && first(Bin::And, width, one, all) == 1
        && first(Bin::Or, width, one, all) == all ^ 1
        && first(Bin::Xor, width, one, highest) == highest
        && first(Bin::Shl, width, last, highest) == 1
        && first(Bin::Shl, width, past, 1) == all
        && first(Bin::Shl, width, name(1), highest) == all
        && first(Bin::Lshr, width, last, 1) == highest
        && first(Bin::Lshr, width, past, 1) == all
        && first(Bin::Ashr, width, last, 1) == highest
        && first(Bin::Ashr, width, past, 1) == all
        && first(Bin::Udiv, width, one, 0) == all
}

/// The rows of casts and of `select`, `freeze` and `icmp` at the highest bit of a width.
fn has_other_rows_at_edges(width: u32) -> bool
    requires { IsWidth width }
{
    let all = all_bits(width);
    let highest = 1 << (width - 1);
    let a = name(0);
    let frozen = Op::Freeze { width, a };
    let chosen = Op::Select {
        width,
        c: a,
        a,
        b: a,
    };
    asked(&cast(Cast::Zext, width, 128), width, 0, u128::MAX) == all
        && asked(&cast(Cast::Sext, width, 128), width, 0, 1 << 127) == highest
        && asked(&cast(Cast::Trunc, width, 1), width, 0, 1) == 1
        && asked(&frozen, width, 0, highest) == highest
        && asked(&chosen, 1, 0, highest) == 1
        && asked(&chosen, width, 2, highest) == highest
        && asked(&chosen, width, 2, 0) == 0
}

#[test]
fn rows_at_the_edges_of_four_widths(rt: HostRuntime) {
    for width in [1, 8, 64, 128] {
        assert!(rt; is_width(width));
        assert!(rt; has_rows_at_edges(width));
        assert!(rt; has_other_rows_at_edges(width));
    }
}
