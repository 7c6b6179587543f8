//! The equations of names.

ghost use Rattle.std.specs.Prelude.{◌≡◌, ◌<◌, ◌≤◌, IfSome};
ghost use Rattle.vfa_ir.specs.declared.functions.Block.{Block};
ghost use Rattle.vfa_mean.specs.FreshOperands.{DefinesOnce};
ghost use Rattle.vfa_cond.specs.Definitions.{IsDefinedBy};
ghost use Rattle.vfa_cond.specs.Equations.{is_definition, equation_among, equation};

use vfa_ir::{Block, Function, Inst, Op, ValueId};

/// What gives names, in a list where the names stand in ascending order.
trait Definer {
    /// The first name that it gives; None where it gives none.
    fn first_name(&self) -> Option<ValueId>;
}

impl Definer for Inst {
    fn first_name(&self) -> Option<ValueId> {
        self.result
    }
}

impl Definer for Block {
    fn first_name(&self) -> Option<ValueId> {
        if let Some(phi) = self.phis.as_slice().first() {
            return Some(phi.result);
        }
        for inst in self.insts.as_slice() {
            if inst.result.is_some() {
                return inst.result;
            }
        }
        None
    }
}

/// The first of the items from `start` to before `end` that gives a name, where that is none behind `v`.
fn next_up_to<T: Definer>(items: &[T], start: usize, end: usize, v: ValueId) -> Option<usize>
    ensures { IfSome result (λ place. (start ≤ place) × (place < end)) }
{
    'items: for place in start..end {
        let Some(item) = items.get(place) else {
            return None;
        };
        if let Some(first) = item.first_name() {
            if first.0 <= v.0 {
                return Some(place);
            }
            return None;
        }
    }
    None
}

/// Where the item that gives the name stands, if the names stand in ascending order and there is one.
fn likely_place<T: Definer>(items: &[T], v: ValueId) -> usize {
    let mut place = 0;
    let mut end = items.len();
    'halves: while end - place > 1 {
        let middle = place + (end - place) / 2;
        match next_up_to(items, middle, end, v) {
            Some(next) => place = next,
            None => end = middle,
        }
    }
    place
}

/// Whether the instruction, no call, gives the name its value.
fn is_definition(inst: &Inst, v: ValueId) -> bool
    ensures { result ≡ is_definition v.0 inst.now }
{
    if let Op::Call { .. } = inst.op {
        return false;
    }
    inst.result == Some(v)
}

fn equation_among(insts: &[Inst], v: ValueId) -> Option<Op>
    ensures { result ≡ equation_among v.0 insts.now }
{
    'insts: for inst in insts {
        if is_definition(inst, v) {
            return Some(inst.op);
        }
    }
    None
}

/// The equation of a name, found by going through the function.
fn first_equation(f: &Function, v: ValueId) -> Option<Op>
    ensures { result ≡ equation f.now v.0 }
{
    'all: for block in f.blocks.as_slice() {
        if let Some(op) = equation_among(block.insts.as_slice(), v) {
            return Some(op);
        }
    }
    None
}

/// The operation of an instruction that defines the name, if one stands where names in text order have it.
fn likely_equation(f: &Function, v: ValueId) -> Option<Op>
    ensures { IfSome result (IsDefinedBy f.now v.0) }
{
    let blocks = f.blocks.as_slice();
    let block = blocks.get(likely_place(blocks, v))?;
    let insts = block.insts.as_slice();
    let inst = insts.get(likely_place(insts, v))?;
    if is_definition(inst, v) {
        return Some(inst.op);
    }
    None
}

/// The equation of a name: the operation, no call, whose result it is. None where it has none, as a parameter, the result of
/// a phi or that of a call. The function defines each name once.
pub fn equation(f: &Function, v: ValueId) -> Option<Op>
    requires { DefinesOnce f.now }
    ensures { result ≡ equation f.now v.0 }
{
    match likely_equation(f, v) {
        Some(op) => Some(op),
        None => first_equation(f, v),
    }
}
