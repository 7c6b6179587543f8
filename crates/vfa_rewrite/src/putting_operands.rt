//! What is put in place of operands where a state is known.

ghost use Rattle.std.specs.Prelude.{◌≡◌};
ghost use Rattle.std.specs.Option.{ForSome, option_map};
ghost use Rattle.vfa_ir.specs.declared.operations.Operand.TheVariants.{Value};
ghost use Rattle.vfa_mean.specs.Outcomes.{type_of};
ghost use Rattle.vfa_cond.specs.Conditions.{AreFacts};
ghost use Rattle.vfa_cond.specs.States.{known};
ghost use Rattle.vfa_walk.specs.Ready.{IsOperandOf};
ghost use Rattle.vfa_xfer.specs.AnyFacts.{fact_type, IsAnyFact};
ghost use Rattle.vfa_xfer.specs.Constants.{single_in};
ghost use Rattle.vfa_rewrite.specs.ByFacts.{decided_by, decision_in, decision_of};
ghost use Rattle.vfa_rewrite.specs.Putting.{AreNamed, IsNamed, MayPut, decided_operand, noted, put_by};
ghost use Rattle.vfa_rewrite.specs.Rewritten.{with_operands};

use crate::facts::fact_of;
use vfa_cond::State;
use vfa_fact::{Cell, Parts};
use vfa_ir::{Function, Op, Operand, Ty, ValueId};
use vfa_xfer::AnyFact;

/// The literal of a cell's only number, and `poison` where it has none.
fn decided_by(cell: &Cell) -> Option<Operand>
    ensures { result ≡ decided_operand (decided_by cell.now.numbers (single_in cell.now)) }
{
    if cell.numbers.is_none() {
        return Some(Operand::Poison);
    }
    match cell.single() {
        Some(number) => Some(Operand::Literal(number)),
        None => None,
    }
}

/// The operand that the parts of a fact decide; none where they leave more than one.
fn decided_of(parts: &Parts) -> Option<Operand>
    ensures { result ≡ decided_operand (decision_of parts.now) }
{
    match parts {
        Parts::One(cell) => decided_by(cell),
        Parts::Two(_, _) => None,
    }
}

/// The one number or `poison` that the state decides an operand to be; none where it leaves more than one.
fn decided(f: &Function, state: Option<&State<AnyFact>>, of_type: Ty, a: Operand) -> Option<Operand>
    requires facts { ForSome (option_map (λ s. known s.now) state) (AreFacts fact_type IsAnyFact f.now) }
    requires operand { IsOperandOf f.now of_type a }
    ensures { result ≡ decided_operand (decision_in (option_map (λ s. known s.now) state.entry) of_type a) }
{
    match state {
        Some(state) => decided_of(&fact_of(f, state, of_type, a).parts),
        None => None,
    }
}

/// The operand that was noted in place of a name.
fn noted(others: &[Option<Operand>], a: Operand) -> Option<Operand>
    ensures { result ≡ noted others.now a }
{
    match a {
        Operand::Value(name) => others.get(name.0 as usize).copied().unwrap_or(None),
        Operand::Literal(_) | Operand::Poison => None,
    }
}

/// The type of a name.
fn type_of(f: &Function, name: ValueId) -> Ty
    ensures { result ≡ type_of f.now name }
{
    match f.values.as_slice().get(name.0 as usize) {
        Some(value) => value.ty,
        None => Ty::Int(1),
    }
}

/// What a name becomes: the operands that take one another's place are followed as long as the state decides none.
fn put_name(
    f: &Function,
    state: Option<&State<AnyFact>>,
    others: &[Option<Operand>],
    name: ValueId,
) -> Operand
    requires may { MayPut f.now others.now (option_map (λ s. known s.now) state) }
    requires name { IsNamed f.now (Value name) }
    ensures { result ≡ put_by f.now others.now (option_map (λ s. known s.now) state.entry) (Value name) }
{
    let of_type = type_of(f, name);
    let mut at = Operand::Value(name);
    'chain: for _ in 0..f.values.as_slice().len() {
        if let Some(decided) = decided(f, state, of_type, at) {
            return decided;
        }
        let Some(next) = noted(others, at) else {
            return at;
        };
        at = next;
    }
    match decided(f, state, of_type, at) {
        Some(decided) => decided,
        None => at,
    }
}

/// What is put in place of an operand.
pub(crate) fn put(
    f: &Function,
    state: Option<&State<AnyFact>>,
    others: &[Option<Operand>],
    a: Operand,
) -> Operand
    requires may { MayPut f.now others.now (option_map (λ s. known s.now) state) }
    requires named { IsNamed f.now a }
    ensures { result ≡ put_by f.now others.now (option_map (λ s. known s.now) state.entry) a }
{
    match a {
        Operand::Value(name) => put_name(f, state, others, name),
        Operand::Literal(_) | Operand::Poison => a,
    }
}

/// The operation on the operands that are put in place of its own.
pub(crate) fn put_op(
    f: &Function,
    state: Option<&State<AnyFact>>,
    others: &[Option<Operand>],
    op: &Op,
) -> Op
    requires may { MayPut f.now others.now (option_map (λ s. known s.now) state) }
    requires named { AreNamed f.now op.now }
    ensures { result ≡ with_operands (put_by f.now others.now (option_map (λ s. known s.now) state.entry)) op.now }
{
    match *op {
        Op::Bin {
            bin,
            flags,
            width,
            a,
            b,
        } => Op::Bin {
            bin,
            flags,
            width,
            a: put(f, state, others, a),
            b: put(f, state, others, b),
        },
        Op::Icmp {
            pred,
            samesign,
            width,
            a,
            b,
        } => Op::Icmp {
            pred,
            samesign,
            width,
            a: put(f, state, others, a),
            b: put(f, state, others, b),
        },
        Op::Select { width, c, a, b } => Op::Select {
            width,
            c: put(f, state, others, c),
            a: put(f, state, others, a),
            b: put(f, state, others, b),
        },
        Op::Cast {
            cast,
            flags,
            from,
            to,
            a,
        } => Op::Cast {
            cast,
            flags,
            from,
            to,
            a: put(f, state, others, a),
        },
        Op::Freeze { width, a } => Op::Freeze {
            width,
            a: put(f, state, others, a),
        },
        Op::Two { fun, width, a, b } => Op::Two {
            fun,
            width,
            a: put(f, state, others, a),
            b: put(f, state, others, b),
        },
        Op::One {
            fun,
            width,
            a,
            strict,
        } => Op::One {
            fun,
            width,
            a: put(f, state, others, a),
            strict,
        },
        Op::Over { over, width, a, b } => Op::Over {
            over,
            width,
            a: put(f, state, others, a),
            b: put(f, state, others, b),
        },
        Op::Assume { c } => Op::Assume {
            c: put(f, state, others, c),
        },
        Op::Part { .. } | Op::Call { .. } => *op,
    }
}
