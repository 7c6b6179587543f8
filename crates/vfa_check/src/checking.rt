//! The check of a function.

ghost use Rattle.std.specs.Prelude.{◌≡◌, ◌⊎◌, ℕ, Bool, List, IfErr, IfOk, MatchBool};
ghost use Rattle.vfa_cfg.specs.Heads.{is_head};
ghost use Rattle.vfa_cfg.specs.Order.{IsOrder};
ghost use Rattle.vfa_cfg.specs.Ordered.{IsOrdered};
ghost use Rattle.vfa_cfg.specs.Sizes.{HasFewBlocks};
ghost use Rattle.vfa_check.specs.Checked.{IsChecked, IsWellFormed, MayBeChecked};
ghost use Rattle.vfa_check.specs.Items.{HasItsLines};
ghost use Rattle.vfa_check.specs.Parts.{HasItsParts};
ghost use Rattle.vfa_check.specs.Refusals.{IsRefusal};
ghost use Rattle.vfa_check.specs.Scopes.{AreScopes};
ghost use Rattle.vfa_check.specs.Within.{IsWithin};
ghost use Rattle.vfa_ir.specs.Defined.{Defined};
ghost use Rattle.vfa_ir.specs.PhisFit.{PhisFit};
ghost use Rattle.vfa_ir.specs.Typed.{Typed};
ghost use Rattle.vfa_ir.specs.Walks.{IsDefinedAt, IsMissedAt};
ghost use Rattle.vfa_ir.specs.declared.functions.Lines.{Lines};
ghost use Rattle.vfa_ir.specs.declared.operations.BlockId.{BlockId};
ghost use Rattle.vfa_ir.specs.declared.reasons.Outside.TheVariants.{Memory};

use crate::head_marks::{head_marks, mark_at};
use crate::laws::{fit_defines_once, fit_is_within};
use crate::phis::first_misfit;
use crate::scopes::Scopes;
use crate::types::ill_typed_line;
use crate::uses::undefined_use;
use std::alloc::Global;
use std::marker::Model;
use vfa_cfg::order;
use vfa_ir::{BlockId, Function, Lines, Outside, ValueId, shown_block, shown_value};

/// What is known of a function that was checked.
#[derive(Drop)]
pub struct Parts {
    order: Vec<BlockId>,
    heads: Vec<bool>,
    scopes: Scopes,
}

/// A function that was checked. Contracts see the function.
#[derive(Drop)]
pub struct Checked {
    function: Function,
    parts: Parts,
}

impl Model for Checked {
    ghost use Rattle.vfa_check.specs.Checked.{IsChecked};
    ghost use Rattle.vfa_check.specs.Parts.{HasItsParts};
    ghost use Rattle.vfa_ir.specs.declared.functions.Function.{Function};

    ghost Value = { Function };

    ghost view = { λ c. c.function };

    ghost invariant = { λ c. IsChecked c.function × HasItsParts c.function c.parts };
}

impl Checked {
    /// The function. Some text reads as it, its ids are in range, each value is defined once, and it is well formed.
    pub fn function(&self) -> &Function
        ensures same { result.now ≡ self.now }
        ensures checked { IsChecked self.now }
    {
        &self.function
    }

    /// The order of its blocks: reverse postorder of the depth-first walk from the entry. There is a test that tells which names
    /// are in scope at the entry of each block, as `defined` does.
    pub fn order(&self) -> &[BlockId]
        ensures order { IsOrder self.now result.now }
        ensures ordered { IsOrdered self.now result.now }
        ensures scopes { (in_scope : ℕ → ℕ → Bool) × ((b v : ℕ) → MatchBool (in_scope b v) (IsDefinedAt self.now b 0 v) (IsMissedAt self.now b 0 v)) }
    {
        self.parts.order.as_slice()
    }

    /// Whether a block is a head: an edge comes to it from a block at its own place or later in the order. A block outside
    /// the order is none.
    pub fn is_head(&self, b: BlockId) -> bool
        ensures { (order : List BlockId) → IsOrder self.now order → result ≡ is_head self.now order b.0 }
    {
        mark_at(self.parts.heads.as_slice(), b)
    }

    /// Whether a name is defined on every walk to the entry of a block, its phis included. Of a block that no walk reaches
    /// this holds of each name.
    ///
    /// In `entry: br i1 %c, label %a, label %b`, `a: %x = add i8 %p, 1`, `br label %b`, the parameter `%c` is defined at
    /// the entry of b, and `%x` is not.
    pub fn defined(&self, b: BlockId, v: ValueId) -> bool
        ensures { MatchBool result (IsDefinedAt self.now b.0 0 v.0) (IsMissedAt self.now b.0 0 v.0) }
    {
        self.parts.scopes.defined(b, v)
    }
}

/// Refuses a function that is ill-typed.
fn check_types(alloc: Global, f: &Function, lines: &Lines) -> Result<(), Outside>
    requires { HasItsLines f.now lines.now }
    ensures typed { IfOk result (λ _. Typed f.now) }
    ensures refused { IfErr result (λ e. (e ≡ Memory) ⊎ IsRefusal f.now lines.now e) }
{
    match ill_typed_line(alloc, f, lines)? {
        Some(line) => Err(Outside::Types(line)),
        None => Ok(()),
    }
}

/// Refuses a well-typed function whose phis do not fit the edges.
fn check_phis(alloc: Global, f: &Function) -> Result<(), Outside>
    requires typed { Typed f.now }
    requires few { HasFewBlocks f.now }
    ensures fit { IfOk result (λ _. PhisFit f.now) }
    ensures refused { IfErr result (λ e. (e ≡ Memory) ⊎ ((lines : Lines) → IsRefusal f.now lines e)) }
{
    match first_misfit(alloc, f)? {
        Some(block) => Err(Outside::Phi(shown_block(alloc, f, block)?)),
        None => Ok(()),
    }
}

/// The names in scope; refuses a function that uses a name where some walk has not defined it.
fn check_names(alloc: Global, f: &Function, order: &[BlockId]) -> Result<Scopes, Outside>
    requires typed { Typed f.now }
    requires phis { PhisFit f.now }
    requires within { IsWithin f.now }
    requires few { HasFewBlocks f.now }
    requires order { IsOrder f.now order.now }
    ensures scopes { IfOk result (AreScopes f.now) }
    ensures defined { IfOk result (λ _. Defined f.now) }
    ensures refused { IfErr result (λ e. (e ≡ Memory) ⊎ ((lines : Lines) → IsRefusal f.now lines e)) }
{
    let scopes = Scopes::of(alloc, f, order)?;
    match undefined_use(f, &scopes)? {
        Some(missed) => Err(Outside::Undefined(
            shown_value(alloc, f, missed.name)?,
            shown_block(alloc, f, missed.block)?,
        )),
        None => Ok(scopes),
    }
}

/// Checks a function, as `check` does.
pub(crate) fn parts_of(alloc: Global, f: &Function, lines: &Lines) -> Result<Parts, Outside>
    requires lines { HasItsLines f.now lines.now }
    requires within { IsWithin f.now }
    requires few { HasFewBlocks f.now }
    ensures parts { IfOk result (HasItsParts f.now) }
    ensures formed { IfOk result (λ _. IsWellFormed f.now) }
    ensures refused { IfErr result (λ e. (e ≡ Memory) ⊎ IsRefusal f.now lines.now e) }
{
    check_types(alloc, f, lines)?;
    check_phis(alloc, f)?;
    let order = order(alloc, f)?;
    let scopes = check_names(alloc, f, order.as_slice())?;
    let heads = head_marks(alloc, f, order.as_slice())?;
    Ok(Parts {
        order,
        heads,
        scopes,
    })
}

/// Checks a function whose phis, instructions and terminators stand on these lines: that operands are of the types that
/// are written, that phis fit the edges, and that on every walk names are defined before they are used. It is refused,
/// in this order, for the first phi, instruction or terminator that is ill-typed, by its line; for the first block whose
/// phis do not fit, by its name; for the first use that some walk reaches without a definition, by the name and the block
/// of the use. The operand of a phi is used at the end of its predecessor. Blocks that no walk reaches are free of the last
/// rule alone.
///
/// `define i8 @f(i8 %x) {`, `  %a = zext i8 %x to i8`, `  ret i8 %a`, `}` on lines 1 to 4 is refused by `Types(2)`.
pub fn check(alloc: Global, f: Function, lines: &Lines) -> Result<Checked, Outside>
    requires { MayBeChecked f lines.now }
    ensures same { IfOk result (λ c. c ≡ f) }
    ensures formed { IfOk result IsWellFormed }
    ensures refused { IfErr result (λ e. (e ≡ Memory) ⊎ IsRefusal f lines.now e) }
{
    fit_is_within();
    fit_defines_once();
    let parts = parts_of(alloc, &f, lines)?;
    Ok(Checked { function: f, parts })
}
