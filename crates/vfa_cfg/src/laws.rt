//! Laws of the order.

ghost use Rattle.std.specs.Prelude.{◌≡◌, List};
ghost use Rattle.vfa_cfg.specs.Order.{IsOrder};
ghost use Rattle.vfa_cfg.specs.Ordered.{IsOrdered};
ghost use Rattle.vfa_ir.specs.declared.functions.Function.{Function};
ghost use Rattle.vfa_ir.specs.declared.operations.BlockId.{BlockId};

/// A function has one order.
pub fn one_order()
    ensures { (f : Function) (order other : List BlockId) → IsOrder f order → IsOrder f other → order ≡ other }
{}

/// The order has exactly the blocks to which walks come, each once and the first block first; an edge to a block that is
/// no head comes from an earlier place.
pub fn order_is_ordered()
    ensures { (f : Function) (order : List BlockId) → IsOrder f order → IsOrdered f order }
{}
