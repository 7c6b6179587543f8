//! Laws of functions that are numbered anew.

ghost use Rattle.std.specs.Prelude.{ℕ, Bool};
ghost use Rattle.vfa_ir.specs.Defined.{Defined};
ghost use Rattle.vfa_ir.specs.PhisFit.{PhisFit};
ghost use Rattle.vfa_ir.specs.Printable.{IsPrintable};
ghost use Rattle.vfa_ir.specs.Typed.{Typed};
ghost use Rattle.vfa_ir.specs.declared.functions.Function.{Function};
ghost use Rattle.vfa_mean.specs.Numbering.{Covers, DefinesKeptOnce, HasItsNames, IsInTextOrder, KeptIsPrintable, KeptIsTyped, KeptPhisFit, MayBeNumbered, numbered};
ghost use Rattle.vfa_mean.specs.Refines.{Refines};
ghost use Rattle.vfa_mean.specs.Renaming.{Order, renamed};

/// Where an order has all that the runs of a function come to, the function and the renamed one refine each other: numbers
/// of values and blocks and places of calls are no part of what comes of a run.
pub fn renaming_refines()
    ensures refines { (f : Function) (o : Order) → Covers o f → Refines f (renamed o f) }
    ensures is_refined { (f : Function) (o : Order) → Covers o f → Refines (renamed o f) f }
{}

/// So do a function and the one that has its kept blocks alone, numbered in text order, where the entry is kept, and with
/// a block those that its edges lead to.
pub fn numbering_refines()
    ensures refines { (f : Function) (keeps : ℕ → Bool) → MayBeNumbered f keeps → Refines f (numbered f keeps) }
    ensures is_refined { (f : Function) (keeps : ℕ → Bool) → MayBeNumbered f keeps → Refines (numbered f keeps) f }
{}

/// Where no name is defined twice in what is kept and no call made twice, the ids and calls of the numbered function stand
/// in text order.
pub fn numbered_is_in_text_order()
    ensures { (f : Function) (keeps : ℕ → Bool) → MayBeNumbered f keeps → DefinesKeptOnce f keeps →
        IsInTextOrder (numbered f keeps) }
{}

/// Operands are of the types that are written, where they are in what is kept.
pub fn numbering_keeps_types()
    ensures { (f : Function) (keeps : ℕ → Bool) → MayBeNumbered f keeps → HasItsNames f keeps → KeptIsTyped f keeps →
        Typed (numbered f keeps) }
{}

/// Phis fit the edges, where they do in what is kept.
pub fn numbering_keeps_phis()
    ensures { (f : Function) (keeps : ℕ → Bool) → MayBeNumbered f keeps → KeptPhisFit f keeps → PhisFit (numbered f keeps) }
{}

/// On every walk names are defined before they are used, where they are in the function.
pub fn numbering_keeps_definitions()
    ensures { (f : Function) (keeps : ℕ → Bool) → MayBeNumbered f keeps → Defined f → Defined (numbered f keeps) }
{}

/// The numbered function has a text where what is kept has one but for the order of ids and calls.
pub fn numbered_is_printable()
    ensures { (f : Function) (keeps : ℕ → Bool) → MayBeNumbered f keeps → DefinesKeptOnce f keeps → HasItsNames f keeps →
        KeptPhisFit f keeps → KeptIsPrintable f keeps → IsPrintable (numbered f keeps) }
{}
