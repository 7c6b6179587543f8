//! Laws of the meaning, each with its proof and no work to do.

ghost use Rattle.std.specs.Prelude.{◌≡◌, ℕ, List, [], ◌∷◌, codes};
ghost use Rattle.vfa_ir.specs.declared.functions.Function.{Function};
ghost use Rattle.vfa_ir.specs.declared.operations.Op.{Op};
ghost use Rattle.vfa_ir.specs.declared.operations.Operand.{Operand};
ghost use Rattle.vfa_mean.specs.declared.value.Val.{Val};
ghost use Rattle.vfa_mean.specs.Meaning.{Gave, Allowed, done};
ghost use Rattle.vfa_mean.specs.Laws.{IsMonotone, IsTyped, IsNumber, HasResult, HasOneResult, HasOutcome, HasJust};
ghost use Rattle.vfa_mean.specs.Operands.{AreValuesFor};
ghost use Rattle.vfa_mean.specs.Outcomes.{Going, Stopped, Ub, Returned, only};
ghost use Rattle.vfa_mean.specs.Refines.{Refines};
ghost use Rattle.vfa_mean.specs.Worked.{twice, last, outcome, event, passed_byte};

/// Operations keep to what the layers above stand on. Where operands become poison, an operation has undefined
/// behaviour, or gives poison or the same as before. Each result is poison or of the operation's type, and `freeze` gives
/// numbers of its width. Each operation gives something, and one other than `freeze` gives one thing.
pub fn operations_keep_order_and_types()
    ensures monotone { (op : Op) → IsMonotone op }
    ensures typed { (op : Op) → IsTyped op }
    ensures frozen { (w : ℕ) (operand : Operand) (a b c v : Val) →
        AreValuesFor (Op.Freeze w operand) a b c → Allowed (done (Op.Freeze w operand) a b c) (Gave v) → IsNumber w v }
    ensures some_result { (op : Op) → HasResult op }
    ensures one_result { (op : Op) → HasOneResult op }
{}

/// Each function has an outcome for all arguments, all answers and any number of entered blocks.
pub fn functions_have_outcomes()
    ensures { (f : Function) → HasOutcome f }
{}

/// Each function refines itself, and what refines a refinement refines the first.
pub fn refinement_is_a_preorder()
    ensures reflexive { (f : Function) → Refines f f }
    ensures transitive { (f g h : Function) → Refines f g → Refines g h → Refines f h }
{}

/// Outcomes worked out. `twice` calls `g`, then `g` with its answer, and returns the second answer: for the answers 3 and
/// 5 it returns 5 after these calls, without answers it stops after the first one, and before it enters a block it is
/// going. `last` calls `h` and comes to `unreachable`: the call stays before the undefined behaviour.
pub fn calls_are_seen_in_order()
    ensures returned { HasJust twice (Val.Number 3 ∷ Val.Number 5 ∷ []) 1
        (outcome (event (codes "g") [] ∷ event (codes "g") (passed_byte 3 ∷ []) ∷ []) (Returned (Val.Number 5))) }
    ensures stopped { HasJust twice [] 1 (outcome (event (codes "g") [] ∷ []) Stopped) }
    ensures going { HasJust twice [] 0 (only Going) }
    ensures undefined { HasJust last (Val.Poison ∷ []) 1 (outcome (event (codes "h") [] ∷ []) Ub) }
{}
