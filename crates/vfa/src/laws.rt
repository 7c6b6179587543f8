//! Laws of inputs, which hold of every command.

ghost use Rattle.std.specs.Prelude.{◌≡◌, ◌⊎◌, ◌≤◌, ℕ, List, length};
ghost use Rattle.vfa_opt.specs.Module.{Piece, IsModule};
ghost use Rattle.vfa_opt.specs.Refusals.{IsAnswerable};
ghost use Rattle.vfa.specs.declared.command.Command.{Command};
ghost use Rattle.vfa.specs.declared.refusals.Refusal.{Refusal};
ghost use Rattle.vfa.specs.Refusals.{most, IsRefusal};

/// Each input is a module that answers the command's question, or a reason to refuse it holds.
pub fn module_or_refusal()
    ensures { (command : Command) (input : List ℕ) →
        ((pieces : List Piece) × IsModule command.strict input pieces × IsAnswerable command.job pieces) ⊎ ((refusal : Refusal) × IsRefusal command input refusal) }
{
    vfa_opt::module_or_refusal();
}

/// At most one reason to refuse an input holds, and none of a module within the limit that answers the command's question.
pub fn one_refusal()
    ensures one { (command : Command) (input : List ℕ) (a b : Refusal) → IsRefusal command input a → IsRefusal command input b → a ≡ b }
    ensures none { (command : Command) (input : List ℕ) (pieces : List Piece) (refusal : Refusal) → length input ≤ most →
        IsModule command.strict input pieces → IsAnswerable command.job pieces → IsRefusal command input refusal → ⊥ }
{
    vfa_opt::one_refusal();
}
