//! Laws of the names that a function defines and uses, which hold of every list of names and every sentence.

ghost use Rattle.std.specs.Prelude.{◌≡◌, ◌↔◌, ℕ, List, [], None, Some, All, bytes_eq};
ghost use Rattle.std.specs.List.{IsDistinct};
ghost use Rattle.vfa_ir.specs.DefinedNames.{first_repeated, unknown_of, uses};
ghost use Rattle.vfa_ir.specs.Sentence.{Sentence};
ghost use Rattle.vfa_read.specs.Definedness.{IsFirstRepeated, IsDefined, IsFirstUndefined};

/// No name is found a second time exactly where no two names are the same.
pub fn defined_once()
    ensures { (names : List (List ℕ)) → (first_repeated [] names ≡ None) ↔ IsDistinct bytes_eq names }
{}

/// A name is found a second time exactly where it is the first that is the same as one before it.
pub fn first_defined_again()
    ensures { (names : List (List ℕ)) → (name : List ℕ) → (first_repeated [] names ≡ Some name) ↔ IsFirstRepeated names name }
{}

/// No name is unknown exactly where each use is of a value or a block that the function defines.
pub fn used_defined()
    ensures { (s : Sentence) → (unknown_of s ≡ None) ↔ All (IsDefined s) (uses s) }
{}

/// A name is unknown exactly where it is that of the first use without a definition.
pub fn first_undefined()
    ensures { (s : Sentence) → (name : List ℕ) → (unknown_of s ≡ Some name) ↔ IsFirstUndefined s name }
{}
