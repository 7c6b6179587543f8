//! Laws of the split, which hold of every text.

ghost use Rattle.std.specs.Prelude.{◌≡◌, ◌↔◌, ℕ, false, List, length};
ghost use Rattle.std.specs.Str.{byte};
ghost use Rattle.vfa_ir.specs.Tokens.{IsPlaced};
ghost use Rattle.vfa_ir.specs.declared.tokens.Token.{Token};
ghost use Rattle.vfa_ir.specs.declared.tokens.TokenKind.TheVariants.{Other};
ghost use Rattle.vfa_module.specs.Defines.{Closes, HasName, IsBadLine, IsDefine, IsSplit, IsUnclosed};
ghost use Rattle.vfa_module.specs.Split.{closing_of_define, first_byte, split_of};
ghost use Rattle.vfa_module.specs.declared.items.Item.{Item};
ghost use Rattle.vfa_module.specs.declared.items.SplitFault.TheVariants.{BadLine, Unclosed};

/// The brace that closes a define is the first at which the braces are level.
pub fn a_define_is_closed_where_its_braces_are_level()
    ensures { (text : List ℕ) (ts : List Token) (t : Token) →
        (closing_of_define text false 0 ts ≡ Some t) ↔ Closes text ts t }
{}

/// Each define has a global name before its closing brace.
pub fn a_define_has_a_name()
    ensures { (text : List ℕ) (start end line : ℕ) → IsDefine text start end line → HasName text start end }
{}

/// A string without a closing quote takes all bytes to the end of the text, so nothing after it closes a define.
pub fn an_unclosed_string_is_the_rest()
    ensures { (text : List ℕ) (from line : ℕ) (t : Token) → IsPlaced text from line t →
        first_byte text t ≡ byte "\"" → t.kind ≡ Other → t.end ≡ length text }
{}

/// A text splits into the one list of items that covers it.
pub fn a_text_is_one_split()
    ensures { (text : List ℕ) (items : List Item) → IsSplit text items → split_of text ≡ Ok items }
{}

/// A text whose next define has no closing brace does not split, and that define is the one that is named.
pub fn an_unclosed_define_fails()
    ensures { (text : List ℕ) (start : ℕ) → IsUnclosed text start → split_of text ≡ Err (Unclosed start) }
{}

/// A text whose next define is followed by something on its last line does not split, and that line is the one that is
/// named.
pub fn a_followed_define_fails()
    ensures { (text : List ℕ) (line : ℕ) → IsBadLine text line → split_of text ≡ Err (BadLine line) }
{}
