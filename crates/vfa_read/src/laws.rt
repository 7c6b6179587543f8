//! Laws of reading, which hold of every text.

ghost use Rattle.std.specs.Prelude.{◌≡◌, ◌⊎◌, ℕ, List};
ghost use Rattle.vfa_ir.specs.Lexemes.{Lexeme};
ghost use Rattle.vfa_ir.specs.Reads.{Reads, IsSentence, StopsAt, IsUnfinished};
ghost use Rattle.vfa_ir.specs.Sentence.{Sentence};
ghost use Rattle.vfa_ir.specs.declared.functions.Function.{Function};
ghost use Rattle.vfa_ir.specs.declared.functions.Lines.{Lines};

/// At most one tree is spelled by a list of lexemes.
pub fn one_tree()
    ensures { (found : List Lexeme) (s t : Sentence) → IsSentence found s → IsSentence found t → s ≡ t }
{}

/// At most one function and one list of lines belong to a text.
pub fn one_reading()
    ensures { (text : List ℕ) (f g : Function) (lines others : Lines) →
        Reads text f lines → Reads text g others → (f ≡ g) × (lines ≡ others) }
{}

/// Each list of lexemes is a sentence, or stops being one at some lexeme, or begins one and is none.
pub fn sentence_or_shape()
    ensures { (found : List Lexeme) → ((s : Sentence) × IsSentence found s)
        ⊎ (((place : ℕ) × StopsAt found place) ⊎ IsUnfinished found) }
{}
