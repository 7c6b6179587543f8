//! A text while it is written, token by token.

ghost use Rattle.std.specs.Prelude.{◌≡◌, ◌++◌, ℕ, List, [], ◌∷◌, decimal, map, true, false, IfOk};
ghost use Rattle.vfa_ir.specs.Lexemes.{local as local_lexeme, global as global_lexeme, label as label_lexeme, mark as mark_lexeme, number as number_lexeme, word as word_lexeme};
ghost use Rattle.vfa_ir.specs.Spelling.{type as type_lexeme};
ghost use Rattle.vfa_ir.specs.Words.{callee as callee_name};
ghost use Rattle.vfa_print.specs.Trees.{signed_text};
ghost use Rattle.vfa_print.specs.Layout.{blank_between, line_feed, text_line};
ghost use Rattle.vfa_print.specs.Writing.{Draft, with_token, with_tokens, with_bytes};

use crate::names::push_name;
use crate::numbers::push_signed;
use std::alloc::{AllocError, Global};
use std::marker::Model;
use vfa_ir::{Name, push_decimal};

/// A text while it is written. Contracts see its bytes so far, and whether a blank is due after them.
#[derive(Drop)]
pub struct Writer {
    alloc: Global,
    text: Vec<u8>,
    blank_due: bool,
}

impl Model for Writer {
    ghost Value = { Draft };

    ghost view = { λ w. record { text = w.text.items; blank_due = w.blank_due } };
}

#[tactic(auto, unfolding(crate::specs::Writing::with_token))]
impl Writer {
    /// No bytes yet.
    pub fn new(alloc: Global) -> Writer
        ensures { result ≡ record { text = []; blank_due = false } }
    {
        Writer {
            alloc,
            text: Vec::new(alloc),
            blank_due: false,
        }
    }

    /// The text.
    pub fn into_text(self) -> Vec<u8>
        ensures { result.items ≡ self.text }
    {
        self.text
    }

    /// Puts bytes that are no token last.
    pub fn bytes(&mut self, bytes: &[u8]) -> Result<(), AllocError>
        ensures { IfOk result (λ _. self.new ≡ with_bytes self.old bytes.now) }
    {
        self.blank_due = false;
        self.text.extend_from_slice(bytes)
    }

    /// The end of a line.
    pub fn line_feed(&mut self) -> Result<(), AllocError>
        ensures { IfOk result (λ _. self.new ≡ with_bytes self.old line_feed) }
    {
        self.bytes(b"\n")
    }

    /// The blank before a token that takes one, if one is due.
    fn blank(&mut self) -> Result<(), AllocError>
        ensures { IfOk result (λ _. self.new ≡ record { text = self.old.text ++ blank_between self.old.blank_due true; blank_due = true }) }
    {
        if self.blank_due {
            self.text.push(b' ')?;
        }
        self.blank_due = true;
        Ok(())
    }

    /// A word.
    pub fn word(&mut self, text: &[u8]) -> Result<(), AllocError>
        ensures { IfOk result (λ _. self.new ≡ with_token self.old (word_lexeme text.now)) }
    {
        self.blank()?;
        self.text.extend_from_slice(text)
    }

    /// Words, in order.
    #[tactic(auto, using(crate::proofs::Drafts::with_tokens_append))]
    pub fn words(&mut self, words: &[Name]) -> Result<(), AllocError>
        ensures { IfOk result (λ _. self.new ≡ with_tokens self.old (map word_lexeme words.now)) }
    {
        'words: for word in words {
            self.word(word.bytes())?;
        }
        Ok(())
    }

    /// `iN`
    pub fn integer_type(&mut self, width: u32) -> Result<(), AllocError>
        ensures { IfOk result (λ _. self.new ≡ with_token self.old (type_lexeme width)) }
    {
        self.blank()?;
        self.text.push(b'i')?;
        push_decimal(self.alloc, &mut self.text, u128::from(width))
    }

    /// A number of the width, given by its bits.
    pub fn signed(&mut self, width: u32, bits: u128) -> Result<(), AllocError>
        ensures { IfOk result (λ _. self.new ≡ with_token self.old (number_lexeme (signed_text width bits))) }
    {
        self.blank()?;
        push_signed(self.alloc, &mut self.text, width, bits)
    }

    /// A number in decimals.
    pub fn number(&mut self, n: u32) -> Result<(), AllocError>
        ensures { IfOk result (λ _. self.new ≡ with_token self.old (number_lexeme (decimal n))) }
    {
        self.blank()?;
        push_decimal(self.alloc, &mut self.text, u128::from(n))
    }

    /// `%name`
    pub fn local(&mut self, name: &[u8]) -> Result<(), AllocError>
        ensures { IfOk result (λ _. self.new ≡ with_token self.old (local_lexeme name.now)) }
    {
        self.blank()?;
        self.text.push(b'%')?;
        push_name(&mut self.text, name)
    }

    /// `@name`
    pub fn global(&mut self, name: &[u8]) -> Result<(), AllocError>
        ensures { IfOk result (λ _. self.new ≡ with_token self.old (global_lexeme name.now)) }
    {
        self.blank()?;
        self.text.push(b'@')?;
        push_name(&mut self.text, name)
    }

    /// The line of a label.
    pub fn label_line(&mut self, name: &[u8]) -> Result<(), AllocError>
        ensures { IfOk result (λ _. self.new.text ≡ self.old.text ++ text_line [] (label_lexeme name.now ∷ [])) }
    {
        push_name(&mut self.text, name)?;
        self.text.extend_from_slice(b":\n")
    }

    /// A mark.
    pub fn mark(&mut self, c: u8) -> Result<(), AllocError>
        ensures { IfOk result (λ _. self.new ≡ with_token self.old (mark_lexeme c)) }
    {
        if self.blank_due && c != b'(' && c != b')' && c != b',' {
            self.text.push(b' ')?;
        }
        self.blank_due = c != b'(';
        self.text.push(c)?;
        Ok(())
    }

    /// The name of an intrinsic at a type, as `@llvm.umin.i8`.
    pub fn callee(&mut self, intrinsic: &[u8], width: u32) -> Result<(), AllocError>
        ensures { IfOk result (λ _. self.new ≡ with_token self.old (global_lexeme (callee_name intrinsic.now width))) }
    {
        let mut name: Vec<u8> = Vec::new(self.alloc);
        name.extend_from_slice(b"llvm.")?;
        name.extend_from_slice(intrinsic)?;
        name.extend_from_slice(b".i")?;
        push_decimal(self.alloc, &mut name, u128::from(width))?;
        self.global(&name)
    }
}
