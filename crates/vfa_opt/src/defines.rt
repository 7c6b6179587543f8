//! The name of a define.

ghost use Rattle.std.specs.Prelude.{IsTrue, ◌≡◌, ◌↔◌, IfOk};
ghost use Rattle.vfa_ir.specs.declared.tokens.TokenKind.TheVariants.{Global as GlobalKind};
ghost use Rattle.vfa_ir.specs.Tokens.{tokens_of};
ghost use Rattle.vfa_opt.specs.Module.{define_name as name_of_define, first_global as first_of};

use std::alloc::{AllocError, Global};
use vfa_ir::{Name, Token, TokenKind};
use vfa_read::token_name;

fn is_global(token: &Token) -> bool
    ensures { IsTrue result ↔ (token.now.kind ≡ GlobalKind) }
{
    matches!(token.kind, TokenKind::Global)
}

/// The first global name.
fn first_global(all: &[Token]) -> Option<Token>
    ensures first { result ≡ first_of all.now }
{
    'tokens: for token in all {
        if is_global(token) {
            return Some(*token);
        }
    }
    None
}

/// The name of a define that has these tokens: its first global name.
pub fn define_name(alloc: Global, define: &[u8], all: &[Token]) -> Result<Name, AllocError>
    requires { all.now ≡ tokens_of define.now }
    ensures { IfOk result (λ name. name ≡ name_of_define define.now) }
{
    match first_global(all) {
        Some(token) => token_name(alloc, define, &token),
        None => Ok(Name(Vec::new(alloc))),
    }
}
