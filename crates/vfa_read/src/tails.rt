//! Readers of what stands between the parameters and the body of a function.

ghost use Rattle.std.specs.Prelude.{◌≡◌, ◌-◌, take, ◌≤◌, ◌<◌, ◌+◌, false, true, drop, ◌∷◌, MatchOption};
ghost use Rattle.vfa_ir.specs.TokenLexemes.{bytes_between};
ghost use Rattle.vfa_ir.specs.Grammar.{may_follow_parameters};
ghost use Rattle.vfa_read.specs.Headers.{tail_from};
ghost use Rattle.vfa_read.specs.Readers.{next_passes};
ghost use Rattle.vfa_read.specs.Seen.{all_of, seen_lexeme};
ghost use Rattle.vfa_read.specs.Trees.{GivesEnd, open_after};

use crate::source::{Seen, Source, between};
use crate::stops::Stop;
use vfa_ir::Token;

/// Whether a token may stand between the parameters and the body.
#[tactic(auto, using(crate::proofs::Starts::local_follows, crate::proofs::Starts::global_follows, crate::proofs::Starts::label_follows))]
fn may_follow(seen: Seen<'_>) -> bool
    ensures { result ≡ may_follow_parameters (seen_lexeme seen.entry) }
{
    match seen {
        Seen::Metadata(_) => false,
        Seen::Other => false,
        Seen::Mark(mark) => mark != b'!' && mark != b'{' && mark != b'}',
        _ => true,
    }
}

/// How many parentheses are open after a token, where so many are open before it; none where it closes one too many.
#[tactic(auto, using(crate::proofs::Starts::local_opens, crate::proofs::Starts::global_opens, crate::proofs::Starts::label_opens))]
fn open_after(seen: Seen<'_>, depth: usize) -> Option<usize>
    requires { depth < 18446744073709551615 }
    ensures { result ≡ open_after depth (seen_lexeme seen.entry) }
{
    let Seen::Mark(mark) = seen else {
        return Some(depth);
    };
    if mark == b'(' {
        return Some(depth + 1);
    }
    if mark == b')' {
        return depth.checked_sub(1);
    }
    Some(depth)
}

impl<'a> Source<'a> {
    /// The token of a place, if it may stand between the parameters and the body.
    fn tail_token(&self, at: usize) -> Option<Seen<'a>>
        ensures { MatchOption result (next_passes may_follow_parameters (drop at (all_of self.now)) ≡ false)
            (λ s. (may_follow_parameters (seen_lexeme s) ≡ true) × (drop at (all_of self.now) ≡ seen_lexeme s ∷ drop (at + 1) (all_of self.now))) }
    {
        if let Some(seen) = self.seen(at) {
            if may_follow(seen) {
                return Some(seen);
            }
        }
        None
    }

    /// The place after what stands between the parameters and the body.
    pub fn tail(&self, from: usize) -> Result<usize, Stop>
        ensures { GivesEnd from (all_of self.now) result (tail_from 0 (drop from (all_of self.now))) }
    {
        let mut at = from;
        let mut depth = 0;
        'tail: while let Some(seen) = self.tail_token(at) {
            let Some(after) = open_after(seen, depth) else {
                return Err(Stop::At(at));
            };
            depth = after;
            at += 1;
        }
        if depth == 0 {
            return Ok(at);
        }
        Err(Stop::At(at))
    }
}

/// The tokens from one place to another.
fn tokens_between(tokens: &[Token], start: usize, end: usize) -> &[Token]
    ensures { result.now ≡ take (end - start) (drop start tokens.now) }
{
    let rest = &tokens[start.min(tokens.len())..];
    let count = end.saturating_sub(start).min(rest.len());
    &rest[..count]
}

/// The bytes from the first token to the last.
fn token_bytes<'a>(bytes: &'a [u8], tokens: &[Token]) -> &'a [u8]
    ensures { result.now ≡ bytes_between bytes.now tokens.now }
{
    let Some(first) = tokens.first() else {
        return &bytes[..0];
    };
    let Some(last) = tokens.last() else {
        return &bytes[..0];
    };
    between(bytes, first.start, last.end)
}

/// The bytes of the tokens from one place to another.
pub fn tail_bytes<'a>(bytes: &'a [u8], tokens: &[Token], start: usize, end: usize) -> &'a [u8]
    ensures { result.now ≡ bytes_between bytes.now (take (end - start) (drop start tokens.now)) }
{
    token_bytes(bytes, tokens_between(tokens, start, end))
}
