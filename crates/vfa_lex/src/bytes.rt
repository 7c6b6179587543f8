//! Classes of bytes, and how far they reach.

ghost use Rattle.std.specs.Prelude.{◌≡◌, ◌<◌, ◌≤◌, ◌^◌, ◌==◌, ◌∷◌, length, slice_index, not};
ghost use Rattle.std.specs.Char.{is_ascii_digit};
ghost use Rattle.std.specs.List.{prefix_len};
ghost use Rattle.std.specs.Str.{byte};
ghost use Rattle.vfa_ir.specs.Tokens as spec;
ghost use Rattle.vfa_ir.specs.Words as words;

use vfa_ir::{all_digits, is_digits, is_run_byte};

#[tactic(auto, unfolding(vfa_ir::specs::Tokens::is_mark))]
pub(crate) fn is_mark(b: u8) -> bool
    ensures { result ≡ spec.is_mark b }
{
    is_bracket(b)
        || b == b','
        || b == b'='
        || b == b'*'
        || b == b'<'
        || b == b'>'
        || b == b':'
        || b == b'!'
        || b == b'|'
}

#[tactic(auto, unfolding(vfa_ir::specs::Tokens::is_bracket))]
fn is_bracket(b: u8) -> bool
    ensures { result ≡ spec.is_bracket b }
{
    b == b'(' || b == b')' || b == b'[' || b == b']' || b == b'{' || b == b'}'
}

/// The length of the longest run that the bytes begin with.
pub(crate) fn run_length(bytes: &[u8]) -> usize
    ensures { result ≡ spec.run_len bytes.now }
{
    bytes.iter().take_while(|b| is_run_byte(**b)).count()
}

/// How many digits the bytes begin with.
pub(crate) fn digits(bytes: &[u8]) -> usize
    ensures { result ≡ prefix_len is_ascii_digit bytes.now }
{
    bytes.iter().take_while(|b| b.is_ascii_digit()).count()
}

/// How many bytes stand before the end of the line.
pub(crate) fn line_length(bytes: &[u8]) -> usize
    ensures { result ≡ spec.line_len bytes.now }
{
    bytes.iter().take_while(|b| **b != b'\n').count()
}

/// How many bytes a string takes after its opening quote; None where no quote closes it.
pub(crate) fn quoted_length(bytes: &[u8]) -> Option<usize>
    ensures { result ≡ spec.quoted_len bytes.now }
{
    let inner = before_quote(bytes);
    if inner < bytes.len() {
        Some(inner + 1)
    } else {
        None
    }
}

fn before_quote(bytes: &[u8]) -> usize
    ensures { result ≡ prefix_len (λ b. not (b == byte "\"")) bytes.now }
{
    bytes.iter().take_while(|b| **b != b'"').count()
}

/// The length of the run or string that the bytes begin with; 0 where they begin with neither.
pub(crate) fn name_length(bytes: &[u8]) -> usize
    ensures { result ≡ spec.name_len bytes.now }
{
    match bytes {
        [b'"', inside @ ..] => match quoted_length(inside) {
            Some(n) => n + 1,
            None => 0,
        },
        _ => run_length(bytes),
    }
}

/// Whether the first byte and those that follow it are digits, or `-` and digits.
pub(crate) fn is_number(first: u8, more: &[u8]) -> bool
    ensures { result ≡ words.is_number (first ∷ more.now) }
{
    match first {
        b'-' => is_digits(more),
        _ => first.is_ascii_digit() && all_digits(more),
    }
}

/// How many lines end at the byte: one at a line feed, and else none.
pub(crate) fn line_feed(b: u8) -> u32
    ensures count { result ≡ spec.line_feed b }
    ensures bound { result ≤ 1 }
{
    if b == b'\n' { 1 } else { 0 }
}

/// How many lines end in the bytes.
pub(crate) fn line_feeds(bytes: &[u8]) -> u32
    requires { length bytes.now < 2 ^ 32 }
    ensures count { result ≡ spec.line_feeds bytes.now }
    ensures bound { result ≤ length bytes.now }
{
    let mut count: u32 = 0;
    for b in bytes {
        count += line_feed(*b);
    }
    count
}
