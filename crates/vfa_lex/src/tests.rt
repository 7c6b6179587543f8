//! Tests of the table of kinds and of whole texts.

use super::*;
use vfa_ir::{Token, TokenKind};

fn reads(text: &[u8], kind: TokenKind, start: usize, end: usize, line: u32) -> bool {
    if text.len() > 1000 {
        return false;
    }
    token_at(text, 0, 1)
        == Some(Token {
            kind,
            start,
            end,
            line,
        })
}

#[test]
fn the_table_of_kinds(rt: HostRuntime) {
    assert!(rt; reads(b"%a.1 = ", TokenKind::Local, 0, 4, 1));
    assert!(rt; reads(b" ; c \" c\n@\"f\" ", TokenKind::Global, 9, 13, 2));
    assert!(rt; reads(b"add: ", TokenKind::Label, 0, 4, 1));
    assert!(rt; reads(b"\"a\": ", TokenKind::Label, 0, 4, 1));
    assert!(rt; reads(b"12: ", TokenKind::Label, 0, 3, 1));
    assert!(rt; reads(b"\"5\": ", TokenKind::Label, 0, 4, 1));
    assert!(rt; reads(b"@\"5\"(", TokenKind::Global, 0, 4, 1));
    assert!(rt; reads(b"!5 !5", TokenKind::Meta, 0, 2, 1));
    assert!(rt; reads(b"!-5\n", TokenKind::Meta, 0, 3, 1));
    assert!(rt; reads(b"00\n", TokenKind::Number, 0, 2, 1));
    assert!(rt; reads(b"i08 ", TokenKind::Word, 0, 3, 1));
    assert!(rt; reads(b"musttail call", TokenKind::Word, 0, 8, 1));
    assert!(rt; reads(b"!dbg ", TokenKind::Meta, 0, 4, 1));
    assert!(rt; reads(b"! dbg", TokenKind::Mark, 0, 1, 1));
    assert!(rt; reads(b"#0abc", TokenKind::Group, 0, 2, 1));
    assert!(rt; reads(b"#abc", TokenKind::Other, 0, 1, 1));
    assert!(rt; reads(b"-5,", TokenKind::Number, 0, 2, 1));
    assert!(rt; reads(b"-,", TokenKind::Word, 0, 1, 1));
    assert!(rt; reads(b"5a-", TokenKind::Word, 0, 3, 1));
    assert!(rt; reads(b"\"a;b\nc\" ", TokenKind::String, 0, 7, 1));
    assert!(rt; reads(b"\"abc", TokenKind::Other, 0, 4, 1));
    assert!(rt; reads(b"%\"abc", TokenKind::Other, 0, 1, 1));
    assert!(rt; reads(b"|", TokenKind::Mark, 0, 1, 1));
    assert!(rt; reads(b"\x00", TokenKind::Other, 0, 1, 1));
}

#[test]
fn the_tokens_of_a_text(rt: HostRuntime) {
    let text = b"a: ; \"c\n%\"x;\ny\" = -5";
    let all = tokens(rt.alloc(), text).expect(&rt, "memory");
    let kinds = [
        TokenKind::Label,
        TokenKind::Local,
        TokenKind::Mark,
        TokenKind::Number,
    ];
    let places = [(0, 2, 1), (8, 15, 2), (16, 17, 3), (18, 20, 3)];
    assert_eq!(rt; all.len(), 4);
    for (i, token) in all.iter().enumerate() {
        assert!(rt; i < 4);
        assert!(rt; token.kind == kinds[i]);
        assert!(rt; (token.start, token.end, token.line) == places[i]);
    }
    assert!(rt; token_at(text, 20, 3).is_none());
    assert!(rt; token_at(b"  ; no more", 0, 1).is_none());
}
