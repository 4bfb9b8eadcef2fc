//! A token of each kind, and the value of a string.

use mrpc_table::Decimal;
use proto_lexer::{Token, TokenKind, next_token, string_value};

fn first(text: &[u8]) -> Token {
    next_token(text, 0, 1)
}

fn kind_of(text: &[u8]) -> TokenKind {
    first(text).kind
}

#[test]
fn tokens_have_their_sorts(rt: HostRuntime) {
    assert!(rt; kind_of(b"_a9.b") == TokenKind::Identifier);
    assert!(rt; matches!(kind_of(b"0X1f;"), TokenKind::Integer(Decimal::Small(31))));
    assert!(rt; kind_of(b"1.e3-") == TokenKind::Number);
    assert!(rt; kind_of(b"'\\x41\\''") == TokenKind::Text);
    assert!(rt; kind_of(b"/ /") == TokenKind::Mark(b'/'));
    assert!(rt; kind_of(b" \t\r\n// c") == TokenKind::End);
    assert!(rt; kind_of(b"1.5f") == TokenKind::Bad);
}

#[test]
fn a_token_has_its_place(rt: HostRuntime) {
    let token = first(b"/* a\n*/ // b\n  name ");
    assert!(rt; token.start == 15);
    assert!(rt; token.end == 19);
    assert!(rt; token.line == 3);
}

#[test]
fn a_string_has_the_value_of_its_bytes(rt: HostRuntime) {
    let value = string_value(rt.alloc(), b"'\\x4a\\101\\n\\u00e9\\\"'").expect(&rt, "memory");
    assert!(rt; value.as_slice() == b"JA\n\xc3\xa9\"".as_slice());
}

#[test]
fn escapes_have_the_values_of_their_bytes(rt: HostRuntime) {
    let literal = b"'\\7778\\x4g\\ud83d\\ude00\\ud83d\\U00110000\\?\\v'";
    let value = string_value(rt.alloc(), literal).expect(&rt, "memory");
    assert!(rt;
        value.as_slice() == b"\xff8\x04g\xf0\x9f\x98\x80\xed\xa0\xbd\\U00110000?\x0b".as_slice()
    );
}
