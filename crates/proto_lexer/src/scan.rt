//! The token at the start of a byte string, other than the end of the text.

ghost use Rattle.std.specs.Prelude.{◌≡◌, ◌≤◌, ◌<◌, ◌==◌, ◌+◌, ◌^◌, ◌∷◌, ℕ, List, length, drop, take, Some, None};
ghost use Rattle.std.specs.Prelude.{MatchOption, IfSome};
ghost use Rattle.std.specs.List.{prefix_len};
ghost use Rattle.proto_lexer.specs.Gaps.{first_satisfies};
ghost use Rattle.std.specs.Char.{is_digit};
ghost use Rattle.mrpc_table.specs.Names.{is_name_byte};
ghost use Rattle.proto_lexer.specs.Literals.{is_decimal_digit, is_simple_escape, has_digits, is_wide, is_punctuator_byte};
ghost use Rattle.proto_lexer.specs.Literals.{continues_number, is_quote, starts_number_or_comment};
ghost use Rattle.proto_lexer.specs.Scanning.{is_escape, quoted_len, hexadecimal_after_prefix, octal_after_zero, fraction_len};
ghost use Rattle.proto_lexer.specs.Scanning.{exponent_len, decimal_at, is_hexadecimal_prefix, unchecked_number_at};
ghost use Rattle.proto_lexer.specs.Scanning.{is_number_start, punctuator_at, number_token_at, leading_token};

use crate::token::TokenKind;
use mrpc_table::{decimal_of, digit_value, is_name_byte, is_name_start};

// A scanned token: its kind and its length in bytes.
#[derive(Clone, Copy)]
pub(crate) struct ScannedToken {
    pub kind: TokenKind,
    pub len: usize,
}

fn name_len(bytes: &[u8]) -> usize
    ensures value { result ≡ prefix_len is_name_byte bytes.now }
    ensures bound { result ≤ length bytes.now }
{
    let mut i = 0;
    while i < bytes.len() && is_name_byte(bytes[i]) {
        i += 1;
    }
    i
}

// True if a byte is a digit of a base.
pub(crate) fn is_digit(byte: u8, base: u8) -> bool
    ensures { result ≡ is_digit byte base }
{
    digit_value(byte) < base
}

// The number of leading digits of a base.
pub(crate) fn digits_len(bytes: &[u8], base: u8) -> usize
    ensures value { result ≡ prefix_len (λ c. is_digit c base) bytes.now }
    ensures bound { result ≤ length bytes.now }
{
    let mut i = 0;
    while i < bytes.len() && is_digit(bytes[i], base) {
        i += 1;
    }
    i
}

// The integer with these hexadecimal digits, which follow `0x`.
fn hexadecimal_after_prefix(digits: &[u8]) -> Option<ScannedToken>
    requires { length digits.now < 2 ^ 63 }
    ensures value { result ≡ hexadecimal_after_prefix digits.now }
    ensures bound { IfSome result (λ w. w.len ≤ length digits.now + 2) }
{
    let len = digits_len(digits, 16);
    if len == 0 {
        return None;
    }
    Some(ScannedToken {
        kind: TokenKind::Integer(decimal_of(&digits[..len], 16)),
        len: len + 2,
    })
}

// The integer with these octal digits, which follow `0`.
fn octal_after_zero(digits: &[u8]) -> Option<ScannedToken>
    requires { length digits.now < 2 ^ 63 }
    ensures value { result ≡ octal_after_zero digits.now }
    ensures bound { IfSome result (λ w. w.len ≤ length digits.now + 1) }
{
    let len = digits_len(digits, 8);
    if len == 0 {
        return None;
    }
    Some(ScannedToken {
        kind: TokenKind::Integer(decimal_of(&digits[..len], 8)),
        len: len + 1,
    })
}

fn fraction_len(bytes: &[u8]) -> usize
    requires { length bytes.now < 2 ^ 63 }
    ensures value { result ≡ fraction_len bytes.now }
    ensures bound { result ≤ length bytes.now }
{
    match bytes {
        [b'.', digits @ ..] => digits_len(digits, 10) + 1,
        _ => 0,
    }
}

fn exponent_len(bytes: &[u8]) -> usize
    requires { length bytes.now < 2 ^ 63 }
    ensures value { result ≡ exponent_len bytes.now }
    ensures bound { result ≤ length bytes.now }
{
    match bytes {
        [b'e' | b'E', b'+' | b'-', digits @ ..] => match digits_len(digits, 10) {
            0 => 0,
            len => len + 2,
        },
        [b'e' | b'E', digits @ ..] => match digits_len(digits, 10) {
            0 => 0,
            len => len + 1,
        },
        _ => 0,
    }
}

// True if hexadecimal digits must follow these two bytes.
fn is_hexadecimal_prefix(first: u8, second: u8) -> bool
    ensures { result ≡ is_hexadecimal_prefix first second }
{
    first == b'0' && (second == b'x' || second == b'X')
}

// The leading number, without a check of the byte after it.
fn decimal_at(bytes: &[u8]) -> ScannedToken
    requires { length bytes.now < 2 ^ 63 }
    ensures value { result ≡ decimal_at bytes.now }
    ensures bound { result.len ≤ length bytes.now }
{
    let whole = digits_len(bytes, 10);
    let part = fraction_len(&bytes[whole..]);
    let power = exponent_len(&bytes[whole..][part..]);
    if part == 0 && power == 0 {
        ScannedToken {
            kind: TokenKind::Integer(decimal_of(&bytes[..whole], 10)),
            len: whole,
        }
    } else {
        ScannedToken {
            kind: TokenKind::Number,
            len: whole + part + power,
        }
    }
}

fn unchecked_number_at(bytes: &[u8]) -> Option<ScannedToken>
    requires { length bytes.now < 2 ^ 63 }
    ensures value { result ≡ unchecked_number_at bytes.now }
    ensures bound { IfSome result (λ w. w.len ≤ length bytes.now) }
{
    match bytes {
        [first, second, behind @ ..] => {
            if is_hexadecimal_prefix(*first, *second) {
                hexadecimal_after_prefix(behind)
            } else if *first == b'0' && is_digit(*second, 10) {
                octal_after_zero(&bytes[1..])
            } else {
                Some(decimal_at(bytes))
            }
        }
        _ => Some(decimal_at(bytes)),
    }
}

fn continues_number(byte: u8) -> bool
    ensures { result ≡ continues_number byte }
{
    is_name_byte(byte) || byte == b'.'
}

#[tactic(auto, unfolding(crate::specs::Scanning::number_token_at))]
// The leading number; `None` if a letter, a digit, `_` or a point follows it directly.
fn number_token_at(bytes: &[u8]) -> Option<ScannedToken>
    requires { length bytes.now < 2 ^ 63 }
    ensures value { result ≡ number_token_at bytes.now }
    ensures bound { IfSome result (λ w. w.len ≤ length bytes.now) }
{
    let word = unchecked_number_at(bytes)?;
    match bytes.get(word.len) {
        Some(byte) if continues_number(*byte) => None,
        _ => Some(word),
    }
}

fn is_simple_escape(byte: u8) -> bool
    ensures { result ≡ is_simple_escape byte }
{
    matches!(
        byte,
        b'a' | b'b' | b'f' | b'n' | b'r' | b't' | b'v' | b'\\' | b'?' | b'\'' | b'"'
    )
}

fn has_digits(bytes: &[u8], count: usize) -> bool
    ensures { result ≡ has_digits count bytes.now }
{
    count <= digits_len(bytes, 16)
}

fn is_wide(bytes: &[u8]) -> bool
    ensures { result ≡ is_wide bytes.now }
{
    match bytes {
        [b'0', b'0', b'0' | b'1', digits @ ..] => has_digits(digits, 5),
        _ => false,
    }
}

// True if a backslash followed by these bytes starts an escape.
fn is_escape(byte: u8, behind: &[u8]) -> bool
    ensures { result ≡ is_escape byte behind.now }
{
    is_simple_escape(byte)
        || is_digit(byte, 8)
        || (byte == b'x' && has_digits(behind, 1))
        || (byte == b'u' && has_digits(behind, 4))
        || (byte == b'U' && is_wide(behind))
}

// The number of bytes up to and including the closing quote.
#[tactic(auto, using(crate::proofs::Closing::closing))]
fn quoted_len(quote: u8, bytes: &[u8]) -> Option<usize>
    requires { length bytes.now < 2 ^ 63 }
    ensures value { result ≡ quoted_len quote bytes.now }
    ensures bound { IfSome result (λ n. n ≤ length bytes.now) }
{
    let mut i = 0;
    while i < bytes.len() {
        let byte = bytes[i];
        if byte == quote {
            return Some(i + 1);
        }
        if byte == b'\\' {
            if i + 1 >= bytes.len() || !is_escape(bytes[i + 1], &bytes[i + 2..]) {
                return None;
            }
            i += 2;
        } else if byte == b'\n' || byte == 0 {
            return None;
        } else {
            i += 1;
        }
    }
    None
}

fn is_punctuator_byte(byte: u8) -> bool
    ensures { result ≡ is_punctuator_byte byte }
{
    matches!(
        byte,
        b'=' | b';'
            | b'{'
            | b'}'
            | b'('
            | b')'
            | b'<'
            | b'>'
            | b'['
            | b']'
            | b','
            | b'.'
            | b'-'
            | b'+'
            | b':'
            | b'/'
    )
}

fn starts_with_digit(bytes: &[u8]) -> bool
    ensures { result ≡ first_satisfies is_decimal_digit bytes.now }
{
    match bytes {
        [] => false,
        [first, ..] => is_digit(*first, 10),
    }
}

fn starts_number_or_comment(byte: u8, behind: &[u8]) -> bool
    ensures { result ≡ starts_number_or_comment byte behind.now }
{
    match behind {
        [] => false,
        [next, ..] => {
            (byte == b'.' && is_digit(*next, 10))
                || (byte == b'/' && (*next == b'/' || *next == b'*'))
        }
    }
}

// True if a number starts with this byte: it is a digit, or a point before one.
fn is_number_start(first: u8, behind: &[u8]) -> bool
    ensures { result ≡ is_number_start first behind.now }
{
    is_digit(first, 10) || (first == b'.' && starts_with_digit(behind))
}

fn punctuator_at(first: u8, behind: &[u8]) -> Option<ScannedToken>
    ensures { result ≡ punctuator_at first behind.now }
{
    if is_punctuator_byte(first) && !starts_number_or_comment(first, behind) {
        Some(ScannedToken {
            kind: TokenKind::Mark(first),
            len: 1,
        })
    } else {
        None
    }
}

fn is_quote(byte: u8) -> bool
    ensures { result ≡ is_quote byte }
{
    byte == b'"' || byte == b'\''
}

// The token at the start of the bytes, if one starts there. Takes time proportional to its length.
#[tactic(auto, unfolding(crate::specs::Scanning::leading_token))]
pub(crate) fn leading_token(bytes: &[u8]) -> Option<ScannedToken>
    requires { length bytes.now < 2 ^ 63 }
    ensures value { result ≡ leading_token bytes.now }
    ensures bound { IfSome result (λ w. w.len ≤ length bytes.now) }
{
    let [first, behind @ ..] = bytes else {
        return None;
    };
    let first = *first;
    if is_name_start(first) {
        Some(ScannedToken {
            kind: TokenKind::Identifier,
            len: name_len(bytes),
        })
    } else if is_number_start(first, behind) {
        number_token_at(bytes)
    } else if is_quote(first) {
        let len = quoted_len(first, behind)?;
        Some(ScannedToken {
            kind: TokenKind::Text,
            len: len + 1,
        })
    } else {
        punctuator_at(first, behind)
    }
}
