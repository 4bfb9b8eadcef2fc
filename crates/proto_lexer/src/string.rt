//! The values of string literals.

ghost use Rattle.std.specs.Prelude.{◌≡◌, ◌≤◌, ◌<◌, ◌+◌, ◌-◌, ◌^◌, ◌++◌, true, length, drop, IfOk, OnOk};
ghost use Rattle.std.specs.List.{prefix_len};
ghost use Rattle.std.specs.Char.{is_digit, digit_char};
ghost use Rattle.proto_lexer.specs.Strings.{leading_digit_count, leading_number, utf8, low_six, hexadecimal_char, is_high_surrogate, is_low_surrogate};
ghost use Rattle.proto_lexer.specs.Strings.{is_low_surrogate_escape, is_surrogate_pair, code_point, unicode_escape, simple_value};
ghost use Rattle.proto_lexer.specs.Strings.{escape_of, HasStringValue, body_of, string_value};

use crate::scan::{digits_len, is_digit};
use mrpc_table::{Bytes, Memory, number_capped};
use std::alloc::Global;

// The number of leading digits of a base, at most `most`.
fn leading_digit_count(bytes: &[u8], base: u8, most: usize) -> usize
    ensures value { result ≡ leading_digit_count base most bytes.now }
    ensures bound { result ≤ length bytes.now }
{
    digits_len(bytes, base).min(most)
}

// The number that the leading digits spell, at most `most` digits.
#[tactic(auto, using(crate::proofs::Spelled::spelled_small))]
fn leading_number(bytes: &[u8], base: u8, most: usize) -> u32
    requires base { base ≤ 16 }
    requires most { most ≤ 8 }
    requires some { 0 < base }
    ensures { result ≡ leading_number base most bytes.now }
{
    let number = number_capped(&bytes[..leading_digit_count(bytes, base, most)], base);
    number as u32
}

fn low_six(number: u32) -> u8
    ensures { result ≡ low_six number }
{
    (128 + number % 64) as u8
}

fn hexadecimal_char(number: u32) -> u8
    ensures { result ≡ hexadecimal_char number }
{
    let digit = (number % 16) as u8;
    if digit < 10 { 48 + digit } else { 87 + digit }
}

// Appends the escape of a number above the largest code point.
fn push_escaped(out: &mut Bytes, number: u32) -> Result<(), Memory>
    requires { 1114112 ≤ number }
    ensures { OnOk result (out.new ≡ out.old ++ utf8 number) }
{
    out.append(&[
        b'\\',
        b'U',
        hexadecimal_char(number / 268435456),
        hexadecimal_char(number / 16777216),
        hexadecimal_char(number / 1048576),
        hexadecimal_char(number / 65536),
        hexadecimal_char(number / 4096),
        hexadecimal_char(number / 256),
        hexadecimal_char(number / 16),
        hexadecimal_char(number),
    ])
}

// Appends the UTF-8 bytes of a code point.
fn push_utf8(out: &mut Bytes, number: u32) -> Result<(), Memory>
    ensures { OnOk result (out.new ≡ out.old ++ utf8 number) }
{
    if number < 128 {
        out.append(&[number as u8])
    } else if number < 2048 {
        out.append(&[(192 + number / 64) as u8, low_six(number)])
    } else if number < 65536 {
        out.append(&[
            (224 + number / 4096) as u8,
            low_six(number / 64),
            low_six(number),
        ])
    } else if number < 1114112 {
        out.append(&[
            (240 + number / 262144) as u8,
            low_six(number / 4096),
            low_six(number / 64),
            low_six(number),
        ])
    } else {
        push_escaped(out, number)
    }
}

fn is_low_surrogate_escape(bytes: &[u8]) -> bool
    ensures value { result ≡ is_low_surrogate_escape bytes.now }
    ensures long { result ≡ true → 6 ≤ length bytes.now }
{
    match bytes {
        [b'\\', b'u', digits @ ..] => leading_digit_count(digits, 16, 4) == 4
            && is_low_surrogate(leading_number(digits, 16, 4)),
        _ => false,
    }
}

fn is_low_surrogate(number: u32) -> bool
    ensures { result ≡ is_low_surrogate number }
{
    number >= 56320 && number < 57344
}

fn is_high_surrogate(number: u32) -> bool
    ensures { result ≡ is_high_surrogate number }
{
    number >= 55296 && number < 56320
}

// True if a number and the escape after it form a surrogate pair.
fn is_surrogate_pair(number: u32, behind: &[u8]) -> bool
    ensures value { result ≡ is_surrogate_pair number behind.now }
    ensures long { result ≡ true → 6 ≤ length behind.now }
    ensures high { result ≡ true → (55296 ≤ number) × (number < 56320) }
{
    is_high_surrogate(number) && is_low_surrogate_escape(behind)
}

// The low half of a surrogate pair.
fn low_surrogate(behind: &[u8]) -> u32
    requires { is_low_surrogate_escape behind.now ≡ true }
    ensures value { result ≡ leading_number 16 4 (drop 2 behind.now) }
    ensures low { (56320 ≤ result) × (result < 57344) }
{
    match behind {
        [_, _, digits @ ..] => leading_number(digits, 16, 4),
        _ => 0,
    }
}

// Appends the UTF-8 bytes of a code point. If `number` is a high surrogate and an escape of a low one follows, both
// form one code point. Returns how many bytes of that escape were used.
fn push_code_point(out: &mut Bytes, number: u32, behind: &[u8]) -> Result<usize, Memory>
    ensures value { OnOk result (out.new ≡ out.old ++ (code_point number behind.now).value) }
    ensures rest { IfOk result (λ n. drop n behind.now ≡ (code_point number behind.now).behind) }
    ensures bound { IfOk result (λ n. n ≤ length behind.now) }
{
    if is_surrogate_pair(number, behind) {
        let low = low_surrogate(behind);
        push_utf8(out, 65536 + ((number - 55296) * 1024 + (low - 56320)))?;
        Ok(6)
    } else {
        push_utf8(out, number)?;
        Ok(0)
    }
}

// Appends the value of a `\u` or `\U` escape, given its number of digits. Returns how many bytes it takes.
fn push_unicode(out: &mut Bytes, digits: &[u8], most: usize) -> Result<usize, Memory>
    requires small { length digits.now < 2 ^ 62 }
    requires most { most ≤ 8 }
    ensures value { OnOk result (out.new ≡ out.old ++ (unicode_escape most digits.now).value) }
    ensures rest { IfOk result (λ n. drop n digits.now ≡ (unicode_escape most digits.now).behind) }
    ensures bound { IfOk result (λ n. n ≤ length digits.now) }
{
    let len = leading_digit_count(digits, 16, most);
    let more = push_code_point(out, leading_number(digits, 16, most), &digits[len..])?;
    Ok(len + more)
}

fn simple_value(byte: u8) -> u8
    ensures { result ≡ simple_value byte }
{
    match byte {
        b'a' => 7,
        b'b' => 8,
        b'f' => 12,
        b'n' => 10,
        b'r' => 13,
        b't' => 9,
        b'v' => 11,
        _ => byte,
    }
}

// Appends the value of the escape after a backslash. Returns how many bytes it takes.
#[tactic(auto, using(crate::proofs::Escapes::escapes))]
fn push_escape(out: &mut Bytes, behind: &[u8]) -> Result<usize, Memory>
    requires { length behind.now < 2 ^ 62 }
    ensures value { OnOk result (out.new ≡ out.old ++ (escape_of behind.now).value) }
    ensures rest { IfOk result (λ n. drop n behind.now ≡ (escape_of behind.now).behind) }
    ensures bound { IfOk result (λ n. n ≤ length behind.now) }
{
    let [first, digits @ ..] = behind else {
        return Ok(0);
    };
    if is_digit(*first, 8) {
        out.push((leading_number(behind, 8, 3) % 256) as u8)?;
        Ok(leading_digit_count(behind, 8, 3))
    } else if *first == b'x' {
        out.push((leading_number(digits, 16, 2) % 256) as u8)?;
        Ok(leading_digit_count(digits, 16, 2) + 1)
    } else if *first == b'u' {
        Ok(1 + push_unicode(out, digits, 4)?)
    } else if *first == b'U' {
        Ok(1 + push_unicode(out, digits, 8)?)
    } else {
        out.push(simple_value(*first))?;
        Ok(1)
    }
}

/// Returns the value of a string literal, given its bytes with the quotes. Takes time proportional to its length.
pub fn string_value(alloc: Global, literal: &[u8]) -> Result<Bytes, Memory>
    requires two { 2 ≤ length literal.now }
    requires small { length literal.now < 2 ^ 62 }
    ensures stands_for { IfOk result (λ value. HasStringValue (body_of literal.now) value) }
    ensures value { IfOk result (λ value. value ≡ string_value literal.now) }
{
    let body = &literal[1..literal.len() - 1];
    let mut out = Bytes::with_room(alloc, body.len())?;
    let mut i = 0;
    while i < body.len() {
        if body[i] == b'\\' {
            let len = push_escape(&mut out, &body[i + 1..])?;
            i += 1 + len;
        } else {
            out.push(body[i])?;
            i += 1;
        }
    }
    Ok(out)
}
