//! The words of lines: the text between separators, names, and decimal numbers.

ghost use Rattle.std.specs.Prelude.{◌≡◌, ◌+◌, ◌≤◌, ◌==◌, ◌∷◌, [], length, option_map, MatchOption, IfSome, IsTrue, ◌↔◌};
ghost use Rattle.std.specs.List.{slice_split, list_all};
ghost use Rattle.std.specs.Char.{is_ascii_digit};
ghost use Rattle.std.specs.Str.{bytes_eq};
ghost use Rattle.mrpc_table.specs.Names.{is_name_start, is_name_byte, is_name_form, is_full_form, is_short, is_short_full, IsName, IsFullName};
ghost use Rattle.mrpc_table.specs.Lines.{is_decimal, line_count, number_of, in_64_bits};

use crate::digits::decimal_of;
use crate::limits::{MAX_FULL_NAME, MAX_NAME};

/// The text before the first separator, and the text after it; `None` if the separator doesn't occur.
pub fn split_once(text: &[u8], separator: u8) -> Option<(&[u8], &[u8])>
    ensures parts { MatchOption result (slice_split (λ c. c == separator) text.now ≡ text.now ∷ [])
        (λ p. slice_split (λ c. c == separator) text.now
        ≡ p.0.now ∷ slice_split (λ c. c == separator) p.1.now) }
    ensures long { IfSome result (λ p. length p.0.now + 1 + length p.1.now ≡ length text.now) }
{
    for (i, byte) in text.iter().enumerate() {
        if *byte == separator {
            return Some((&text[..i], &text[i + 1..]));
        }
    }
    None
}

/// How many line feeds the text has.
pub fn line_count(text: &[u8]) -> usize
    ensures count { result ≡ line_count text.now }
    ensures small { result ≤ length text.now }
{
    text.iter().filter(|byte| **byte == b'\n').count()
}

/// Whether the word equals `expected`.
pub fn is_word<'a>(word: &'a [u8], expected: &'a [u8]) -> bool
    ensures { result ≡ bytes_eq word.now expected.now }
{
    word == expected
}

/// Whether the byte can be the first of a name: an ASCII letter or `_`.
pub fn is_name_start(byte: u8) -> bool
    ensures { result ≡ is_name_start byte }
{
    (byte >= 65 && byte <= 90) || (byte >= 97 && byte <= 122) || byte == 95
}

/// Whether the byte can occur in a name: an ASCII letter, a digit or `_`.
pub fn is_name_byte(byte: u8) -> bool
    ensures { result ≡ is_name_byte byte }
{
    is_name_start(byte) || (byte >= 48 && byte <= 57)
}

fn are_name_bytes(bytes: &[u8]) -> bool
    ensures { result ≡ list_all is_name_byte bytes.now }
{
    bytes.iter().all(|byte| is_name_byte(*byte))
}

/// Whether the word is a name of any length: a letter or `_`, and then letters, digits and `_`.
pub fn is_name_form(word: &[u8]) -> bool
    ensures { result ≡ is_name_form word.now }
{
    match word {
        [] => false,
        [first, others @ ..] => is_name_start(*first) && are_name_bytes(others),
    }
}

/// Whether the word is a name: a letter or `_`, then letters, digits and `_`, 64 bytes at most.
pub fn is_name(word: &[u8]) -> bool
    ensures { IsTrue result ↔ IsName word.now }
{
    is_name_form(word) && is_short(word)
}

/// Whether the word consists of names of any length, joined by dots.
pub fn is_full_form(word: &[u8]) -> bool
    ensures { result ≡ is_full_form word.now }
{
    let mut rest = word;
    while let Some((part, others)) = split_once(rest, b'.') {
        if !is_name_form(part) {
            return false;
        }
        rest = others;
    }
    is_name_form(rest)
}

/// Whether the word is a full name: names joined by dots, each of 64 bytes at most, and 255 bytes at most in total.
pub fn is_full_name(word: &[u8]) -> bool
    ensures { IsTrue result ↔ IsFullName word.now }
{
    is_full_form(word) && is_short_full(word)
}

/// Whether the word has at most 64 bytes, the limit of a name.
pub fn is_short(word: &[u8]) -> bool
    ensures { result ≡ is_short word.now }
{
    word.len() <= MAX_NAME
}

fn has_short_parts(word: &[u8]) -> bool
    ensures { result ≡ list_all is_short (slice_split (λ c. c == 46) word.now) }
{
    let mut rest = word;
    while let Some((part, others)) = split_once(rest, b'.') {
        if !is_short(part) {
            return false;
        }
        rest = others;
    }
    is_short(rest)
}

/// Whether the word has at most 255 bytes, and at most 64 in each part between dots: the limits of a full name.
pub fn is_short_full(word: &[u8]) -> bool
    ensures { result ≡ is_short_full word.now }
{
    has_short_parts(word) && word.len() <= MAX_FULL_NAME
}

fn are_digits(bytes: &[u8]) -> bool
    ensures { result ≡ list_all is_ascii_digit bytes.now }
{
    bytes.iter().all(|byte| *byte >= 48 && *byte <= 57)
}

fn is_decimal(word: &[u8]) -> bool
    ensures { result ≡ is_decimal word.now }
{
    match word {
        [] => false,
        [first, others @ ..] => are_digits(word) && (*first != 48 || others.is_empty()),
    }
}

/// The number that a word spells.
#[derive(Clone, Copy, PartialEq, Eq)]
pub enum Decimal {
    /// A number of at most 64 bits.
    Small(u64),
    /// A larger number.
    Large,
}

/// The number that a word spells: decimal digits without sign or leading zero, of any length. `None` if the word is
/// anything else.
pub fn number_of(word: &[u8]) -> Option<Decimal>
    ensures { result ≡ option_map in_64_bits (number_of word.now) }
{
    if !is_decimal(word) {
        return None;
    }
    Some(decimal_of(word, 10))
}
