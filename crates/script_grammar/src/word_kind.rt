//! Kinds of words, and values of words.

use crate::keyword::Keyword;
use mrpc_table::Decimal;

/// The kind of a word in a line form: which words may be in its place.
#[derive(Clone, Copy)]
pub enum WordKind {
    /// Exactly this word; a form is recognized by such words.
    Key(Keyword),
    /// Exactly this word.
    Fixed(Keyword),
    /// One of these two words.
    Either(Keyword, Keyword),
    /// A decimal number in the range `least..=most`.
    Number { least: u64, most: u64 },
    /// A decimal number of any size: a place of a heap or a position of a chain. Earlier lines determine its range.
    Unbounded,
    /// A 64-bit value to store: decimal digits, `-` and decimal digits down to -2^63, or `0x` and 1 to 16 lower-case
    /// hexadecimal digits.
    Value,
    /// A name: a letter or `_`, then letters, digits and `_`, at most 64 bytes.
    Name,
}

/// The value of a word.
#[derive(Clone, Copy)]
pub enum WordValue<'a> {
    /// A fixed word.
    Word(Keyword),
    /// A number in its range, or the 64 bits of a value to store.
    Number(u64),
    /// A number of any size.
    Unbounded(Decimal),
    /// A name.
    Name(&'a [u8]),
}

/// The value of unused slots in an array of words.
impl<'a> Default for WordValue<'a> {
    fn default() -> WordValue<'a> {
        WordValue::Number(0)
    }
}
