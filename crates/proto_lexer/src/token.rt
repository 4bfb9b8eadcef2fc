//! Tokens and their kinds.

use mrpc_table::Decimal;

/// The kind of a token.
#[derive(Clone, Copy, PartialEq, Eq)]
pub enum TokenKind {
    /// A letter or `_`, followed by letters, digits and `_`.
    Identifier,
    /// An integer: decimal, octal after `0`, or hexadecimal after `0x`.
    Integer(Decimal),
    /// A number with a decimal point or an exponent.
    Number,
    /// A quoted string.
    Text,
    /// A punctuator: one of `= ; { } ( ) < > [ ] , . - + : /`.
    Mark(u8),
    /// The end of the text.
    End,
    /// An offset where no token starts.
    Bad,
}

/// A token and its position in the text.
#[derive(Clone, Copy)]
pub struct Token {
    pub kind: TokenKind,
    /// The offset of its first byte, from 0. For `End`, the length of the text.
    pub start: usize,
    /// The offset just after its last byte. For `Bad`, just after the first byte at fault.
    pub end: usize,
    /// The line in which it starts: 1, plus the number of line feeds before it.
    pub line: u64,
}
