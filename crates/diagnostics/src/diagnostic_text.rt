//! Sentences that a terminal can print, whatever they quote.

ghost use Rattle.std.specs.Prelude.{◌≡◌, [], true, false};
ghost use Rattle.diagnostics.specs.Diagnostics.{IsPlain, HasAppended, is_plain};

use itoa::Buffer;
use mrpc_table::{Bytes, Memory};
use std::alloc::Global;
use std::marker::Model;

/// The most bytes of a word that a sentence quotes.
pub const NAMED: usize = 100;

const DIGITS: [u8; 16] = *b"0123456789abcdef";

/// Bytes that a terminal prints. Clauses see a list of bytes.
#[derive(Drop)]
pub struct DiagnosticText {
    bytes: Bytes,
}

impl Model for DiagnosticText {
    ghost use Rattle.std.specs.Prelude.{ℕ, List};
    ghost use Rattle.diagnostics.specs.Diagnostics.{IsPlain};

    ghost Value = { List ℕ };

    ghost view = { λ s. s.bytes };

    ghost invariant = { λ s. IsPlain s.bytes };
}

/// Words around a quoted part of a text, or alone.
#[derive(Clone, Copy)]
pub struct QuotedPhrase {
    pub before: &'static str,
    pub is_quoted: bool,
    pub behind: &'static str,
}

impl QuotedPhrase {
    /// Words before the quoted part, and words after it.
    pub fn quoted(before: &'static str, behind: &'static str) -> QuotedPhrase
        ensures before { result.before.now ≡ before.now }
        ensures quoted { result.is_quoted ≡ true }
        ensures behind { result.behind.now ≡ behind.now }
    {
        QuotedPhrase {
            before,
            is_quoted: true,
            behind,
        }
    }

    /// Words alone.
    pub fn alone(words: &'static str) -> QuotedPhrase
        ensures before { result.before.now ≡ words.now }
        ensures quoted { result.is_quoted ≡ false }
    {
        QuotedPhrase {
            before: words,
            is_quoted: false,
            behind: "",
        }
    }
}

impl DiagnosticText {
    /// An empty sentence.
    pub fn new(alloc: Global) -> DiagnosticText
        ensures { result ≡ [] }
    {
        DiagnosticText {
            bytes: Bytes::new(alloc),
        }
    }

    /// The bytes.
    pub fn as_slice(&self) -> &[u8]
        ensures value { result.now ≡ self.now }
        ensures plain { IsPlain result.now }
    {
        self.bytes.as_slice()
    }

    // Appends a byte, if a terminal prints it.
    #[tactic(auto, using(crate::proofs::Plain::plain_with))]
    fn push(&mut self, byte: u8) -> Result<(), Memory>
        ensures { HasAppended self.old self.new }
    {
        if is_plain(byte) {
            self.bytes.push(byte)
        } else {
            Ok(())
        }
    }

    /// Appends words. A byte that a terminal doesn't print becomes `\x` and two digits.
    pub fn append(&mut self, words: &[u8]) -> Result<(), Memory>
        ensures { HasAppended self.old self.new }
    {
        for byte in words {
            self.append_byte(*byte)?;
        }
        Ok(())
    }

    fn append_byte(&mut self, byte: u8) -> Result<(), Memory>
        ensures { HasAppended self.old self.new }
    {
        if is_plain(byte) && byte != b'\n' {
            return self.push(byte);
        }
        self.push(b'\\')?;
        self.push(b'x')?;
        self.append_digits(byte)
    }

    /// Appends two hexadecimal digits.
    pub fn append_digits(&mut self, byte: u8) -> Result<(), Memory>
        ensures { HasAppended self.old self.new }
    {
        self.push(DIGITS[(byte / 16) as usize])?;
        self.push(DIGITS[(byte % 16) as usize])
    }

    /// Appends a number.
    pub fn append_number(&mut self, number: u64) -> Result<(), Memory>
        ensures { HasAppended self.old self.new }
    {
        let mut digits = Buffer::new();
        self.append(digits.format(number).as_bytes())
    }

    /// Appends words and a number.
    pub fn append_numbered(&mut self, before: &[u8], number: u64) -> Result<(), Memory>
        ensures { HasAppended self.old self.new }
    {
        self.append(before)?;
        self.append_number(number)
    }

    /// Appends words, and a word of the input in quotation marks.
    pub fn append_quoted(&mut self, before: &[u8], word: &[u8]) -> Result<(), Memory>
        ensures { HasAppended self.old self.new }
    {
        self.append(before)?;
        self.append_quotation(word)
    }

    /// Appends a word of the input in quotation marks, truncated if it is long.
    pub fn append_quotation(&mut self, word: &[u8]) -> Result<(), Memory>
        ensures { HasAppended self.old self.new }
    {
        self.append(b"\"")?;
        self.append(&word[..word.len().min(NAMED)])?;
        self.append(if word.len() > NAMED { b"..\"" } else { b"\"" })
    }

    /// Appends the bytes of a text from one offset to another in quotation marks, or words for the end of the
    /// text.
    pub fn append_quoted_span(
        &mut self,
        text: &[u8],
        start: usize,
        end: usize,
    ) -> Result<(), Memory>
        ensures { HasAppended self.old self.new }
    {
        if start >= text.len() {
            return self.append(b"the end of the text");
        }
        self.append_quotation(&text[start..end.max(start).min(text.len())])
    }

    /// Appends words around a part of a text.
    pub fn append_phrase(
        &mut self,
        words: QuotedPhrase,
        text: &[u8],
        start: usize,
        end: usize,
    ) -> Result<(), Memory>
        ensures { HasAppended self.old self.new }
    {
        self.append(words.before.as_bytes())?;
        if words.is_quoted {
            self.append_quoted_span(text, start, end)?;
        }
        self.append(words.behind.as_bytes())
    }

    /// Ends a line.
    pub fn end_line(&mut self) -> Result<(), Memory>
        ensures { HasAppended self.old self.new }
    {
        self.push(b'\n')
    }
}

// Whether a terminal prints a byte.
fn is_plain(byte: u8) -> bool
    ensures { result ≡ is_plain byte }
{
    (byte >= 32 && byte < 127) || byte == b'\n'
}
