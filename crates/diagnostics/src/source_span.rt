//! Parts of texts.

ghost use Rattle.std.specs.Prelude.{◌≡◌, ◌<◌, ◌≤◌, ◌^◌, ◌++◌, List, ℕ, length, min, OnOk};
ghost use Rattle.diagnostics.specs.Snippets.{IsSnippet};

use crate::append_snippet;
use mrpc_table::{Bytes, Memory};

/// A part of a text.
#[derive(Clone, Copy)]
pub struct SourceSpan<'a> {
    pub text: &'a [u8],
    /// The offset of its first byte.
    pub start: usize,
    /// The offset after its last byte.
    pub end: usize,
    ghost within: { start ≤ length text.now },
    ghost countable: { length text.now < 2 ^ 63 },
}

impl<'a> SourceSpan<'a> {
    /// The part of a text from one offset up to another. Its start is at most the end of the text.
    pub fn of(text: &'a [u8], start: usize, end: usize) -> SourceSpan<'a>
        ensures text { result.text.now ≡ text.now }
        ensures start { result.start ≡ min start (length text.now) }
        ensures end { result.end ≡ end }
    {
        SourceSpan {
            text,
            start: start.min(text.len()),
            end,
        }
    }

    /// Appends the sentence with its line and column, and below it the line with carets.
    pub fn put(&self, sentence: &[u8], width: usize, out: &mut Bytes) -> Result<(), Memory>
        ensures { OnOk result ((shown : List ℕ) × IsSnippet self.now.text.now self.now.start self.now.end width
            sentence.now shown × (out.new ≡ out.old ++ shown)) }
    {
        append_snippet(self.text, self.start, self.end, sentence, width, out)
    }
}
