//! Lines of a text by their numbers.

ghost use Rattle.std.specs.Prelude.{◌≡◌, ◌<◌, ◌≤◌, ◌+◌, length, IfSome, IsTrue};

use crate::source_span::SourceSpan;

/// A line of a text, without its line feed.
#[derive(Clone, Copy)]
pub struct TextLine<'a> {
    /// The text that contains it.
    pub text: &'a [u8],
    /// Its offset in the text.
    pub start: usize,
    /// Its bytes.
    pub bytes: &'a [u8],
}

impl<'a> TextLine<'a> {
    /// The line with this number, from 1. If the text has fewer lines, an empty one at the text's end.
    pub fn of(text: &'a [u8], number: u64) -> TextLine<'a>
        ensures text { result.text.now ≡ text.now }
    {
        let start = line_start(text, number);
        let end = line_end(text, start);
        TextLine {
            text,
            start,
            bytes: &text[start..end],
        }
    }

    /// Whether no line feed follows it.
    pub fn is_unterminated(&self) -> bool
        ensures { IsTrue result → length self.now.text.now ≤ self.now.start + length self.now.bytes.now }
    {
        self.start.saturating_add(self.bytes.len()) >= self.text.len()
    }

    /// The line without its leading blanks.
    pub fn trimmed(&self) -> SourceSpan<'a>
        ensures { result.text.now ≡ self.now.text.now }
    {
        let blanks = self.bytes.len() - self.bytes.trim_ascii_start().len();
        let start = self.start.saturating_add(blanks);
        SourceSpan::of(
            self.text,
            start,
            self.start.saturating_add(self.bytes.len()),
        )
    }

    /// The word with this index in the line, from 0; the whole line if it has fewer.
    pub fn word(&self, place: usize) -> SourceSpan<'a>
        ensures { result.text.now ≡ self.now.text.now }
    {
        match word_span(self.bytes, place) {
            Some((from, to)) => SourceSpan::of(
                self.text,
                self.start.saturating_add(from),
                self.start.saturating_add(to),
            ),
            None => self.trimmed(),
        }
    }
}

// The offset of the line with this number, or of the text's end if it has fewer lines.
fn line_start(text: &[u8], number: u64) -> usize
    ensures { result ≤ length text.now }
{
    let mut line: u64 = 1;
    for at in 0..text.len() {
        if line >= number {
            return at;
        }
        if text[at] == b'\n' {
            line = line.saturating_add(1);
        }
    }
    text.len()
}

// The end of the line that contains an offset.
fn line_end(text: &[u8], start: usize) -> usize
    requires within { start ≤ length text.now }
    ensures within { result ≤ length text.now }
    ensures behind { start ≤ result }
{
    for at in start..text.len() {
        if text[at] == b'\n' {
            return at;
        }
    }
    text.len()
}

// The span of the word with this index in the line; `None` if the line has fewer.
fn word_span(line: &[u8], place: usize) -> Option<(usize, usize)> {
    let mut from = 0;
    for _ in 0..place {
        match blank_from(line, from) {
            Some(at) => from = at + 1,
            None => return None,
        }
    }
    Some((from, blank_from(line, from).unwrap_or(line.len())))
}

// The first blank of a line at an offset or after it.
fn blank_from(line: &[u8], from: usize) -> Option<usize>
    ensures { IfSome result (λ at. at < length line.now) }
{
    for at in from..line.len() {
        if line[at] == b' ' {
            return Some(at);
        }
    }
    None
}
